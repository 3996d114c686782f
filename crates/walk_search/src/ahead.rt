//! What lies ahead of a spot at least: what it costs to come there from the start.

ghost use Rattle.std.specs.Prelude.{◌≡◌, ◌^◌, ◌<◌, Some, true, if◌then◌else◌, slice_index_or};
ghost use Rattle.octi_grid.specs.Costs.{turn_between};
ghost use Rattle.grid_board.specs.Boards.{is_inside};
ghost use Rattle.walk_search.specs.Asking.{question};
ghost use Rattle.walk_search.specs.Moves.{ahead_at, least_of_turns, least_turns, seat_ahead, step_ahead, turns_due};
ghost use Rattle.walk_search.specs.Routes.{allows};

use crate::asked::{Asked, START};
use crate::directions::{allows, direction};
use crate::reaching::{lies_along, reach};
use crate::seats::are_one;
use octi_grid::{Dir, GridPoint, step_cost, turn_cost};

impl<'a> Asked<'a> {
    /// What it costs at least to come to a point by an arrival.
    #[tactic(auto, unfolding(crate::specs::Moves::ahead_at))]
    pub(crate) fn ahead_at(&self, p: GridPoint, arrival: u8) -> u64
        requires inside { is_inside (question self.now).board p ≡ true }
        requires arrival { arrival < 9 }
        ensures value { result ≡ ahead_at (question self.now) p arrival }
        ensures within { result < 2 ^ 40 }
    {
        if arrival == START {
            return self.seat_ahead(p);
        }
        self.step_ahead(p, arrival)
    }

    /// What it costs at least to choose a point as the seat that a walk starts at; one less at its home.
    #[tactic(auto, unfolding(crate::specs::Moves::seat_ahead))]
    fn seat_ahead(&self, p: GridPoint) -> u64
        ensures value { result ≡ seat_ahead (question self.now) p }
        ensures within { result < 2 ^ 40 }
    {
        let far = reach(self.from.at, p);
        if are_one(self.from.at, p) {
            return far;
        }
        far + 1
    }

    /// What it costs at least to come to a point by the direction of a number.
    #[tactic(auto, unfolding(crate::specs::Moves::step_ahead))]
    fn step_ahead(&self, p: GridPoint, arrival: u8) -> u64
        requires inside { is_inside (question self.now).board p ≡ true }
        requires arrival { arrival < 8 }
        ensures value { result ≡ step_ahead (question self.now) p arrival }
        ensures within { result < 2 ^ 40 }
    {
        let dir = direction(arrival);
        let before = p.step(dir.reverse());
        let step = u64::from(step_cost(dir));
        reach(self.from.at, before) + (step + self.turns_due(p, arrival))
    }

    /// The turns that a walk makes at least that comes to a point by the direction of a number.
    #[tactic(auto, unfolding(crate::specs::Moves::turns_due))]
    fn turns_due(&self, p: GridPoint, arrival: u8) -> u64
        requires arrival { arrival < 8 }
        ensures value { result ≡ turns_due (question self.now) p arrival }
        ensures within { result < 256 }
    {
        let least = u64::from(self.least_turn_to(arrival));
        if lies_along(self.from.at, p, direction(arrival)) {
            return least;
        }
        least.max(1)
    }

    /// The least turn from an allowed port to the direction of a number.
    fn least_turn_to(&self, arrival: u8) -> u8
        requires { arrival < 8 }
        ensures { result ≡ slice_index_or (least_turns (question self.now).from.ports) arrival 0 }
    {
        self.turns[usize::from(arrival)]
    }
}

/// The least turn from an allowed port to each direction, 4 where no port is allowed.
#[tactic(auto, unfolding(crate::specs::Moves::least_turns))]
pub(crate) fn least_turns(ports: u8) -> [u8; 8]
    ensures { result ≡ least_turns ports }
{
    [
        least_turn(ports, Dir::N),
        least_turn(ports, Dir::NE),
        least_turn(ports, Dir::E),
        least_turn(ports, Dir::SE),
        least_turn(ports, Dir::S),
        least_turn(ports, Dir::SW),
        least_turn(ports, Dir::W),
        least_turn(ports, Dir::NW),
    ]
}

/// The least turn from an allowed port to a direction, 4 where no port is allowed.
#[tactic(auto, unfolding(crate::specs::Moves::least_of_turns))]
fn least_turn(ports: u8, to: Dir) -> u8
    ensures { result ≡ least_of_turns ports to 8 }
{
    let mut least = 4u8;
    for number in 0..START {
        least = least.min(turn_of_port(ports, direction(number), to));
    }
    least
}

/// The turn from a port to a direction, 4 where the port is not allowed.
fn turn_of_port(ports: u8, port: Dir, to: Dir) -> u8
    ensures { result ≡ (if allows ports (Some port) then turn_between port to else 4) }
{
    if !allows(ports, port) {
        return 4;
    }
    turn_cost(port, to) as u8
}
