//! What is asked of a search, and the steps of walks from spot to spot.

ghost use Rattle.std.specs.Prelude.{◌≡◌, ℕ, ◌+◌, ◌*◌, ◌^◌, ◌<◌, ◌≤◌, ◌&&◌, not, IfOk, IfSome, Some, true, length};
ghost use Rattle.octi_grid.specs.Ways.{CanStep, doubled, reverse_of, step_from};
ghost use Rattle.walk_search.specs.Routes.{allows};
ghost use Rattle.walk_search.specs.Seats.{seat_cost};
ghost use Rattle.grid_board.specs.Boards.{is_inside, parts_of};
ghost use Rattle.walk_search.specs.Spots.{IsSpot, number_of_place, number_of_spot, spot_of, spots_of};
ghost use Rattle.std.specs.List.{list_any};
ghost use Rattle.octi_grid.specs.Legal.{is_among};
ghost use Rattle.walk_search.specs.Enclosed.{leads_on, leaves_start};
ghost use Rattle.walk_search.specs.Moves.{IsAsked, IsQuestion, chosen_seat, direction, end_at, end_cost, ends_of, group_of, is_end, is_open, is_other_end, is_own_start, is_passable, is_shared_start, is_start, may_end, may_leave, start_at, starts_of, stepped, turn_from};

use crate::ahead::least_turns;
use crate::directions::{allows, direction};
use crate::ends::End;
use crate::seats::{are_one, doubled_within, have_common, is_among, is_clear, seat_cost, seats_of};
use crate::spots::{Spot, number_of_place, number_of_spot, spot_of, spots_of};
use grid_board::Board;
use map_base::NoMemory;
use octi_grid::{Dir, GridPoint, step_cost, turn_cost};
use std::alloc::Global;

/// The number of the arrival of a walk at its start.
pub(crate) const START: u8 = 8;

/// What is asked: the least free walk on a board between two ends, with the seats of both.
#[derive(Drop)]
pub(crate) struct Asked<'a> {
    board: &'a Board,
    pub(crate) from: End,
    to: End,
    starts: Vec<GridPoint>,
    ends: Vec<GridPoint>,
    pub(crate) turns: [u8; 8],
    ghost asked: { IsAsked (record { board = parts_of board.now; from = from; to = to }) starts.items ends.items turns },
}

impl<'a> Asked<'a> {
    ghost use Rattle.walk_search.specs.Asking.{question};

    /// The question of the least walk between two ends.
    pub(crate) fn new(
        alloc: Global,
        board: &'a Board,
        from: End,
        to: End,
    ) -> Result<Asked<'a>, NoMemory>
        requires { IsQuestion (record { board = parts_of board.now; from = from; to = to }) }
        ensures { IfOk result (λ asked. question asked ≡ record { board = parts_of board.now; from = from; to = to }) }
    {
        let starts = seats_of(alloc, board, from)?;
        let ends = seats_of(alloc, board, to)?;
        Ok(Asked {
            board,
            from,
            to,
            starts,
            ends,
            turns: least_turns(from.ports),
        })
    }

    /// The number of what comes before every spot, which is how many spots there are.
    pub(crate) fn before(&self) -> u32
        ensures value { result ≡ spots_of (question self.now).board.bounds }
        ensures asked { IsQuestion (question self.now) }
        ensures within { result ≤ 1440720090 }
    {
        spots_of(self.board.bounds())
    }

    /// The number of a spot.
    pub(crate) fn number_of(&self, spot: Spot) -> u32
        requires { IsSpot (question self.now).board.bounds spot }
        ensures value { result ≡ number_of_spot (question self.now).board.bounds spot }
        ensures within { result < spots_of (question self.now).board.bounds }
    {
        number_of_spot(self.board.bounds(), spot)
    }

    /// The number of the place of a group of walks at a point.
    pub(crate) fn place_of(&self, p: GridPoint, group: u8) -> u32
        requires inside { is_inside (question self.now).board p ≡ true }
        requires group { group < 10 }
        ensures value { result ≡ number_of_place (question self.now).board.bounds p group }
        ensures within { result * 9 + 9 ≤ spots_of (question self.now).board.bounds }
        ensures few { result < 2 ^ 28 }
    {
        number_of_place(self.board.bounds(), p, group)
    }

    /// The spot of a number, and none before a seat is chosen.
    pub(crate) fn spot_of(&self, n: u32) -> Option<Spot>
        requires { n < spots_of (question self.now).board.bounds + 1 }
        ensures value { result ≡ spot_of (question self.now).board.bounds n }
        ensures on_board { IfSome result (IsSpot (question self.now).board.bounds) }
    {
        spot_of(self.board.bounds(), n)
    }

    /// How many seats the start has.
    pub(crate) fn start_count(&self) -> u8
        ensures value { result ≡ length (starts_of (question self.now)) }
        ensures within { result ≤ 9 }
    {
        self.starts.len() as u8
    }

    /// How many seats the end has.
    pub(crate) fn end_count(&self) -> u8
        ensures value { result ≡ length (ends_of (question self.now)) }
        ensures within { result ≤ 9 }
    {
        self.ends.len() as u8
    }

    /// A seat of the start.
    pub(crate) fn start(&self, i: u8) -> GridPoint
        requires { i < length (starts_of (question self.now)) }
        ensures value { result ≡ start_at (question self.now) i }
        ensures inside { is_inside (question self.now).board result ≡ true }
    {
        self.starts[usize::from(i)]
    }

    /// A seat of the end.
    pub(crate) fn end(&self, i: u8) -> GridPoint
        requires { i < length (ends_of (question self.now)) }
        ensures value { result ≡ end_at (question self.now) i }
        ensures inside { is_inside (question self.now).board result ≡ true }
    {
        self.ends[usize::from(i)]
    }

    /// The group of the walks from a seat: one of its own where it is a seat of the end too.
    pub(crate) fn group_of(&self, i: u8) -> u8
        requires { i < length (starts_of (question self.now)) }
        ensures { result ≡ group_of (question self.now) i }
    {
        if is_among(&self.ends, self.start(i)) {
            i + 1
        } else {
            0
        }
    }

    /// Whether walks of group 0 may start at a point: it is a seat of the start alone.
    fn is_own_start(&self, p: GridPoint) -> bool
        ensures { result ≡ is_own_start (question self.now) p }
    {
        is_among(&self.starts, p) && !is_among(&self.ends, p)
    }

    /// Whether walks of another group may start at a point: it is the group's seat, and one of the end too.
    fn is_shared_start(&self, p: GridPoint, group: u8) -> bool
        requires { 0 < group }
        ensures { result ≡ is_shared_start (question self.now) p group }
    {
        group <= self.start_count() && are_one(self.start(group - 1), p) && is_among(&self.ends, p)
    }

    /// Whether the walks of a group may start at a point.
    fn is_start(&self, p: GridPoint, group: u8) -> bool
        ensures { result ≡ is_start (question self.now) p group }
    {
        if group == 0 {
            self.is_own_start(p)
        } else {
            self.is_shared_start(p, group)
        }
    }

    /// Whether the walks of a group other than 0 may end at a seat: their start is a seat of the end too, and another
    /// point.
    fn is_other_end(&self, p: GridPoint, group: u8) -> bool
        requires { 0 < group }
        ensures { result ≡ is_other_end (question self.now) p group }
    {
        if self.start_count() < group {
            return false;
        }
        let start = self.start(group - 1);
        is_among(&self.ends, start) && !are_one(start, p)
    }

    /// Whether there are walks of a group, and they may end at a point.
    pub(crate) fn is_end(&self, p: GridPoint, group: u8) -> bool
        ensures { result ≡ is_end (question self.now) p group }
    {
        is_among(&self.ends, p) && (group == 0 || self.is_other_end(p, group))
    }

    /// Whether a walk that stands at a spot may end there.
    fn may_end(&self, spot: Spot) -> bool
        requires { spot.arrival < 8 }
        ensures { result ≡ may_end (question self.now) spot }
    {
        self.is_end(spot.at, spot.group) && self.allows_end(spot.arrival)
    }

    /// Whether a walk may come to its end in a direction.
    pub(crate) fn allows_end(&self, arrival: u8) -> bool
        requires { arrival < 8 }
        ensures { result ≡ allows (question self.now).to.ports (Some (reverse_of (direction arrival))) }
    {
        allows(self.to.ports, direction(arrival).reverse())
    }

    /// What a walk that stands at a spot pays to end there, where it may.
    pub(crate) fn end_cost(&self, spot: Spot) -> Option<u64>
        requires { is_inside (question self.now).board spot.at ≡ true }
        ensures value { result ≡ end_cost (question self.now) (Some spot) }
        ensures within { IfSome result (λ cost. cost ≤ 20) }
    {
        if spot.arrival >= START {
            return None;
        }
        if !self.may_end(spot) {
            return None;
        }
        Some(self.to_cost(spot.at))
    }

    /// What a seat of the end costs.
    pub(crate) fn to_cost(&self, p: GridPoint) -> u64
        requires { is_inside (question self.now).board p ≡ true }
        ensures { result ≡ seat_cost (question self.now).to.at p }
    {
        seat_cost(self.to.at, p)
    }

    /// Whether a walk may go on from a point: it is no node's, and of no walk.
    pub(crate) fn is_passable(&self, p: GridPoint) -> bool
        requires { is_inside (question self.now).board p ≡ true }
        ensures { result ≡ is_passable (question self.now).board p }
    {
        !self.board.is_node(p) && is_clear(self.board, p)
    }

    /// Whether a step from a point stays on the board, and no walk has its middle.
    pub(crate) fn is_open(&self, p: GridPoint, dir: Dir) -> bool
        requires { CanStep p }
        ensures { result ≡ is_open (question self.now).board p dir }
    {
        self.board.bounds().contains(p) && self.is_open_from(p, dir)
    }

    /// The same from a point of the board.
    fn is_open_from(&self, p: GridPoint, dir: Dir) -> bool
        requires { is_inside (question self.now).board p ≡ true }
        ensures { result ≡ (is_inside (question self.now).board (step_from p dir) && not ((question self.now).board.is_taken (step_from (doubled p) dir))) }
    {
        if !self.board.bounds().contains(p.step(dir)) {
            return false;
        }
        self.is_middle_clear(p, dir)
    }

    /// Whether no walk has the middle of a step between points of the board.
    fn is_middle_clear(&self, p: GridPoint, dir: Dir) -> bool
        requires p { is_inside (question self.now).board p ≡ true }
        requires next { is_inside (question self.now).board (step_from p dir) ≡ true }
        ensures { result ≡ not ((question self.now).board.is_taken (step_from (doubled p) dir)) }
    {
        let middle = doubled_within(self.board.bounds(), p).step(dir);
        !self.board.is_taken(middle)
    }

    /// Whether a walk may leave its start by a port.
    pub(crate) fn allows_start(&self, p: GridPoint, group: u8, dir: Dir) -> bool
        ensures { result ≡ (is_start (question self.now) p group && allows (question self.now).from.ports (Some dir)) }
    {
        self.is_start(p, group) && allows(self.from.ports, dir)
    }

    /// The seats of the start.
    pub(crate) fn starts(&self, alloc: Global) -> Result<Vec<GridPoint>, NoMemory>
        ensures starts { IfOk result (λ starts. starts.items ≡ starts_of (question self.now)) }
        ensures asked { IsQuestion (question self.now) }
    {
        Ok(self.starts.to_vec(alloc)?)
    }

    /// Whether a seat of the end is among these points.
    pub(crate) fn has_end_among(&self, points: &[GridPoint]) -> bool
        ensures { result ≡ list_any (is_among points.now) (ends_of (question self.now)) }
    {
        have_common(points, &self.ends)
    }

    /// Whether a walk may leave a start at a point by a port.
    fn leaves_start(&self, p: GridPoint, dir: Dir) -> bool
        ensures { result ≡ leaves_start (question self.now) p dir }
    {
        is_among(&self.starts, p) && allows(self.from.ports, dir)
    }

    /// Whether, however a walk came to a point, a step may lead on from there.
    pub(crate) fn leads_on(&self, p: GridPoint, dir: Dir) -> bool
        requires { is_inside (question self.now).board p ≡ true }
        ensures { result ≡ leads_on (question self.now) p dir }
    {
        if !self.is_open_from(p, dir) {
            return false;
        }
        if self.leaves_start(p, dir) {
            return true;
        }
        self.is_passable(p)
    }

    /// Whether a walk may leave a spot in a direction: at its start by an allowed port, elsewhere where it may go on.
    fn may_leave(&self, spot: Spot, dir: Dir) -> bool
        requires { is_inside (question self.now).board spot.at ≡ true }
        ensures { result ≡ may_leave (question self.now) spot dir }
    {
        if spot.arrival == START {
            self.allows_start(spot.at, spot.group, dir)
        } else {
            self.is_passable(spot.at)
        }
    }

    /// Whether a walk may leave a spot in a direction, and the step is open.
    fn may_step(&self, spot: Spot, dir: Dir) -> bool
        requires { is_inside (question self.now).board spot.at ≡ true }
        ensures { result ≡ (may_leave (question self.now) spot dir && is_open (question self.now).board spot.at dir) }
    {
        self.may_leave(spot, dir) && self.is_open(spot.at, dir)
    }

    /// What a seat of the start costs.
    pub(crate) fn start_cost(&self, i: u8) -> u64
        requires { i < length (starts_of (question self.now)) }
        ensures value { result ≡ seat_cost (question self.now).from.at (start_at (question self.now) i) }
        ensures within { result ≤ 20 }
    {
        seat_cost(self.from.at, self.start(i))
    }

    /// The spot of a seat of the start, and what it costs, with 1 more.
    pub(crate) fn chosen_seat(&self, i: u8) -> Option<(Spot, u64)>
        ensures { result ≡ chosen_seat (question self.now) i }
    {
        if i >= self.start_count() {
            return None;
        }
        let at = self.start(i);
        let spot = Spot {
            at,
            arrival: START,
            group: self.group_of(i),
        };
        Some((spot, self.start_cost(i) + 1))
    }

    /// The spot that a step leads to, by the number of its direction, and what it costs.
    pub(crate) fn stepped(&self, spot: Spot, label: u8) -> Option<(Spot, u64)>
        requires inside { is_inside (question self.now).board spot.at ≡ true }
        requires arrival { spot.arrival < 9 }
        ensures { result ≡ stepped (question self.now) spot label }
    {
        if label >= START {
            return None;
        }
        let dir = direction(label);
        if !self.may_step(spot, dir) {
            return None;
        }
        let next = Spot {
            at: spot.at.step(dir),
            arrival: label,
            group: spot.group,
        };
        Some((
            next,
            u64::from(step_cost(dir)) + turn_from(spot.arrival, dir),
        ))
    }
}

/// What the turn from a direction of arrival costs; at a start there is none.
pub(crate) fn turn_from(arrival: u8, dir: Dir) -> u64
    requires { arrival < 9 }
    ensures value { result ≡ turn_from arrival dir }
    ensures within { result ≤ 4 }
{
    if arrival == START {
        return 0;
    }
    u64::from(turn_cost(direction(arrival), dir))
}
