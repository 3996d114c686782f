//! By what drawings are weighed.

ghost use Rattle.std.specs.Prelude.{◌≡◌, ◌*◌, ◌<◌, ◌≤◌, ◌^◌, length, unsigned_abs};
ghost use Rattle.drawing_weights.specs.Drawn.{IsShort};
ghost use Rattle.drawing_weights.specs.Scales.{apart_weight_by, scale_of, walk_weight_by};

use crate::weights::{square_apart, turns_of};
use bit_flags::Flags;
use map_base::NodeId;
use octi_grid::{GridPoint, Walk, walk_cost};

/// By what a drawing is weighed: how often the turns of a walk count beside its cost, how often the turns that lines make
/// over nodes, how often the square of a node's distance from where it first stood, and for which nodes that counts, one
/// flag for each.
#[derive(Clone, Copy)]
pub struct Weighing<'a> {
    pub turns: u64,
    pub overs: u64,
    pub aparts: u64,
    pub held: &'a Flags,
}

impl<'a> Weighing<'a> {
    /// What a walk weighs: what it costs, and its turns.
    pub fn walk_weight(self, walk: &Walk) -> u64
        requires turns { self.turns ≤ 100 }
        requires short { IsShort walk.now }
        ensures weight { result ≡ walk_weight_by (scale_of self.entry) walk.now }
        ensures small { result ≤ 2 ^ 33 }
    {
        walk_cost(walk) + times(self.turns, turns_of(walk.runs()))
    }

    /// What a node weighs for its distance from where it first stood.
    pub fn apart_weight(self, n: NodeId, first: GridPoint, here: GridPoint) -> u64
        requires aparts { self.aparts ≤ 100 }
        requires flag { n.0 < length self.held.now }
        requires first_x { unsigned_abs first.x ≤ 2000 }
        requires first_y { unsigned_abs first.y ≤ 2000 }
        requires x { unsigned_abs here.x ≤ 2000 }
        requires y { unsigned_abs here.y ≤ 2000 }
        ensures weight { result ≡ apart_weight_by (scale_of self.entry) n.0 first here }
        ensures small { result ≤ 2 ^ 32 }
    {
        if !self.held.is_raised(n.0 as usize) {
            return 0;
        }
        times(self.aparts, square_apart(first, here))
    }
}

/// A number of a scale times another number.
fn times(by: u64, count: u64) -> u64
    requires by { by ≤ 100 }
    requires count { count ≤ 2 ^ 40 }
    ensures value { result ≡ by * count }
    ensures small { result ≤ 100 * count }
{
    by * count
}
