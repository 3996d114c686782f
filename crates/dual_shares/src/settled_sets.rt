//! Which lines have to stand before a line, as sets of places.

ghost use Rattle.std.specs.Prelude.{◌≡◌, ◌≤◌, ◌<◌, ◌∷◌, length, List};
ghost use Rattle.map_base.specs.declared.ids.LineId.{LineId};
ghost use Rattle.graph_core.specs.Consistent.{AreRising};
ghost use Rattle.least_orders.specs.Subsets.{with_place};
ghost use Rattle.dual_shares.specs.RowSteps.{AreTwoOf};
ghost use Rattle.dual_shares.specs.SettledSets.{TellAhead};

use crate::rows::place_of;
use map_base::LineId;

/// The first of two lines has to stand before the second. For each line `ahead` has the set of those that have to stand
/// before it, a bit for the place of each.
pub fn settle(lines: &[LineId], first: LineId, second: LineId, ahead: &mut [u32])
    requires rising { AreRising lines.now }
    requires few { length lines.now ≤ 16 }
    requires room { length lines.now ≤ length ahead.old }
    requires on { AreTwoOf lines.now first second }
    ensures { (settled : List (LineId × LineId)) → TellAhead settled lines.now ahead.old → TellAhead ((first, second) ∷ settled) lines.now ahead.new }
{
    let i = place_of(lines, first);
    let j = place_of(lines, second);
    ahead[j] = with_place(ahead[j], i);
}

/// The set with this place, too.
fn with_place(set: u32, k: usize) -> u32
    requires { k < 16 }
    ensures { result ≡ with_place set k }
{
    set | (1 << k)
}
