//! Which lines have to stand before others where pairs are settled.

ghost use Rattle.std.specs.Prelude.{◌≡◌, ℕ, ◌≤◌, ◌<◌, length, slice_index, All};
ghost use Rattle.graph_core.specs.Consistent.{AreRising};
ghost use Rattle.order_model.specs.Problems.{lines_on};
ghost use Rattle.dual_bound.specs.Settled.{settled_on};
ghost use Rattle.dual_shares.specs.SettledSets.{TellAhead};
ghost use Rattle.dual_orders.specs.Parts.{IsPart};
ghost use Rattle.dual_orders.specs.SettledPairs.{pairs_of, IsPairHere, IsPairOn};
ghost use Rattle.dual_orders.specs.Solvers.{HasRoom};

use crate::part::Part;
use crate::solver::Solver;
use dual_bound::SettledPair;
use dual_shares::settle;
use map_base::{LineId, SegId};

/// For each line of a segment the set of those that are settled to stand before it, a bit for the place of each.
pub(crate) fn put_ahead(part: &Part, s: usize, settled: &[SettledPair], solver: &mut Solver)
    requires part { IsPart part.now }
    requires known { s < length part.now.problem.now.segs }
    requires room { length solver.old.ahead.items ≡ 16 }
    requires settled { All (IsPairOn part.now.problem.now.segs) settled.now }
    ensures told { TellAhead (settled_on (pairs_of settled.now) (record { 0 = s })) (lines_on part.now.problem.now.segs (record { 0 = s })) solver.new.ahead.items }
    ensures ahead { length solver.new.ahead.items ≡ 16 }
    ensures rows { solver.new.rows ≡ solver.old.rows }
    ensures room { (width : ℕ) → HasRoom width solver.old → HasRoom width solver.new }
{
    put_pairs(
        part.lines(s),
        SegId(s as u32),
        settled,
        solver.ahead.as_mut_slice(),
    );
}

/// For each of these lines, which rise, the set of those that are settled to stand before it on the segment, a bit for
/// the place of each.
fn put_pairs(lines: &[LineId], s: SegId, settled: &[SettledPair], ahead: &mut [u32])
    requires rising { AreRising lines.now }
    requires few { length lines.now ≤ 16 }
    requires room { length ahead.old ≡ 16 }
    requires settled { All (IsPairHere s lines.now) settled.now }
    ensures { TellAhead (settled_on (pairs_of settled.now) s) lines.now ahead.new }
{
    clear(ahead);
    for pair in settled {
        if pair.seg == s {
            settle(lines, pair.first, pair.second, ahead);
        }
    }
}

/// No line has to stand before another.
pub(crate) fn clear(ahead: &mut [u32])
    ensures { (k : ℕ) → slice_index ahead.new k ≡ 0 }
{
    for j in 0..ahead.len() {
        ahead[j] = 0;
    }
}
