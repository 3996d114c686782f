//! What the terms on a segment cost beside the orders of the others.

ghost use Rattle.std.specs.Prelude.{◌≡◌, ◌+◌, ◌<◌, ◌≤◌, ℕ, length, unsigned_abs};
ghost use Rattle.graph_core.specs.Consistent.{AreRising};
ghost use Rattle.order_model.specs.Problems.{IsProblem, IsTerm, lines_on};
ghost use Rattle.order_model.specs.Costs.{are_neighbours};
ghost use Rattle.least_orders.specs.OrderCosts.{summed_costs, cost_beside};
ghost use Rattle.dual_shares.specs.RowSteps.{AreTwoOf};
ghost use Rattle.dual_shares.specs.CostRows.{HasRoom, Tell, IsAdded, AreSmallCosts};
ghost use Rattle.dual_ascent.specs.SegmentCosts.{less_where, link_beside, beside_costs};
ghost use Rattle.dual_orders.specs.OwnTerms.{own_terms};
ghost use Rattle.dual_orders.specs.Parts.{IsPart};

use crate::part::Part;
use dual_rounds::LineOrder;
use dual_shares::CostRows;
use map_base::{LineId, SegId};
use order_model::{Problem, Term, are_neighbours, comes_before};

/// What the terms on a segment make each two of its lines cost beside the orders of the others, but for what no order of it
/// changes.
pub(crate) fn put_costs_beside(part: &Part, s: usize, orders: &[LineOrder], rows: &mut CostRows)
    requires part { IsPart part.now }
    requires known { s < length part.now.problem.now.segs }
    requires each { length orders.now ≡ length part.now.problem.now.segs }
    requires room { HasRoom rows.old }
    ensures room { HasRoom rows.new }
    ensures count { rows.new.count ≡ length (lines_on part.now.problem.now.segs (record { 0 = s })) }
    ensures told { Tell (lines_on part.now.problem.now.segs (record { 0 = s }))
        (summed_costs (beside_costs orders.now (record { 0 = s })) (own_terms part.now.problem.now (record { 0 = s }))) rows.new }
    ensures small { AreSmallCosts 4000000 rows.new }
{
    let segment = SegId(s as u32);
    let terms = part.problem.terms();
    rows.clear(part.lines(s).len());
    for k in part.on[s].as_slice() {
        add_term_beside(part.problem, segment, terms[*k as usize], orders, rows);
    }
}

/// Adds what one term does.
fn add_term_beside(
    problem: &Problem,
    s: SegId,
    term: Term,
    orders: &[LineOrder],
    rows: &mut CostRows,
)
    requires problem { IsProblem problem.now }
    requires known { s.0 < length problem.now.segs }
    requires few { length (lines_on problem.now.segs s) ≤ 16 }
    requires count { rows.old.count ≡ length (lines_on problem.now.segs s) }
    requires term { IsTerm problem.now.segs term }
    requires each { length orders.now ≡ length problem.now.segs }
    requires room { HasRoom rows.old }
    requires small { AreSmallCosts 4000000 rows.old }
    ensures room { HasRoom rows.new }
    ensures added { IsAdded (lines_on problem.now.segs s) (beside_costs orders.now s term) rows.old rows.new }
    ensures small { (m : ℕ) → AreSmallCosts m rows.old → AreSmallCosts (m + 1) rows.new }
{
    let lines = problem.segs()[s.0 as usize].as_slice();
    match term {
        Term::Side {
            seg,
            first,
            second,
            w,
        } => {
            if seg == s {
                rows.add_before(lines, second, first, i64::from(w));
            }
        }
        Term::Link {
            seg,
            other,
            flip,
            a,
            b,
            w,
        } => {
            if seg == s {
                let there = orders[other.0 as usize].as_slice();
                add_link_beside(lines, there, flip, a, b, w, rows);
            } else if other == s {
                let there = orders[seg.0 as usize].as_slice();
                add_link_beside(lines, there, flip, a, b, w, rows);
            }
        }
        Term::Apart {
            seg,
            other,
            a,
            b,
            w,
        } => {
            if seg == s {
                let there = orders[other.0 as usize].as_slice();
                add_apart_beside(lines, there, a, b, w, rows);
            } else if other == s {
                let there = orders[seg.0 as usize].as_slice();
                add_apart_beside(lines, there, a, b, w, rows);
            }
        }
    }
}

/// Adds what a Link costs beside this order of its other segment.
fn add_link_beside(
    lines: &[LineId],
    there: &[LineId],
    flip: bool,
    a: LineId,
    b: LineId,
    w: u32,
    rows: &mut CostRows,
)
    requires rising { AreRising lines.now }
    requires count { rows.old.count ≡ length lines.now }
    requires on { AreTwoOf lines.now a b }
    requires weight { w ≤ 256000 }
    requires room { HasRoom rows.old }
    requires small { AreSmallCosts 4000000 rows.old }
    ensures room { HasRoom rows.new }
    ensures added { IsAdded lines.now (link_beside there.now flip a b w) rows.old rows.new }
    ensures small { (m : ℕ) → AreSmallCosts m rows.old → AreSmallCosts (m + 1) rows.new }
{
    if flip == comes_before(there, a, b) {
        rows.add_before(lines, a, b, i64::from(w));
    } else {
        rows.add_before(lines, b, a, i64::from(w));
    }
}

/// Adds what an Apart costs beside this order of its other segment.
fn add_apart_beside(
    lines: &[LineId],
    there: &[LineId],
    a: LineId,
    b: LineId,
    w: u32,
    rows: &mut CostRows,
)
    requires rising { AreRising lines.now }
    requires count { rows.old.count ≡ length lines.now }
    requires on { AreTwoOf lines.now a b }
    requires weight { w ≤ 256000 }
    requires room { HasRoom rows.old }
    requires small { AreSmallCosts 4000000 rows.old }
    ensures room { HasRoom rows.new }
    ensures added { IsAdded lines.now (cost_beside a b (less_where (are_neighbours there.now a b) w)) rows.old rows.new }
    ensures small { (m : ℕ) → AreSmallCosts m rows.old → AreSmallCosts (m + 1) rows.new }
{
    let together = are_neighbours(there, a, b);
    rows.add_beside(lines, a, b, less_where(together, w));
}

/// A weight, taken off where it is so.
fn less_where(so: bool, w: u32) -> i64
    requires { w ≤ 256000 }
    ensures value { result ≡ less_where so w }
    ensures small { unsigned_abs result ≤ 256000 }
{
    let weight = i64::from(w);
    if so { -weight } else { weight }
}
