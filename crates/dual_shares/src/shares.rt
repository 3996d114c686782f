//! What a term on a segment makes each two of its lines cost under its price.

ghost use Rattle.std.specs.Prelude.{◌≡◌, ◌+◌, ◌<◌, ◌≤◌, ℕ, length, true, unsigned_abs};
ghost use Rattle.graph_core.specs.Consistent.{AreRising};
ghost use Rattle.order_model.specs.Problems.{IsProblem, IsTerm, lines_on};
ghost use Rattle.least_orders.specs.OrderCosts.{cost_before, cost_beside};
ghost use Rattle.dual_bound.specs.ShareCosts.{costs_where, link_costs, term_costs};
ghost use Rattle.dual_shares.specs.RowSteps.{AreSmall, HaveAdded, AreTwoOf, IsRoomy, IsAddedBefore, IsAddedBeside, IsMoreBy, most_where};

use crate::rows::{add, opposite, place_of};
use map_base::{LineId, SegId};
use order_model::{Problem, Term};

/// Adds what one term makes each two lines cost.
pub(crate) fn add_term(
    problem: &Problem,
    s: SegId,
    term: Term,
    price: i64,
    before: &mut [i64],
    beside: &mut [i64],
)
    requires problem { IsProblem problem.now }
    requires known { s.0 < length problem.now.segs }
    requires few { length (lines_on problem.now.segs s) ≤ 16 }
    requires term { IsTerm problem.now.segs term }
    requires price { unsigned_abs price ≤ 256000000 }
    requires before { length before.old ≡ 256 }
    requires beside { length beside.old ≡ 256 }
    requires small { AreSmall (length (lines_on problem.now.segs s)) 4000000 before.old beside.old }
    ensures added { HaveAdded (lines_on problem.now.segs s) (term_costs price s term) before.old beside.old before.new beside.new }
    ensures small { (m : ℕ) → AreSmall (length (lines_on problem.now.segs s)) m before.old beside.old
        → AreSmall (length (lines_on problem.now.segs s)) (m + 1) before.new beside.new }
{
    let lines = problem.segs()[s.0 as usize].as_slice();
    match term {
        Term::Side {
            seg,
            first,
            second,
            w,
        } => add_before(lines, seg == s, second, first, i64::from(1000 * w), before),
        Term::Link {
            seg,
            other,
            flip,
            a,
            b,
            ..
        } => {
            add_link(lines, other == s, flip, a, b, price, before);
            add_before(lines, seg == s, b, a, opposite(price), before);
        }
        Term::Apart {
            seg,
            other,
            a,
            b,
            ..
        } => {
            add_beside(lines, other == s, a, b, price, beside);
            add_beside(lines, seg == s, a, b, opposite(price), beside);
        }
    }
}

/// What a Link makes its lines cost at its other segment, where this is it.
fn add_link(
    lines: &[LineId],
    so: bool,
    flip: bool,
    a: LineId,
    b: LineId,
    price: i64,
    before: &mut [i64],
)
    requires rising { AreRising lines.now }
    requires few { length lines.now ≤ 16 }
    requires on { so ≡ true → AreTwoOf lines.now a b }
    requires price { unsigned_abs price ≤ 256000000 }
    requires room { length before.old ≡ 256 }
    requires small { IsRoomy (length lines.now) before.old }
    ensures added { IsAddedBefore lines.now (costs_where so (link_costs flip a b price)) before.old before.new }
    ensures small { IsMoreBy (most_where so) before.old before.new }
{
    if flip {
        add_before(lines, so, a, b, price, before);
        return;
    }
    add_before(lines, so, b, a, price, before);
}

/// Where it is so, two lines cost an amount more where the first stands before the second.
pub(crate) fn add_before(
    lines: &[LineId],
    so: bool,
    first: LineId,
    second: LineId,
    amount: i64,
    before: &mut [i64],
)
    requires rising { AreRising lines.now }
    requires few { length lines.now ≤ 16 }
    requires on { so ≡ true → AreTwoOf lines.now first second }
    requires amount { unsigned_abs amount ≤ 256000000 }
    requires room { length before.old ≡ 256 }
    requires small { IsRoomy (length lines.now) before.old }
    ensures added { IsAddedBefore lines.now (costs_where so (cost_before first second amount)) before.old before.new }
    ensures small { IsMoreBy (most_where so) before.old before.new }
{
    if !so {
        return;
    }
    let i = place_of(lines, first);
    let j = place_of(lines, second);
    add(before, lines.len(), i, j, amount);
}

/// Where it is so, two lines cost an amount more where they are neighbours.
pub(crate) fn add_beside(
    lines: &[LineId],
    so: bool,
    a: LineId,
    b: LineId,
    amount: i64,
    beside: &mut [i64],
)
    requires rising { AreRising lines.now }
    requires few { length lines.now ≤ 16 }
    requires on { so ≡ true → AreTwoOf lines.now a b }
    requires amount { unsigned_abs amount ≤ 256000000 }
    requires room { length beside.old ≡ 256 }
    requires small { IsRoomy (length lines.now) beside.old }
    ensures added { IsAddedBeside lines.now (costs_where so (cost_beside a b amount)) beside.old beside.new }
    ensures small { IsMoreBy (most_where so) beside.old beside.new }
{
    if !so {
        return;
    }
    let i = place_of(lines, a);
    let j = place_of(lines, b);
    add(beside, lines.len(), i, j, amount);
    add(beside, lines.len(), j, i, amount);
}
