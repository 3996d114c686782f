//! What orders cost on one segment.

ghost use Rattle.std.specs.Prelude.{◌≡◌, ◌<◌, ◌≤◌, [], length, slice_index_or, slice_set, IsTrue, IsFalse};
ghost use Rattle.order_model.specs.Costs.{term_cost, cost_of, IsReadable};
ghost use Rattle.dual_ascent.specs.LocalSearch.{cheaper};
ghost use Rattle.dual_orders.specs.OwnTerms.{cost_on};
ghost use Rattle.dual_orders.specs.Parts.{IsPart};

use crate::part::Part;
use dual_rounds::{LineOrder, set_order};
use map_base::LineId;
use order_model::{Term, ends_of, is_met_on, weight_of};

/// A segment takes this order where that costs less. Whether it did.
pub(crate) fn take_if_less(
    part: &Part,
    s: usize,
    order: &[LineId],
    orders: &mut [LineOrder],
) -> bool
    requires part { IsPart part.now }
    requires each { length orders.old ≡ length part.now.problem.now.segs }
    requires known { s < length part.now.problem.now.segs }
    requires lines { length order.now ≡ length (slice_index_or orders.old s []) }
    ensures value { orders.new ≡ cheaper part.now.problem.now orders.old (slice_set orders.old s order.now) }
    ensures less { IsTrue result → cost_of part.now.problem.now.terms orders.new < cost_of part.now.problem.now.terms orders.old }
    ensures same { IsFalse result → orders.new ≡ orders.old }
{
    let mine = &orders[..];
    let now = cost_with(part, s, mine, mine[s].as_slice());
    if cost_with(part, s, mine, order) < now {
        set_order(orders, s, order);
        return true;
    }
    false
}

/// What the terms on a segment cost where it has this order.
fn cost_with(part: &Part, s: usize, orders: &[LineOrder], order: &[LineId]) -> u64
    requires part { IsPart part.now }
    requires each { length orders.now ≡ length part.now.problem.now.segs }
    requires known { s < length part.now.problem.now.segs }
    ensures { result ≡ cost_on part.now.problem.now (record { 0 = s }) (slice_set orders.now s order.now) }
{
    let terms = part.problem.terms();
    let mut total: u64 = 0;
    for k in part.on[s].as_slice() {
        total += term_cost_with(terms[*k as usize], s, orders, order);
    }
    total
}

/// What a term costs where a segment has this order.
fn term_cost_with(term: Term, s: usize, orders: &[LineOrder], order: &[LineId]) -> u64
    requires term { IsReadable (length orders.now) term }
    requires known { s < length orders.now }
    ensures value { result ≡ term_cost (slice_set orders.now s order.now) term }
    ensures most { result ≤ 256000 }
{
    let (seg, other) = ends_of(term);
    let here = order_with(orders, s, order, seg.0 as usize);
    let there = order_with(orders, s, order, other.0 as usize);
    if is_met_on(here, there, term) {
        u64::from(weight_of(term))
    } else {
        0
    }
}

/// The order of segment `k` where segment `s` has this order.
fn order_with<'a>(orders: &'a [LineOrder], s: usize, order: &'a [LineId], k: usize) -> &'a [LineId]
    requires { k < length orders.now }
    ensures { result.now ≡ slice_index_or (slice_set orders.now s order.now) k [] }
{
    if k == s {
        return order;
    }
    orders[k].as_slice()
}
