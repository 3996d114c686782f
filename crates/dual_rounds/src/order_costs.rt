//! What orders cost, by their terms.

ghost use Rattle.std.specs.Prelude.{◌≡◌, ◌*◌, ◌<◌, ◌≤◌, length};
ghost use Rattle.order_model.specs.Costs.{term_cost, cost_of, IsReadable};

use crate::line_order::LineOrder;
use order_model::{Problem, Term, ends_of, is_met_on, weight_of};

/// What the orders of all segments cost.
pub fn cost_of(problem: &Problem, orders: &[LineOrder]) -> u64
    requires { length orders.now ≡ length problem.now.segs }
    ensures value { result ≡ cost_of problem.now.terms orders.now }
    ensures most { result ≤ 256000 * length problem.now.terms }
{
    let mut total: u64 = 0;
    for term in problem.terms() {
        total += term_cost(*term, orders);
    }
    total
}

/// What a term costs.
pub fn term_cost(term: Term, orders: &[LineOrder]) -> u64
    requires { IsReadable (length orders.now) term }
    ensures value { result ≡ term_cost orders.now term }
    ensures most { result ≤ 256000 }
{
    let (seg, other) = ends_of(term);
    let here = orders[seg.0 as usize].as_slice();
    let there = orders[other.0 as usize].as_slice();
    if is_met_on(here, there, term) {
        u64::from(weight_of(term))
    } else {
        0
    }
}
