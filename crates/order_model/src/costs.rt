//! What orders cost.

ghost use Rattle.std.specs.Prelude.{◌≡◌, ℕ, ◌<◌, ◌≤◌, length, sum_by, All};
ghost use Rattle.order_model.specs.Costs.{comes_before, are_these, are_neighbours, is_met_on, seg_of, other_of, weight_of, term_cost, cost_of, IsReadable, AreOrders};

use crate::problem::Problem;
use crate::term::Term;
use map_base::{LineId, SegId, Sequence};
use order_values::Orders;

/// What the orders cost: the sum of the weights of all terms that cost something. The orders have one list for each
/// segment of the problem, with its lines in some order.
pub fn cost(problem: &Problem, orders: &Orders) -> u64
    requires { AreOrders problem.now.segs orders.now.lists }
    ensures { result ≡ cost_of problem.now.terms orders.now.lists }
{
    total_cost(problem.terms(), orders.lists.as_slice())
}

/// The sum of what the terms cost under the orders.
fn total_cost(terms: &[Term], orders: &[Sequence<LineId>]) -> u64
    requires terms { All (IsReadable (length orders.now)) terms.now }
    requires few { length terms.now ≤ 4000000 }
    ensures { result ≡ sum_by (term_cost orders.now) terms.now }
{
    let mut total: u64 = 0;
    for term in terms {
        total += term_cost(orders, *term);
    }
    total
}

/// What one term costs under the orders.
fn term_cost(orders: &[Sequence<LineId>], term: Term) -> u64
    requires term { IsReadable (length orders.now) term }
    ensures value { result ≡ term_cost orders.now term }
    ensures most { result ≤ 256000 }
{
    let (seg, other) = ends_of(term);
    let here = orders[seg.0 as usize].as_slice();
    let there = orders[other.0 as usize].as_slice();
    if is_met_on(here, there, term) {
        u64::from(weight_of(term))
    } else {
        0
    }
}

/// Whether a term costs something where these are the orders of its segments.
pub fn is_met_on(here: &[LineId], there: &[LineId], term: Term) -> bool
    ensures { result ≡ is_met_on here.now there.now term }
{
    match term {
        Term::Side { first, second, .. } => comes_before(here, second, first),
        Term::Link { flip, a, b, .. } => {
            let before = comes_before(here, a, b);
            let before_too = comes_before(there, a, b);
            flip == (before == before_too)
        }
        Term::Apart { a, b, .. } => {
            let together = are_neighbours(here, a, b);
            let together_too = are_neighbours(there, a, b);
            together != together_too
        }
    }
}

/// Whether of two lines the first comes first in an order.
pub fn comes_before(order: &[LineId], a: LineId, b: LineId) -> bool
    ensures { result ≡ comes_before order.now a b }
{
    for line in order {
        if *line == a {
            return true;
        }
        if *line == b {
            return false;
        }
    }
    false
}

/// Whether two lines stand next to each other in an order.
pub fn are_neighbours(order: &[LineId], a: LineId, b: LineId) -> bool
    ensures { result ≡ are_neighbours order.now a b }
{
    for i in 1..order.len() {
        if are_these(order[i - 1], order[i], a, b) {
            return true;
        }
    }
    false
}

/// Whether two lines are these two, either way.
fn are_these(x: LineId, y: LineId, a: LineId, b: LineId) -> bool
    ensures { result ≡ are_these x y a b }
{
    if x == a {
        return y == b;
    }
    if x == b { y == a } else { false }
}

/// The segment of a term and its other segment, or its only one twice.
pub fn ends_of(term: Term) -> (SegId, SegId)
    ensures seg { result.0 ≡ seg_of term }
    ensures other { result.1 ≡ other_of term }
    ensures known { (n : ℕ) → IsReadable n term → result.0.0 < n }
    ensures other_known { (n : ℕ) → IsReadable n term → result.1.0 < n }
{
    match term {
        Term::Side { seg, .. } => (seg, seg),
        Term::Link { seg, other, .. } => (seg, other),
        Term::Apart { seg, other, .. } => (seg, other),
    }
}

/// The weight of a term.
pub fn weight_of(term: Term) -> u32
    ensures { result ≡ weight_of term }
{
    match term {
        Term::Side { w, .. } | Term::Link { w, .. } | Term::Apart { w, .. } => w,
    }
}
