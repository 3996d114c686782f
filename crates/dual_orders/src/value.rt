//! The value of prices under the orders that answer them.

ghost use Rattle.std.specs.Prelude.{◌≡◌, ◌<◌, ◌*◌, ◌≤◌, ◌+ℤ◌, ◌*ℤ◌, length, unsigned_abs};
ghost use Rattle.order_model.specs.Costs.{IsReadable};
ghost use Rattle.dual_ascent.specs.DualSteps.{AreWithin, value_with};
ghost use Rattle.dual_orders.specs.Values.{term_value};

use dual_rounds::{LineOrder, THOUSAND, subgradient};
use order_model::{Problem, Term, comes_before};

/// The value of prices: the sum of the shares of the orders that answer them, in thousandths.
pub fn value_of(problem: &Problem, prices: &[i64], orders: &[LineOrder]) -> i64
    requires some { 0 < length problem.now.segs }
    requires prices { AreWithin problem.now.terms prices.now }
    requires orders { length orders.now ≡ length problem.now.segs }
    ensures value { result ≡ value_with problem.now prices.now orders.now }
    ensures most { unsigned_abs result ≤ 256000000 * length problem.now.terms }
{
    let terms = problem.terms();
    let mut total: i64 = 0;
    for k in 0..terms.len() {
        total = sum(total, term_value(terms[k], prices[k], orders));
    }
    total
}

/// What a term adds: 1000 times the weight of a Side that costs, the price times z - x of any other.
fn term_value(term: Term, price: i64, orders: &[LineOrder]) -> i64
    requires term { IsReadable (length orders.now) term }
    requires price { unsigned_abs price ≤ 256000000 }
    ensures value { result ≡ term_value price orders.now term }
    ensures most { unsigned_abs result ≤ 256000000 }
{
    match term {
        Term::Side {
            seg,
            first,
            second,
            w,
        } => {
            if comes_before(orders[seg.0 as usize].as_slice(), second, first) {
                i64::from(THOUSAND * w)
            } else {
                0
            }
        }
        Term::Link { .. } | Term::Apart { .. } => times(price, subgradient(orders, term)),
    }
}

/// A price times 1, 0 or -1.
fn times(price: i64, slope: i64) -> i64
    requires price { unsigned_abs price ≤ 256000000 }
    requires slope { unsigned_abs slope ≤ 1 }
    ensures value { result ≡ price *ℤ slope }
    ensures most { unsigned_abs result ≤ 256000000 }
{
    price * slope
}

/// The sum of two numbers.
fn sum(a: i64, b: i64) -> i64
    requires a_within { unsigned_abs a ≤ 1024000000000000 }
    requires b_within { unsigned_abs b ≤ 256000000 }
    ensures { result ≡ a +ℤ b }
{
    a + b
}
