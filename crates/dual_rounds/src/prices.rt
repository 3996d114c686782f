//! How prices go on from round to round.

ghost use Rattle.std.specs.Prelude.{◌≡◌, ◌*◌, ◌<◌, ◌≤◌, length, All, pos, ◌+ℤ◌, ◌-ℤ◌, ◌*ℤ◌, ◌≤ℤ◌, int_div, unsigned_abs};
ghost use Rattle.dual_bound.specs.Shares.{thousand};
ghost use Rattle.dual_ascent.specs.DualSteps.{cut_to, square_sum, gap_of, next_price, next_prices};
ghost use Rattle.dual_rounds.specs.Ranges.{IsDirection, IsPrice};

use crate::directions::most_price;
use order_model::Problem;

/// 1000 times one less than a target, and one more: the least value that shows it.
pub fn bar_of(target: u64) -> i64
    requires { target ≤ 1024000000000 }
    ensures value { result ≡ pos thousand *ℤ (pos target -ℤ pos 1) +ℤ pos 1 }
    ensures within { unsigned_abs result ≤ 1024000000000999 }
{
    (1000 * target) as i64 - 999
}

/// What the value lacks to the one that shows the target, and at least 1000.
pub fn gap_of(target: u64, value: i64) -> i64
    requires target { target ≤ 1024000000000 }
    requires value { unsigned_abs value ≤ 4000000000000000 }
    ensures value { result ≡ gap_of target value }
    ensures most { unsigned_abs result ≤ 6000000000000000 }
{
    less(bar_of(target), value).max(1000)
}

/// The one less the other.
fn less(a: i64, b: i64) -> i64
    requires a_within { unsigned_abs a ≤ 1024000000000999 }
    requires b_within { unsigned_abs b ≤ 4000000000000000 }
    ensures { result ≡ a -ℤ b }
{
    a - b
}

/// The product of two numbers.
fn product(a: i128, b: i128) -> i128
    requires a_within { unsigned_abs a ≤ 1000000000000000000000 }
    requires b_within { unsigned_abs b ≤ 10000000000000000 }
    ensures value { result ≡ a *ℤ b }
    ensures size { unsigned_abs result ≡ unsigned_abs a * unsigned_abs b }
{
    a * b
}

/// A direction times 64, a step and the gap.
fn scaled(step: u32, gap: i64, direction: i64) -> i128
    requires step { step ≤ 1000 }
    requires gap { unsigned_abs gap ≤ 6000000000000000 }
    requires direction { IsDirection direction }
    ensures value { result ≡ ((pos step *ℤ gap) *ℤ pos 64) *ℤ direction }
    ensures within { unsigned_abs result ≤ 200000000000000000000000 }
{
    let part = product(i128::from(step), i128::from(gap));
    let length = product(part, 64);
    product(length, i128::from(direction))
}

/// The quotient by 1000 times a sum of squares, rounded toward 0.
fn quotient(a: i128, squares: u64) -> i128
    requires a_within { unsigned_abs a ≤ 200000000000000000000000 }
    requires some { 0 < squares }
    requires squares { squares ≤ 1048576000000 }
    ensures value { result ≡ int_div a (pos (1000 * squares)) }
    ensures within { unsigned_abs result ≤ 200000000000000000000000 }
{
    a / i128::from(1000 * squares)
}

/// A number cut to a range, either way.
fn cut_to(most: u32, a: i128) -> i64
    requires { most ≤ 256000000 }
    ensures { result ≡ cut_to most a }
{
    let end = i128::from(most);
    if end < a {
        return i64::from(most);
    }
    if a < -end { -i64::from(most) } else { a as i64 }
}

/// The price of a term after a step in its direction.
fn next_price(step: u32, gap: i64, squares: u64, most: u32, price: i64, direction: i64) -> i64
    requires step { step ≤ 1000 }
    requires gap { unsigned_abs gap ≤ 6000000000000000 }
    requires some { 0 < squares }
    requires squares { squares ≤ 1048576000000 }
    requires most { most ≤ 256000000 }
    requires price { IsPrice price }
    requires direction { IsDirection direction }
    ensures { result ≡ next_price step gap squares most price direction }
{
    let change = quotient(scaled(step, gap, direction), squares);
    cut_to(most, moved(price, change))
}

/// A price that is changed.
fn moved(price: i64, change: i128) -> i128
    requires price { IsPrice price }
    requires change { unsigned_abs change ≤ 200000000000000000000000 }
    ensures { result ≡ price +ℤ change }
{
    i128::from(price) + change
}

/// The prices take a step in their directions, whose squares sum to so much.
pub fn step_prices(
    problem: &Problem,
    step: u32,
    gap: i64,
    squares: u64,
    directions: &[i64],
    prices: &mut [i64],
)
    requires step { step ≤ 1000 }
    requires gap { unsigned_abs gap ≤ 6000000000000000 }
    requires some { 0 < squares }
    requires few { squares ≤ 1048576000000 }
    requires squares { squares ≡ square_sum directions.now }
    requires directions { length directions.now ≡ length problem.now.terms }
    requires each { length prices.old ≡ length problem.now.terms }
    requires moved { All IsDirection directions.now }
    requires within { All IsPrice prices.old }
    ensures { prices.new ≡ next_prices problem.now step gap prices.old directions.now }
{
    let terms = problem.terms();
    for k in 0..terms.len() {
        let most = most_price(terms[k]);
        let price = next_price(step, gap, squares, most, prices[k], directions[k]);
        prices[k] = price;
    }
}
