//! How the directions of prices go on from round to round.

ghost use Rattle.std.specs.Prelude.{◌≡◌, ◌*◌, ◌≤◌, length, All, pos, ◌+ℤ◌, ◌-ℤ◌, ◌*ℤ◌, int_div, unsigned_abs};
ghost use Rattle.order_model.specs.Costs.{weight_of, IsReadable};
ghost use Rattle.dual_bound.specs.Shares.{where_so};
ghost use Rattle.dual_ascent.specs.DualSteps.{subgradient, most_price, is_blocked, next_direction, next_directions, square_sum};
ghost use Rattle.dual_rounds.specs.Ranges.{IsDirection};

use crate::line_order::LineOrder;
use order_model::{Problem, Term, are_neighbours, comes_before};

/// How many thousandths a unit of cost has.
pub const THOUSAND: u32 = 1000;

/// z - x of a Link or an Apart under orders, the subgradient of its price.
pub fn subgradient(orders: &[LineOrder], term: Term) -> i64
    requires { IsReadable (length orders.now) term }
    ensures value { result ≡ subgradient orders.now term }
    ensures most { unsigned_abs result ≤ 1 }
{
    match term {
        Term::Side { .. } => 0,
        Term::Link {
            seg,
            other,
            flip,
            a,
            b,
            ..
        } => {
            let x = comes_before(orders[seg.0 as usize].as_slice(), b, a);
            let swapped = comes_before(orders[other.0 as usize].as_slice(), b, a);
            difference(swapped != flip, x)
        }
        Term::Apart {
            seg,
            other,
            a,
            b,
            ..
        } => {
            let x = are_neighbours(orders[seg.0 as usize].as_slice(), a, b);
            let z = are_neighbours(orders[other.0 as usize].as_slice(), a, b);
            difference(z, x)
        }
    }
}

/// 1 where only the first is so, -1 where only the second is, else 0.
fn difference(z: bool, x: bool) -> i64
    ensures value { result ≡ where_so z (pos 1) -ℤ where_so x (pos 1) }
    ensures most { unsigned_abs result ≤ 1 }
{
    if z == x {
        0
    } else if z {
        1
    } else {
        -1
    }
}

/// The greatest price of a term, either way: 1000 times its weight, none on a Side.
pub fn most_price(term: Term) -> u32
    requires { weight_of term ≤ 256000 }
    ensures value { result ≡ most_price term }
    ensures most { result ≤ 256000000 }
{
    match term {
        Term::Side { .. } => 0,
        Term::Link { w, .. } | Term::Apart { w, .. } => THOUSAND * w,
    }
}

/// Seven eighths of the last direction, and 64 times the slope.
fn turned(last: i64, slope: i64) -> i64
    requires last { IsDirection last }
    requires slope { unsigned_abs slope ≤ 1 }
    ensures value { result ≡ int_div (pos 7 *ℤ last) (pos 8) +ℤ (pos 64 *ℤ slope) }
    ensures within { IsDirection result }
{
    7 * last / 8 + 64 * slope
}

/// Whether a price is at the end of its range to which the direction points.
fn is_blocked(most: u32, price: i64, direction: i64) -> bool
    requires { most ≤ 256000000 }
    ensures { result ≡ is_blocked most price direction }
{
    let end = i64::from(most);
    if direction > 0 {
        return end <= price;
    }
    direction < 0 && price <= -end
}

/// The direction in which a price goes, after the last one: none where it is at its end.
fn next_direction(most: u32, price: i64, last: i64, slope: i64) -> i64
    requires most { most ≤ 256000000 }
    requires last { IsDirection last }
    requires slope { unsigned_abs slope ≤ 1 }
    ensures value { result ≡ next_direction most price last slope }
    ensures within { IsDirection result }
{
    let direction = turned(last, slope);
    if is_blocked(most, price, direction) {
        0
    } else {
        direction
    }
}

/// The direction in which the price of a term goes under these orders, after the last one.
fn direction_of(orders: &[LineOrder], term: Term, price: i64, last: i64) -> i64
    requires term { IsReadable (length orders.now) term }
    requires last { IsDirection last }
    ensures value { result ≡ next_direction (most_price term) price last (subgradient orders.now term) }
    ensures within { IsDirection result }
{
    let most = most_price(term);
    let slope = subgradient(orders, term);
    next_direction(most, price, last, slope)
}

/// The directions follow these orders.
pub fn direct(problem: &Problem, orders: &[LineOrder], prices: &[i64], directions: &mut [i64])
    requires orders { length orders.now ≡ length problem.now.segs }
    requires prices { length prices.now ≡ length problem.now.terms }
    requires each { length directions.old ≡ length problem.now.terms }
    requires within { All IsDirection directions.old }
    ensures value { directions.new ≡ next_directions problem.now orders.now prices.now directions.old }
    ensures within { All IsDirection directions.new }
{
    let terms = problem.terms();
    for k in 0..terms.len() {
        let direction = direction_of(orders, terms[k], prices[k], directions[k]);
        directions[k] = direction;
    }
}

/// The sum of the squares of all directions.
pub fn square_sum(directions: &[i64]) -> u64
    requires few { length directions.now ≤ 4000000 }
    requires within { All IsDirection directions.now }
    ensures value { result ≡ square_sum directions.now }
    ensures most { result ≤ 262144 * length directions.now }
{
    let mut total: u64 = 0;
    for direction in directions {
        total += square(*direction);
    }
    total
}

/// The square of a direction.
fn square(direction: i64) -> u64
    requires { IsDirection direction }
    ensures value { result ≡ unsigned_abs direction * unsigned_abs direction }
    ensures most { result ≤ 262144 }
{
    let size = direction.unsigned_abs();
    size * size
}
