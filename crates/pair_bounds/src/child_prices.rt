//! Prices of the Links of a pair, from the leaves of their trees to the roots.

ghost use Rattle.std.specs.Prelude.{◌≡◌, ◌<◌, ◌≤◌, ◌+◌, ◌*◌, ◌^◌, ℕ, length, map, All};
ghost use Rattle.std.specs.Prelude.{ℤ, pos, ◌+ℤ◌, ◌-ℤ◌, ◌≤ℤ◌};
ghost use Rattle.std.specs.Vec.{vec_len, vec_capacity};
ghost use Rattle.order_bound.specs.CanonicalPrices.{cut_to, turned_by, price_for};
ghost use Rattle.order_bound.specs.declared.pairs.ChildLink.{ChildLink};
ghost use Rattle.pair_bounds.specs.Slots.{rise_in, with_child, with_children, slot_least, IsSmall};
ghost use Rattle.whole_sums.specs.Sums.{int_sum};
ghost use Rattle.pair_bounds.specs.PriceNotes.{price_noted, price_over, priced_in};

use crate::noted_prices::NotedPrices;
use crate::slots::{Slot, add_shares, rise_in};
use order_bound::ChildLink;

/// A number cut to a weight either way.
fn cut_to(weight: u32, rise: i64) -> i64
    ensures value { result ≡ cut_to weight rise }
    ensures low { (pos 0 -ℤ pos weight) ≤ℤ result }
    ensures high { result ≤ℤ pos weight }
{
    let most = i64::from(weight);
    if rise > most {
        most
    } else if rise < -most {
        -most
    } else {
        rise
    }
}

/// The other sign.
fn negated(number: i64) -> i64
    requires low { (pos 0 -ℤ pos (2 ^ 62)) ≤ℤ number }
    requires high { number ≤ℤ pos (2 ^ 62) }
    ensures { result ≡ pos 0 -ℤ number }
{
    -number
}

/// The price of the Link to a child that costs this much more where the greater line stands first.
fn price_for(child: ChildLink, rise: i64) -> i64
    requires low { (pos 0 -ℤ pos (2 ^ 62)) ≤ℤ rise }
    requires high { rise ≤ℤ pos (2 ^ 62) }
    ensures value { result ≡ price_for child rise }
    ensures low { (pos 0 -ℤ pos (2 ^ 32)) ≤ℤ result }
    ensures high { result ≤ℤ pos (2 ^ 32) }
{
    if child.link.seg.0 == child.child.0 {
        return cut_to(child.link.weight, rise);
    }
    let turned = if child.link.flip { negated(rise) } else { rise };
    negated(cut_to(child.link.weight, turned))
}

/// Prices the Link to a child by what the child costs, and adds the shares of the price. Answers the price.
fn price_child(slots: &mut [Slot], child: ChildLink) -> i64
    requires { All (IsSmall (2 ^ 60)) slots.old }
    ensures slots { slots.new ≡ with_child child slots.old }
    ensures price { result ≡ price_for child (rise_in slots.old child.child) }
{
    let price = price_for(child, rise_in(slots, child.child));
    add_shares(slots, child.link, price);
    price
}

/// Prices the Links to children from the last to the first: adds the shares of the prices, and notes the prices.
pub(crate) fn price_children(
    slots: &mut [Slot],
    children: &mut Vec<ChildLink>,
    noted: &mut NotedPrices,
)
    requires small { All (IsSmall (2 ^ 41)) slots.old }
    requires light { All (λ (c : ChildLink). c.link.weight ≤ 256000) children.old.items }
    requires few { vec_len children.old ≤ 4000000 }
    ensures slots { slots.new ≡ with_children children.old.items slots.old }
    ensures small { All (IsSmall (2 ^ 43)) slots.new }
    ensures each { length noted.new.prices.items ≡ length noted.old.prices.items }
    ensures noted { (k : ℕ) → k < length noted.old.prices.items → price_noted noted.new.prices.items k ≡ price_over (priced_in children.old.items slots.old) (price_noted noted.old.prices.items k) k }
    ensures room { vec_capacity children.old ≤ vec_capacity children.new }
{
    while let Some(child) = children.pop() {
        let price = price_child(slots, child);
        noted.note(child.link.number, price);
    }
}

/// The lesser of the two costs of a slot.
fn least(slot: Slot) -> i64
    ensures { result ≡ slot_least slot }
{
    if slot.greater_first < slot.lesser_first {
        slot.greater_first
    } else {
        slot.lesser_first
    }
}

/// The sum of a number far from the ends of its type and a cost.
fn with_cost(total: i128, cost: i64) -> i128
    requires low { (pos 0 -ℤ pos (2 ^ 126)) ≤ℤ total }
    requires high { total ≤ℤ pos (2 ^ 126) }
    ensures { result ≡ total +ℤ cost }
{
    total + i128::from(cost)
}

/// The sum of the least costs of slots.
pub(crate) fn least_sum(slots: &[Slot]) -> i128
    requires { All (IsSmall (2 ^ 43)) slots.now }
    ensures { result ≡ int_sum slot_least slots.now }
{
    let mut total: i128 = 0;
    for slot in slots {
        total = with_cost(total, least(*slot));
    }
    total
}
