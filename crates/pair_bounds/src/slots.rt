//! The slots of a pair: the segments where it is open, with what it costs there.

ghost use Rattle.std.specs.Prelude.{◌≡◌, ◌<◌, ◌≤◌, ◌*◌, ◌^◌, length, map, All};
ghost use Rattle.std.specs.Prelude.{ℤ, pos, ◌+ℤ◌, ◌-ℤ◌, ◌≤ℤ◌};
ghost use Rattle.pair_bounds.specs.Slots.{slot_more, slot_relabelled, slot_shared, label_in, rise_in, slot_least, IsSmall};
ghost use Rattle.order_bound.specs.Values.{share};

use crate::walking::ends_at;
use map_base::SegId;
use order_bound::OpenLink;

/// A segment where a pair is open: the label of its class of segments joined by Links, and what the pair costs there
/// where its lesser line stands first, and where its greater line does.
#[derive(Clone, Copy)]
pub struct Slot {
    pub seg: SegId,
    pub label: u32,
    pub lesser_first: i64,
    pub greater_first: i64,
}

/// The sum of two numbers far from the ends of their type.
fn sum(a: i64, b: i64) -> i64
    requires a_low { (pos 0 -ℤ pos (2 ^ 61)) ≤ℤ a }
    requires a_high { a ≤ℤ pos (2 ^ 61) }
    requires b_low { (pos 0 -ℤ pos (2 ^ 61)) ≤ℤ b }
    requires b_high { b ≤ℤ pos (2 ^ 61) }
    ensures { result ≡ a +ℤ b }
{
    a + b
}

/// The difference of two numbers far from the ends of their type.
fn difference(a: i64, b: i64) -> i64
    requires a_low { (pos 0 -ℤ pos (2 ^ 61)) ≤ℤ a }
    requires a_high { a ≤ℤ pos (2 ^ 61) }
    requires b_low { (pos 0 -ℤ pos (2 ^ 61)) ≤ℤ b }
    requires b_high { b ≤ℤ pos (2 ^ 61) }
    ensures { result ≡ a -ℤ b }
{
    a - b
}

/// The slot, with more cost if it is that of the segment.
fn more(slot: Slot, seg: SegId, lesser_first: u32, greater_first: u32) -> Slot
    requires { IsSmall (2 ^ 60) slot }
    ensures { result ≡ slot_more seg lesser_first greater_first slot }
{
    if seg.0 == slot.seg.0 {
        Slot {
            seg: slot.seg,
            label: slot.label,
            lesser_first: sum(slot.lesser_first, i64::from(lesser_first)),
            greater_first: sum(slot.greater_first, i64::from(greater_first)),
        }
    } else {
        slot
    }
}

/// Adds to what a segment costs.
pub(crate) fn add_cost(slots: &mut [Slot], seg: SegId, lesser_first: u32, greater_first: u32)
    requires { All (IsSmall (2 ^ 60)) slots.old }
    ensures { slots.new ≡ map (slot_more seg lesser_first greater_first) slots.old }
{
    for i in 0..slots.len() {
        slots[i] = more(slots[i], seg, lesser_first, greater_first);
    }
}

/// The slot, with the label of one class in place of that of another.
fn relabelled(slot: Slot, one: u32, two: u32) -> Slot
    ensures { result ≡ slot_relabelled one two slot }
{
    Slot {
        seg: slot.seg,
        label: if slot.label == two { one } else { slot.label },
        lesser_first: slot.lesser_first,
        greater_first: slot.greater_first,
    }
}

/// Gives the segments of one class the label of another.
pub(crate) fn relabel(slots: &mut [Slot], one: u32, two: u32)
    ensures { slots.new ≡ map (slot_relabelled one two) slots.old }
{
    for i in 0..slots.len() {
        slots[i] = relabelled(slots[i], one, two);
    }
}

/// The label of a segment, 0 where it has no slot.
pub(crate) fn label_in(slots: &[Slot], seg: SegId) -> u32
    ensures { result ≡ label_in slots.now seg }
{
    for slot in slots {
        if slot.seg.0 == seg.0 {
            return slot.label;
        }
    }
    0
}

/// By how much a segment costs more where the greater line stands first, 0 where it has no slot.
pub(crate) fn rise_in(slots: &[Slot], seg: SegId) -> i64
    requires { All (IsSmall (2 ^ 60)) slots.now }
    ensures value { result ≡ rise_in slots.now seg }
    ensures low { (pos 0 -ℤ pos (2 ^ 62)) ≤ℤ result }
    ensures high { result ≤ℤ pos (2 ^ 62) }
{
    for slot in slots {
        if slot.seg.0 == seg.0 {
            return rise(*slot);
        }
    }
    0
}

/// By how much a slot costs more where the greater line stands first.
fn rise(slot: Slot) -> i64
    requires { IsSmall (2 ^ 60) slot }
    ensures value { result ≡ slot.greater_first -ℤ slot.lesser_first }
    ensures low { (pos 0 -ℤ pos (2 ^ 62)) ≤ℤ result }
    ensures high { result ≤ℤ pos (2 ^ 62) }
{
    difference(slot.greater_first, slot.lesser_first)
}

/// What a price on a Link adds on a segment.
fn share(price: i64, link: OpenLink, seg: SegId, lesser_first: bool) -> i64
    requires low { (pos 0 -ℤ pos (2 ^ 32)) ≤ℤ price }
    requires high { price ≤ℤ pos (2 ^ 32) }
    ensures value { result ≡ share price link seg lesser_first }
    ensures low { (pos 0 -ℤ pos (2 ^ 34)) ≤ℤ result }
    ensures high { result ≤ℤ pos (2 ^ 34) }
{
    let here = if link.seg.0 == seg.0 && !lesser_first {
        difference(0, price)
    } else {
        0
    };
    let there = if link.other.0 == seg.0 && link.flip == lesser_first {
        price
    } else {
        0
    };
    sum(here, there)
}

/// The slot with its shares of a price on a Link, of which it has none where the Link doesn't end there.
#[tactic(auto, using(crate::proofs::PricedSlots::unshared))]
fn shared(slot: Slot, link: OpenLink, price: i64) -> Slot
    requires small { IsSmall (2 ^ 60) slot }
    requires low { (pos 0 -ℤ pos (2 ^ 32)) ≤ℤ price }
    requires high { price ≤ℤ pos (2 ^ 32) }
    ensures { result ≡ slot_shared link price slot }
{
    if !ends_at(slot.seg, link) {
        return slot;
    }
    Slot {
        seg: slot.seg,
        label: slot.label,
        lesser_first: sum(slot.lesser_first, share(price, link, slot.seg, true)),
        greater_first: sum(slot.greater_first, share(price, link, slot.seg, false)),
    }
}

/// Adds the shares of a price on a Link.
pub(crate) fn add_shares(slots: &mut [Slot], link: OpenLink, price: i64)
    requires small { All (IsSmall (2 ^ 60)) slots.old }
    requires low { (pos 0 -ℤ pos (2 ^ 32)) ≤ℤ price }
    requires high { price ≤ℤ pos (2 ^ 32) }
    ensures { slots.new ≡ map (slot_shared link price) slots.old }
{
    for i in 0..slots.len() {
        slots[i] = shared(slots[i], link, price);
    }
}
