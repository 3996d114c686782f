//! What terms add to the slots of a part, for a prefix.

ghost use Rattle.std.specs.Prelude.{◌≡◌, ◌<◌, ◌≤◌, ◌+ℤ◌, ◌-ℤ◌, ◌≤ℤ◌, ◌^◌, ℕ, Bool, length, sum_by, unsigned_abs, pos, if◌then◌else◌};
ghost use Rattle.order_model.specs.Problems.{IsTerm};
ghost use Rattle.order_model.specs.Costs.{same_answer};
ghost use Rattle.order_model.specs.Prefixes.{IsPrefixOf};
ghost use Rattle.order_bound.specs.Values.{least_answer};
ghost use Rattle.whole_sums.specs.Sums.{int_sum};
ghost use Rattle.order_check.specs.Slots.{cost_in, cost_at, charge_on};
ghost use Rattle.order_check.specs.Charging.{AreTerms};
ghost use Rattle.order_check.specs.Counting.{added_by, decided_of, shifted, turned, least_sum};

use crate::charges::charges;
use crate::slot::{Charge, Charges, PartTerm, SlotCost, Sums};
use order_model::{Prefix, Problem};

/// Adds to the table of slots what terms add for a prefix, with no prices, or takes it off again. Sums those of them that
/// are decided, and keeps up the sum over the slots.
pub(crate) fn count(
    problem: &Problem,
    prefix: &Prefix,
    terms: &[PartTerm],
    costs: &mut [SlotCost],
    least: i128,
    off: bool,
) -> Sums
    requires fits { IsPrefixOf problem.now.segs prefix.now }
    requires terms { AreTerms problem.now.segs terms.now }
    requires few { length terms.now ≤ 12000000 }
    requires few_slots { length costs.old ≤ 8000000 }
    requires small { (k : ℕ) (x : Bool) → k < length costs.old → unsigned_abs (cost_at costs.old k x) ≤ 8192000000000 }
    requires least { least ≡ least_sum costs.old }
    ensures decided { result.decided ≡ sum_by (decided_of problem.now.segs prefix.now.placed) terms.now }
    ensures most { result.decided ≤ 3072000000000 }
    ensures least { result.least ≡ least_sum costs.new }
    ensures slots { (k : ℕ) → k < length costs.old → (x : Bool)
        → cost_at costs.new k x ≡ shifted off (cost_at costs.old k x) (int_sum (added_by problem.now.segs prefix.now.placed k x) terms.now) }
{
    let mut decided: u64 = 0;
    let mut least = least;
    for i in 0..terms.len() {
        let added = count_term(problem, prefix, terms[i], costs, least, off);
        decided += added.decided;
        least = added.least;
    }
    Sums { decided, least }
}

/// Adds to the table of slots what one term adds for a prefix, with no prices, or takes it off again. Answers what is
/// decided of it and the sum over the slots after it.
fn count_term(
    problem: &Problem,
    prefix: &Prefix,
    t: PartTerm,
    costs: &mut [SlotCost],
    least: i128,
    off: bool,
) -> Sums
    requires fits { IsPrefixOf problem.now.segs prefix.now }
    requires term { IsTerm problem.now.segs t.term }
    requires few_slots { length costs.old ≤ 8000000 }
    requires small { (k : ℕ) (x : Bool) → k < length costs.old → unsigned_abs (cost_at costs.old k x) ≤ 2 ^ 60 }
    requires least { least ≡ least_sum costs.old }
    ensures decided { result.decided ≡ decided_of problem.now.segs prefix.now.placed t }
    ensures most { result.decided ≤ 256000 }
    ensures least { result.least ≡ least_sum costs.new }
    ensures slots { (k : ℕ) → k < length costs.old → (x : Bool)
        → cost_at costs.new k x ≡ shifted off (cost_at costs.old k x) (added_by problem.now.segs prefix.now.placed k x t) }
{
    let added = charges(problem, prefix, t, 0);
    let least = add_both(costs, added, least, off);
    Sums {
        decided: added.decided,
        least,
    }
}

/// Adds what a term adds to its slots, or takes it off again. Answers the sum over the slots after it.
pub(crate) fn add_both(costs: &mut [SlotCost], added: Charges, least: i128, off: bool) -> i128
    requires few { length costs.old ≤ 8000000 }
    requires small { (k : ℕ) (x : Bool) → k < length costs.old → unsigned_abs (cost_at costs.old k x) ≤ 2 ^ 60 }
    requires here { unsigned_abs added.here.amount ≤ 256000 }
    requires there { unsigned_abs added.there.amount ≤ 256000 }
    requires least { least ≡ least_sum costs.old }
    ensures slots { (k : ℕ) → k < length costs.old → (x : Bool)
        → cost_at costs.new k x ≡ shifted off (cost_at costs.old k x) (charge_on added.here k x +ℤ charge_on added.there k x) }
    ensures least { result ≡ least_sum costs.new }
{
    let here = turned(added.here, off);
    let there = turned(added.there, off);
    let first = add(costs, here, least);
    add(costs, there, first)
}

/// A charge, or where it is taken off its contrary.
fn turned(charge: Charge, off: bool) -> Charge
    requires { unsigned_abs charge.amount ≤ 256000 }
    ensures { result ≡ turned off charge }
{
    if off {
        Charge {
            slot: charge.slot,
            lesser_first: charge.lesser_first,
            amount: 0 - charge.amount,
        }
    } else {
        charge
    }
}

/// Nothing costs anything yet.
pub(crate) fn clear(costs: &mut [SlotCost])
    ensures { (k : ℕ) (x : Bool) → cost_at costs.new k x ≡ pos 0 }
{
    for k in 0..costs.len() {
        costs[k] = SlotCost {
            lesser_first: 0,
            greater_first: 0,
        };
    }
}

/// Adds a charge to its slot, if there is such a slot and the charge is not 0. Answers the sum over the slots after it.
fn add(costs: &mut [SlotCost], charge: Charge, least: i128) -> i128
    requires few { length costs.old ≤ 8000000 }
    requires small { (k : ℕ) (x : Bool) → k < length costs.old → unsigned_abs (cost_at costs.old k x) ≤ 2 ^ 61 }
    requires amount { unsigned_abs charge.amount ≤ 256000 }
    requires least { least ≡ least_sum costs.old }
    ensures slots { (k : ℕ) → k < length costs.old → (x : Bool) → cost_at costs.new k x ≡ cost_at costs.old k x +ℤ charge_on charge k x }
    ensures least { result ≡ least_sum costs.new }
{
    if charge.amount == 0 {
        return least;
    }
    let k = charge.slot as usize;
    if k >= costs.len() {
        return least;
    }
    let before = costs[k];
    let after = with_charge(before, charge);
    costs[k] = after;
    let was = least_of(before);
    let will = least_of(after);
    let rest = without(least, was);
    with(rest, will)
}

/// The costs of a slot after a charge.
fn with_charge(cost: SlotCost, charge: Charge) -> SlotCost
    requires lesser { unsigned_abs cost.lesser_first ≤ 2 ^ 61 }
    requires greater { unsigned_abs cost.greater_first ≤ 2 ^ 61 }
    requires amount { unsigned_abs charge.amount ≤ 256000 }
    ensures { (x : Bool) → cost_in result x ≡ cost_in cost x +ℤ (if same_answer charge.lesser_first x then charge.amount else pos 0) }
{
    if charge.lesser_first {
        SlotCost {
            lesser_first: sum(cost.lesser_first, charge.amount),
            greater_first: cost.greater_first,
        }
    } else {
        SlotCost {
            lesser_first: cost.lesser_first,
            greater_first: sum(cost.greater_first, charge.amount),
        }
    }
}

/// What the cheaper order of a slot's lines costs.
fn least_of(cost: SlotCost) -> i64
    ensures { result ≡ least_answer (cost_in cost) }
{
    if cost.greater_first < cost.lesser_first {
        cost.greater_first
    } else {
        cost.lesser_first
    }
}

/// The sum of two numbers.
fn sum(a: i64, b: i64) -> i64
    requires a_within { unsigned_abs a ≤ 8192000000000000000 }
    requires b_within { unsigned_abs b ≤ 1000000000000000000 }
    ensures { result ≡ a +ℤ b }
{
    a + b
}

/// A sum without one of its numbers.
fn without(sum: i128, number: i64) -> i128
    requires low { (pos 0 -ℤ pos (2 ^ 100)) ≤ℤ sum }
    requires high { sum ≤ℤ pos (2 ^ 100) }
    ensures sum { result ≡ sum -ℤ number }
    ensures low { (sum -ℤ pos (2 ^ 63)) ≤ℤ result }
    ensures high { result ≤ℤ (sum +ℤ pos (2 ^ 63)) }
{
    sum - i128::from(number)
}

/// A sum with one number more.
fn with(sum: i128, number: i64) -> i128
    requires low { (pos 0 -ℤ pos (2 ^ 101)) ≤ℤ sum }
    requires high { sum ≤ℤ pos (2 ^ 101) }
    ensures { result ≡ sum +ℤ number }
{
    sum + i128::from(number)
}
