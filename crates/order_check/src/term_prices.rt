//! The prices of a part's terms.

ghost use Rattle.std.specs.Prelude.{◌≡◌, ◌<◌, ◌≤◌, ◌^◌, ℕ, Bool, true, length, map, unsigned_abs};
ghost use Rattle.order_model.specs.Problems.{IsTerm};
ghost use Rattle.order_model.specs.Prefixes.{IsPrefixOf};
ghost use Rattle.order_values.specs.PriceLists.{AreRisingPrices};
ghost use Rattle.order_bound.specs.Values.{are_allowed};
ghost use Rattle.whole_sums.specs.Sums.{int_sum};
ghost use Rattle.order_check.specs.Slots.{plain_term, cost_at};
ghost use Rattle.order_check.specs.Charging.{AreTerms};
ghost use Rattle.order_check.specs.Counting.{shifted, least_sum};
ghost use Rattle.order_check.specs.Prices.{may_have, AreNumbersOf, AreRisingNumbers, IsPlaceOf};
ghost use Rattle.order_check.specs.Pricing.{priced_by, price_on, ArePriced, AreSmallPrices};

use crate::charges::price_charges;
use crate::slot::{PartTerm, SlotCost};
use crate::slot_costs::add_both;
use order_model::{Prefix, Problem, Term};

/// Whether all prices are allowed: each on an open Link of these terms, at most its weight either way.
pub(crate) fn are_allowed(
    problem: &Problem,
    prefix: &Prefix,
    numbers: &[u32],
    terms: &[PartTerm],
    list: &[(u32, i64)],
) -> bool
    requires fits { IsPrefixOf problem.now.segs prefix.now }
    requires terms { AreTerms problem.now.segs terms.now }
    requires few { length terms.now ≤ 4000000 }
    requires numbers { AreNumbersOf terms.now numbers.now }
    requires rising { AreRisingPrices list.now }
    ensures allowed { result ≡ are_allowed prefix.now.placed (map plain_term terms.now) list.now }
    ensures priced { result ≡ true → ArePriced problem.now.segs prefix.now.placed terms.now list.now }
    ensures small { result ≡ true → AreSmallPrices terms.now list.now (length list.now) }
{
    for j in 0..list.len() {
        let Some(i) = place_of(numbers, list[j].0) else {
            return false;
        };
        let price = price_of(list[j]);
        if !may_have(problem, prefix, terms[i].term, price) {
            return false;
        }
    }
    true
}

/// Adds what open Links add under these prices to the table of slots, or takes it off again. Answers the sum over the slots
/// after it.
pub(crate) fn spread(
    numbers: &[u32],
    terms: &[PartTerm],
    list: &[(u32, i64)],
    costs: &mut [SlotCost],
    least: i128,
    off: bool,
) -> i128
    requires numbers { AreNumbersOf terms.now numbers.now }
    requires small { AreSmallPrices terms.now list.now (length list.now) }
    requires few { length costs.old ≤ 8000000 }
    requires costs { (k : ℕ) (x : Bool) → k < length costs.old → unsigned_abs (cost_at costs.old k x) ≤ 8192000000000 }
    requires least { least ≡ least_sum costs.old }
    ensures slots { (k : ℕ) → k < length costs.old → (x : Bool)
        → cost_at costs.new k x ≡ shifted off (cost_at costs.old k x) (int_sum (price_on terms.now k x) list.now) }
    ensures least { result ≡ least_sum costs.new }
{
    let mut least = least;
    for j in 0..list.len() {
        least = spread_price(numbers, terms, list[j], costs, least, off);
    }
    least
}

/// Adds what the open Link of one price adds under it to the table of slots, or takes it off again; nothing where no
/// term has its number. Answers the sum over the slots after it.
fn spread_price(
    numbers: &[u32],
    terms: &[PartTerm],
    entry: (u32, i64),
    costs: &mut [SlotCost],
    least: i128,
    off: bool,
) -> i128
    requires numbers { AreNumbersOf terms.now numbers.now }
    requires price { unsigned_abs entry.1 ≤ 256000 }
    requires few { length costs.old ≤ 8000000 }
    requires small { (k : ℕ) (x : Bool) → k < length costs.old → unsigned_abs (cost_at costs.old k x) ≤ 2 ^ 60 }
    requires least { least ≡ least_sum costs.old }
    ensures slots { (k : ℕ) → k < length costs.old → (x : Bool)
        → cost_at costs.new k x ≡ shifted off (cost_at costs.old k x) (price_on terms.now k x entry) }
    ensures least { result ≡ least_sum costs.new }
{
    match place_of(numbers, entry.0) {
        None => least,
        Some(i) => add_price(terms[i], price_of(entry), costs, least, off),
    }
}

/// Adds what an open Link adds under its price, or takes it off again.
fn add_price(t: PartTerm, price: i64, costs: &mut [SlotCost], least: i128, off: bool) -> i128
    requires price { unsigned_abs price ≤ 256000 }
    requires few { length costs.old ≤ 8000000 }
    requires small { (k : ℕ) (x : Bool) → k < length costs.old → unsigned_abs (cost_at costs.old k x) ≤ 2 ^ 60 }
    requires least { least ≡ least_sum costs.old }
    ensures slots { (k : ℕ) → k < length costs.old → (x : Bool)
        → cost_at costs.new k x ≡ shifted off (cost_at costs.old k x) (priced_by k x t price) }
    ensures least { result ≡ least_sum costs.new }
{
    add_both(costs, price_charges(t, price), least, off)
}

/// The price beside a number.
fn price_of(entry: (u32, i64)) -> i64
    ensures { result ≡ entry.1 }
{
    entry.1
}

/// Where a number stands among rising ones.
fn place_of(numbers: &[u32], number: u32) -> Option<usize>
    requires { AreRisingNumbers numbers.now }
    ensures { IsPlaceOf numbers.now number result }
{
    match numbers.binary_search(&number) {
        Ok(i) => Some(i),
        Err(_) => None,
    }
}

/// Whether a term may have a price: it is a Link whose lines are decided at neither end, and the price is at most its
/// weight either way.
fn may_have(problem: &Problem, prefix: &Prefix, term: Term, price: i64) -> bool
    requires fits { IsPrefixOf problem.now.segs prefix.now }
    requires term { IsTerm problem.now.segs term }
    ensures { result ≡ may_have prefix.now.placed term price }
{
    match term {
        Term::Side { .. } | Term::Apart { .. } => false,
        Term::Link {
            seg,
            other,
            a,
            b,
            w,
            ..
        } => {
            if prefix.is_decided(problem, seg, a, b) {
                return false;
            }
            if prefix.is_decided(problem, other, a, b) {
                return false;
            }
            price.unsigned_abs() <= u64::from(w)
        }
    }
}
