//! The places where a part's terms have an end, each once, with the least that is added there.

ghost use Rattle.std.specs.Prelude.{◌≡◌, ◌+◌, ◌+ℤ◌, ◌<◌, ◌≤◌, false, pos, length, unsigned_abs, if◌then◌else◌, slice_index_or};
ghost use Rattle.order_model.specs.PartTerms.{part_terms, is_of, no_term};
ghost use Rattle.order_model.specs.Prefixes.{IsPrefixOf};
ghost use Rattle.order_bound.specs.Values.{least_answer};
ghost use Rattle.order_check.specs.Slots.{slot_on, has_slot, slots_of, slot_total, slots_value};
ghost use Rattle.prefix_bounds.specs.SlotsSoFar.{AreSmallPrices, has_end, terms_before};

use crate::place::Place;
use crate::shares::added_at;
use crate::terms::{is_of, term_at, term_count};
use map_base::SegId;
use order_model::{Prefix, Problem, Term};

/// The sum over the places of a part's terms of the least that the terms add there with their shares of prices.
pub(crate) fn least_sum(
    problem: &Problem,
    part: &[SegId],
    prefix: &Prefix,
    list: &[(u32, i64)],
) -> i64
    requires fits { IsPrefixOf problem.now.segs prefix.now }
    requires small { AreSmallPrices list.now }
    ensures sum { result ≡ slots_value prefix.now.placed list.now (part_terms problem.now.terms part.now) (slots_of (part_terms problem.now.terms part.now)) }
    ensures small { unsigned_abs result ≤ 8192000000000000000 }
{
    let mut total: i64 = 0;
    for number in 0..term_count(problem) {
        total = sum(total, new_least(problem, part, prefix, list, number));
    }
    total
}

/// What the places add that the term of a number is the first of the part's to have.
fn new_least(
    problem: &Problem,
    part: &[SegId],
    prefix: &Prefix,
    list: &[(u32, i64)],
    number: usize,
) -> i64
    requires fits { IsPrefixOf problem.now.segs prefix.now }
    requires small { AreSmallPrices list.now }
    requires known { number < length problem.now.terms }
    ensures more { slots_value prefix.now.placed list.now (part_terms problem.now.terms part.now) (slots_of (terms_before problem.now.terms part.now (number + 1)))
        ≡ slots_value prefix.now.placed list.now (part_terms problem.now.terms part.now) (slots_of (terms_before problem.now.terms part.now number)) +ℤ result }
    ensures small { unsigned_abs result ≤ 2048000000000 }
{
    let term = term_at(problem, number);
    if !is_of(part, term) {
        return 0;
    }
    match term {
        Term::Side {
            seg,
            first,
            second,
            ..
        } => {
            let place = Place::of(seg, first, second);
            least_if_new(problem, part, prefix, list, place, number)
        }
        Term::Link {
            seg,
            other,
            a,
            b,
            ..
        } => {
            let here = Place::of(seg, a, b);
            let there = Place::of(other, a, b);
            let least = least_if_new(problem, part, prefix, list, here, number);
            sum(
                least,
                least_if_new(problem, part, prefix, list, there, number),
            )
        }
        Term::Apart { .. } => 0,
    }
}

/// The least that is added at a place, if none of the part's terms before a number has an end there.
fn least_if_new(
    problem: &Problem,
    part: &[SegId],
    prefix: &Prefix,
    list: &[(u32, i64)],
    place: Place,
    number: usize,
) -> i64
    requires fits { IsPrefixOf problem.now.segs prefix.now }
    requires small { AreSmallPrices list.now }
    requires known { number < length problem.now.terms }
    ensures least { result ≡ (if has_slot (slots_of (terms_before problem.now.terms part.now number)) (slot_on place.seg place.pair) then pos 0
        else least_answer (slot_total prefix.now.placed list.now (part_terms problem.now.terms part.now) (slot_on place.seg place.pair))) }
    ensures small { unsigned_abs result ≤ 1024000000000 }
{
    if is_met_before(problem, part, place, number) {
        return 0;
    }
    let lesser = total_at(problem, part, prefix, list, place, true);
    let greater = total_at(problem, part, prefix, list, place, false);
    lesser.min(greater)
}

/// What a part's terms add at a place by an order of its lines.
fn total_at(
    problem: &Problem,
    part: &[SegId],
    prefix: &Prefix,
    list: &[(u32, i64)],
    place: Place,
    lesser_first: bool,
) -> i64
    requires fits { IsPrefixOf problem.now.segs prefix.now }
    requires small { AreSmallPrices list.now }
    ensures total { result ≡ slot_total prefix.now.placed list.now (part_terms problem.now.terms part.now) (slot_on place.seg place.pair) lesser_first }
    ensures small { unsigned_abs result ≤ 1024000000000 }
{
    let mut total: i64 = 0;
    for number in 0..term_count(problem) {
        total = sum(
            total,
            added_at(problem, part, prefix, list, place, lesser_first, number),
        );
    }
    total
}

/// Whether one of the part's terms before a number has an end at a place.
fn is_met_before(problem: &Problem, part: &[SegId], place: Place, number: usize) -> bool
    requires { number ≤ length problem.now.terms }
    ensures { result ≡ has_slot (slots_of (terms_before problem.now.terms part.now number)) (slot_on place.seg place.pair) }
{
    for earlier in 0..number {
        if meets_at(problem, part, place, earlier) {
            return true;
        }
    }
    false
}

/// Whether the term of a number is of the part and has an end at a place.
fn meets_at(problem: &Problem, part: &[SegId], place: Place, number: usize) -> bool
    requires { number < length problem.now.terms }
    ensures { result ≡ (if is_of part.now (slice_index_or problem.now.terms number no_term)
        then has_end place.seg place.pair (slice_index_or problem.now.terms number no_term) else false) }
{
    let term = term_at(problem, number);
    if !has_end(place, term) {
        return false;
    }
    is_of(part, term)
}

/// Whether a term has an end at a place, where the order of its lines counts: a Side or a Link.
fn has_end(place: Place, term: Term) -> bool
    ensures { result ≡ has_end place.seg place.pair term }
{
    match term {
        Term::Side {
            seg,
            first,
            second,
            ..
        } => place.is_at(seg, first, second),
        Term::Link {
            seg,
            other,
            a,
            b,
            ..
        } => {
            if place.is_at(seg, a, b) {
                return true;
            }
            place.is_at(other, a, b)
        }
        Term::Apart { .. } => false,
    }
}

/// The sum of two numbers.
pub(crate) fn sum(a: i64, b: i64) -> i64
    requires a_within { unsigned_abs a ≤ 8192000000000000000 }
    requires b_within { unsigned_abs b ≤ 1000000000000000000 }
    ensures { result ≡ a +ℤ b }
{
    a + b
}
