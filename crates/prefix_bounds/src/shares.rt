//! What one term adds at a place, by the order of its lines there.

ghost use Rattle.std.specs.Prelude.{◌≡◌, ◌≢◌, ◌<◌, ◌≤◌, pos, length, unsigned_abs, if◌then◌else◌, slice_index_or};
ghost use Rattle.order_model.specs.declared.term.Term.TheVariants.{Side};
ghost use Rattle.order_model.specs.Problems.{IsTerm, IsSide, IsPair};
ghost use Rattle.order_model.specs.PartTerms.{is_of, no_term};
ghost use Rattle.order_model.specs.Costs.{same_answer};
ghost use Rattle.order_model.specs.Prefixes.{IsPrefixOf};
ghost use Rattle.order_bound.specs.Bounds.{open_cost};
ghost use Rattle.order_check.specs.Slots.{slot_on, slot_share};
ghost use Rattle.prefix_bounds.specs.SlotsSoFar.{AreSmallPrices, here_share, there_share, link_share};

use crate::allowed::price_of;
use crate::place::Place;
use crate::terms::{is_of, term_at};
use map_base::{LineId, SegId};
use order_bound::OpenLink;
use order_model::{Prefix, Problem, Term};

/// What the term of a number adds at a place, if it is of the part.
pub(crate) fn added_at(
    problem: &Problem,
    part: &[SegId],
    prefix: &Prefix,
    list: &[(u32, i64)],
    place: Place,
    lesser_first: bool,
    number: usize,
) -> i64
    requires fits { IsPrefixOf problem.now.segs prefix.now }
    requires small { AreSmallPrices list.now }
    requires known { number < length problem.now.terms }
    ensures share { result ≡ (if is_of part.now (slice_index_or problem.now.terms number no_term)
        then slot_share prefix.now.placed list.now (slot_on place.seg place.pair) lesser_first (number, slice_index_or problem.now.terms number no_term) else pos 0) }
    ensures small { unsigned_abs result ≤ 256000 }
{
    let term = term_at(problem, number);
    let share = share_at(
        problem,
        prefix,
        list,
        place,
        lesser_first,
        number as u32,
        term,
    );
    if share == 0 {
        return 0;
    }
    if is_of(part, term) { share } else { 0 }
}

/// What a term adds at a place by an order of its lines: what it costs there where it is open, and its share of its price.
fn share_at(
    problem: &Problem,
    prefix: &Prefix,
    list: &[(u32, i64)],
    place: Place,
    lesser_first: bool,
    number: u32,
    term: Term,
) -> i64
    requires fits { IsPrefixOf problem.now.segs prefix.now }
    requires small { AreSmallPrices list.now }
    requires term { IsTerm problem.now.segs term }
    ensures share { result ≡ slot_share prefix.now.placed list.now (slot_on place.seg place.pair) lesser_first (number, term) }
    ensures small { unsigned_abs result ≤ 256000 }
{
    match term {
        Term::Side {
            seg,
            first,
            second,
            w,
        } => i64::from(side_cost(problem, prefix, place, lesser_first, seg, first, second, w)),
        Term::Link {
            seg,
            other,
            flip,
            a,
            b,
            w,
        } => {
            let link = OpenLink {
                number,
                seg,
                other,
                flip,
                weight: w,
            };
            link_share(problem, prefix, list, place, lesser_first, link, a, b)
        }
        Term::Apart { .. } => 0,
    }
}

/// What a Side costs at a place where it is open, else 0.
fn side_cost(
    problem: &Problem,
    prefix: &Prefix,
    place: Place,
    lesser_first: bool,
    seg: SegId,
    first: LineId,
    second: LineId,
    w: u32,
) -> u32
    requires fits { IsPrefixOf problem.now.segs prefix.now }
    requires side { IsSide problem.now.segs seg first second w }
    ensures cost { result ≡ open_cost prefix.now.placed place.pair place.seg lesser_first (Side seg first second w) }
    ensures small { result ≤ 256000 }
{
    if !place.is_at(seg, first, second) {
        return 0;
    }
    if prefix.is_decided(problem, seg, first, second) {
        return 0;
    }
    let first_is_lesser = first.0 == place.pair.lesser.0;
    if first_is_lesser == lesser_first {
        0
    } else {
        w
    }
}

/// What a Link adds at a place.
fn link_share(
    problem: &Problem,
    prefix: &Prefix,
    list: &[(u32, i64)],
    place: Place,
    lesser_first: bool,
    link: OpenLink,
    a: LineId,
    b: LineId,
) -> i64
    requires fits { IsPrefixOf problem.now.segs prefix.now }
    requires small { AreSmallPrices list.now }
    requires link { IsPair problem.now.segs link.seg link.other a b link.weight }
    ensures share { result ≡ link_share prefix.now.placed list.now place.seg place.pair lesser_first link a b }
    ensures small { unsigned_abs result ≤ 256000 }
{
    if place.is_at(link.seg, a, b) {
        return here_share(problem, prefix, list, lesser_first, link, a, b);
    }
    if place.is_at(link.other, a, b) {
        return there_share(problem, prefix, list, lesser_first, link, a, b);
    }
    0
}

/// What a Link adds on its segment by an order of its lines there.
fn here_share(
    problem: &Problem,
    prefix: &Prefix,
    list: &[(u32, i64)],
    lesser_first: bool,
    link: OpenLink,
    a: LineId,
    b: LineId,
) -> i64
    requires fits { IsPrefixOf problem.now.segs prefix.now }
    requires small { AreSmallPrices list.now }
    requires link { IsPair problem.now.segs link.seg link.other a b link.weight }
    ensures share { result ≡ here_share prefix.now.placed list.now lesser_first link a b }
    ensures small { unsigned_abs result ≤ 256000 }
{
    if prefix.is_decided(problem, link.seg, a, b) {
        return 0;
    }
    if prefix.is_decided(problem, link.other, a, b) {
        let there = prefix.comes_before(problem, link.other, a, b);
        return weight_where(link, lesser_first == there);
    }
    if lesser_first {
        0
    } else {
        0 - price_of(list, link.number)
    }
}

/// What a Link adds on its other segment by an order of its lines there.
fn there_share(
    problem: &Problem,
    prefix: &Prefix,
    list: &[(u32, i64)],
    lesser_first: bool,
    link: OpenLink,
    a: LineId,
    b: LineId,
) -> i64
    requires fits { IsPrefixOf problem.now.segs prefix.now }
    requires small { AreSmallPrices list.now }
    requires link { IsPair problem.now.segs link.seg link.other a b link.weight }
    ensures share { result ≡ there_share prefix.now.placed list.now lesser_first link a b }
    ensures small { unsigned_abs result ≤ 256000 }
{
    if prefix.is_decided(problem, link.other, a, b) {
        return 0;
    }
    if prefix.is_decided(problem, link.seg, a, b) {
        let here = prefix.comes_before(problem, link.seg, a, b);
        return weight_where(link, here == lesser_first);
    }
    if link.flip == lesser_first {
        price_of(list, link.number)
    } else {
        0
    }
}

/// The weight of a Link whose lines stand in one order on both segments, or do not, if that costs.
fn weight_where(link: OpenLink, same: bool) -> i64
    requires { link.weight ≤ 256000 }
    ensures weight { result ≡ pos (if same_answer link.flip same then link.weight else 0) }
    ensures small { unsigned_abs result ≤ 256000 }
{
    if link.flip == same {
        i64::from(link.weight)
    } else {
        0
    }
}
