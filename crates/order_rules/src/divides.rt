//! When a group of a segment's lines can stand before its other lines, and what then becomes of terms.

ghost use Rattle.std.specs.Prelude.{not, ◌≡◌, ◌≤◌, ◌<◌, ◌^◌, ◌&&◌, ◌||◌, length, max, if◌then◌else◌};
ghost use Rattle.std.specs.List.{list_all, list_any};
ghost use Rattle.order_model.specs.Costs.{weight_of};
ghost use Rattle.order_model.specs.Places.{has_line};
ghost use Rattle.order_rules.specs.PairWeights.{weight_where, most_by, most_over_pairs, is_side, is_apart, is_on, is_of_lines};
ghost use Rattle.order_rules.specs.Dividing.{divide_applies, are_none, is_rising, is_group, others, is_against, can_part, is_with, is_across, renumbered, sent};

use crate::terms::{has_line, is_apart, is_of_lines, is_on, is_side, lines_on, renamed, turned};
use map_base::{LineId, SegId};
use order_model::{Problem, Term, weight_of};

/// Whether the lines `first` of a segment can stand before its other lines at no cost: they rise, and are some of its
/// lines and not all; and for each of them and each other line no term on the segment speaks against it, and the Sides
/// of the two there weigh at least twice the greatest weight that the Aparts of two lines have on the segment.
pub fn divide_applies(problem: &Problem, seg: SegId, first: &[LineId]) -> bool
    ensures { result ≡ divide_applies problem.now seg first.now }
{
    let lines = lines_on(problem.segs(), seg);
    group_applies(problem.terms(), seg, lines, first)
}

/// Whether the group of these lines of the segment can stand before the others.
fn group_applies(terms: &[Term], seg: SegId, lines: &[LineId], group: &[LineId]) -> bool
    requires { length terms.now ≤ 4000000 }
    ensures { result ≡ (is_group lines.now group.now && list_all (λ a. list_all (can_part (most_over_pairs (λ x y. weight_where (λ t. is_apart t && is_on seg t && is_of_lines x y t) terms.now) lines.now) terms.now seg a) (others lines.now group.now)) group.now) }
{
    if !is_group(lines, group) {
        return false;
    }
    can_all_part(terms, seg, lines, group)
}

/// Whether each line of the group can stand before each of the others.
fn can_all_part(terms: &[Term], seg: SegId, lines: &[LineId], group: &[LineId]) -> bool
    requires { length terms.now ≤ 4000000 }
    ensures { result ≡ list_all (λ a. list_all (can_part (most_over_pairs (λ x y. weight_where (λ t. is_apart t && is_on seg t && is_of_lines x y t) terms.now) lines.now) terms.now seg a) (others lines.now group.now)) group.now }
{
    all_part_from_rest(terms, seg, most_apart(terms, seg, lines), lines, group)
}

/// Whether each line of the group can stand before each of the others, where Aparts of two lines weigh so much at most.
fn all_part_from_rest(
    terms: &[Term],
    seg: SegId,
    most: u64,
    lines: &[LineId],
    group: &[LineId],
) -> bool
    requires few { length terms.now ≤ 4000000 }
    requires most { most < 2 ^ 63 }
    ensures { result ≡ list_all (λ a. list_all (can_part most terms.now seg a) (others lines.now group.now)) group.now }
{
    group.iter().all(|line| can_part_from_rest(terms, seg, most, *line, lines, group))
}

/// Whether the group is rising lines of these, some and not all.
pub fn is_group(lines: &[LineId], group: &[LineId]) -> bool
    ensures { result ≡ is_group lines.now group.now }
{
    if !are_rising_of(lines, group) || !has_some(group) {
        return false;
    }
    leaves_some(lines, group)
}

/// Whether the group is rising lines of these.
fn are_rising_of(lines: &[LineId], group: &[LineId]) -> bool
    ensures { result ≡ (is_rising group.now && list_all (has_line lines.now) group.now) }
{
    if !is_rising(group) {
        return false;
    }
    has_all(lines, group)
}

/// Whether there are some.
#[tactic(auto, using(crate::proofs::LineLists::none_by_length, crate::proofs::LineLists::some_by_length))]
fn has_some(group: &[LineId]) -> bool
    ensures { result ≡ not (are_none group.now) }
{
    !group.is_empty()
}

/// Whether one of these lines is not of the group.
pub fn leaves_some(lines: &[LineId], group: &[LineId]) -> bool
    ensures { result ≡ not (are_none (others lines.now group.now)) }
{
    has_other(lines, group)
}

/// Whether a search finds one of these lines that is not of the group.
fn has_other(lines: &[LineId], group: &[LineId]) -> bool
    ensures { result ≡ list_any (λ b. not (has_line group.now b)) lines.now }
{
    lines.iter().any(|b| !has_line(group, *b))
}

/// Whether these lines have each of the group.
fn has_all(lines: &[LineId], group: &[LineId]) -> bool
    ensures { result ≡ list_all (has_line lines.now) group.now }
{
    group.iter().all(|a| has_line(lines, *a))
}

/// Whether lines rise strictly.
#[tactic(auto, using(crate::proofs::LineLists::rising_more, crate::proofs::LineLists::rising_done))]
fn is_rising(lines: &[LineId]) -> bool
    ensures { result ≡ is_rising lines.now }
{
    for i in 1..lines.len() {
        if lines[i - 1].0 >= lines[i].0 {
            return false;
        }
    }
    true
}

/// Whether the line can stand before each of the lines that are not of the group.
pub fn can_part_from_rest(
    terms: &[Term],
    seg: SegId,
    most: u64,
    line: LineId,
    lines: &[LineId],
    group: &[LineId],
) -> bool
    requires few { length terms.now ≤ 4000000 }
    requires most { most < 2 ^ 63 }
    ensures { result ≡ list_all (can_part most terms.now seg line) (others lines.now group.now) }
{
    are_in_or_part(terms, seg, most, line, lines, group)
}

/// Whether each of these lines is of the group, or the line can stand before it.
fn are_in_or_part(
    terms: &[Term],
    seg: SegId,
    most: u64,
    line: LineId,
    lines: &[LineId],
    group: &[LineId],
) -> bool
    requires few { length terms.now ≤ 4000000 }
    requires most { most < 2 ^ 63 }
    ensures { result ≡ list_all (λ b. has_line group.now b || can_part most terms.now seg line b) lines.now }
{
    lines.iter().all(|other| is_in_or_parts(terms, seg, most, line, *other, group))
}

/// Whether the other line is of the group, or the line can stand before it.
fn is_in_or_parts(
    terms: &[Term],
    seg: SegId,
    most: u64,
    line: LineId,
    other: LineId,
    group: &[LineId],
) -> bool
    requires few { length terms.now ≤ 4000000 }
    requires most { most < 2 ^ 63 }
    ensures { result ≡ (has_line group.now other || can_part most terms.now seg line other) }
{
    if has_line(group, other) {
        return true;
    }
    can_part(terms, seg, most, line, other)
}

/// Whether one line can stand before another on the segment.
pub fn can_part(terms: &[Term], seg: SegId, most: u64, a: LineId, b: LineId) -> bool
    requires few { length terms.now ≤ 4000000 }
    requires most { most < 2 ^ 63 }
    ensures { result ≡ can_part most terms.now seg a b }
{
    if !none_against(terms, seg, a, b) {
        return false;
    }
    2 * most <= sides_of(terms, seg, a, b)
}

/// Whether no term speaks against line a before line b on the segment.
fn none_against(terms: &[Term], seg: SegId, a: LineId, b: LineId) -> bool
    ensures { result ≡ list_all (λ t. not (is_against seg a b t)) terms.now }
{
    terms.iter().all(|t| !is_against(*t, seg, a, b))
}

/// Whether a term speaks against line a before line b on the segment: a Link or an Apart of the two, or a Side whose
/// first line is b.
pub(crate) fn is_against(term: Term, seg: SegId, a: LineId, b: LineId) -> bool
    ensures { result ≡ is_against seg a b term }
{
    match term {
        Term::Side {
            seg: at,
            first,
            second,
            ..
        } => at == seg && first == b && second == a,
        Term::Link { .. } | Term::Apart { .. } => is_on(term, seg) && is_of_lines(term, a, b),
    }
}

/// The weight of the Sides of two lines on a segment.
fn sides_of(terms: &[Term], seg: SegId, a: LineId, b: LineId) -> u64
    requires { length terms.now ≤ 4000000 }
    ensures sum { result ≡ weight_where (λ t. is_side t && is_on seg t && is_of_lines a b t) terms.now }
    ensures small { result < 2 ^ 63 }
{
    let mut total: u64 = 0;
    for term in terms {
        total += u64::from(side_weight(*term, seg, a, b));
    }
    total
}

/// The weight of a Side of two lines on a segment, 0 of any other term.
fn side_weight(term: Term, seg: SegId, a: LineId, b: LineId) -> u32
    ensures { result ≡ (if is_side term && is_on seg term && is_of_lines a b term then weight_of term else 0) }
{
    if !is_side(term) || !is_on(term, seg) || !is_of_lines(term, a, b) {
        return 0;
    }
    weight_of(term)
}

/// The greatest weight that the Aparts of two lines on a segment have together.
fn most_apart(terms: &[Term], seg: SegId, lines: &[LineId]) -> u64
    requires { length terms.now ≤ 4000000 }
    ensures most { result ≡ most_over_pairs (λ a b. weight_where (λ t. is_apart t && is_on seg t && is_of_lines a b t) terms.now) lines.now }
    ensures small { result < 2 ^ 63 }
{
    let mut most: u64 = 0;
    let mut rest = lines;
    while let Some((line, others)) = rest.split_first() {
        most = greater(most, most_apart_with(terms, seg, *line, others));
        rest = others;
    }
    most
}

/// The greatest weight that the Aparts of one line and one of these others on a segment have together.
pub fn most_apart_with(terms: &[Term], seg: SegId, line: LineId, others: &[LineId]) -> u64
    requires { length terms.now ≤ 4000000 }
    ensures most { result ≡ most_by (λ b. weight_where (λ t. is_apart t && is_on seg t && is_of_lines line b t) terms.now) others.now }
    ensures small { result < 2 ^ 63 }
{
    let mut most: u64 = 0;
    let mut rest = others;
    while let Some((other, later)) = rest.split_first() {
        most = greater(most, aparts_of(terms, seg, line, *other));
        rest = later;
    }
    most
}

/// The greater of two numbers.
pub fn greater(a: u64, b: u64) -> u64
    ensures { result ≡ max a b }
{
    if a < b { b } else { a }
}

/// The weight of the Aparts of two lines on a segment.
fn aparts_of(terms: &[Term], seg: SegId, a: LineId, b: LineId) -> u64
    requires { length terms.now ≤ 4000000 }
    ensures sum { result ≡ weight_where (λ t. is_apart t && is_on seg t && is_of_lines a b t) terms.now }
    ensures small { result < 2 ^ 63 }
{
    let mut total: u64 = 0;
    for term in terms {
        total += u64::from(apart_weight(*term, seg, a, b));
    }
    total
}

/// The weight of an Apart of two lines on a segment, 0 of any other term.
fn apart_weight(term: Term, seg: SegId, a: LineId, b: LineId) -> u32
    ensures { result ≡ (if is_apart term && is_on seg term && is_of_lines a b term then weight_of term else 0) }
{
    if !is_apart(term) || !is_on(term, seg) || !is_of_lines(term, a, b) {
        return 0;
    }
    weight_of(term)
}

/// Whether one of these lines is one of the term's two.
pub fn is_with(term: Term, lines: &[LineId]) -> bool
    ensures { result ≡ is_with lines.now term }
{
    match term {
        Term::Side { first, second, .. } => has_either(lines, first, second),
        Term::Link { a, b, .. } | Term::Apart { a, b, .. } => has_either(lines, a, b),
    }
}

/// Whether one of the two is one of these lines.
fn has_either(lines: &[LineId], a: LineId, b: LineId) -> bool
    ensures { result ≡ (has_line lines.now a || has_line lines.now b) }
{
    if has_line(lines, a) {
        return true;
    }
    has_line(lines, b)
}

/// Whether the term is on the segment, of a line of the group and one of the rest.
pub fn is_across(term: Term, seg: SegId, group: &[LineId], rest: &[LineId]) -> bool
    ensures { result ≡ is_across seg group.now rest.now term }
{
    is_on(term, seg) && is_with(term, group) && is_with(term, rest)
}

/// What becomes of a term that is not across: on the segment it goes with its lines.
pub fn sent(seg: SegId, new: SegId, rest: &[LineId], term: Term) -> Term
    ensures { result ≡ sent seg new rest.now term }
{
    if !is_on(term, seg) || !is_with(term, rest) {
        return term;
    }
    renumbered(seg, new, term)
}

/// The term with another segment's number.
pub(crate) fn renumbered(from: SegId, to: SegId, term: Term) -> Term
    ensures { result ≡ renumbered from to term }
{
    match term {
        Term::Side {
            seg,
            first,
            second,
            w,
        } => Term::Side {
            seg: renamed(to, from, seg),
            first,
            second,
            w,
        },
        Term::Link {
            seg,
            other,
            flip,
            a,
            b,
            w,
        } => turned(Term::Link {
            seg: renamed(to, from, seg),
            other: renamed(to, from, other),
            flip,
            a,
            b,
            w,
        }),
        Term::Apart {
            seg,
            other,
            a,
            b,
            w,
        } => turned(Term::Apart {
            seg: renamed(to, from, seg),
            other: renamed(to, from, other),
            a,
            b,
            w,
        }),
    }
}
