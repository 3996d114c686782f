//! Problems of tests, by the lines of their segments and their terms.

ghost use Rattle.std.specs.Prelude.{◌≡◌, ◌+◌, ◌<◌, ◌≤◌, true, length, sum_by, All, IfOk};
ghost use Rattle.map_base.specs.declared.ids.SegId.{SegId};
ghost use Rattle.graph_core.specs.Consistent.{AreRising};
ghost use Rattle.order_model.specs.Costs.{AreOrders};
ghost use Rattle.order_model.specs.Gathering.{part_lists};
ghost use Rattle.order_model.specs.Parts.{AreParts, IsRisingPart};
ghost use Rattle.order_model.specs.Problems.{choices, IsOn, IsPair, IsTerm, IsWeight};
ghost use Rattle.order_rules.specs.Dividing.{is_rising};

use map_base::{LineId, SegId, Sequence};
use order_model::{Problem, ProblemParts, Term};
use order_rules::{has_line, lines_on};
use order_values::Orders;
use std::alloc::{AllocError, Global};
use std::test::Fail;

/// What a term is.
#[derive(Clone, Copy)]
pub(crate) enum Kind {
    Side,
    Link,
    /// A Link on whose segments the lines stand the other way round.
    Turned,
    Apart,
}

/// A term: its two segments, which for a Side are one, its two lines, and its weight.
pub(crate) type Row = (Kind, u32, u32, u32, u32, u32);

/// The lines whose bits are set in a number, rising.
fn lines_of(alloc: Global, mask: u32) -> Result<Sequence<LineId>, AllocError> {
    let mut lines = Vec::new(alloc);
    for line in 0..32_u32 {
        if mask >> line & 1 == 1 {
            lines.push(LineId(line))?;
        }
    }
    Ok(Sequence::of(lines))
}

/// The lines of each segment, and the terms of these rows.
fn parts_of_rows(alloc: Global, masks: &[u32], rows: &[Row]) -> Result<ProblemParts, AllocError> {
    let mut segs = Vec::with_capacity(alloc, masks.len())?;
    for mask in masks {
        segs.push(lines_of(alloc, *mask)?)?;
    }
    Ok(ProblemParts {
        segs: Sequence::of(segs),
        terms: Sequence::of(terms_of(alloc, rows)?),
    })
}

/// The terms of these rows.
fn terms_of(alloc: Global, rows: &[Row]) -> Result<Vec<Term>, AllocError> {
    let mut terms = Vec::with_capacity(alloc, rows.len())?;
    for row in rows {
        terms.push(term_of(*row))?;
    }
    Ok(terms)
}

/// The term of a row.
fn term_of(row: Row) -> Term {
    let (kind, seg, other, first, second, w) = row;
    let (seg, other) = (SegId(seg), SegId(other));
    let (a, b) = (LineId(first), LineId(second));
    match kind {
        Kind::Side => Term::Side {
            seg,
            first: a,
            second: b,
            w,
        },
        Kind::Link => Term::Link {
            seg,
            other,
            flip: false,
            a,
            b,
            w,
        },
        Kind::Turned => Term::Link {
            seg,
            other,
            flip: true,
            a,
            b,
            w,
        },
        Kind::Apart => Term::Apart {
            seg,
            other,
            a,
            b,
            w,
        },
    }
}

/// The problem whose segments have the lines that are the bits of these numbers, with the terms of these rows.
pub(crate) fn problem_of(alloc: Global, masks: &[u32], rows: &[Row]) -> Result<Problem, Fail> {
    let parts = parts_of_rows(alloc, masks, rows)?;
    Ok(checked(parts).ok_or("a problem")?)
}

/// The problem of these parts, if they fit together and are small.
fn checked(parts: ProblemParts) -> Option<Problem> {
    if is_problem(&parts) {
        Some(Problem::new(parts))
    } else {
        None
    }
}

/// Whether parts fit together and are small.
#[tactic(auto, using(crate::proofs::Checked::few))]
fn is_problem(parts: &ProblemParts) -> bool
    ensures rising { result ≡ true → All AreRising parts.now.segs }
    ensures terms { result ≡ true → All (IsTerm parts.now.segs) parts.now.terms }
    ensures few_terms { result ≡ true → length parts.now.terms ≤ 4000000 }
    ensures few_choices { result ≡ true → length parts.now.segs + sum_by choices parts.now.segs ≤ 20000000 }
{
    let segs = parts.segs.as_slice();
    let terms = parts.terms.as_slice();
    if segs.len() > 10_000 {
        return false;
    }
    if terms.len() > 4_000_000 {
        return false;
    }
    if !all_rise(segs) {
        return false;
    }
    if !are_few(segs) {
        return false;
    }
    are_terms(segs, terms)
}

/// Whether the lines of each segment rise.
fn all_rise(segs: &[Sequence<LineId>]) -> bool
    ensures { result ≡ true → All AreRising segs.now }
{
    for lines in segs {
        if !rise(lines.as_slice()) {
            return false;
        }
    }
    true
}

/// Whether each segment has few lines.
fn are_few(segs: &[Sequence<LineId>]) -> bool
    ensures { result ≡ true → All (λ lines. choices lines ≤ 1000) segs.now }
{
    for lines in segs {
        if lines.as_slice().len() > 1000 {
            return false;
        }
    }
    true
}

/// Whether lines rise, each above the one before.
fn rise(lines: &[LineId]) -> bool
    ensures { result ≡ true → AreRising lines.now }
{
    are_rising(lines)
}

/// Whether lines rise.
#[tactic(auto, using(order_rules::proofs::LineLists::rising_more, order_rules::proofs::LineLists::rising_done))]
fn are_rising(lines: &[LineId]) -> bool
    ensures { result ≡ is_rising lines.now }
{
    for i in 1..lines.len() {
        if lines[i - 1].0 >= lines[i].0 {
            return false;
        }
    }
    true
}

/// Whether terms name segments and lines that there are.
fn are_terms(segs: &[Sequence<LineId>], terms: &[Term]) -> bool
    ensures { result ≡ true → All (IsTerm segs.now) terms.now }
{
    for term in terms {
        if !is_term(segs, *term) {
            return false;
        }
    }
    true
}

/// Whether a term names segments and lines that there are.
fn is_term(segs: &[Sequence<LineId>], term: Term) -> bool
    ensures { result ≡ true → IsTerm segs.now term }
{
    match term {
        Term::Side {
            seg,
            first,
            second,
            w,
        } => {
            if first.0 == second.0 || !is_weight(w) {
                return false;
            }
            stand_on(segs, seg, first, second)
        }
        Term::Link {
            seg,
            other,
            a,
            b,
            w,
            ..
        } => is_pair(segs, seg, other, a, b, w),
        Term::Apart {
            seg,
            other,
            a,
            b,
            w,
        } => is_pair(segs, seg, other, a, b, w),
    }
}

/// Whether two lines stand on two segments, each time the lesser first.
fn is_pair(
    segs: &[Sequence<LineId>],
    seg: SegId,
    other: SegId,
    a: LineId,
    b: LineId,
    w: u32,
) -> bool
    ensures { result ≡ true → IsPair segs.now seg other a b w }
{
    if seg.0 >= other.0 || a.0 >= b.0 || !is_weight(w) {
        return false;
    }
    if !stand_on(segs, seg, a, b) {
        return false;
    }
    stand_on(segs, other, a, b)
}

/// Whether a weight is allowed.
fn is_weight(w: u32) -> bool
    ensures { result ≡ true → IsWeight w }
{
    if w == 0 {
        return false;
    }
    w <= 256_000
}

/// Whether two lines stand on a segment.
fn stand_on(segs: &[Sequence<LineId>], seg: SegId, a: LineId, b: LineId) -> bool
    ensures known { result ≡ true → seg.0 < length segs.now }
    ensures first { result ≡ true → IsOn segs.now seg a }
    ensures second { result ≡ true → IsOn segs.now seg b }
{
    if seg.0 as usize >= segs.len() || !is_on(segs, seg, a) {
        return false;
    }
    is_on(segs, seg, b)
}

/// Whether a line stands on a segment.
fn is_on(segs: &[Sequence<LineId>], seg: SegId, line: LineId) -> bool
    ensures { result ≡ true → IsOn segs.now seg line }
{
    has_line(lines_on(segs, seg), line)
}

/// A part of a problem.
pub(crate) fn part_at<'a>(problem: &Problem, parts: &'a [Vec<SegId>], k: usize) -> &'a [SegId]
    requires classes { AreParts problem.now.segs problem.now.terms (part_lists parts.now) }
    requires known { k < length parts.now }
    ensures known { All (λ (s : SegId). s.0 < length problem.now.segs) result.now }
    ensures rising { IsRisingPart result.now }
{
    parts[k].as_slice()
}

/// The lines of each segment, by number.
#[tactic(auto, using(crate::proofs::Checked::same_orders))]
pub(crate) fn number_order(alloc: Global, problem: &Problem) -> Result<Orders, AllocError>
    ensures { IfOk result (λ o. AreOrders problem.now.segs o.lists) }
{
    let lists = copied(alloc, problem.segs())?;
    Ok(Orders {
        lists: Sequence::of(lists),
    })
}

/// Copies of lists of lines.
fn copied(alloc: Global, segs: &[Sequence<LineId>]) -> Result<Vec<Sequence<LineId>>, AllocError>
    ensures { IfOk result (λ lists. lists.items ≡ segs.now) }
{
    let mut lists = Vec::with_capacity(alloc, segs.len())?;
    for lines in segs {
        let list = Vec::from_slice(alloc, lines.as_slice())?;
        lists.push(Sequence::of(list))?;
    }
    Ok(lists)
}
