//! What rules make of a problem.

ghost use Rattle.std.specs.Prelude.{◌≡◌, ◌<◌, ◌^◌, IfOk, IsTrue, length, map, filter, not, slice_set};
ghost use Rattle.order_model.specs.Parts.{is_between};
ghost use Rattle.order_rules.specs.Merging.{merge_applies, merged, moved};
ghost use Rattle.order_rules.specs.Dividing.{divide_applies, divided, others, is_across, sent};
ghost use Rattle.order_rules.specs.Untangling.{rule_applies, after_rule};

use crate::divides::{divide_applies, is_across, sent};
use crate::merges::{merge_applies, moved};
use crate::terms::{has_line, is_between, lines_on};
use map_base::{LineId, NoMemory, SegId, Sequence};
use order_model::{Problem, ProblemParts, Term};
use order_values::Rule;
use std::alloc::Global;

/// Whether the rule applies to the problem.
pub fn rule_applies(problem: &Problem, rule: &Rule) -> bool
    ensures { result ≡ rule_applies problem.now rule.now }
{
    match rule {
        Rule::Merge { into, from, flip } => merge_applies(problem, *into, *from, *flip),
        Rule::Divide { seg, first } => divide_applies(problem, *seg, first.as_slice()),
    }
}

/// The problem after a rule that applies to it.
pub fn apply_rule(alloc: Global, problem: Problem, rule: &Rule) -> Result<Problem, NoMemory>
    requires { IsTrue (rule_applies problem rule.now) }
    ensures { IfOk result (λ p. p ≡ after_rule problem rule.now) }
{
    match rule {
        Rule::Merge { into, from, flip } => Ok(merged(alloc, problem, *into, *from, *flip)),
        Rule::Divide { seg, first } => divided(alloc, problem, *seg, first.as_slice()),
    }
}

/// The problem in which `from` has no lines, and its terms are those of `into`.
fn merged(alloc: Global, problem: Problem, into: SegId, from: SegId, flip: bool) -> Problem
    requires { IsTrue (merge_applies problem into from flip) }
    ensures { result ≡ merged problem into from flip }
{
    let parts = problem.into_parts();
    let merged = merged_parts(alloc, parts, into, from, flip);
    Problem::new(merged)
}

/// The parts of that problem.
fn merged_parts(
    alloc: Global,
    parts: ProblemParts,
    into: SegId,
    from: SegId,
    flip: bool,
) -> ProblemParts
    requires { from.0 < length parts.segs }
    ensures { result ≡ merged parts into from flip }
{
    let segs = with_lines(parts.segs.into_vec(), from, Vec::new(alloc));
    let terms = moved_terms(parts.terms.into_vec(), into, from, flip);
    ProblemParts {
        segs: Sequence::of(segs),
        terms: Sequence::of(terms),
    }
}

/// The lines of segments, of which one has these.
pub fn with_lines(
    mut segs: Vec<Sequence<LineId>>,
    seg: SegId,
    lines: Vec<LineId>,
) -> Vec<Sequence<LineId>>
    requires { seg.0 < length segs.items }
    ensures { result.items ≡ slice_set segs.items seg.0 lines.items }
{
    segs[seg.0 as usize] = Sequence::of(lines);
    segs
}

/// The terms after a merge.
fn moved_terms(terms: Vec<Term>, into: SegId, from: SegId, flip: bool) -> Vec<Term>
    ensures { result.items ≡ map (moved into from flip) (filter (λ t. not (is_between t into.0 from.0)) terms.items) }
{
    all_moved(without_between(terms, into, from), into, from, flip)
}

/// The terms that do not lie between the two segments.
fn without_between(mut terms: Vec<Term>, into: SegId, from: SegId) -> Vec<Term>
    ensures { result.items ≡ filter (λ t. not (is_between t into.0 from.0)) terms.items }
{
    terms.retain(|t| !is_between(*t, into, from));
    terms
}

/// Each of these terms moved.
fn all_moved(mut terms: Vec<Term>, into: SegId, from: SegId, flip: bool) -> Vec<Term>
    ensures { result.items ≡ map (moved into from flip) terms.items }
{
    for term in terms.iter_mut() {
        *term = moved(into, from, flip, *term);
    }
    terms
}

/// The problem in which the segment keeps the group, and a new last segment has its other lines.
fn divided(
    alloc: Global,
    problem: Problem,
    seg: SegId,
    group: &[LineId],
) -> Result<Problem, NoMemory>
    requires { IsTrue (divide_applies problem seg group.now) }
    ensures { IfOk result (λ p. p ≡ divided problem seg group.now) }
{
    let parts = problem.into_parts();
    let divided = divided_parts(alloc, parts, seg, group)?;
    Ok(Problem::new(divided))
}

/// The parts of that problem.
fn divided_parts(
    alloc: Global,
    parts: ProblemParts,
    seg: SegId,
    group: &[LineId],
) -> Result<ProblemParts, NoMemory>
    requires known { seg.0 < length parts.segs }
    requires few { length parts.segs < 2 ^ 32 }
    ensures { IfOk result (λ p. p ≡ divided parts seg group.now) }
{
    let segs = parts.segs.into_vec();
    let new = SegId(segs.len() as u32);
    let rest = others(alloc, lines_on(segs.as_slice(), seg), group)?;
    let terms = sent_terms(parts.terms.into_vec(), seg, new, group, rest.as_slice());
    let mut segs = with_lines(segs, seg, Vec::from_slice(alloc, group)?);
    segs.push(Sequence::of(rest))?;
    Ok(ProblemParts {
        segs: Sequence::of(segs),
        terms: Sequence::of(terms),
    })
}

/// The lines that are not of the group, in their order.
pub fn others(alloc: Global, lines: &[LineId], group: &[LineId]) -> Result<Vec<LineId>, NoMemory>
    ensures { IfOk result (λ rest. rest.items ≡ others lines.now group.now) }
{
    let mut rest = Vec::new(alloc);
    for line in lines {
        if !has_line(group, *line) {
            rest.push(*line)?;
        }
    }
    Ok(rest)
}

/// The terms after a division: those across the group and the rest are dropped, and those of the rest go to the new segment.
fn sent_terms(
    terms: Vec<Term>,
    seg: SegId,
    new: SegId,
    group: &[LineId],
    rest: &[LineId],
) -> Vec<Term>
    ensures { result.items ≡ map (sent seg new rest.now) (filter (λ t. not (is_across seg group.now rest.now t)) terms.items) }
{
    all_sent(without_across(terms, seg, group, rest), seg, new, rest)
}

/// The terms that are not across the group and the rest.
fn without_across(mut terms: Vec<Term>, seg: SegId, group: &[LineId], rest: &[LineId]) -> Vec<Term>
    ensures { result.items ≡ filter (λ t. not (is_across seg group.now rest.now t)) terms.items }
{
    terms.retain(|t| !is_across(*t, seg, group, rest));
    terms
}

/// Each of these terms sent.
fn all_sent(mut terms: Vec<Term>, seg: SegId, new: SegId, rest: &[LineId]) -> Vec<Term>
    ensures { result.items ≡ map (sent seg new rest.now) terms.items }
{
    for term in terms.iter_mut() {
        *term = sent(seg, new, rest, *term);
    }
    terms
}
