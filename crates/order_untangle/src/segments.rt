//! What can be done at one segment, by its lines and the terms on it.

ghost use Rattle.std.specs.Prelude.{◌≡◌, ◌≤◌, IfOk, true, length};
ghost use Rattle.std.specs.List.{list_all};
ghost use Rattle.graph_core.specs.Consistent.{AreRising};
ghost use Rattle.order_model.specs.Places.{has_line};
ghost use Rattle.order_rules.specs.Dividing.{can_part, others};
ghost use Rattle.order_sums.specs.PairSums.{is_light};
ghost use Rattle.order_untangle.specs.Segments.{shares_by, merges_by, flip_by, divides_by, group_by, first_group, first_alone, most_by_lines};

use crate::grouping::least_group;
use crate::held_lines::{group_parts, held_rows};
use map_base::{LineId, NoMemory, SegId, Sequence};
use order_model::Term;
use order_rules::{have_flip, is_group, same_lines};
use order_sums::{all_outweigh, most_apart, pair_table};
use std::alloc::Global;

/// Whether `from`, which has these terms and lines, can take its order from `into`, or with `flip` the reverse.
pub(crate) fn merges_by(
    alloc: Global,
    terms: &[Term],
    into_lines: &[LineId],
    lines: &[LineId],
    into: SegId,
    from: SegId,
    flip: bool,
) -> Result<bool, NoMemory>
    requires rising { AreRising lines.now }
    requires few { length terms.now ≤ 4000000 }
    requires light { list_all is_light terms.now ≡ true }
    ensures { IfOk result (λ applies. applies ≡ merges_by terms.now into_lines.now lines.now into from flip) }
{
    if !can_share(terms, into_lines, lines, into, from, flip) {
        return Ok(false);
    }
    all_outweigh(alloc, terms, into, from, lines)
}

/// Whether the two are two segments of equal lines with Links between them that all have this flip.
fn can_share(
    terms: &[Term],
    into_lines: &[LineId],
    lines: &[LineId],
    into: SegId,
    from: SegId,
    flip: bool,
) -> bool
    ensures { result ≡ shares_by terms.now into_lines.now lines.now into from flip }
{
    if into == from || !same_lines(into_lines, lines) {
        return false;
    }
    have_flip(terms, into, from, flip)
}

/// The flip with which `from`, which has these terms and lines, can take its order from `into`, if it can.
pub(crate) fn flip_by(
    alloc: Global,
    terms: &[Term],
    into_lines: &[LineId],
    lines: &[LineId],
    into: SegId,
    from: SegId,
) -> Result<Option<bool>, NoMemory>
    requires rising { AreRising lines.now }
    requires few { length terms.now ≤ 4000000 }
    requires light { list_all is_light terms.now ≡ true }
    ensures { IfOk result (λ flip. flip ≡ flip_by terms.now into_lines.now lines.now into from) }
{
    if merges_by(alloc, terms, into_lines, lines, into, from, false)? {
        return Ok(Some(false));
    }
    if merges_by(alloc, terms, into_lines, lines, into, from, true)? {
        return Ok(Some(true));
    }
    Ok(None)
}

/// Whether the group can stand before the other lines of the segment, which has these terms and lines.
pub(crate) fn divides_by(
    alloc: Global,
    terms: &[Term],
    seg: SegId,
    lines: &[LineId],
    group: &[LineId],
) -> Result<bool, NoMemory>
    requires rising { AreRising lines.now }
    requires few { length terms.now ≤ 4000000 }
    requires light { list_all is_light terms.now ≡ true }
    ensures { IfOk result (λ applies. applies ≡ divides_by terms.now seg lines.now group.now) }
{
    if !is_group(lines, group) {
        return Ok(false);
    }
    if terms.is_empty() {
        return Ok(true);
    }
    let parts = parts_by(alloc, terms, seg, lines, group)?;
    Ok(parts)
}

/// Whether each line of the group can stand before each of the other lines of the segment.
fn parts_by(
    alloc: Global,
    terms: &[Term],
    seg: SegId,
    lines: &[LineId],
    group: &[LineId],
) -> Result<bool, NoMemory>
    requires rising { AreRising lines.now }
    requires few { length terms.now ≤ 4000000 }
    requires light { list_all is_light terms.now ≡ true }
    requires among { list_all (has_line lines.now) group.now ≡ true }
    ensures { IfOk result (λ all. all ≡ list_all (λ a. list_all (can_part (most_by_lines terms.now seg lines.now) terms.now seg a) (others lines.now group.now)) group.now) }
{
    let table = pair_table(alloc, terms, seg, seg, lines)?;
    let cells = table.as_slice();
    let most = most_apart(cells, lines);
    let parts = group_parts(alloc, cells, lines, most, group)?;
    Ok(parts)
}

/// The closure of the least line of a segment whose closure is not all its lines, if there is one. The segment has these
/// terms and lines.
pub(crate) fn group_by(
    alloc: Global,
    terms: &[Term],
    seg: SegId,
    lines: &[LineId],
) -> Result<Option<Sequence<LineId>>, NoMemory>
    requires rising { AreRising lines.now }
    requires few { length terms.now ≤ 4000000 }
    requires light { list_all is_light terms.now ≡ true }
    ensures { IfOk result (λ group. group ≡ first_group (group_by terms.now seg lines.now) lines.now) }
{
    if terms.is_empty() {
        let group = first_alone(alloc, lines)?;
        return Ok(group);
    }
    let group = closed_group(alloc, terms, seg, lines)?;
    Ok(group)
}

/// The closure of the least line of a segment whose closure is not all its lines, if there is one, by the sums of each
/// two lines.
fn closed_group(
    alloc: Global,
    terms: &[Term],
    seg: SegId,
    lines: &[LineId],
) -> Result<Option<Sequence<LineId>>, NoMemory>
    requires rising { AreRising lines.now }
    requires few { length terms.now ≤ 4000000 }
    requires light { list_all is_light terms.now ≡ true }
    ensures { IfOk result (λ group. group ≡ first_group (group_by terms.now seg lines.now) lines.now) }
{
    let table = pair_table(alloc, terms, seg, seg, lines)?;
    let cells = table.as_slice();
    let most = most_apart(cells, lines);
    let rows = held_rows(alloc, cells, lines, most)?;
    let group = least_group(alloc, lines, rows.as_slice())?;
    Ok(group)
}

/// The first of these lines alone, if it is not all of them.
fn first_alone(alloc: Global, lines: &[LineId]) -> Result<Option<Sequence<LineId>>, NoMemory>
    ensures { IfOk result (λ group. group ≡ first_alone lines.now) }
{
    if lines.len() < 2 {
        return Ok(None);
    }
    let mut group = Vec::new(alloc);
    group.push(lines[0])?;
    Ok(Some(Sequence::of(group)))
}
