//! What a placing changes on a segment: the pairs of lines that are decided there with it, and not without.

ghost use Rattle.std.specs.Prelude.{◌≡◌, ◌<◌, ◌≤◌, ◌-◌, ◌&&◌, ◌||◌, length, take, slice_index_or};
ghost use Rattle.order_model.specs.Places.{has_line};
ghost use Rattle.order_model.specs.Problems.{lines_on};
ghost use Rattle.order_model.specs.PartTerms.{is_in};
ghost use Rattle.order_model.specs.Prefixes.{IsPrefixOf};
ghost use Rattle.part_bounds.specs.Changes.{is_among_last, has_among_last, is_known, is_new_pair};

use crate::pair_terms::{PairTerms, is_in};
use map_base::{LineId, SegId};
use order_bound::Pair;
use order_model::{Prefix, Problem};

/// A placing on a segment, done or taken back: the lines that are placed there without it, and the last two that are
/// placed with it. It places none but these.
#[derive(Drop)]
pub(crate) struct Change<'a> {
    pub(crate) seg: SegId,
    pub(crate) known: &'a [LineId],
    pub(crate) last: (LineId, LineId),
}

/// How many lines are placed on a segment.
pub(crate) fn placed_count(problem: &Problem, prefix: &Prefix, seg: SegId) -> usize
    requires fits { IsPrefixOf problem.now.segs prefix.now }
    requires here { seg.0 < length problem.now.segs }
    ensures { result ≡ length (lines_on prefix.now.placed seg) }
{
    prefix.placed(seg).len()
}

/// The last line that is placed on a segment, and the one before it, or the same where it stands alone.
pub(crate) fn last_two(problem: &Problem, prefix: &Prefix, seg: SegId) -> (LineId, LineId)
    requires fits { IsPrefixOf problem.now.segs prefix.now }
    requires here { seg.0 < length problem.now.segs }
    requires some { 0 < length (lines_on prefix.now.placed seg) }
    ensures last { result.0 ≡ slice_index_or (lines_on prefix.now.placed seg) (length (lines_on prefix.now.placed seg) - 1) result.0 }
    ensures before { result.1 ≡ slice_index_or (lines_on prefix.now.placed seg) (length (lines_on prefix.now.placed seg) - 2) result.1 }
{
    last_two_of(prefix.placed(seg))
}

/// The last of some lines, and the one before it, or the same where it stands alone.
fn last_two_of(lines: &[LineId]) -> (LineId, LineId)
    requires some { 0 < length lines.now }
    ensures last { result.0 ≡ slice_index_or lines.now (length lines.now - 1) result.0 }
    ensures before { result.1 ≡ slice_index_or lines.now (length lines.now - 2) result.1 }
{
    let last = lines[lines.len() - 1];
    let before = lines[lines.len().saturating_sub(2)];
    (last, before)
}

/// The change by a placing that leaves so many of the placed lines of a segment as they are, with the last two that are
/// placed with it.
pub(crate) fn change_on<'a>(
    problem: &Problem,
    prefix: &'a Prefix,
    seg: SegId,
    count: usize,
    last: (LineId, LineId),
) -> Change<'a>
    requires fits { IsPrefixOf problem.now.segs prefix.now }
    requires here { seg.0 < length problem.now.segs }
    requires within { count ≤ length (lines_on prefix.now.placed seg) }
    ensures seg { result.seg ≡ seg }
    ensures known { result.known.now ≡ take count (lines_on prefix.now.placed seg) }
    ensures last { result.last ≡ last }
{
    let placed = prefix.placed(seg);
    Change {
        seg,
        known: &placed[..count],
        last,
    }
}

/// Whether a pair is decided on the segment with the placing and not without, and has a term there.
pub(crate) fn is_changed(change: &Change, entry: &PairTerms) -> bool
    ensures { result ≡ is_new_pair change.now entry.now.pair && is_in entry.now.segs.items change.now.seg }
{
    if !is_new_pair(change, entry.pair) {
        return false;
    }
    is_in(entry.segs.as_slice(), change.seg)
}

/// Whether a pair is decided with the placing and not without.
pub(crate) fn is_new_pair(change: &Change, pair: Pair) -> bool
    ensures { result ≡ is_new_pair change.now pair }
{
    if !has_among_last(change, pair) {
        return false;
    }
    !is_known(change, pair)
}

/// Whether one of two lines is among the last two that are placed with the placing.
fn has_among_last(change: &Change, pair: Pair) -> bool
    ensures { result ≡ has_among_last change.now pair }
{
    if is_among_last(change, pair.lesser) {
        return true;
    }
    is_among_last(change, pair.greater)
}

/// Whether a line is among the last two that are placed with the placing.
fn is_among_last(change: &Change, line: LineId) -> bool
    ensures { result ≡ is_among_last change.now line }
{
    if change.last.0.0 == line.0 {
        return true;
    }
    change.last.1.0 == line.0
}

/// Whether one of two lines is placed without the placing.
fn is_known(change: &Change, pair: Pair) -> bool
    ensures { result ≡ is_known change.now pair }
{
    if has_line(change.known, pair.lesser) {
        return true;
    }
    has_line(change.known, pair.greater)
}

/// Whether a line is one of these.
fn has_line(lines: &[LineId], line: LineId) -> bool
    ensures { result ≡ has_line lines.now line }
{
    lines.iter().any(|own| own.0 == line.0)
}
