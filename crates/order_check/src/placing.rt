//! The terms that a placing may change.

ghost use Rattle.std.specs.Prelude.{◌≡◌, ◌<◌, ◌++◌, [], ◌∷◌, length, find, unwrap_or, Contains};
ghost use Rattle.order_model.specs.Problems.{lines_on};
ghost use Rattle.order_model.specs.Prefixes.{is_unplaced, IsPrefixOf};
ghost use Rattle.order_check.specs.Placings.{last_or, other_left, left_or, placing_of};

use map_base::{LineId, SegId};
use order_model::{Prefix, Problem};

/// The placing of a line on a segment, with the lines there whose terms it may change: the line itself, the one that is
/// placed last before it, and where no more than three lines are left another one of these.
#[derive(Clone, Copy, Debug)]
pub(crate) struct Placing {
    /// The segment.
    pub(crate) seg: SegId,
    /// The line.
    pub(crate) line: LineId,
    /// The line that is placed last before it; itself where there is none.
    pub(crate) last: LineId,
    /// Another line that is left where few are; else the one that is placed last.
    pub(crate) left: LineId,
}

/// The placing of a line that is next on a segment.
#[inline(never)]
pub(crate) fn placing_of(problem: &Problem, prefix: &Prefix, seg: SegId, line: LineId) -> Placing
    requires fits { IsPrefixOf problem.now.segs prefix.now }
    requires seg { seg.0 < length problem.now.segs }
    ensures { result ≡ placing_of problem.now.segs prefix.now.placed seg line }
{
    Placing {
        seg,
        line,
        last: last_or(prefix.placed(seg), line),
        left: left_or(problem, prefix, seg, line),
    }
}

/// The last of these lines, or another where there is none.
fn last_or(lines: &[LineId], other: LineId) -> LineId
    ensures { result ≡ last_or lines.now other }
{
    if lines.is_empty() {
        return other;
    }
    lines[lines.len() - 1]
}

/// Where no more than three lines are left on a segment, the first of them beside a line that is one of them; else the
/// line that is placed last.
fn left_or(problem: &Problem, prefix: &Prefix, seg: SegId, line: LineId) -> LineId
    requires fits { IsPrefixOf problem.now.segs prefix.now }
    requires seg { seg.0 < length problem.now.segs }
    ensures { result ≡ left_or (lines_on problem.now.segs seg) (lines_on prefix.now.placed seg) line }
{
    let segs = problem.segs();
    let lines = segs[seg.0 as usize].as_slice();
    if lines.len() > prefix.placed(seg).len() + 3 {
        return last_or(prefix.placed(seg), line);
    }
    other_left(problem, prefix, seg, line, lines)
}

/// The first of a segment's lines that is left beside this one; this one where there is none.
#[tactic(auto, using(std::proofs::lemmas::List::at_drop_more))]
fn other_left(
    problem: &Problem,
    prefix: &Prefix,
    seg: SegId,
    line: LineId,
    lines: &[LineId],
) -> LineId
    requires fits { IsPrefixOf problem.now.segs prefix.now }
    requires seg { seg.0 < length problem.now.segs }
    requires lines { lines.now ≡ lines_on problem.now.segs seg }
    ensures { result ≡ other_left (lines_on prefix.now.placed seg) line lines.now }
{
    for other in lines {
        if is_left_beside(problem, prefix, seg, line, *other) {
            return *other;
        }
    }
    line
}

/// Whether another line of a segment is left beside this one.
fn is_left_beside(
    problem: &Problem,
    prefix: &Prefix,
    seg: SegId,
    line: LineId,
    other: LineId,
) -> bool
    requires fits { IsPrefixOf problem.now.segs prefix.now }
    requires seg { seg.0 < length problem.now.segs }
    requires on { Contains (lines_on problem.now.segs seg) other }
    ensures { result ≡ is_unplaced (lines_on prefix.now.placed seg ++ line ∷ []) other }
{
    if other.0 == line.0 {
        return false;
    }
    prefix.is_left(problem, seg, other)
}
