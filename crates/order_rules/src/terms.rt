//! What rules read of terms.

ghost use Rattle.std.specs.Prelude.{◌≡◌};
ghost use Rattle.map_base.specs.declared.ids.LineId.{LineId};
ghost use Rattle.order_model.specs.Costs.{are_these};
ghost use Rattle.order_model.specs.Parts.{is_between};
ghost use Rattle.order_model.specs.Places.{has_line};
ghost use Rattle.order_model.specs.Problems.{lines_on};
ghost use Rattle.order_rules.specs.PairWeights.{is_side, is_apart, is_on, is_of_lines};
ghost use Rattle.order_rules.specs.Merging.{turned, renamed};

use map_base::{LineId, SegId, Sequence};
use order_model::{Term, ends_of};

/// The lines of a segment, none where there is no such segment.
pub fn lines_on(segs: &[Sequence<LineId>], seg: SegId) -> &[LineId]
    ensures { result.now ≡ lines_on segs.now seg }
{
    match segs.get(seg.0 as usize) {
        Some(lines) => lines.as_slice(),
        None => &[],
    }
}

/// Whether the line is one of these.
pub fn has_line(lines: &[LineId], line: LineId) -> bool
    ensures { result ≡ has_line lines.now line }
{
    lines.iter().any(|other| *other == line)
}

/// Whether the term is a Side.
pub(crate) fn is_side(term: Term) -> bool
    ensures { result ≡ is_side term }
{
    match term {
        Term::Side { .. } => true,
        Term::Link { .. } | Term::Apart { .. } => false,
    }
}

/// Whether the term is an Apart.
pub fn is_apart(term: Term) -> bool
    ensures { result ≡ is_apart term }
{
    match term {
        Term::Apart { .. } => true,
        Term::Side { .. } | Term::Link { .. } => false,
    }
}

/// The two lines of a term: of a Side the first and the second, else the lesser and the greater.
pub fn lines_of(term: Term) -> (LineId, LineId)
    ensures { (a b : LineId) → is_of_lines a b term ≡ are_these result.0 result.1 a b }
{
    match term {
        Term::Side { first, second, .. } => (first, second),
        Term::Link { a, b, .. } => (a, b),
        Term::Apart { a, b, .. } => (a, b),
    }
}

/// Whether the term is one of these two lines.
pub(crate) fn is_of_lines(term: Term, a: LineId, b: LineId) -> bool
    ensures { result ≡ is_of_lines a b term }
{
    let (x, y) = lines_of(term);
    if x == a && y == b {
        return true;
    }
    x == b && y == a
}

/// Whether the term stands on the segment.
pub fn is_on(term: Term, seg: SegId) -> bool
    ensures { result ≡ is_on seg term }
{
    let (here, there) = ends_of(term);
    if here == seg {
        return true;
    }
    there == seg
}

/// Whether the term is a Link or an Apart between the two segments.
pub fn is_between(term: Term, e: SegId, f: SegId) -> bool
    ensures { result ≡ is_between term e.0 f.0 }
{
    match term {
        Term::Side { .. } => false,
        Term::Link { seg, other, .. } | Term::Apart { seg, other, .. } => {
            (e == seg && f == other) || (e == other && f == seg)
        }
    }
}

/// The segment e where this is f.
pub(crate) fn renamed(e: SegId, f: SegId, seg: SegId) -> SegId
    ensures { result ≡ renamed e f seg }
{
    if seg == f { e } else { seg }
}

/// The Link or Apart with its lesser segment first.
pub(crate) fn turned(term: Term) -> Term
    ensures { result ≡ turned term }
{
    match term {
        Term::Link {
            seg,
            other,
            flip,
            a,
            b,
            w,
        } if other.0 < seg.0 => Term::Link {
            seg: other,
            other: seg,
            flip,
            a,
            b,
            w,
        },
        Term::Apart {
            seg,
            other,
            a,
            b,
            w,
        } if other.0 < seg.0 => Term::Apart {
            seg: other,
            other: seg,
            a,
            b,
            w,
        },
        other => other,
    }
}
