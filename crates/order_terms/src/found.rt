//! Two lines that leave a segment at a node together, and the terms that they make.

ghost use Rattle.std.specs.Prelude.{◌≡◌, ◌+◌, ◌<◌, ◌≤◌, ◌++◌, length, vec_len, flat_map, OnOk, IfErr};
ghost use Rattle.order_terms.specs.Terms.{if_weighed, found_together, together, parting, parted_by, found_by, found_among};
ghost use Rattle.map_base.specs.declared.limit_fault.LimitFault.TheVariants.{Limit as AtLimit};
ghost use Rattle.map_base.specs.declared.limit.LimitKind.TheVariants.{Terms};
ghost use Rattle.map_base.specs.Limits.{limit_of};
ghost use Rattle.order_terms.specs.Limits.{IsAbove};

use map_base::{Limit, LimitFault, LimitKind, LineId, SegId, Weights};

/// The greatest allowed number of terms.
pub(crate) const MOST_TERMS: usize = 4_000_000;

/// A line that goes on from one segment to another.
#[derive(Clone, Copy)]
pub(crate) struct Way {
    /// The line.
    pub line: LineId,
    /// The segment that it goes on to.
    pub to: SegId,
    /// How many places clockwise after the one segment the other stands.
    pub turn: usize,
}

/// The kinds of terms, in the order in which they stand.
#[derive(Clone, Copy, PartialEq, Eq, PartialOrd, Ord)]
pub(crate) enum Kind {
    Side,
    Link,
    Apart,
}

/// A term that was found at a node. Its fields stand in the order by which terms are sorted.
#[derive(Clone, Copy, PartialEq, Eq, PartialOrd, Ord)]
pub(crate) struct Found {
    /// The lesser line.
    pub lesser: LineId,
    /// The greater line.
    pub greater: LineId,
    /// The kind of the term.
    pub kind: Kind,
    /// The segment that both lines leave.
    pub seg: SegId,
    /// The segment that a line goes on to. In a `Side` it is the first of the two, clockwise after `seg`.
    pub to: SegId,
    /// The segment that the other line goes on to.
    pub beside: SegId,
    /// The line that a `Side` wants first; else the lesser line.
    pub first: LineId,
}

/// The end of a segment at a node, with the weights there.
#[derive(Clone, Copy)]
pub(crate) struct SegEnd {
    /// The segment.
    pub seg: SegId,
    /// Whether this is its lower end.
    pub at_lower: bool,
    /// What two lines cost here.
    pub weights: Weights,
}

/// Adds what all ways out of a segment make, two by two, while there are at most `most`.
pub(crate) fn push_found_among(
    found: &mut Vec<Found>,
    most: usize,
    end: SegEnd,
    ways: &[Way],
) -> Result<(), LimitFault>
    requires { vec_len found.old ≤ most }
    ensures ok { OnOk result (found.new.items ≡ found.old.items ++ found_among end.weights end.at_lower end.seg ways.now) }
    ensures few { OnOk result (vec_len found.new ≤ most) }
    ensures err { IfErr result (IsAbove most (vec_len found.old + length (found_among end.weights end.at_lower end.seg ways.now))) }
{
    for u in ways {
        push_found_with(found, most, end, *u, ways)?;
    }
    Ok(())
}

/// Adds what one way makes with each other that has a greater line.
fn push_found_with(
    found: &mut Vec<Found>,
    most: usize,
    end: SegEnd,
    u: Way,
    ways: &[Way],
) -> Result<(), LimitFault>
    requires { vec_len found.old ≤ most }
    ensures ok { OnOk result (found.new.items ≡ found.old.items ++ flat_map (found_by end.weights end.at_lower end.seg u) ways.now) }
    ensures few { OnOk result (vec_len found.new ≤ most) }
    ensures err { IfErr result (IsAbove most (vec_len found.old + length (flat_map (found_by end.weights end.at_lower end.seg u) ways.now))) }
{
    for v in ways {
        push_found_by(found, most, end, u, *v)?;
    }
    Ok(())
}

/// Adds what two ways make, where the first has the lesser line.
fn push_found_by(
    found: &mut Vec<Found>,
    most: usize,
    end: SegEnd,
    u: Way,
    v: Way,
) -> Result<(), LimitFault>
    requires { vec_len found.old ≤ most }
    ensures ok { OnOk result (found.new.items ≡ found.old.items ++ found_by end.weights end.at_lower end.seg u v) }
    ensures few { OnOk result (vec_len found.new ≤ most) }
    ensures err { IfErr result (IsAbove most (vec_len found.old + length (found_by end.weights end.at_lower end.seg u v))) }
{
    if u.line >= v.line {
        return Ok(());
    }
    if u.to == v.to {
        push_together(found, most, end, u, v)
    } else {
        push_weighed(found, most, end.weights.split, apart(end, u, v))
    }
}

/// Adds what two lines make that both go on to one segment.
fn push_together(
    found: &mut Vec<Found>,
    most: usize,
    end: SegEnd,
    u: Way,
    v: Way,
) -> Result<(), LimitFault>
    requires { vec_len found.old ≤ most }
    ensures ok { OnOk result (found.new.items ≡ found.old.items ++ together end.weights end.seg u v) }
    ensures few { OnOk result (vec_len found.new ≤ most) }
    ensures err { IfErr result (IsAbove most (vec_len found.old + length (together end.weights end.seg u v))) }
{
    if end.seg >= u.to {
        return Ok(());
    }
    push_weighed(
        found,
        most,
        end.weights.link,
        found_together(Kind::Link, end.seg, u, v),
    )?;
    push_weighed(
        found,
        most,
        end.weights.sep,
        found_together(Kind::Apart, end.seg, u, v),
    )
}

/// A term of two lines that both go on to one segment.
fn found_together(kind: Kind, seg: SegId, u: Way, v: Way) -> Found
    ensures { result ≡ found_together kind seg u v }
{
    Found {
        lesser: u.line,
        greater: v.line,
        kind,
        seg,
        to: u.to,
        beside: u.to,
        first: u.line,
    }
}

/// The term of two lines that part, the first of them the lesser.
fn apart(end: SegEnd, u: Way, v: Way) -> Found
    ensures { result ≡ parted_by end.at_lower end.seg u v }
{
    if u.turn < v.turn {
        parting(end, u.line, v.line, u, v)
    } else {
        parting(end, u.line, v.line, v, u)
    }
}

/// The term of two lines that part: `a` goes on to the segment that comes first clockwise.
fn parting(end: SegEnd, lesser: LineId, greater: LineId, a: Way, b: Way) -> Found
    ensures { result ≡ parting end.at_lower end.seg lesser greater a b }
{
    Found {
        lesser,
        greater,
        kind: Kind::Side,
        seg: end.seg,
        to: a.to,
        beside: b.to,
        first: if end.at_lower { b.line } else { a.line },
    }
}

/// Adds a term that has a weight, unless there are `most` already.
fn push_weighed(
    found: &mut Vec<Found>,
    most: usize,
    weight: u32,
    x: Found,
) -> Result<(), LimitFault>
    requires { vec_len found.old ≤ most }
    ensures ok { OnOk result (found.new.items ≡ found.old.items ++ if_weighed weight x) }
    ensures few { OnOk result (vec_len found.new ≤ most) }
    ensures err { IfErr result (IsAbove most (vec_len found.old + length (if_weighed weight x))) }
{
    if weight == 0 {
        return Ok(());
    }
    if found.len() >= most {
        return Err(above_limit());
    }
    found.push(x)?;
    Ok(())
}

/// What is reported above the limit of terms.
fn above_limit() -> LimitFault
    ensures { result ≡ AtLimit (limit_of Terms) }
{
    LimitFault::Limit(Limit::above(LimitKind::Terms))
}
