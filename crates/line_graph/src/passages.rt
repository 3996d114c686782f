//! Passages of lines from edge to edge.

ghost use Rattle.std.specs.Prelude.{◌≡◌, ◌≤◌, ◌++◌, IfOk, OnOk, All, length};
ghost use Rattle.std.specs.List.{flat_map};
ghost use Rattle.feed_courses.specs.declared.courses.Course.{Course as C};
ghost use Rattle.way_network.specs.Joins.{passages_along, passages_of_way};
ghost use Rattle.way_network.specs.Segments.{reversed, second_of};
ghost use Rattle.line_graph.specs.Legs.{legs_of};
ghost use Rattle.line_graph.specs.Handing.{passages_between};
ghost use Rattle.line_graph.specs.StretchTables.{directed_between, passage_over, path_in, points_at};
ghost use Rattle.line_graph.specs.Premises.{HasHops};

use crate::stretches::{Stretches, stretch_between};
use feed_courses::Course;
use map_base::{LineId, NoMemory};
use std::alloc::Global;
use way_network::{Passage, Way};

/// The passages along all ways, and then those from each leg of a course to the next.
pub(crate) fn passages_of(
    alloc: Global,
    courses: &[Course],
    table: &Stretches,
    ways: &[Way],
) -> Result<Vec<Passage>, NoMemory>
    requires { All HasHops courses.now }
    ensures { IfOk result (λ passages. passages.items ≡ flat_map passages_of_way ways.now ++ flat_map (λ (c : C). passages_between (path_in table.now ways.now) (legs_of c)) courses.now) }
{
    let mut passages = Vec::new(alloc);
    for way in ways {
        push_along(&mut passages, way.line, way.points.as_slice())?;
    }
    push_courses(&mut passages, courses, table, ways)?;
    Ok(passages)
}

/// The passages along the points of a way.
fn push_along(passages: &mut Vec<Passage>, line: LineId, points: &[u32]) -> Result<(), NoMemory>
    ensures { OnOk result (passages.new.items ≡ passages.old.items ++ passages_along line points.now) }
{
    for k in 2..points.len() {
        passages.push(Passage {
            line,
            at: points[k - 1],
            from: points[k - 2],
            to: points[k],
        })?;
    }
    Ok(())
}

/// The passages from each leg of a course to the next, of all courses.
fn push_courses(
    passages: &mut Vec<Passage>,
    courses: &[Course],
    table: &Stretches,
    ways: &[Way],
) -> Result<(), NoMemory>
    requires { All HasHops courses.now }
    ensures { OnOk result (passages.new.items ≡ passages.old.items ++ flat_map (λ (c : C). passages_between (path_in table.now ways.now) (legs_of c)) courses.now) }
{
    for course in courses {
        push_between(passages, course, table, ways)?;
    }
    Ok(())
}

/// The passages from each leg of a course to the next.
fn push_between(
    passages: &mut Vec<Passage>,
    course: &Course,
    table: &Stretches,
    ways: &[Way],
) -> Result<(), NoMemory>
    requires { HasHops course.now }
    ensures { OnOk result (passages.new.items ≡ passages.old.items ++ passages_between (path_in table.now ways.now) (legs_of course.now)) }
{
    let stops = course.stops.as_slice();
    for k in 2..stops.len() {
        passages.push(handed_over(
            course.line,
            stops[k - 2],
            stops[k - 1],
            stops[k],
            table,
            ways,
        ))?;
    }
    Ok(())
}

/// The passage from the leg that comes to a station to the one that goes on from there.
fn handed_over(
    line: LineId,
    from: u32,
    at: u32,
    to: u32,
    table: &Stretches,
    ways: &[Way],
) -> Passage
    ensures { result ≡ passage_over table.now ways.now line from at to }
{
    let before = table.place_of(stretch_between(line, from, at));
    let after = table.place_of(stretch_between(line, at, to));
    Passage {
        line,
        at,
        from: last_but_one(ways, before, from, at),
        to: second(ways, after, at, to),
    }
}

/// The second point of the way at a place, where a leg from one station to another runs over it; 0 where there is
/// none.
fn second(ways: &[Way], place: usize, from: u32, to: u32) -> u32
    ensures { result ≡ second_of (directed_between from to (points_at ways.now place)) }
{
    match ways.get(place) {
        None => 0,
        Some(way) => {
            if to < from {
                second_from_last(way.points.as_slice())
            } else {
                second_from_first(way.points.as_slice())
            }
        }
    }
}

/// The last point but one of the way at a place, where a leg from one station to another runs over it; 0 where there
/// is none.
fn last_but_one(ways: &[Way], place: usize, from: u32, to: u32) -> u32
    ensures { result ≡ second_of (reversed (directed_between from to (points_at ways.now place))) }
{
    match ways.get(place) {
        None => 0,
        Some(way) => {
            if to < from {
                second_from_first(way.points.as_slice())
            } else {
                second_from_last(way.points.as_slice())
            }
        }
    }
}

/// The second of some numbers, or the only one; 0 where there is none.
fn second_from_first(points: &[u32]) -> u32
    ensures { result ≡ second_of points.now }
{
    if points.len() >= 2 {
        return points[1];
    }
    only(points)
}

/// The last but one of some numbers, or the only one; 0 where there is none.
fn second_from_last(points: &[u32]) -> u32
    ensures { result ≡ second_of (reversed points.now) }
{
    if points.len() >= 2 {
        return points[points.len() - 2];
    }
    only(points)
}

/// The only number of at most one, or 0.
fn only(points: &[u32]) -> u32
    requires { length points.now ≤ 1 }
    ensures first { result ≡ second_of points.now }
    ensures last { result ≡ second_of (reversed points.now) }
{
    match points.get(0) {
        None => 0,
        Some(point) => *point,
    }
}
