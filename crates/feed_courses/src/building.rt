//! The courses of all patterns that are shown.

ghost use Rattle.std.specs.Prelude.{◌≡◌, ◌+◌, ◌<◌, ◌≤◌, Ok, IfOk, IfErr, All, Contains, length, map, sum_by};
ghost use Rattle.map_base.specs.Faults.{HasCause};
ghost use Rattle.map_base.specs.declared.limit.LimitKind.TheVariants.{Samples};
ghost use Rattle.fixed_plane.specs.Plane.{IsInPlane};
ghost use Rattle.transit_feed.specs.Feeds.{IsPattern};
ghost use Rattle.feed_courses.specs.Shown.{shown_patterns};
ghost use Rattle.feed_courses.specs.Places.{used_points};
ghost use Rattle.feed_courses.specs.Outcome.{course_of, course_points, courses_outcome, sample_count, sample_total, stop_points};
ghost use Rattle.feed_courses.specs.Faults.{IsAbove};
ghost use Rattle.feed_courses.specs.Fit.{AreFit, AreServed, IsCourse};
ghost use Rattle.feed_courses.specs.Tables.{AreUsed};

use crate::counts::check_count;
use crate::courses::{Course, Courses};
use crate::hops::hops_along;
use crate::plane::{feed_band, shape_points};
use crate::shown::{lines_with, shown_patterns, stations_in};
use crate::used::{Used, points_at, station_ids, stop_places, used_of};
use map_base::{LimitFault, LimitKind, NoMemory, Point, Sequence};
use std::alloc::Global;
use transit_feed::{Pattern, Tables};

/// The courses of the patterns of all lines that are not hidden, and the stations that these use.
///
/// A station's point is its place on the plane, in the east-west scale of the feed's first station; where an earlier
/// used station has that point, it is the first free one to the right, in whole decimetres. The course of a pattern
/// goes along its shape, or from station to station where it has none. `near`, in decimetres, is how far samples are
/// apart at most.
///
/// There is a limit where more than 1,000 lines are shown, where these use more than 10,000 stations, or where courses
/// and hops have more than 4,000,000 samples in all, the first of these in this order. Those numbers are this project's
/// own.
pub fn courses_of(alloc: Global, tables: &Tables, near: u32) -> Result<Courses, LimitFault>
    requires near_low { 20 ≤ near }
    requires near_high { near ≤ 20000 }
    ensures courses { IfOk result (λ courses. courses_outcome near tables.now ≡ Ok courses) }
    ensures cause { IfErr result (λ fault. HasCause (courses_outcome near tables.now) fault) }

    // Points are apart and in the plane, and hops join the points of their stops.
    ensures fit { IfOk result (λ courses. AreFit near courses) }

    // One of them stops at each station, and their lines are at most 1,000 of those of the tables.
    ensures served { IfOk result (λ courses. AreServed (length tables.now.lines) courses) }
{
    let shown = shown_patterns(alloc, tables)?;
    let lines = lines_with(alloc, tables.lines.len(), &shown)?;
    check_count(LimitKind::Lines, lines.len())?;
    let numbers = stations_in(alloc, tables.stations.len(), &shown)?;
    check_count(LimitKind::Stations, numbers.len())?;
    let used = used_of(alloc, tables, numbers)?;
    let courses = shown_courses(alloc, tables, &used, &shown, near)?;
    let stations = station_ids(alloc, &used.numbers)?;
    Ok(Courses {
        stations: Sequence::of(stations),
        points: Sequence::of(used.points),
        courses: Sequence::of(courses),
    })
}

/// The courses of the patterns that are shown.
fn shown_courses(
    alloc: Global,
    tables: &Tables,
    used: &Used,
    shown: &[&Pattern],
    near: u32,
) -> Result<Vec<Course>, LimitFault>
    requires used { AreUsed tables.now used.now }
    requires in_plane { All IsInPlane used.now.points.items }
    requires shown { map (λ pattern. pattern.now) shown.now ≡ shown_patterns tables.now }
    requires patterns { All (IsPattern tables.now) (shown_patterns tables.now) }
    requires near_low { 20 ≤ near }
    ensures courses { IfOk result (λ courses. courses.items ≡ map (course_of near tables.now) (shown_patterns tables.now)) }
    ensures few { IfOk result (λ _. sample_total near tables.now ≤ 4000000) }
    ensures fit { IfOk result (λ courses. All (IsCourse near (used_points tables.now)) courses.items) }
    ensures cause { IfErr result (λ fault. IsAbove Samples 4000000 (sample_total near tables.now) fault) }
{
    let mut courses = Vec::new(alloc);
    let mut left = 4_000_000;
    for pattern in shown {
        let (course, rest) = course_of(alloc, tables, used, pattern, near, left)?;
        courses.push(course)?;
        left = rest;
    }
    Ok(courses)
}

/// The course of a pattern, and how many samples are left of `left` when its own are counted.
fn course_of(
    alloc: Global,
    tables: &Tables,
    used: &Used,
    pattern: &Pattern,
    near: u32,
    left: u64,
) -> Result<(Course, u64), LimitFault>
    requires used { AreUsed tables.now used.now }
    requires in_plane { All IsInPlane used.now.points.items }
    requires shown { Contains (shown_patterns tables.now) pattern.now }
    requires pattern { IsPattern tables.now pattern.now }
    requires near_low { 20 ≤ near }
    requires few { left ≤ 4000000 }
    ensures course { IfOk result (λ made. made.0 ≡ course_of near tables.now pattern.now) }
    ensures left { IfOk result (λ made. made.1 + sample_count near tables.now pattern.now ≡ left) }
    ensures fit { IfOk result (λ made. IsCourse near (used_points tables.now) made.0) }
    ensures cause { IfErr result (λ fault. IsAbove Samples left (sample_count near tables.now pattern.now) fault) }
{
    let stops = stop_places(alloc, &used.places, pattern.stops.as_slice())?;
    let stations = points_at(alloc, &used.points, &stops)?;
    let points = course_points(alloc, tables, pattern, &stations)?;
    let (hops, rest) = hops_along(alloc, &points, &stations, near, left)?;
    let course = Course {
        line: pattern.line,
        stops: Sequence::of(stops),
        hops,
    };
    Ok((course, rest))
}

/// The points of a pattern's shape, or of its stations where it has none.
fn course_points(
    alloc: Global,
    tables: &Tables,
    pattern: &Pattern,
    stations: &[Point],
) -> Result<Vec<Point>, NoMemory>
    requires pattern { IsPattern tables.now pattern.now }
    requires stations { stations.now ≡ stop_points tables.now pattern.now }
    requires in_plane { All IsInPlane stations.now }
    ensures points { IfOk result (λ points. points.items ≡ course_points tables.now pattern.now pattern.now.shape) }
    ensures some { IfOk result (λ points. 0 < length points.items) }
    ensures in_plane { IfOk result (λ points. All IsInPlane points.items) }
{
    match pattern.shape {
        None => Ok(stations.to_vec(alloc)?),
        Some(number) => {
            let band = feed_band(&tables.stations);
            shape_points(alloc, &tables.shapes[number as usize], band)
        }
    }
}
