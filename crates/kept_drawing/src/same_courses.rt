//! Whether the courses of two feeds are the same.

ghost use Rattle.std.specs.Prelude.{◌≡◌, IsTrue};

use feed_courses::{Course, Courses};
use map_base::{Point, Sequence, StationId};

/// Whether courses are the same, with their stations and points.
pub(crate) fn are_same_courses(some: &Courses, other: &Courses) -> bool
    ensures { IsTrue result → some.now ≡ other.now }
{
    if !are_same_stations(some.stations.as_slice(), other.stations.as_slice()) {
        return false;
    }
    if !are_same_points(some.points.as_slice(), other.points.as_slice()) {
        return false;
    }
    are_each_same(some.courses.as_slice(), other.courses.as_slice())
}

/// Whether the courses of two lists are the same, one by one.
fn are_each_same(some: &[Course], other: &[Course]) -> bool
    ensures { IsTrue result → some.now ≡ other.now }
{
    if some.len() != other.len() {
        return false;
    }
    for i in 0..some.len() {
        if !is_same_course(&some[i], &other[i]) {
            return false;
        }
    }
    true
}

/// Whether two courses are the same.
fn is_same_course(some: &Course, other: &Course) -> bool
    ensures { IsTrue result → some.now ≡ other.now }
{
    if some.line != other.line {
        return false;
    }
    if some.stops.as_slice() != other.stops.as_slice() {
        return false;
    }
    are_same_hops(some.hops.as_slice(), other.hops.as_slice())
}

/// Whether the hops of two courses have the same samples.
fn are_same_hops(some: &[Sequence<Point>], other: &[Sequence<Point>]) -> bool
    ensures { IsTrue result → some.now ≡ other.now }
{
    if some.len() != other.len() {
        return false;
    }
    for i in 0..some.len() {
        if !are_same_points(some[i].as_slice(), other[i].as_slice()) {
            return false;
        }
    }
    true
}

/// Whether two lists have the same points.
fn are_same_points(some: &[Point], other: &[Point]) -> bool
    ensures { IsTrue result → some.now ≡ other.now }
{
    some == other
}

/// Whether two lists have the same stations.
fn are_same_stations(some: &[StationId], other: &[StationId]) -> bool
    ensures { IsTrue result → some.now ≡ other.now }
{
    some == other
}
