//! Courses of patterns.

use map_base::{LineId, Point, Sequence, StationId};

/// The course of a pattern.
#[derive(Debug, Drop)]
pub struct Course {
    /// The line of the pattern.
    pub line: LineId,
    /// The places of its stations among the used ones.
    pub stops: Sequence<u32>,
    /// For each station but the last the samples from it to the next, both included.
    pub hops: Sequence<Sequence<Point>>,
}

/// The stations that are used, and the courses of all patterns that are shown.
#[derive(Debug, Drop)]
pub struct Courses {
    /// The used stations, rising.
    pub stations: Sequence<StationId>,
    /// The point of each used station, in their order.
    pub points: Sequence<Point>,
    /// The courses, in the order of their patterns.
    pub courses: Sequence<Course>,
}
