//! Shapes.

use map_base::Sequence;

/// A shape: the course of some trips.
#[derive(Debug, Drop)]
pub struct Shape {
    /// Latitude and longitude of each point, in microdegrees, along the course.
    pub points: Sequence<(i64, i64)>,
}
