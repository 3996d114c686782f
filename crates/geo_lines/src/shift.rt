//! Shifts of points.

/// How far a point is shifted, in whole units: x to the east, y to the north.
#[derive(Clone, Copy)]
pub(crate) struct Shift {
    pub x: i64,
    pub y: i64,
}
