//! Points of the plane.

/// A point of the plane, in whole decimetres. x grows eastwards, y northwards.
#[derive(Clone, Copy, Debug, PartialEq, Eq, Hash)]
pub struct Point {
    pub x: i64,
    pub y: i64,
}
