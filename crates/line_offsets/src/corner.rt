//! Points as they are drawn.

/// A point as it is drawn: x grows to the right, y downwards, and one grid step is 100 units.
#[derive(Clone, Copy, Debug, PartialEq, Eq)]
pub struct Corner {
    pub x: i64,
    pub y: i64,
}

/// What is the same at all points of a line.
#[derive(Clone, Copy, Debug)]
pub(crate) enum Kept {
    /// x: the line goes north or south.
    X,
    /// y: it goes east or west.
    Y,
    /// x + y: it goes north-east or south-west.
    Sum,
    /// y - x: it goes south-east or north-west.
    Difference,
}
