//! The bounds of what is drawn.

/// The least and the greatest coordinates of what is drawn: x grows to the right, y downwards.
#[derive(Clone, Copy, Debug, PartialEq, Eq)]
pub struct Bounds {
    pub left: i64,
    pub right: i64,
    pub top: i64,
    pub bottom: i64,
}
