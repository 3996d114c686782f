//! What is printed.

use crate::place::Place;
use line_offsets::Corner;

/// The step in which a name finds its place.
#[derive(Clone, Copy, Debug, PartialEq, Eq)]
pub enum Step {
    /// In full size, beside lines.
    Full,
    /// Small, beside lines.
    Small,
    /// Small, over lines.
    Over,
}

/// The name of a mark, where it is printed.
#[derive(Clone, Copy, Debug)]
pub struct Printed {
    /// The number of the mark in the plan.
    pub mark: u32,
    pub step: Step,
    pub place: Place,
}

/// Where the legend stands: rows fill columns from top to bottom.
#[derive(Clone, Copy, Debug)]
pub struct Legend {
    /// Its upper left point.
    pub start: Corner,
    /// How far its columns stand apart.
    pub column: u64,
    /// How many rows a column has.
    pub rows: u32,
}
