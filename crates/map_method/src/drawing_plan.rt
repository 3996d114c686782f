//! How a line graph is drawn.

use crate::spread::Spread;

/// How a line graph is drawn before any moves.
#[derive(Clone, Copy, Debug, PartialEq, Eq)]
pub struct DrawingPlan {
    /// The side of a cell in decimetres, or 0 for a fiftieth of the extent of the nodes.
    pub cell: u32,
    /// How far nodes are spread before they get their homes.
    pub spread: Spread,
    /// How fine the first grid is, against the cells.
    pub coarsest: u32,
    /// How fine the last grid is, against the cells.
    pub finest: u32,
    /// How many improving attempts may straighten the routes.
    pub straight: u32,
}
