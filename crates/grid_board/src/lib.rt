//! Boards: parts of the grid with the points of nodes and the doubled points that walks have taken, one flag for each.
//! A board shows its bounds, which points are those of nodes, and which doubled points are taken; what is put on it
//! changes these and nothing else.
#![tactic(auto)]

mod board;
mod bounds;
mod taking;

pub use board::Board;
pub use bounds::Bounds;
