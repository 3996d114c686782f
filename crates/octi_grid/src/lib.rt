//! The octilinear grid: its eight directions, walks from grid point to grid point with their doubled points and costs,
//! and drawings of a line graph, one walk for each segment, with the check that a drawing is legal.
#![tactic(auto)]

mod check;
mod cost;
mod dir;
mod drawing;
mod laws;
mod point;
mod point_set;
mod ports;
mod runs;
mod taken;
mod walk;

pub use check::check_drawing;
pub use cost::{end_of, step_cost, turn_cost, walk_cost};
pub use dir::Dir;
pub use drawing::{DrawWhy, Drawing, DrawingStop};
pub use laws::illegal_drawings_have_a_first_walk;
pub use point::GridPoint;
pub use runs::run_end;
pub use walk::{Run, Walk};
