//! What drawings weigh: by a scale (`Weighing`), a walk what it costs and a multiple of its turns, and a node a multiple of the
//! square of its distance from where it first stood. Beside that, where a drawing puts nodes, and the bounds of the board on
//! which it is changed.
#![tactic(auto)]

mod bounds;
mod grid_points;
mod points;
mod weighing;
mod weights;

pub use bounds::bounds_past;
pub use grid_points::push_points;
pub use points::{point_of, points_of};
pub use weighing::Weighing;
