//! The geographic map of a line graph as SVG 1.1: the lines of each segment in their order, side by side along the
//! segment's own course. It has the same elements as the map on the grid, in another style and over another drawing.
#![tactic(auto)]

mod frame;
mod plane;
mod style;
mod whole;

pub use plane::PlaneDrawing;
pub use style::plane_style;
pub use whole::geographic;
