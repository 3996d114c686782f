//! Shapes of eight sides in the plane of a picture, and whether two of them meet: what stations, lines and names take
//! up on a poster. A shape is told by the least and the greatest x, y, x - y and x + y of its points, so slanted names
//! are told as closely as upright ones. Two shapes that share a point of the plane meet.
#![tactic(auto)]

mod frame;
mod interval;
mod laws;
mod making;
mod shape;

pub use frame::{Frame, frame_at, widened};
pub use interval::Interval;
pub use laws::{a_disc_lies_in_its_mark, shapes_that_share_a_point_meet};
pub use making::{around, between, mark_shape, piece_shape, slanted, slanted_length, upright};
pub use shape::{Shape, meet};
