//! Lines beside the courses of segments, as they lie in the plane: the path of a line that stands so many places to the
//! right of a course. The path follows the course at a fixed distance, piece by piece; each corner lies near its point,
//! and the path is the same line whichever way the course is walked.
#![tactic(auto)]

mod laws;
mod path;
mod pieces;
mod shift;

pub use laws::{a_line_is_one_both_ways, corners_stay_beside_their_points, roots_are_greatest};
pub use path::{path_end, path_start, put_path, shift_path};
