//! Lines beside a walk, as they are drawn: the corners of a line that is shifted to the right of the walk. Each corner
//! is the one point that lies on both shifted lines at a turn, and is a whole number of units both ways.
#![tactic(auto)]

mod corner;
mod laws;
mod path;
mod shift;

pub use corner::Corner;
pub use laws::{a_corner_is_where_both_lines_meet, an_end_is_on_its_line};
pub use path::{
    drawn_at, line_path, path_end, path_end_at, path_start, path_start_at, put_path, put_path_at,
};
