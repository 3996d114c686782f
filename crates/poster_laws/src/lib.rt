//! Laws of posters, of their definitions: each line of each segment has its path, and each station its group; and what is
//! drawn lies in its shape. Nothing here runs.
#![tactic(auto)]

mod contained;
mod laws;

pub use contained::{
    a_level_name_lies_in_its_shape, a_line_lies_in_its_piece, a_slanted_name_lies_in_its_shape,
};
pub use laws::each_line_and_each_station_is_shown;
