//! The plane on which the map is measured: places become points in whole decimetres, with no fraction and
//! no rounding but downwards. No call takes memory.
#![tactic(auto)]

mod direction;
mod measure;
mod projection;

pub use direction::clockwise;
pub use measure::{dist2, side};
pub use projection::{band_of, project};
