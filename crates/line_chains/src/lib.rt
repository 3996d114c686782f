//! Chains of a line graph. A node is a corner where not two segments meet, where it is the least node of a ring without
//! one, or where the ground bends; a chain runs from a corner to a corner over nodes that are none.
#![tactic(auto)]

mod bends;
mod chain;
mod chains;
mod corners;
mod ways;

pub use bends::corners_of;
pub use chain::{Chain, ChainStep};
pub use chains::chains_of;
