//! What the terms on a segment make its orders cost under prices, in rows, and the least order under such rows.
//!
//! `terms_by_segment` tells which terms are on each segment of a part. `CostRows` takes what they cost each two lines of a
//! segment: the share of a term under its price, or any other amount by the order of two lines or by their being neighbours.
//! `settle` notes which line has to stand before which, and `least_order` writes the least order that keeps these pairs.
#![tactic(auto)]

mod cost_rows;
mod groups;
mod least;
mod rows;
mod settled_sets;
mod shares;

pub use cost_rows::CostRows;
pub use groups::{place_in_part, terms_by_segment};
pub use least::least_order;
pub use rows::place_of;
pub use settled_sets::settle;
