//! The bound of a part of a problem and its canonical prices, while lines are placed.
//!
//! `PartBounds` holds a part with the lines placed so far, and of each pair of lines its share of the bound with the
//! canonical prices of its Links. Placing a line, and taking one back, marks those pairs as stale that are then decided on
//! the line's segment, or no longer, and takes no memory. Asked for the bound or for the prices, the part works the stale
//! pairs out anew. Both are those of order_bound's definitions.
#![tactic(auto)]

mod aparts;
mod changes;
mod kept_pairs;
mod pair_terms;
mod part_bounds;
mod prices;

pub use part_bounds::PartBounds;
