//! What line orders and proofs about them are made of: the order of each segment, rules that make a problem smaller,
//! prices on terms, and trees of settled pairs.
#![tactic(auto)]

mod dual_tree;
mod orders;
mod prices;
mod rule;

pub use dual_tree::DualTree;
pub use orders::Orders;
pub use prices::Prices;
pub use rule::Rule;
