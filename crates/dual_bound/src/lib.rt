//! What orders of a part cost at least, by prices on its Links and Aparts and pairs of lines that are settled: the value of
//! prices, and the trees that show a target by it.
//!
//! Laws say so of the definitions: no orders that keep the settled pairs cost less than a thousandth of the value, and
//! where a tree is accepted no orders of the part cost less than its target.
#![tactic(auto)]

mod laws;
mod settled;

pub use laws::{
    accepted_trees_bound_orders, nothing_fails_where_accepted,
    trees_without_fault_bound_all_orders, values_bound_orders,
};
pub use settled::SettledPair;
