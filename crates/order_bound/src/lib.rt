//! What the completions of a prefix cost at least: the bound of a prefix, the value of prices on its open Links, and its
//! canonical prices, whose value is the bound; and the trees that show a target.
//!
//! Laws say so of the definitions: no completion costs less than the bound, or than the value of allowed prices, and the
//! canonical prices are allowed and reach the bound. A tree that is accepted bounds each completion by its target.
#![tactic(auto)]

mod bound_laws;
mod laws;
mod pairs;

pub use bound_laws::{
    canonical_prices_reach_the_bound, completions_cost_the_bound, completions_cost_the_value,
};
pub use laws::{accepted_trees_bound_completions, nothing_fails_where_accepted};
pub use pairs::{ChildLink, OpenLink, Pair};
