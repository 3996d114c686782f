//! The search for orders of one part by dual prices, as a definition: what it finds, and when it is spent.
//!
//! The part is a problem by itself. The search goes depth first over nodes, each of which has pairs of lines settled:
//! rounds of a subgradient ascent raise a lower bound by dual prices of Links and Aparts, and a local search lowers the
//! cost of the incumbent. Where the bound shows this cost the node is a stop; else one more pair is settled, either
//! way. The laws: the tree that is found is accepted at the target, so no orders cost less, and where the search came
//! to its end its orders cost the target; a budget of at least the branch nodes finds the same.
#![tactic(auto)]

mod laws;
mod pair_average;

pub use laws::{larger_budgets_find_the_same, searches_show_their_targets};
pub use pair_average::PairAverage;
