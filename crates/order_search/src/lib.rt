//! The search for orders of a part that cost least, by branch and bound, with the live tree that shows it (the search
//! tree whose leaves are closed by their bound).
//!
//! Each part has exactly one live tree. It is accepted at its target, which is the least cost of the part and that of the
//! orders that it finds. It has no more branch nodes than the part has prefixes that are not complete. `search` finds it,
//! or says that it has more branch nodes than the budget.
#![tactic(auto)]

mod best;
mod child;
mod children;
mod found;
mod grow;
mod laws;
mod part_numbers;
mod part_search;
mod search_state;
mod tree_prices;

pub use child::Child;
pub use found::{Found, SearchFault};
pub use laws::{
    a_part_by_itself_has_the_same_live_tree, branch_nodes_are_incomplete_prefixes,
    each_part_has_one_live_tree, live_trees_show_the_least_cost,
    parts_that_are_the_same_by_themselves_share_their_tree, the_number_order_wins_ties,
};
pub use part_numbers::numbers_of_part;
pub use part_search::search;
