//! How the orders of parts are searched for.

use map_method::{Claim, Search};

/// How the orders of a part are searched for, and when that ends.
#[derive(Clone, Copy, Debug, PartialEq, Eq)]
pub struct SearchPlan {
    /// By the live tree (the search tree whose leaves are closed by their bound), or by dual prices.
    pub search: Search,
    /// What is to be proved of the orders.
    pub claim: Claim,
    /// How many branch nodes the search may meet.
    pub budget: u32,
}
