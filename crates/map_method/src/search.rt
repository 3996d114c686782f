//! How line orders are searched for.

/// How the line orders of each part are searched for.
#[derive(Clone, Copy, Debug, PartialEq, Eq)]
pub enum Search {
    /// By the live tree (the search tree whose leaves are closed by their bound), whose target falls from the cost of
    /// the number order.
    Live,
    /// By dual prices on Links and Aparts, and by pairs of lines that are settled one after another.
    Dual,
}
