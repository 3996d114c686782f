//! The trees of parts.

use crate::tree::Tree;
use order_values::DualTree;

/// Why no orders of a part cost less than its target.
#[derive(Debug, Drop)]
pub enum PartTree {
    /// Its orders are told apart by the lines that are placed one after another.
    ByCases(Tree),
    /// Its orders are told apart by pairs of lines, one after another.
    ByPairs(DualTree),
}
