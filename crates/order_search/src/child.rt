//! The children of a node of the search.

use map_base::LineId;

/// A line that may be placed next, with the bound of the prefix in which it is. Children are in order by bound, then by
/// line.
#[derive(Clone, Copy, Debug, PartialEq, Eq, PartialOrd, Ord)]
pub struct Child {
    pub bound: u64,
    pub line: LineId,
}
