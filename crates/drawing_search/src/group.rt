//! Groups of attempts.

use line_chains::Chain;
use map_base::{NodeId, Sequence};
use octi_grid::Dir;

/// Steps in one direction, by which nodes move.
#[derive(Clone, Copy, Debug, PartialEq, Eq)]
pub struct Vector {
    pub dir: Dir,
    pub count: u32,
}

/// Attempts that move the same nodes and lay the same runs anew.
#[derive(Debug, Drop)]
pub struct Group {
    /// The nodes that move, each by the same vector.
    pub nodes: Sequence<NodeId>,
    /// How many lengths of vectors are tried, 2, 4, 6 and so on, each in the eight directions; 0 where no node moves.
    pub lengths: u32,
    /// The runs that are laid anew, in this order: all that end at a node that moves.
    pub runs: Sequence<Chain>,
}
