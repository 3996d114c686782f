//! Ends of a walk that is sought.

use octi_grid::GridPoint;

/// An end of a walk that is sought: the node's point; whether the node may still be put on a seat beside it, since no
/// walk has settled it; and the ports that are allowed, bit `d` for direction `d`.
#[derive(Clone, Copy, Debug, PartialEq, Eq)]
pub struct End {
    pub at: GridPoint,
    pub is_free: bool,
    pub ports: u8,
}
