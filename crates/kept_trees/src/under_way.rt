//! A search under way.

use dual_orders::{Incumbent, Part, Solver};
use dual_rounds::LineOrder;

/// What is searched: a part, with how many branch nodes the search may count.
#[derive(Drop)]
pub(crate) struct Search<'a> {
    pub(crate) part: Part<'a>,
    pub(crate) budget: u32,
}

/// How far the search has come: the incumbent, and the branch nodes so far; and room to work in.
#[derive(Drop)]
pub(crate) struct Progress {
    pub(crate) incumbent: Incumbent,
    pub(crate) branches: u32,
    pub(crate) solver: Solver,
    pub(crate) trial: Vec<LineOrder>,
}
