//! A part with its terms, and the target that a tree of settled pairs has to show.

use map_base::SegId;
use order_model::Problem;

/// What a tree is asked to show of a part: that orders of it cost at least the target on its terms.
#[derive(Clone, Copy)]
pub(crate) struct Asked<'a> {
    /// The problem.
    pub(crate) problem: &'a Problem,
    /// The segments of the part, rising.
    pub(crate) part: &'a [SegId],
    /// The numbers of the part's terms, rising.
    pub(crate) numbers: &'a [u32],
    /// For each segment of the part, in its order, the numbers of the terms on it.
    pub(crate) groups: &'a [Vec<u32>],
    /// Whether no segment of the part is too wide.
    pub(crate) narrow: bool,
    /// What the orders are to cost at least.
    pub(crate) target: u64,
}
