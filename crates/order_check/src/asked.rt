//! A part with its table of terms, and the target that a tree of cases has to show.

use crate::part_table::PartTable;
use map_base::SegId;
use order_model::Problem;

/// What a tree is asked to show of a part: that its orders cost at least the target on its terms.
#[derive(Clone, Copy)]
pub(crate) struct Asked<'a> {
    /// The problem.
    pub(crate) problem: &'a Problem,
    /// The segments of the part.
    pub(crate) part: &'a [SegId],
    /// The number of the part.
    pub(crate) k: u32,
    /// The number of the part of each segment of the problem.
    pub(crate) numbers: &'a [u32],
    /// The numbers of the part's terms, rising.
    pub(crate) terms: &'a [u32],
    /// The part's terms, with their slots.
    pub(crate) table: &'a PartTable,
    /// What the orders are to cost at least.
    pub(crate) target: u64,
}
