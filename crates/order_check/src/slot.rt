//! Two lines on a segment, and the terms of a part with the slots at their ends.

use map_base::{LineId, SegId};
use order_model::Term;

/// Two lines, the lesser first, on a segment: a place where a part's terms cost something by the order of the two.
#[derive(Clone, Copy, Debug, PartialEq, Eq, Hash)]
pub(crate) struct Slot {
    /// The lesser line.
    pub(crate) lesser: LineId,
    /// The greater line.
    pub(crate) greater: LineId,
    /// The segment.
    pub(crate) seg: SegId,
}

/// A term of a part with its number in the problem, and the places of the slots at its ends: of a `Side` its only one
/// twice, of a `Link` that on `seg` and that on `other`. An `Apart` has none.
#[derive(Clone, Copy, Debug)]
pub(crate) struct PartTerm {
    /// The number of the term.
    pub(crate) number: u32,
    /// The term.
    pub(crate) term: Term,
    /// The place of the slot on its segment.
    pub(crate) here: u32,
    /// The place of the slot on its other segment.
    pub(crate) there: u32,
}

/// What the two lines of a slot cost by each of their orders.
#[derive(Clone, Copy, Debug)]
pub(crate) struct SlotCost {
    /// Where the lesser line stands first.
    pub(crate) lesser_first: i64,
    /// Where the greater line stands first.
    pub(crate) greater_first: i64,
}

/// What terms come to: the sum of the decided ones, and the sum over the slots of what the cheaper order of their lines costs.
#[derive(Clone, Copy, Debug)]
pub(crate) struct Sums {
    /// What the decided terms cost.
    pub(crate) decided: u64,
    /// What the slots cost at least.
    pub(crate) least: i128,
}

/// What a term adds to a slot by one order of its lines.
#[derive(Clone, Copy, Debug)]
pub(crate) struct Charge {
    /// The place of the slot.
    pub(crate) slot: u32,
    /// Whether the lesser line stands first in this order.
    pub(crate) lesser_first: bool,
    /// What is added.
    pub(crate) amount: i64,
}

/// What a term adds: where it is decided, to the sum of the decided terms; else to the slots at its ends.
#[derive(Clone, Copy, Debug)]
pub(crate) struct Charges {
    /// What the decided term costs.
    pub(crate) decided: u64,
    /// What is added on its segment.
    pub(crate) here: Charge,
    /// What is added on its other segment.
    pub(crate) there: Charge,
}
