//! What a crossing, a split and a separation of two lines cost.

/// What two lines cost at a node of one kind, each number from 0 to 1,000.
#[derive(Clone, Copy, Debug, PartialEq, Eq)]
pub struct Weights {
    /// A crossing of two lines that go on together.
    pub link: u32,
    /// A crossing of two lines that part.
    pub split: u32,
    /// A separation of two lines that go on together.
    pub sep: u32,
}
