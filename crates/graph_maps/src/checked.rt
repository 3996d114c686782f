//! A certificate that is accepted.

use octi_grid::Drawing;
use order_values::Orders;

/// What a certificate that is accepted proves of its line orders.
#[derive(Clone, Copy, Debug, PartialEq, Eq)]
pub struct Proved {
    /// What they cost.
    pub cost: u64,
    /// What no line orders cost less than. Where this is the cost, they are best.
    pub bound: u64,
}

/// What a certificate that is accepted holds, before a picture is made of it.
#[derive(Debug, Drop)]
pub struct CheckedMap {
    /// A legal drawing of the line graph.
    pub drawing: Drawing,
    /// The order of each segment.
    pub orders: Orders,
    /// What it proves of these.
    pub proved: Proved,
}

/// What is known of a certificate that is accepted, before its picture is looked at.
#[derive(Debug, Drop)]
pub struct Checked {
    /// What it proves of its line orders.
    pub proved: Proved,
    /// The picture that is due (SVG 1.1).
    pub svg: Vec<u8>,
}
