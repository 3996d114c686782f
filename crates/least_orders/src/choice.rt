//! The next line of an order.

/// A line to go on with, by its place, and what the order costs from there on.
#[derive(Clone, Copy, Debug)]
pub struct Choice {
    pub place: usize,
    pub cost: i64,
}
