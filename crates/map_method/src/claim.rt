//! What is claimed of line orders.

/// What a certificate has to prove of its line orders.
#[derive(Clone, Copy, Debug, PartialEq, Eq)]
pub enum Claim {
    /// That no orders cost less than they do.
    Best,
    /// That no orders cost less than a bound, which they themselves may miss.
    Bound,
}
