//! Chains of segments.

ghost use Rattle.std.specs.Prelude.{◌≡◌};
ghost use Rattle.line_chains.specs.Chains.{end_of};

use map_base::{NodeId, SegId, Sequence};

/// A step along a chain: a segment, and the node at its far end.
#[derive(Clone, Copy, Debug, PartialEq, Eq)]
pub struct ChainStep {
    pub seg: SegId,
    pub to: NodeId,
}

/// Segments one after another, each from the node to which the one before it leads.
#[derive(Debug, Drop)]
pub struct Chain {
    /// The node from which the first segment leads.
    pub from: NodeId,
    /// The steps, one at least.
    pub steps: Sequence<ChainStep>,
}

impl Chain {
    /// The node to which its last step leads, that from which it leads where it has none.
    pub fn end(&self) -> NodeId
        ensures { result ≡ end_of self.now }
    {
        let steps = self.steps.as_slice();
        let count = steps.len();
        if count == 0 {
            return self.from;
        }
        steps[count - 1].to
    }
}
