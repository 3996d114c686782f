//! Ways from corners.

ghost use Rattle.std.specs.Prelude.{◌≡◌, ◌<◌, length, IfOk};
ghost use Rattle.graph_core.specs.Consistent.{IsConsistent};
ghost use Rattle.line_chains.specs.Chains.{far_end, other_of, way_from};

use crate::chain::{Chain, ChainStep};
use bit_flags::Flags;
use graph_core::LineGraph;
use map_base::{NoMemory, NodeId, SegId, Sequence};
use std::alloc::Global;

/// The end of a segment that is not this node.
pub(crate) fn far_end(graph: &LineGraph, s: SegId, n: NodeId) -> NodeId
    requires graph { IsConsistent graph.now }
    requires segment { s.0 < length graph.now.ends }
    ensures end { result ≡ far_end graph.now s n }
    ensures node { result.0 < length graph.now.kinds }
{
    let (low, up) = graph.ends(s);
    if low.0 == n.0 { up } else { low }
}

/// Of the two segments round a node the other one.
pub(crate) fn other_of(round: &[SegId], s: SegId) -> SegId
    ensures { result ≡ other_of round.now s }
{
    match round {
        [] => s,
        [only] => *only,
        [a, b, ..] => { if a.0 == s.0 { *b } else { *a } }
    }
}

/// The way from a corner by a segment of its round: over nodes that are no corners to the next corner.
pub(crate) fn way_from(
    alloc: Global,
    graph: &LineGraph,
    corners: &Flags,
    n: NodeId,
    s: SegId,
) -> Result<Chain, NoMemory>
    requires graph { IsConsistent graph.now }
    requires each { length corners.now ≡ length graph.now.kinds }
    requires segment { s.0 < length graph.now.ends }
    requires node { n.0 < length graph.now.kinds }
    ensures { IfOk result (λ way. way ≡ way_from graph.now corners.now n s) }
{
    let mut steps = Vec::new(alloc);
    let mut at = n;
    let mut seg = s;
    for i in 0..graph.segs() {
        let to = far_end(graph, seg, at);
        steps.push(ChainStep { seg, to })?;
        let is_end = corners.is_raised(to.0 as usize);
        if is_end {
            return Ok(chain_of(n, steps));
        }
        seg = other_of(graph.round(to), seg);
        at = to;
    }
    Ok(chain_of(n, steps))
}

/// The chain of these steps.
fn chain_of(from: NodeId, steps: Vec<ChainStep>) -> Chain
    ensures from { result.from ≡ from }
    ensures steps { result.steps ≡ steps.items }
{
    Chain {
        from,
        steps: Sequence::of(steps),
    }
}
