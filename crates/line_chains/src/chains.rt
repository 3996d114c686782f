//! Chains between corners.

ghost use Rattle.std.specs.Prelude.{◌≡◌, ◌<◌, ◌++◌, ◌∷◌, [], length, if◌then◌else◌, All, IfOk, OnOk};
ghost use Rattle.map_base.specs.declared.ids.SegId.{SegId as Seg};
ghost use Rattle.graph_core.specs.Consistent.{IsConsistent};
ghost use Rattle.line_chains.specs.Chains.{chains_at, chains_by, chains_of, end_after, is_forward, last_seg, stands_before};

use crate::chain::{Chain, ChainStep};
use crate::ways::way_from;
use bit_flags::Flags;
use graph_core::LineGraph;
use map_base::{NoMemory, NodeId, SegId};
use std::alloc::Global;

/// The chains between corners, by their lower end, then by the place of their first segment in its round. Each is walked
/// from its lower end; a ring over one corner from the one of its two segments there that comes first in the round.
pub fn chains_of(alloc: Global, graph: &LineGraph, corners: &Flags) -> Result<Vec<Chain>, NoMemory>
    requires { length corners.now ≡ length graph.now.kinds }
    ensures { IfOk result (λ chains. chains.items ≡ chains_of graph.now corners.now) }
{
    let mut chains = Vec::new(alloc);
    for n in 0..graph.nodes() {
        push_chains_at(alloc, graph, corners, NodeId(n), &mut chains)?;
    }
    Ok(chains)
}

/// Lists the chains from a node, if it is a corner.
fn push_chains_at(
    alloc: Global,
    graph: &LineGraph,
    corners: &Flags,
    n: NodeId,
    chains: &mut Vec<Chain>,
) -> Result<(), NoMemory>
    requires graph { IsConsistent graph.now }
    requires each { length corners.now ≡ length graph.now.kinds }
    requires node { n.0 < length graph.now.kinds }
    ensures { OnOk result (chains.new.items ≡ chains.old.items ++ chains_at graph.now corners.now n) }
{
    if !corners.is_raised(n.0 as usize) {
        return Ok(());
    }
    push_chains_by(alloc, graph, corners, n, graph.round(n), chains)?;
    Ok(())
}

/// Lists the chains from a corner by segments of its round.
fn push_chains_by(
    alloc: Global,
    graph: &LineGraph,
    corners: &Flags,
    n: NodeId,
    segs: &[SegId],
    chains: &mut Vec<Chain>,
) -> Result<(), NoMemory>
    requires graph { IsConsistent graph.now }
    requires each { length corners.now ≡ length graph.now.kinds }
    requires node { n.0 < length graph.now.kinds }
    requires segs { All (λ (s : Seg). s.0 < length graph.now.ends) segs.now }
    ensures { OnOk result (chains.new.items ≡ chains.old.items ++ chains_by graph.now corners.now n segs.now) }
{
    for s in segs {
        let way = way_from(alloc, graph, corners, n, *s)?;
        push_if_forward(graph, *s, way, chains)?;
    }
    Ok(())
}

/// Lists a way, if it is walked as chains are.
fn push_if_forward(
    graph: &LineGraph,
    s: SegId,
    way: Chain,
    chains: &mut Vec<Chain>,
) -> Result<(), NoMemory>
    requires node { way.from.0 < length graph.now.kinds }
    ensures { OnOk result (chains.new.items ≡ (if is_forward graph.now s way then chains.old.items ++ way ∷ [] else chains.old.items)) }
{
    if is_forward(graph, s, &way) {
        chains.push(way)?;
    }
    Ok(())
}

/// Whether a way by a segment is walked as chains are: from its lower end, and where both ends are one node, by the first
/// of its two segments there.
fn is_forward(graph: &LineGraph, s: SegId, way: &Chain) -> bool
    requires node { way.now.from.0 < length graph.now.kinds }
    ensures { result ≡ is_forward graph.now s way.now }
{
    let steps = way.steps.as_slice();
    let end = end_after(way.from, steps);
    if way.from.0 != end.0 {
        return way.from.0 < end.0;
    }
    stands_before(graph.round(way.from), s, last_seg(s, steps))
}

/// Where steps from a node end.
#[tactic(auto, using(crate::proofs::Walking::end_more))]
fn end_after(n: NodeId, steps: &[ChainStep]) -> NodeId
    ensures { result ≡ end_after n steps.now }
{
    let mut at = n;
    for step in steps {
        at = step.to;
    }
    at
}

/// The last segment of steps, or the one given where there is none.
#[tactic(auto, using(crate::proofs::Walking::last_more))]
fn last_seg(s: SegId, steps: &[ChainStep]) -> SegId
    ensures { result ≡ last_seg s steps.now }
{
    let mut last = s;
    for step in steps {
        last = step.seg;
    }
    last
}

/// Whether of two different segments of a round the first one stands before the other.
#[tactic(auto, using(crate::proofs::Walking::never_before, crate::proofs::Walking::stands_next, crate::proofs::Walking::stands_here, crate::proofs::Walking::stands_not))]
fn stands_before(round: &[SegId], a: SegId, b: SegId) -> bool
    ensures { result ≡ stands_before round.now a b }
{
    if a.0 == b.0 {
        return false;
    }
    for r in round {
        if r.0 == a.0 {
            return true;
        }
        if r.0 == b.0 {
            return false;
        }
    }
    false
}
