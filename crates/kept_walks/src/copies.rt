//! Copies of line graphs and of drawings.

ghost use Rattle.std.specs.Prelude.{◌≡◌, IfOk};
ghost use Rattle.graph_core.specs.Consistent.{IsConsistent};

use graph_core::{GraphParts, Join, LineGraph, NodeKind};
use map_base::{LineId, NoMemory, NodeId, Point, SegId, Sequence};
use octi_grid::{Drawing, Walk};
use std::alloc::Global;

/// A copy of a line graph.
pub fn copy_of_graph(alloc: Global, graph: &LineGraph) -> Result<LineGraph, NoMemory>
    ensures { IfOk result (λ copy. copy ≡ graph.now) }
{
    // Any count of the graph tells the laws that its copy needs.
    let _nodes = graph.nodes();
    let kinds = node_kinds(alloc, graph)?;
    let places = node_places(alloc, graph)?;
    let ends = segment_ends(alloc, graph)?;
    let lines = segment_lines(alloc, graph)?;
    let rounds = node_rounds(alloc, graph)?;
    let joins = node_joins(alloc, graph)?;
    Ok(LineGraph::new(GraphParts {
        kinds: Sequence::of(kinds),
        places: Sequence::of(places),
        ends: Sequence::of(ends),
        lines: Sequence::of(lines),
        rounds: Sequence::of(rounds),
        joins: Sequence::of(joins),
    }))
}

/// What each node stands for.
#[tactic(auto, using(crate::proofs::Lists::copied_more))]
fn node_kinds(alloc: Global, graph: &LineGraph) -> Result<Vec<NodeKind>, NoMemory>
    ensures { IfOk result (λ kinds. kinds.items ≡ graph.now.kinds) }
{
    let mut kinds = Vec::new(alloc);
    for n in 0..graph.nodes() {
        kinds.push(graph.kind(NodeId(n)))?;
    }
    Ok(kinds)
}

/// Where each node lies.
#[tactic(auto, using(crate::proofs::Lists::copied_more))]
fn node_places(alloc: Global, graph: &LineGraph) -> Result<Vec<Point>, NoMemory>
    requires { IsConsistent graph.now }
    ensures { IfOk result (λ places. places.items ≡ graph.now.places) }
{
    let mut places = Vec::new(alloc);
    for n in 0..graph.nodes() {
        places.push(graph.place(NodeId(n)))?;
    }
    Ok(places)
}

/// The ends of each segment.
#[tactic(auto, using(crate::proofs::Lists::copied_more))]
fn segment_ends(alloc: Global, graph: &LineGraph) -> Result<Vec<(NodeId, NodeId)>, NoMemory>
    ensures { IfOk result (λ ends. ends.items ≡ graph.now.ends) }
{
    let mut ends = Vec::new(alloc);
    for s in 0..graph.segs() {
        ends.push(graph.ends(SegId(s)))?;
    }
    Ok(ends)
}

/// The lines of each segment.
#[tactic(auto, using(crate::proofs::Lists::copied_more))]
fn segment_lines(alloc: Global, graph: &LineGraph) -> Result<Vec<Sequence<LineId>>, NoMemory>
    requires { IsConsistent graph.now }
    ensures { IfOk result (λ lines. lines.items ≡ graph.now.lines) }
{
    let mut lines = Vec::new(alloc);
    for s in 0..graph.segs() {
        let copy = copy_of_lines(alloc, graph.lines(SegId(s)))?;
        lines.push(copy)?;
    }
    Ok(lines)
}

/// The segments round each node.
#[tactic(auto, using(crate::proofs::Lists::copied_more))]
fn node_rounds(alloc: Global, graph: &LineGraph) -> Result<Vec<Sequence<SegId>>, NoMemory>
    requires { IsConsistent graph.now }
    ensures { IfOk result (λ rounds. rounds.items ≡ graph.now.rounds) }
{
    let mut rounds = Vec::new(alloc);
    for n in 0..graph.nodes() {
        let copy = copy_of_round(alloc, graph.round(NodeId(n)))?;
        rounds.push(copy)?;
    }
    Ok(rounds)
}

/// The connections at each node.
#[tactic(auto, using(crate::proofs::Lists::copied_more))]
fn node_joins(alloc: Global, graph: &LineGraph) -> Result<Vec<Sequence<Join>>, NoMemory>
    requires { IsConsistent graph.now }
    ensures { IfOk result (λ joins. joins.items ≡ graph.now.joins) }
{
    let mut joins = Vec::new(alloc);
    for n in 0..graph.nodes() {
        let copy = copy_of_joins(alloc, graph.joins(NodeId(n)))?;
        joins.push(copy)?;
    }
    Ok(joins)
}

/// A copy of lines.
fn copy_of_lines(alloc: Global, lines: &[LineId]) -> Result<Sequence<LineId>, NoMemory>
    ensures { IfOk result (λ copy. copy ≡ lines.now) }
{
    Ok(Sequence::of(lines.to_vec(alloc)?))
}

/// A copy of a round.
fn copy_of_round(alloc: Global, round: &[SegId]) -> Result<Sequence<SegId>, NoMemory>
    ensures { IfOk result (λ copy. copy ≡ round.now) }
{
    Ok(Sequence::of(round.to_vec(alloc)?))
}

/// A copy of connections.
fn copy_of_joins(alloc: Global, joins: &[Join]) -> Result<Sequence<Join>, NoMemory>
    ensures { IfOk result (λ copy. copy ≡ joins.now) }
{
    Ok(Sequence::of(joins.to_vec(alloc)?))
}

/// A copy of a drawing.
pub(crate) fn copy_of_drawing(alloc: Global, drawing: &Drawing) -> Result<Drawing, NoMemory>
    ensures { IfOk result (λ copy. copy ≡ drawing.now) }
{
    let walks = copy_of_walks(alloc, drawing.walks.as_slice())?;
    Ok(Drawing {
        walks: Sequence::of(walks),
    })
}

/// A copy of walks.
fn copy_of_walks(alloc: Global, walks: &[Walk]) -> Result<Vec<Walk>, NoMemory>
    ensures { IfOk result (λ copies. copies.items ≡ walks.now) }
{
    let mut copies = Vec::with_capacity(alloc, walks.len())?;
    for walk in walks {
        copies.push(copy_of_walk(alloc, walk)?)?;
    }
    Ok(copies)
}

/// A copy of a walk.
fn copy_of_walk(alloc: Global, walk: &Walk) -> Result<Walk, NoMemory>
    ensures { IfOk result (λ copy. copy ≡ walk.now) }
{
    let runs = walk.runs().to_vec(alloc)?;
    Ok(Walk::of_runs(walk.start(), runs).unwrap())
}
