//! Corners that a line graph has wherever its nodes lie.

ghost use Rattle.std.specs.Prelude.{◌≡◌, ◌<◌, length, if◌then◌else◌, All, IfOk, OnOk};
ghost use Rattle.map_base.specs.declared.ids.NodeId.{NodeId as Node};
ghost use Rattle.graph_core.specs.Consistent.{IsConsistent};
ghost use Rattle.line_chains.specs.Chains.{is_corner, nodes_along, plain_corners, ring_corners, with_ring};
ghost use Rattle.line_chains.specs.Marks.{marked, marked_from, marked_over, reached_by};

use crate::chain::Chain;
use crate::ways::way_from;
use bit_flags::Flags;
use graph_core::LineGraph;
use map_base::{NoMemory, NodeId};
use std::alloc::Global;

/// The nodes at which not two segments meet, and the least node of each ring over none of them, one flag for each node.
pub(crate) fn ring_corners(alloc: Global, graph: &LineGraph) -> Result<Flags, NoMemory>
    ensures value { IfOk result (λ corners. corners ≡ ring_corners graph.now) }
    ensures each { IfOk result (λ corners. length corners ≡ length graph.now.kinds) }
    ensures fits { IfOk result (λ corners. IsConsistent graph.now) }
{
    let mut corners = plain_corners(alloc, graph)?;
    let mut reached = reached_by(alloc, graph, &corners)?;
    for n in 0..graph.nodes() {
        add_ring(alloc, graph, NodeId(n), &mut corners, &mut reached)?;
    }
    Ok(corners)
}

/// Makes a node a corner, if no way from a corner comes over it.
fn add_ring(
    alloc: Global,
    graph: &LineGraph,
    n: NodeId,
    corners: &mut Flags,
    reached: &mut Flags,
) -> Result<(), NoMemory>
    requires graph { IsConsistent graph.now }
    requires each { length corners.old ≡ length graph.now.kinds }
    requires reached { reached.old ≡ reached_by graph.now corners.old }
    requires node { n.0 < length graph.now.kinds }
    ensures corners { OnOk result (corners.new ≡ with_ring graph.now corners.old n) }
    ensures reached { OnOk result (reached.new ≡ reached_by graph.now corners.new) }
{
    if reached.is_raised(n.0 as usize) {
        return Ok(());
    }
    corners.raise(n.0 as usize);
    mark_from(alloc, graph, corners, n, reached)?;
    Ok(())
}

/// The nodes at which not two segments meet.
fn plain_corners(alloc: Global, graph: &LineGraph) -> Result<Flags, NoMemory>
    ensures value { IfOk result (λ corners. corners ≡ plain_corners graph.now) }
    ensures each { IfOk result (λ corners. length corners ≡ length graph.now.kinds) }
{
    let mut corners = Flags::none(alloc, graph.nodes() as usize)?;
    for n in 0..graph.nodes() {
        corners.put(n as usize, graph.round(NodeId(n)).len() != 2);
    }
    Ok(corners)
}

/// The nodes that ways from corners come over.
fn reached_by(alloc: Global, graph: &LineGraph, corners: &Flags) -> Result<Flags, NoMemory>
    requires { length corners.now ≡ length graph.now.kinds }
    ensures { IfOk result (λ reached. reached ≡ reached_by graph.now corners.now) }
{
    let mut reached = Flags::none(alloc, corners.len())?;
    for n in 0..graph.nodes() {
        mark_from_corner(alloc, graph, corners, NodeId(n), &mut reached)?;
    }
    Ok(reached)
}

/// Marks the nodes that ways from a node come over, if it is a corner.
fn mark_from_corner(
    alloc: Global,
    graph: &LineGraph,
    corners: &Flags,
    n: NodeId,
    reached: &mut Flags,
) -> Result<(), NoMemory>
    requires graph { IsConsistent graph.now }
    requires each { length corners.now ≡ length graph.now.kinds }
    requires flags { length reached.old ≡ length graph.now.kinds }
    requires node { n.0 < length graph.now.kinds }
    ensures { OnOk result (reached.new ≡ (if is_corner corners.now n then marked_from graph.now corners.now n reached.old else reached.old)) }
{
    if !corners.is_raised(n.0 as usize) {
        return Ok(());
    }
    mark_from(alloc, graph, corners, n, reached)?;
    Ok(())
}

/// Marks the nodes that ways from a corner come over.
fn mark_from(
    alloc: Global,
    graph: &LineGraph,
    corners: &Flags,
    n: NodeId,
    reached: &mut Flags,
) -> Result<(), NoMemory>
    requires graph { IsConsistent graph.now }
    requires each { length corners.now ≡ length graph.now.kinds }
    requires flags { length reached.old ≡ length graph.now.kinds }
    requires node { n.0 < length graph.now.kinds }
    ensures { OnOk result (reached.new ≡ marked_from graph.now corners.now n reached.old) }
{
    for s in graph.round(n) {
        let way = way_from(alloc, graph, corners, n, *s)?;
        mark_over(&way, reached);
    }
    Ok(())
}

/// Marks the nodes that a way comes over.
fn mark_over(way: &Chain, reached: &mut Flags)
    requires { All (λ (n : Node). n.0 < length reached.old) (nodes_along way.now) }
    ensures { reached.new ≡ marked_over reached.old way.now }
{
    mark(way.from, reached);
    for step in way.steps.as_slice() {
        mark(step.to, reached);
    }
}

/// Marks a node.
fn mark(n: NodeId, reached: &mut Flags)
    requires { n.0 < length reached.old }
    ensures { reached.new ≡ marked reached.old n }
{
    reached.raise(n.0 as usize);
}
