//! Corners where the ground bends.

ghost use Rattle.std.specs.Prelude.{◌≡◌, ◌≤◌, ◌<◌, ◌*◌, ◌+◌, ◌==◌, ◌||◌, nat_lt, fold, length, map, unsigned_abs, All, IfOk, IfSome, OnOk, Some, None, if◌then◌else◌};
ghost use Rattle.std.specs.List.{flat_map};
ghost use Rattle.map_base.specs.declared.ids.NodeId.{NodeId as Node};
ghost use Rattle.line_chains.specs.declared.chain.Chain.{Chain as Ways};
ghost use Rattle.graph_core.specs.Consistent.{IsConsistent};
ghost use Rattle.fixed_plane.specs.Plane.{IsInPlane};
ghost use Rattle.fixed_plane.specs.Measures.{square_of};
ghost use Rattle.line_chains.specs.Bends.{bend_place, bends_of, chain_bends, corners_of, far_off, first_place, greatest, is_bent, last_place, node_at, off_of, offs_of, place_of, scale_of, with_corner};
ghost use Rattle.line_chains.specs.Chains.{nodes_along};

use crate::chain::Chain;
use crate::chains::chains_of;
use crate::corners::ring_corners;
use bit_flags::Flags;
use fixed_plane::{dist2, side};
use graph_core::LineGraph;
use map_base::{NoMemory, NodeId, Point};
use std::alloc::Global;

/// The corners of a line graph that is drawn on cells of a side in decimetres, one flag for each node: where not two
/// segments meet, the least node of a ring without such a node, and, again and again, of each chain between corners the
/// first inner node that lies farthest off the straight piece between its ends, where that is more than three cells, or
/// where both ends are one node.
pub fn corners_of(alloc: Global, graph: &LineGraph, cell: u32) -> Result<Flags, NoMemory>
    ensures { IfOk result (λ corners. corners ≡ corners_of graph.now cell) }
{
    let mut corners = ring_corners(alloc, graph)?;
    let chains = chains_of(alloc, graph, &corners)?;
    add_bends(alloc, graph, cell, &chains, &mut corners)?;
    Ok(corners)
}

/// Makes the nodes corners at which the ground bends along chains.
fn add_bends(
    alloc: Global,
    graph: &LineGraph,
    cell: u32,
    chains: &[Chain],
    corners: &mut Flags,
) -> Result<(), NoMemory>
    requires graph { IsConsistent graph.now }
    requires chains { All (λ (c : Ways). All (λ (n : Node). n.0 < length graph.now.kinds) (nodes_along c)) chains.now }
    requires each { length corners.old ≡ length graph.now.kinds }
    ensures { OnOk result (corners.new ≡ fold with_corner corners.old (flat_map (chain_bends graph.now cell) chains.now)) }
{
    for chain in chains {
        let nodes = nodes_along(alloc, chain)?;
        mark_bends(graph, cell, &nodes, corners);
    }
    Ok(())
}

/// The nodes of a chain, from one end to the other.
fn nodes_along(alloc: Global, chain: &Chain) -> Result<Vec<NodeId>, NoMemory>
    ensures { IfOk result (λ nodes. nodes.items ≡ nodes_along chain.now) }
{
    let steps = chain.steps.as_slice();
    let mut nodes = Vec::new(alloc);
    nodes.push(chain.from)?;
    for step in steps {
        nodes.push(step.to)?;
    }
    Ok(nodes)
}

/// Makes the nodes corners at which the ground bends along a chain of these nodes.
#[tactic(auto, using(crate::proofs::Bending::rear_shorter))]
fn mark_bends(graph: &LineGraph, cell: u32, nodes: &[NodeId], corners: &mut Flags)
    requires graph { IsConsistent graph.now }
    requires nodes { All (λ (n : Node). n.0 < length graph.now.kinds) nodes.now }
    requires each { length corners.old ≡ length graph.now.kinds }
    ensures { corners.new ≡ fold with_corner corners.old (bends_of (length nodes.now) graph.now cell nodes.now) }
{
    let Some(place) = bend_place(graph, cell, nodes) else {
        return;
    };
    corners.raise(nodes[place].0 as usize);
    mark_bends(graph, cell, &nodes[..place + 1], corners);
    mark_bends(graph, cell, &nodes[place..], corners);
}

/// The place of the node at which the ground bends first between the ends of a list, if it does.
fn bend_place(graph: &LineGraph, cell: u32, nodes: &[NodeId]) -> Option<usize>
    requires graph { IsConsistent graph.now }
    requires nodes { All (λ (n : Node). n.0 < length graph.now.kinds) nodes.now }
    ensures place { result ≡ (if is_bent graph.now cell nodes.now then Some (bend_place graph.now nodes.now) else None) }
    ensures after { IfSome result (λ place. 0 < place) }
    ensures before { IfSome result (λ place. place + 1 < length nodes.now) }
{
    if nodes.len() <= 2 {
        return None;
    }
    let (place, off) = farthest_inner(graph, nodes);
    if is_far(graph, cell, nodes, off) {
        Some(place + 1)
    } else {
        None
    }
}

/// Whether a node that lies so far off the straight piece between the ends of a list is a bend.
fn is_far(graph: &LineGraph, cell: u32, nodes: &[NodeId], off: u128) -> bool
    requires graph { IsConsistent graph.now }
    requires nodes { All (λ (n : Node). n.0 < length graph.now.kinds) nodes.now }
    requires long { 2 < length nodes.now }
    ensures { result ≡ (((node_at nodes.now 0).0 == (node_at nodes.now (last_place nodes.now)).0) || nat_lt (far_off graph.now cell nodes.now) off) }
{
    let first = nodes[0];
    let last = nodes[nodes.len() - 1];
    if first.0 == last.0 {
        return true;
    }
    far_off(cell, place_of(graph, first), place_of(graph, last)) < off
}

/// The place, among the nodes between the ends of a list, of the first one that lies farthest off the straight piece
/// between these, and how far off it lies.
fn farthest_inner(graph: &LineGraph, nodes: &[NodeId]) -> (usize, u128)
    requires graph { IsConsistent graph.now }
    requires nodes { All (λ (n : Node). n.0 < length graph.now.kinds) nodes.now }
    requires long { 2 < length nodes.now }
    ensures place { result.0 ≡ first_place (greatest (offs_of graph.now nodes.now)) (offs_of graph.now nodes.now) }
    ensures off { result.1 ≡ greatest (offs_of graph.now nodes.now) }
    ensures within { result.0 + 2 < length nodes.now }
{
    let last = nodes.len() - 1;
    let a = place_of(graph, nodes[0]);
    let b = place_of(graph, nodes[last]);
    farthest(graph, a, b, &nodes[1..last])
}

/// The place of the first node that lies farthest off the straight piece from a to b, and how far off it lies.
fn farthest(graph: &LineGraph, a: Point, b: Point, inner: &[NodeId]) -> (usize, u128)
    requires graph { IsConsistent graph.now }
    requires a { IsInPlane a }
    requires b { IsInPlane b }
    requires nodes { All (λ (n : Node). n.0 < length graph.now.kinds) inner.now }
    requires some { 0 < length inner.now }
    ensures { result ≡ (first_place (greatest (map (λ n. off_of a b (place_of graph.now n)) inner.now)) (map (λ n. off_of a b (place_of graph.now n)) inner.now), greatest (map (λ n. off_of a b (place_of graph.now n)) inner.now)) }
{
    let mut best = (0, off_of(a, b, place_of(graph, inner[0])));
    for i in 1..inner.len() {
        best = farther(best, i, off_of(a, b, place_of(graph, inner[i])));
    }
    best
}

/// The farthest of the places so far, and the next one.
fn farther(best: (usize, u128), next: usize, off: u128) -> (usize, u128)
    ensures { result ≡ (if nat_lt best.1 off then (next, off) else best) }
{
    if best.1 < off { (next, off) } else { best }
}

/// Where a node lies.
fn place_of(graph: &LineGraph, n: NodeId) -> Point
    requires graph { IsConsistent graph.now }
    requires node { n.0 < length graph.now.kinds }
    ensures value { result ≡ place_of graph.now n }
    ensures in_plane { IsInPlane result }
{
    graph.place(n)
}

/// Nine times the square of a cell's side, by the scale of a straight piece.
fn far_off(cell: u32, a: Point, b: Point) -> u128
    requires a { IsInPlane a }
    requires b { IsInPlane b }
    ensures { result ≡ 9 * (cell * cell) * scale_of a b }
{
    9 * (u128::from(cell) * u128::from(cell)) * u128::from(scale_of(a, b))
}

/// The square of a straight piece's length, 1 where it is a point.
fn scale_of(a: Point, b: Point) -> u64
    requires a { IsInPlane a }
    requires b { IsInPlane b }
    ensures value { result ≡ scale_of a b }
    ensures within { result ≤ 720000000000000000 }
{
    dist2(a, b).max(1)
}

/// The square of a point's distance from the straight piece from a to b, by the piece's scale.
fn off_of(a: Point, b: Point, p: Point) -> u128
    requires a { IsInPlane a }
    requires b { IsInPlane b }
    requires p { IsInPlane p }
    ensures { result ≡ off_of a b p }
{
    let long = dist2(a, b);
    let from_a = dist2(a, p);
    let from_b = dist2(b, p);
    if long + from_a <= from_b {
        return u128::from(scale_of(a, b)) * u128::from(from_a);
    }
    if long + from_b <= from_a {
        return u128::from(scale_of(a, b)) * u128::from(from_b);
    }
    square(side(a, b, p))
}

/// The square of a number.
fn square(z: i64) -> u128
    requires { unsigned_abs z ≤ 720000000000000000 }
    ensures { result ≡ square_of z }
{
    let size = u128::from(z.unsigned_abs());
    size * size
}
