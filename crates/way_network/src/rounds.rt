//! Rounds of nodes, and the nodes and lines of segments.

ghost use Rattle.std.specs.Prelude.{◌≡◌, ◌<◌, length, map, vec_len, All, IfOk, slice_index};
ghost use Rattle.fixed_plane.specs.Plane.{IsInPlane};
ghost use Rattle.way_network.specs.Segments.{first_of, second_of, last_of};
ghost use Rattle.way_network.specs.Rows.{row_around, LeadAway, AreEdgesOver};
ghost use Rattle.way_network.specs.Numbers.{number_to, row_round, ends_among, row_lines, EndsBelow};

use crate::around::around;
use crate::edge_table::EdgeTable;
use crate::edges::UsedEdge;
use crate::nodes::Nodes;
use crate::numbers::Segments;
use crate::segments::last_of;
use map_base::{LineId, NoMemory, NodeId, Point, SegId, Sequence};
use std::alloc::Global;

/// The segments round each node, clockwise from north.
pub(crate) fn rounds_of(
    alloc: Global,
    points: &[Point],
    table: &EdgeTable,
    nodes: &Nodes,
    segments: &Segments,
) -> Result<Vec<Sequence<SegId>>, NoMemory>
    requires edges { AreEdgesOver points.now table.now }
    requires nodes { All (λ p. p < length table.now) nodes.now.nodes }
    ensures { IfOk result (λ rounds. rounds.items ≡ map (row_round points.now table.now segments.now) nodes.now.nodes) }
{
    let mut rounds = Vec::new(alloc);
    for node in nodes.points() {
        rounds.push(round_of(alloc, points, *node, table.row(*node), segments)?)?;
    }
    Ok(rounds)
}

/// The segments round a node, clockwise from north.
fn round_of(
    alloc: Global,
    points: &[Point],
    node: u32,
    row: &[UsedEdge],
    segments: &Segments,
) -> Result<Sequence<SegId>, NoMemory>
    requires in_plane { All IsInPlane points.now }
    requires node { node < length points.now }
    requires lead_away { LeadAway points.now node row.now }
    ensures { IfOk result (λ round. round ≡ map (number_to segments.now node) (row_around points.now node row.now)) }
{
    let order = around(alloc, points, node, row)?;
    let mut round = Vec::new(alloc);
    for neighbour in order.as_slice() {
        round.push(segments.leaving(node, *neighbour))?;
    }
    Ok(Sequence::of(round))
}

/// The lower and the upper node of each chain.
pub(crate) fn ends_of(
    alloc: Global,
    chains: &[Sequence<u32>],
    nodes: &Nodes,
) -> Result<Vec<(NodeId, NodeId)>, NoMemory>
    requires { All (EndsBelow nodes.now.points) chains.now }
    ensures { IfOk result (λ ends. ends.items ≡ map (ends_among nodes.now.nodes) chains.now) }
{
    let mut ends = Vec::new(alloc);
    for chain in chains {
        ends.push(ends_of_chain(chain.as_slice(), nodes))?;
    }
    Ok(ends)
}

/// The lower and the upper node of a chain.
fn ends_of_chain(chain: &[u32], nodes: &Nodes) -> (NodeId, NodeId)
    requires { EndsBelow nodes.now.points chain.now }
    ensures { result ≡ ends_among nodes.now.nodes chain.now }
{
    let lower = nodes.node_at(first_of(chain));
    let upper = nodes.node_at(last_of(chain));
    (NodeId(lower), NodeId(upper))
}

/// The first point of a chain, or 0 where it has none.
pub(crate) fn first_of(chain: &[u32]) -> u32
    ensures { result ≡ first_of chain.now }
{
    match chain.first() {
        None => 0,
        Some(point) => *point,
    }
}

/// The second point of a chain, or its only one, or 0 where it has none.
fn second_of(chain: &[u32]) -> u32
    ensures { result ≡ second_of chain.now }
{
    match chain.len() {
        0 => 0,
        1 => chain[0],
        _ => chain[1],
    }
}

/// The lines of each chain: those of its first edge.
pub(crate) fn lines_of(
    alloc: Global,
    table: &EdgeTable,
    chains: &[Sequence<u32>],
) -> Result<Vec<Sequence<LineId>>, NoMemory>
    requires { All (EndsBelow (length table.now)) chains.now }
    ensures { IfOk result (λ lines. lines.items ≡ map (row_lines table.now) chains.now) }
{
    let mut lines = Vec::new(alloc);
    for chain in chains {
        lines.push(lines_of_chain(alloc, table, chain.as_slice())?)?;
    }
    Ok(lines)
}

/// The lines of a chain.
fn lines_of_chain(
    alloc: Global,
    table: &EdgeTable,
    chain: &[u32],
) -> Result<Sequence<LineId>, NoMemory>
    requires { first_of chain.now < length table.now }
    ensures { IfOk result (λ lines. lines ≡ row_lines table.now chain.now) }
{
    match table.edge_to(first_of(chain), second_of(chain)) {
        None => Ok(Sequence::of(Vec::new(alloc))),
        Some(edge) => copied(alloc, edge.lines.as_slice()),
    }
}

/// A copy of lines.
fn copied(alloc: Global, lines: &[LineId]) -> Result<Sequence<LineId>, NoMemory>
    ensures { IfOk result (λ copy. copy ≡ lines.now) }
{
    Ok(Sequence::of(lines.to_vec(alloc)?))
}
