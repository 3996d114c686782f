//! The line graph of a network of ways.

ghost use Rattle.std.specs.Prelude.{◌≡◌, ◌<◌, ◌≤◌, ◌^◌, Ok, IfOk, IfErr, All, length, map};
ghost use Rattle.map_base.specs.Faults.{HasCause};
ghost use Rattle.map_base.specs.declared.limit.LimitKind.TheVariants.{Nodes as CountOfNodes, Segments as CountOfSegments};
ghost use Rattle.track_net.specs.Nearness.{point_at};
ghost use Rattle.way_network.specs.Graphs.{network_over, kind_at as kind_at_of, graph_over, graph_within};
ghost use Rattle.way_network.specs.Premises.{IsNetwork, IsPassage};
ghost use Rattle.way_network.specs.Faults.{IsAbove};
ghost use Rattle.way_network.specs.Segments.{segment_chains};
ghost use Rattle.way_network.specs.Nodes.{node_points_in};
ghost use Rattle.way_network.specs.Rows.{all_chains};
ghost use Rattle.way_network.specs.Numbers.{EndsBelow};
ghost use Rattle.way_network.specs.Crossings.{joins_among};
ghost use Rattle.way_network.specs.RowGraphs.{crossings_at, row_graph, AreNodesOver, ArePassages};

use crate::counts::check_count;
use crate::crossings::crossings_of;
use crate::edge_table::{EdgeTable, edge_table};
use crate::joins::joins_of;
use crate::nodes::{Nodes, nodes_of};
use crate::numbers::Segments;
use crate::rounds::{ends_of, lines_of, rounds_of};
use crate::segments::chains_of;
use crate::way::{Passage, Way};
use graph_core::{GraphParts, Join, LineGraph, NodeKind};
use map_base::{LimitFault, LimitKind, NoMemory, Point, Sequence, StationId};
use std::alloc::Global;

/// A line graph, and the chain of each of its segments: the numbers of the net points that the segment runs over, from
/// its lower to its upper end.
#[derive(Drop)]
pub struct ChainedGraph {
    /// The line graph.
    pub graph: LineGraph,
    /// The chain of each segment.
    pub chains: Sequence<Sequence<u32>>,
}

/// The line graph of a network of ways over the points of a net, of which the first are the stations, in order, with the
/// chains of its segments. The numbers of lines are below `lines`.
///
/// Its nodes are the stations, and of the other points on edges that ways run over all but those with exactly two such
/// edges of equal lines. Its segments are the chains of used edges between nodes. They are numbered by their lower
/// node, and those of one node by their place clockwise from north. A line joins two segments of a node where a
/// passage of the line leads from the one to the other. Passages at points that are no nodes make no joins.
///
/// There is a limit where there are more than 10,000 nodes or, with no more nodes than these, more than 20,000
/// segments. Those numbers are this project's own.
pub fn graph_of(
    alloc: Global,
    points: &[Point],
    stations: &[StationId],
    lines: u32,
    ways: &[Way],
    passages: &[Passage],
) -> Result<ChainedGraph, LimitFault>
    requires network { IsNetwork points.now (network_over stations.now points.now lines ways.now) }
    requires passages { All (IsPassage (network_over stations.now points.now lines ways.now)) passages.now }
    ensures graph { IfOk result (λ made. graph_within (graph_over stations.now points.now (network_over stations.now points.now lines ways.now) passages.now) ≡ Ok made.graph) }
    ensures chains { IfOk result (λ made. made.chains ≡ segment_chains points.now (network_over stations.now points.now lines ways.now)) }
    ensures cause { IfErr result (λ fault. HasCause (graph_within (graph_over stations.now points.now (network_over stations.now points.now lines ways.now) passages.now)) fault) }
{
    let table = edge_table(alloc, points.len() as u32, lines, ways)?;
    let nodes = few_nodes(alloc, stations.len() as u32, &table)?;
    let segments = few_segments(alloc, points, &table, &nodes)?;
    let joins = joins_at_nodes(alloc, lines, passages, &nodes, &segments)?;
    let parts = parts_of(alloc, points, stations, &table, &nodes, &segments, joins)?;
    Ok(ChainedGraph {
        graph: LineGraph::new(parts),
        chains: segments.into_chains(),
    })
}

/// The nodes among the points of a table of used edges, if they are no more than are worked on.
fn few_nodes(alloc: Global, stations: u32, table: &EdgeTable) -> Result<Nodes, LimitFault>
    requires { length table.now ≤ 2 ^ 32 }
    ensures nodes { IfOk result (λ nodes. nodes ≡ record { points = length table.now; nodes = node_points_in stations table.now }) }
    ensures few { IfOk result (λ _. length (node_points_in stations table.now) ≤ 10000) }
    ensures cause { IfErr result (λ fault. IsAbove CountOfNodes (length (node_points_in stations table.now)) fault) }
{
    let nodes = nodes_of(alloc, stations, table)?;
    check_count(LimitKind::Nodes, nodes.points().len())?;
    Ok(nodes)
}

/// The segments between nodes, if they are no more than are worked on.
fn few_segments(
    alloc: Global,
    points: &[Point],
    table: &EdgeTable,
    nodes: &Nodes,
) -> Result<Segments, LimitFault>
    requires { AreNodesOver points.now table.now nodes.now }
    ensures segments { IfOk result (λ segments. segments ≡ all_chains points.now table.now nodes.now.nodes) }
    ensures few { IfOk result (λ _. length (all_chains points.now table.now nodes.now.nodes) ≤ 20000) }
    ensures cause { IfErr result (λ fault. IsAbove CountOfSegments (length (all_chains points.now table.now nodes.now.nodes)) fault) }
{
    let chains = chains_of(alloc, points, table, nodes)?;
    check_count(LimitKind::Segments, chains.len())?;
    Ok(Segments::of(alloc, chains)?)
}

/// The joins at each node.
fn joins_at_nodes(
    alloc: Global,
    lines: u32,
    passages: &[Passage],
    nodes: &Nodes,
    segments: &Segments,
) -> Result<Vec<Sequence<Join>>, NoMemory>
    requires { ArePassages lines passages.now nodes.now segments.now }
    ensures { IfOk result (λ joins. joins.items ≡ map (joins_among (crossings_at nodes.now.nodes segments.now passages.now) (length segments.now) lines) nodes.now.nodes) }
{
    let crossings = crossings_of(alloc, passages, nodes, segments)?;
    let count = segments.chains().len() as u32;
    joins_of(alloc, nodes.points(), count, lines, &crossings)
}

/// The parts of the graph, with these joins at its nodes.
fn parts_of(
    alloc: Global,
    points: &[Point],
    stations: &[StationId],
    table: &EdgeTable,
    nodes: &Nodes,
    segments: &Segments,
    joins: Vec<Sequence<Join>>,
) -> Result<GraphParts, NoMemory>
    requires nodes { AreNodesOver points.now table.now nodes.now }
    requires ends { All (EndsBelow (length table.now)) segments.now }
    ensures { IfOk result (λ parts. parts ≡ row_graph stations.now points.now joins.items table.now nodes.now.nodes segments.now) }
{
    let kinds = kinds_of(alloc, stations, nodes.points())?;
    let places = places_of(alloc, points, nodes.points())?;
    let ends = ends_of(alloc, segments.chains(), nodes)?;
    let lines = lines_of(alloc, table, segments.chains())?;
    let rounds = rounds_of(alloc, points, table, nodes, segments)?;
    Ok(GraphParts {
        kinds: Sequence::of(kinds),
        places: Sequence::of(places),
        ends: Sequence::of(ends),
        lines: Sequence::of(lines),
        rounds: Sequence::of(rounds),
        joins: Sequence::of(joins),
    })
}

/// What stands at each of these points.
fn kinds_of(alloc: Global, stations: &[StationId], nodes: &[u32]) -> Result<Vec<NodeKind>, NoMemory>
    ensures { IfOk result (λ kinds. kinds.items ≡ map (kind_at_of stations.now) nodes.now) }
{
    let mut kinds = Vec::with_capacity(alloc, nodes.len())?;
    for node in nodes {
        kinds.push(kind_at(stations, *node))?;
    }
    Ok(kinds)
}

/// What stands at a net point: a station, where it is one of the first points, or a junction.
fn kind_at(stations: &[StationId], p: u32) -> NodeKind
    ensures { result ≡ kind_at_of stations.now p }
{
    match stations.get(p as usize) {
        None => NodeKind::Junction,
        Some(station) => NodeKind::Station(*station),
    }
}

/// Where each of these points of a net lies.
pub fn places_of(alloc: Global, points: &[Point], nodes: &[u32]) -> Result<Vec<Point>, NoMemory>
    requires { All (λ p. p < length points.now) nodes.now }
    ensures { IfOk result (λ places. places.items ≡ map (point_at points.now) nodes.now) }
{
    let mut places = Vec::with_capacity(alloc, nodes.len())?;
    for node in nodes {
        places.push(points[*node as usize])?;
    }
    Ok(places)
}
