//! The text of a line graph.

ghost use Rattle.std.specs.Prelude.{◌≡◌, ◌<◌, ◌∷◌, ◌++◌, All, OnOk, IfOk, Some, length, slice_get};
ghost use Rattle.std.specs.List.{flat_map};
ghost use Rattle.map_base.specs.declared.ids.LineId.{LineId};
ghost use Rattle.map_base.specs.declared.ids.SegId.{SegId};
ghost use Rattle.line_graph.specs.Text.{all_joins, all_nodes, all_rounds, all_segments, and_number, counts_line, ends_text, graph_text, id_of, join_line, join_lines, node_line, node_text, round_line, segment_line, IsKnown};

use graph_core::{Join, LineGraph, NodeKind};
use map_base::{LineId, NoMemory, NodeId, Point, SegId, StationId};
use printed_text::{push_line, push_number, push_point};
use std::alloc::Global;
use transit_feed::{Station, Tables};

/// The text of a line graph, a line for each of its things: the counts of nodes and segments; each node with its
/// number, what it is, its place in decimetres, and a station's id; each segment with its number, its lower and its
/// upper node, and its lines; the segments round each node, clockwise from north; and each line that goes on from
/// one segment to another at a node. Control characters of ids become U+FFFD.
pub fn print_graph(alloc: Global, graph: &LineGraph, tables: &Tables) -> Result<Vec<u8>, NoMemory>
    requires { All (IsKnown tables.now.stations) graph.now.kinds }
    ensures { IfOk result (λ text. text.items ≡ graph_text tables.now.stations graph.now) }
{
    let mut text = Vec::new(alloc);
    let mut numbers = String::new(alloc);
    push_counts(&mut text, &mut numbers, graph)?;
    push_nodes(&mut text, &mut numbers, graph, tables.stations.as_slice())?;
    push_segments(&mut text, &mut numbers, graph)?;
    push_rounds(&mut text, &mut numbers, graph)?;
    push_joins(&mut text, &mut numbers, graph)?;
    Ok(text)
}

/// The counts of nodes and segments.
fn push_counts(text: &mut Vec<u8>, numbers: &mut String, graph: &LineGraph) -> Result<(), NoMemory>
    ensures { OnOk result (text.new.items ≡ text.old.items ++ counts_line graph.now) }
{
    text.extend_from_slice(b"graph")?;
    push_number(text, numbers, graph.nodes())?;
    push_number(text, numbers, graph.segs())?;
    text.push(b'\n')?;
    Ok(())
}

/// A line for each node.
#[tactic(auto, using(crate::proofs::Ranges::flat_range_more))]
fn push_nodes(
    text: &mut Vec<u8>,
    numbers: &mut String,
    graph: &LineGraph,
    stations: &[Station],
) -> Result<(), NoMemory>
    requires { All (IsKnown stations.now) graph.now.kinds }
    ensures { OnOk result (text.new.items ≡ text.old.items ++ all_nodes stations.now graph.now) }
{
    for n in 0..graph.nodes() {
        push_node(text, numbers, graph, stations, n)?;
    }
    Ok(())
}

/// The line of a node.
fn push_node(
    text: &mut Vec<u8>,
    numbers: &mut String,
    graph: &LineGraph,
    stations: &[Station],
    n: u32,
) -> Result<(), NoMemory>
    requires known { n < length graph.now.kinds }
    requires stations { All (IsKnown stations.now) graph.now.kinds }
    ensures { OnOk result (text.new.items ≡ text.old.items ++ node_line stations.now graph.now n) }
{
    text.extend_from_slice(b"node")?;
    push_number(text, numbers, n)?;
    push_kind(
        text,
        numbers,
        stations,
        graph.kind(NodeId(n)),
        graph.place(NodeId(n)),
    )
}

/// What a node is and where it lies, to the end of its line.
fn push_kind(
    text: &mut Vec<u8>,
    numbers: &mut String,
    stations: &[Station],
    kind: NodeKind,
    place: Point,
) -> Result<(), NoMemory>
    requires { IsKnown stations.now kind }
    ensures { OnOk result (text.new.items ≡ text.old.items ++ node_text stations.now kind place) }
{
    match kind {
        NodeKind::Station(station) => {
            text.extend_from_slice(b" station ")?;
            push_line(text, numbers, place, id_of(stations, station))
        }
        NodeKind::Junction => {
            text.extend_from_slice(b" junction ")?;
            push_point(text, numbers, place)?;
            text.push(b'\n')?;
            Ok(())
        }
    }
}

/// The id of a station.
fn id_of(stations: &[Station], station: StationId) -> &str
    requires { station.0 < length stations.now }
    ensures { result.now ≡ id_of (slice_get stations.now station.0) }
{
    stations[station.0 as usize].id.as_str()
}

/// A line for each segment.
#[tactic(auto, using(crate::proofs::Ranges::flat_range_more))]
fn push_segments(
    text: &mut Vec<u8>,
    numbers: &mut String,
    graph: &LineGraph,
) -> Result<(), NoMemory>
    ensures { OnOk result (text.new.items ≡ text.old.items ++ all_segments graph.now) }
{
    for s in 0..graph.segs() {
        push_segment(text, numbers, graph, s)?;
    }
    Ok(())
}

/// The line of a segment.
fn push_segment(
    text: &mut Vec<u8>,
    numbers: &mut String,
    graph: &LineGraph,
    s: u32,
) -> Result<(), NoMemory>
    requires { s < length graph.now.ends }
    ensures { OnOk result (text.new.items ≡ text.old.items ++ segment_line graph.now s) }
{
    text.extend_from_slice(b"segment")?;
    push_number(text, numbers, s)?;
    push_ends(text, numbers, graph.ends(SegId(s)))?;
    push_lines(text, numbers, graph.lines(SegId(s)))?;
    text.push(b'\n')?;
    Ok(())
}

/// The numbers of the lower and the upper node.
fn push_ends(
    text: &mut Vec<u8>,
    numbers: &mut String,
    ends: (NodeId, NodeId),
) -> Result<(), NoMemory>
    ensures { OnOk result (text.new.items ≡ text.old.items ++ ends_text ends) }
{
    push_number(text, numbers, ends.0.0)?;
    push_number(text, numbers, ends.1.0)
}

/// The numbers of lines.
fn push_lines(text: &mut Vec<u8>, numbers: &mut String, lines: &[LineId]) -> Result<(), NoMemory>
    ensures { OnOk result (text.new.items ≡ text.old.items ++ flat_map (λ (l : LineId). and_number l.0) lines.now) }
{
    for line in lines {
        push_number(text, numbers, line.0)?;
    }
    Ok(())
}

/// A line for the round of each node.
#[tactic(auto, using(crate::proofs::Ranges::flat_range_more))]
fn push_rounds(text: &mut Vec<u8>, numbers: &mut String, graph: &LineGraph) -> Result<(), NoMemory>
    ensures { OnOk result (text.new.items ≡ text.old.items ++ all_rounds graph.now) }
{
    for n in 0..graph.nodes() {
        push_round(text, numbers, graph, n)?;
    }
    Ok(())
}

/// The line of a node's round.
fn push_round(
    text: &mut Vec<u8>,
    numbers: &mut String,
    graph: &LineGraph,
    n: u32,
) -> Result<(), NoMemory>
    requires { n < length graph.now.kinds }
    ensures { OnOk result (text.new.items ≡ text.old.items ++ round_line graph.now n) }
{
    text.extend_from_slice(b"round")?;
    push_number(text, numbers, n)?;
    push_segment_numbers(text, numbers, graph.round(NodeId(n)))?;
    text.push(b'\n')?;
    Ok(())
}

/// The numbers of segments.
fn push_segment_numbers(
    text: &mut Vec<u8>,
    numbers: &mut String,
    round: &[SegId],
) -> Result<(), NoMemory>
    ensures { OnOk result (text.new.items ≡ text.old.items ++ flat_map (λ (s : SegId). and_number s.0) round.now) }
{
    for s in round {
        push_number(text, numbers, s.0)?;
    }
    Ok(())
}

/// The lines of the joins of all nodes.
#[tactic(auto, using(crate::proofs::Ranges::flat_range_more))]
fn push_joins(text: &mut Vec<u8>, numbers: &mut String, graph: &LineGraph) -> Result<(), NoMemory>
    ensures { OnOk result (text.new.items ≡ text.old.items ++ all_joins graph.now) }
{
    for n in 0..graph.nodes() {
        push_joins_at(text, numbers, graph, n)?;
    }
    Ok(())
}

/// The lines of a node's joins.
fn push_joins_at(
    text: &mut Vec<u8>,
    numbers: &mut String,
    graph: &LineGraph,
    n: u32,
) -> Result<(), NoMemory>
    requires { n < length graph.now.kinds }
    ensures { OnOk result (text.new.items ≡ text.old.items ++ join_lines graph.now n) }
{
    push_join_list(text, numbers, n, graph.joins(NodeId(n)))
}

/// A line for each of some joins at a node.
fn push_join_list(
    text: &mut Vec<u8>,
    numbers: &mut String,
    n: u32,
    joins: &[Join],
) -> Result<(), NoMemory>
    ensures { OnOk result (text.new.items ≡ text.old.items ++ flat_map (join_line n) joins.now) }
{
    for join in joins {
        push_join(text, numbers, n, *join)?;
    }
    Ok(())
}

/// The line of a join.
fn push_join(text: &mut Vec<u8>, numbers: &mut String, n: u32, join: Join) -> Result<(), NoMemory>
    ensures { OnOk result (text.new.items ≡ text.old.items ++ join_line n join) }
{
    text.extend_from_slice(b"join")?;
    push_number(text, numbers, n)?;
    push_number(text, numbers, join.e.0)?;
    push_number(text, numbers, join.f.0)?;
    push_number(text, numbers, join.line.0)?;
    text.push(b'\n')?;
    Ok(())
}
