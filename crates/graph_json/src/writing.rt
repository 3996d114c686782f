//! Writing a graph file.

ghost use Rattle.std.specs.Prelude.{◌≡◌, ◌++◌, Ok, length, map, IfOk, OnOk};
ghost use Rattle.std.specs.List.{range_with_len};
ghost use Rattle.serde_json.specs.View.{view};
ghost use Rattle.graph_core.specs.Consistent.{IsConsistent};
ghost use Rattle.graph_json.specs.Written.{after_lines, graph_data, graph_text, line_data, lines_data, lines_listed, list_data, node_data, segment_data};
ghost use Rattle.graph_json.specs.Again.{CanBeRead, read_again};
ghost use Rattle.graph_json.specs.Outcome.{graph_outcome};

use crate::written::{line, node, segment};
use graph_core::LineGraph;
use map_base::{LineId, NoMemory, NodeId, SegId};
use serde_json::{Value, json};
use std::alloc::{AllocError, Global};
use svg_writer::Names;

/// The text of a line graph as GeoJSON: one compact line. Coordinates are whole decimetres of the plane. `names` has the
/// names of stations and the names and colours of lines by their numbers (an empty text where it has none), `importance`
/// a number from 1 to 16 for each line (1 where it has none). What is written is read as the same graph, up to the numbers
/// of its stations, with the same names, colours and importances.
#[tactic(auto, using(crate::proofs::WrittenAgain::text_written, crate::proofs::WrittenAgain::text_again))]
pub fn write_graph(
    alloc: Global,
    graph: &LineGraph,
    names: &Names,
    importance: &[u32],
) -> Result<Vec<u8>, NoMemory>
    ensures text { IfOk result (λ bytes. bytes.items ≡ graph_text graph.now names.now importance.now) }
    ensures again { IfOk result (λ bytes. CanBeRead graph.now names.now importance.now
        → graph_outcome bytes.items ≡ Ok (read_again graph.now names.now importance.now)) }
{
    let value = whole(alloc, graph, names, importance)?;
    let mut text = value.to_vec(alloc)?;
    text.push(b'\n')?;
    Ok(text)
}

/// The whole as a value.
fn whole(
    alloc: Global,
    graph: &LineGraph,
    names: &Names,
    importance: &[u32],
) -> Result<Value, AllocError>
    ensures value { IfOk result (λ v. view v ≡ graph_data graph.now names.now importance.now) }
    ensures fits { IfOk result (λ _. IsConsistent graph.now) }
{
    let mut features = Vec::with_capacity(alloc, graph.nodes() as usize + graph.segs() as usize)?;
    push_nodes(alloc, &mut features, graph, names)?;
    push_segments(alloc, &mut features, graph)?;
    let features = Value::Array(features);
    let lines = lines(alloc, graph, names, importance)?;
    json!(in alloc; {"features": features, "lines": lines, "type": "FeatureCollection"})
}

/// Adds the nodes.
#[tactic(auto, using(crate::proofs::Lists::one_more))]
fn push_nodes(
    alloc: Global,
    features: &mut Vec<Value>,
    graph: &LineGraph,
    names: &Names,
) -> Result<(), AllocError>
    ensures { OnOk result (map view features.new.items ≡ map view features.old.items ++ map (node_data graph.now names.now) (range_with_len 0 (length graph.now.kinds))) }
{
    for n in 0..graph.nodes() {
        features.push(node(alloc, graph, names, NodeId(n))?)?;
    }
    Ok(())
}

/// Adds the segments.
#[tactic(auto, using(crate::proofs::Lists::one_more))]
fn push_segments(
    alloc: Global,
    features: &mut Vec<Value>,
    graph: &LineGraph,
) -> Result<(), AllocError>
    ensures { OnOk result (map view features.new.items ≡ map view features.old.items ++ map (segment_data graph.now) (range_with_len 0 (length graph.now.ends))) }
{
    for s in 0..graph.segs() {
        features.push(segment(alloc, graph, SegId(s))?)?;
    }
    Ok(())
}

/// The lines from number 0 to the greatest on a segment.
#[tactic(auto, using(crate::proofs::Lists::one_counted))]
fn lines(
    alloc: Global,
    graph: &LineGraph,
    names: &Names,
    importance: &[u32],
) -> Result<Value, AllocError>
    requires { IsConsistent graph.now }
    ensures { IfOk result (λ v. view v ≡ list_data (lines_data graph.now names.now importance.now)) }
{
    let mut lines = Vec::new(alloc);
    for l in 0..lines_listed(graph) {
        lines.push(line_of_number(alloc, names, importance, l)?)?;
    }
    Ok(Value::Array(lines))
}

/// The line of this number.
fn line_of_number(
    alloc: Global,
    names: &Names,
    importance: &[u32],
    l: u64,
) -> Result<Value, AllocError>
    ensures { IfOk result (λ v. view v ≡ line_data names.now importance.now l) }
{
    let importance = match importance.get(l as usize) {
        Some(importance) => *importance,
        None => 1,
    };
    match names.lines.as_slice().get(l as usize) {
        Some(entry) => {
            let colour = &entry.1;
            line(alloc, entry.0.as_str(), &colour[..], importance)
        }
        None => line(alloc, "", &[], importance),
    }
}

/// How many lines are listed: as many as the greatest number of a line on a segment, and one.
#[tactic(auto, using(crate::proofs::Lists::lines_more, crate::proofs::Lists::lines_done))]
fn lines_listed(graph: &LineGraph) -> u64
    requires { IsConsistent graph.now }
    ensures { result ≡ lines_listed graph.now.lines }
{
    let mut listed = 0;
    for s in 0..graph.segs() {
        listed = after_lines(listed, graph.lines(SegId(s)));
    }
    listed
}

/// The greater of a count and one more than the greatest number of a line.
fn after_lines(listed: u64, lines: &[LineId]) -> u64
    ensures { result ≡ after_lines listed lines.now }
{
    let mut most = listed;
    for line in lines {
        most = most.max(u64::from(line.0) + 1);
    }
    most
}
