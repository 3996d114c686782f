//! What is drawn, and what there is of each thing.

ghost use Rattle.std.specs.Prelude.{◌≡◌, ◌≤◌, ◌↔◌, pos, length, IfOk, IsOk};
ghost use Rattle.svg_writer.specs.Courses.{order_at};
ghost use Rattle.svg_writer.specs.Picture.{colour_of, ends_at, lines_at, name_of, round_at, station_name};

use crate::names::Names;
use crate::style::Style;
use graph_core::LineGraph;
use map_base::{LineId, NoMemory, NodeId, SegId};
use order_values::Orders;

/// A line graph with what is drawn of it, and how that looks.
#[derive(Drop)]
pub(crate) struct Scene<'a, D> {
    pub style: Style,
    pub graph: &'a LineGraph,
    pub names: &'a Names,
    pub drawn: &'a D,
    pub orders: &'a Orders,
}

/// A count that is small enough to reckon with. More things than that have no room.
pub(crate) fn small_count(count: usize) -> Result<i32, NoMemory>
    ensures value { IfOk result (λ n. (n ≡ pos count) × (count ≤ 100000000)) }
    ensures room { IsOk result ↔ (count ≤ 100000000) }
{
    if count > 100_000_000 {
        return Err(NoMemory);
    }
    Ok(count as i32)
}

/// The order of a segment.
pub fn order_of<'a>(orders: &'a Orders, s: u32) -> &'a [LineId]
    ensures { result.now ≡ order_at orders.now.lists s }
{
    match orders.lists.as_slice().get(s as usize) {
        Some(order) => order.as_slice(),
        None => &[],
    }
}

/// The lines of a segment.
pub fn lines_of<'a>(graph: &'a LineGraph, s: u32) -> &'a [LineId]
    requires { length graph.now.lines ≡ length graph.now.ends }
    ensures { result.now ≡ lines_at graph.now.lines s }
{
    if s < graph.segs() {
        graph.lines(SegId(s))
    } else {
        &[]
    }
}

/// The segments round a node.
pub fn round_of<'a>(graph: &'a LineGraph, n: NodeId) -> &'a [SegId]
    ensures { result.now ≡ round_at graph.now.rounds n.0 }
{
    if n.0 < graph.nodes() {
        graph.round(n)
    } else {
        &[]
    }
}

/// The ends of a segment.
pub fn ends_of(graph: &LineGraph, s: u32) -> (NodeId, NodeId)
    ensures { result ≡ ends_at graph.now.ends s }
{
    if s < graph.segs() {
        graph.ends(SegId(s))
    } else {
        (NodeId(0), NodeId(0))
    }
}

/// The name of a line.
pub fn name_of<'a>(names: &'a Names, line: LineId) -> &'a str
    ensures { result.now ≡ name_of names.now line }
{
    match names.lines.as_slice().get(line.0 as usize) {
        Some((name, _)) => name.as_str(),
        None => "",
    }
}

/// The colour of a line.
pub fn colour_of<'a>(names: &'a Names, line: LineId) -> &'a [u8]
    ensures { result.now ≡ colour_of names.now line }
{
    match names.lines.as_slice().get(line.0 as usize) {
        Some(entry) => {
            let colour = &entry.1;
            &colour[..]
        }
        None => &[],
    }
}

/// The name of a station.
pub fn station_name<'a>(names: &'a Names, station: u32) -> &'a str
    ensures { result.now ≡ station_name names.now station }
{
    match names.stations.as_slice().get(station as usize) {
        Some(name) => name.as_str(),
        None => "",
    }
}
