//! The lines that call at the nodes of a line graph.

ghost use Rattle.std.specs.Prelude.{◌≡◌, [], IfOk, map, slice_index_or};
ghost use Rattle.line_calls.specs.Calls.{line_numbered, node_callers};
ghost use Rattle.line_calls.specs.Tables.{lists_in, numbers_at};

use crate::by_line::numbers_by_line;
use crate::table::call_table;
use graph_core::{LineGraph, NodeKind};
use map_base::{LineId, NoMemory, NodeId, Sequence};
use std::alloc::Global;
use transit_feed::Tables;

/// The lines that call at each node of a line graph, in node order, each list rising: a line calls at a station where some
/// pattern of it, which is shown, has the station. None calls at a junction.
pub fn node_callers(
    alloc: Global,
    tables: &Tables,
    graph: &LineGraph,
) -> Result<Sequence<Sequence<LineId>>, NoMemory>
    ensures { IfOk result (λ lists. lists ≡ node_callers tables.now graph.now.kinds) }
{
    let by_line = numbers_by_line(alloc, &tables.lines, &tables.patterns)?;
    let table = call_table(
        alloc,
        tables.stations.len(),
        &tables.patterns,
        by_line.as_slice(),
    )?;
    let lists = lists_of(alloc, table.as_slice(), graph)?;
    Ok(Sequence::of(lists))
}

/// The lines at each node, by a table of their numbers at each station.
fn lists_of(
    alloc: Global,
    table: &[Vec<u32>],
    graph: &LineGraph,
) -> Result<Vec<Sequence<LineId>>, NoMemory>
    ensures { IfOk result (λ lists. lists.items ≡ map (numbers_at (lists_in table.now)) graph.now.kinds) }
{
    let mut lists = Vec::new(alloc);
    for n in 0..graph.nodes() {
        lists.push(lines_of(alloc, table, graph.kind(NodeId(n)))?)?;
    }
    Ok(lists)
}

/// The lines at a node of this kind.
fn lines_of(alloc: Global, table: &[Vec<u32>], kind: NodeKind) -> Result<Sequence<LineId>, NoMemory>
    ensures { IfOk result (λ lines. lines ≡ numbers_at (lists_in table.now) kind) }
{
    match kind {
        NodeKind::Station(station) => line_ids(alloc, numbers_of(table, station.0)),
        NodeKind::Junction => line_ids(alloc, &[]),
    }
}

/// The numbers at a station in a table, none where it is not there.
fn numbers_of(table: &[Vec<u32>], station: u32) -> &[u32]
    ensures { result.now ≡ slice_index_or (lists_in table.now) station [] }
{
    match table.get(station as usize) {
        Some(numbers) => numbers.as_slice(),
        None => &[],
    }
}

/// The lines of these numbers.
fn line_ids(alloc: Global, numbers: &[u32]) -> Result<Sequence<LineId>, NoMemory>
    ensures { IfOk result (λ lines. lines ≡ map line_numbered numbers.now) }
{
    let mut lines = Vec::new(alloc);
    for number in numbers {
        lines.push(LineId(*number))?;
    }
    Ok(Sequence::of(lines))
}
