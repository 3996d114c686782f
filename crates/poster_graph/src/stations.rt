//! What a poster shows of a station node.

ghost use Rattle.std.specs.Prelude.{◌≡◌, ◌≤◌, ◌&&◌, nat_le, if◌then◌else◌, IfOk, Some};
ghost use Rattle.graph_core.specs.Consistent.{IsConsistent};
ghost use Rattle.poster_rules.specs.Stations.{ending, is_end, is_interchange, is_level, is_short, leaves_level, port_at, radius_at, segments_with};
ghost use Rattle.svg_writer.specs.Picture.{ends_at, walk_at};

use crate::served::{Served, callers_at, has_line, walk_of};
use graph_core::LineGraph;
use map_base::{LineId, NoMemory, NodeId, SegId, Sequence};
use octi_grid::{Dir, Walk};
use std::alloc::Global;
use svg_writer::{ends_of, lines_of, most_lines, name_of, round_of};

/// The lines that end at a node, rising: those that call there, are on exactly one of its segments, and have a name of
/// one to five characters.
pub fn ending(alloc: Global, served: Served<'_>, n: NodeId) -> Result<Vec<LineId>, NoMemory>
    requires { IsConsistent served.graph.now }
    ensures { IfOk result (λ lines. lines.items ≡ ending served.entry.names.now served.entry.graph.now served.entry.callers.now n.0) }
{
    let callers = callers_at(served.callers, n.0);
    let mut lines = Vec::new(alloc);
    for line in callers {
        if is_end(served, n, *line) {
            lines.push(*line)?;
        }
    }
    Ok(lines)
}

/// Whether a line that calls at a node ends there.
fn is_end(served: Served<'_>, n: NodeId, line: LineId) -> bool
    requires { IsConsistent served.graph.now }
    ensures { result ≡ is_end served.entry.names.now served.entry.graph.now n.0 line }
{
    segments_with(served.graph, n, line) == 1 && is_short(name_of(served.names, line))
}

/// How many segments of a node a line is on.
fn segments_with(graph: &LineGraph, n: NodeId, line: LineId) -> usize
    requires { IsConsistent graph.now }
    ensures { result ≡ segments_with graph.now n.0 line }
{
    let round = round_of(graph, n);
    let mut count = 0;
    for s in round {
        if has_line(line, lines_of(graph, s.0)) {
            count += 1;
        }
    }
    count
}

/// Whether a name has one to five characters.
fn is_short(name: &str) -> bool
    ensures { result ≡ is_short name.now }
{
    let count = name.chars().count();
    is_few(count)
}

/// Whether so many are one to five.
fn is_few(count: usize) -> bool
    ensures { result ≡ (nat_le 1 count && nat_le count 5) }
{
    1 <= count && count <= 5
}

/// Whether a node is an interchange: it has at least three segments, and at least two lines call there.
pub fn is_interchange(graph: &LineGraph, callers: &Sequence<Sequence<LineId>>, n: NodeId) -> bool
    ensures { result ≡ is_interchange graph.now callers.now n.0 }
{
    let segments = round_of(graph, n).len();
    let lines = callers_at(callers, n.0).len();
    has_changes(segments, lines)
}

/// Whether one changes at a node of so many segments, where so many lines call.
fn has_changes(segments: usize, lines: usize) -> bool
    ensures { result ≡ (nat_le 3 segments && nat_le 2 lines) }
{
    3 <= segments && 2 <= lines
}

/// How far a station reaches from its centre. For more lines than can be reckoned with there is no room.
pub(crate) fn radius_at(served: Served<'_>, n: NodeId) -> Result<u32, NoMemory>
    requires { IsConsistent served.graph.now }
    ensures { IfOk result (λ r. r ≡ radius_at served.entry.graph.now served.entry.callers.now n.0) }
{
    let round = round_of(served.graph, n);
    let most = most_lines(served.graph, round);
    if most > 100_000_000 {
        return Err(NoMemory);
    }
    Ok(7 * most as u32 + rim_at(served.graph, served.callers, n))
}

/// How far it reaches beyond its lines.
fn rim_at(graph: &LineGraph, callers: &Sequence<Sequence<LineId>>, n: NodeId) -> u32
    ensures value { result ≡ (if is_interchange graph.now callers.now n.0 then 7 else 3) }
    ensures small { result ≤ 7 }
{
    if is_interchange(graph, callers, n) {
        7
    } else {
        3
    }
}

/// Whether all segments of a node leave it to the east or to the west.
pub(crate) fn leaves_level(served: Served<'_>, n: NodeId) -> bool
    ensures { result ≡ leaves_level served.entry.graph.now served.entry.drawing.now.walks n.0 }
{
    let round = round_of(served.graph, n);
    for s in round {
        if !is_level(port_at(served, n, *s)) {
            return false;
        }
    }
    true
}

/// The direction in which a segment leaves a node, an end of it.
fn port_at(served: Served<'_>, n: NodeId, s: SegId) -> Option<Dir>
    ensures { result ≡ port_at n.0 (ends_at served.entry.graph.now.ends s.0) (walk_at served.entry.drawing.now.walks s.0) }
{
    match walk_of(&served.drawing.walks, s.0) {
        Some(walk) => Some(port_of(walk, ends_of(served.graph, s.0), n)),
        None => None,
    }
}

/// The direction in which a walk between these ends leaves a node, one of them.
fn port_of(walk: &Walk, ends: (NodeId, NodeId), n: NodeId) -> Dir
    ensures { port_at n.0 ends walk.now ≡ Some result }
{
    if ends.0.0 == n.0 {
        walk.start_port()
    } else {
        walk.end_port()
    }
}

/// Whether there is a direction, to the east or to the west.
fn is_level(port: Option<Dir>) -> bool
    ensures { result ≡ is_level port }
{
    match port {
        None => false,
        Some(dir) => runs_level(dir),
    }
}

/// Whether a direction is to the east or to the west.
fn runs_level(dir: Dir) -> bool
    ensures { result ≡ is_level (Some dir) }
{
    match dir {
        Dir::E | Dir::W => true,
        Dir::N | Dir::NE | Dir::SE | Dir::S | Dir::SW | Dir::NW => false,
    }
}
