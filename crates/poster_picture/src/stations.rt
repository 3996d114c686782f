//! The marks of stations, at the lines that call there.

ghost use Rattle.std.specs.Prelude.{◌≡◌, ◌<◌, ◌≤◌, ◌++◌, ◌&&◌, not, length, IfOk, OnOk, string_bytes};
ghost use Rattle.std.specs.List.{list_any, position_or_len};
ghost use Rattle.graph_core.specs.Consistent.{IsConsistent};
ghost use Rattle.svg_writer.specs.Picture.{are_one};
ghost use Rattle.poster_rules.specs.Elements.{texts};
ghost use Rattle.poster_rules.specs.Posters.{by_size, feet_at, goes_before, stands_on, station_elements, stroke_through, strokes_at, strokes_over, with_corner};
ghost use Rattle.poster_rules.specs.Stations.{callers_at, has_line};
ghost use Rattle.poster_picture.specs.Feet.{with_stand, with_stands};
ghost use Rattle.poster_picture.specs.Parts.{all_stations, station_at};
ghost use Rattle.poster_picture.specs.Sheets.{plain};

use crate::elements::{close_group, push_inked, push_station};
use crate::pieces::Ink;
use crate::sheet::{Sheet, foot_on};
use graph_core::{LineGraph, NodeKind};
use line_offsets::Corner;
use map_base::{LineId, NoMemory, NodeId, SegId};
use poster_graph::{callers_at, has_line, is_interchange};
use std::alloc::Global;
use svg_writer::{are_one, lines_of, order_of, round_of, station_name};

/// Appends each station.
pub(crate) fn push_all_stations(
    alloc: Global,
    text: &mut String,
    sheet: Sheet<'_>,
) -> Result<(), NoMemory>
    requires { sheet.pitch ≤ 200 }
    ensures { OnOk result (string_bytes text.new ≡ string_bytes text.old ++ texts (all_stations (plain sheet.entry))) }
{
    for n in 0..sheet.graph.nodes() {
        push_node(alloc, text, sheet, NodeId(n))?;
    }
    Ok(())
}

/// Appends a node, where it is a station.
fn push_node(alloc: Global, text: &mut String, sheet: Sheet<'_>, n: NodeId) -> Result<(), NoMemory>
    requires pitch { sheet.pitch ≤ 200 }
    requires graph { IsConsistent sheet.graph.now }
    requires node { n.0 < length sheet.graph.now.kinds }
    ensures { OnOk result (string_bytes text.new ≡ string_bytes text.old ++ texts (station_at (plain sheet.entry) n.0)) }
{
    push_kind(alloc, text, sheet, n, sheet.graph.kind(n))
}

/// Appends a node of this kind, where that is a station.
fn push_kind(
    alloc: Global,
    text: &mut String,
    sheet: Sheet<'_>,
    n: NodeId,
    kind: NodeKind,
) -> Result<(), NoMemory>
    requires pitch { sheet.pitch ≤ 200 }
    requires graph { IsConsistent sheet.graph.now }
    ensures { OnOk result (string_bytes text.new ≡ string_bytes text.old ++ texts (station_elements (plain sheet.entry) n.0 kind)) }
{
    match kind {
        NodeKind::Junction => Ok(()),
        NodeKind::Station(station) => {
            let callers = callers_at(sheet.callers, n.0);
            push_station(text, n.0, callers, station_name(sheet.names, station.0))?;
            push_strokes(alloc, text, sheet, n, callers)?;
            close_group(text)?;
            Ok(())
        }
    }
}

/// Appends the strokes of a node, where some line calls.
fn push_strokes(
    alloc: Global,
    text: &mut String,
    sheet: Sheet<'_>,
    n: NodeId,
    callers: &[LineId],
) -> Result<(), NoMemory>
    requires pitch { sheet.pitch ≤ 200 }
    requires graph { IsConsistent sheet.graph.now }
    ensures { callers.now ≡ callers_at sheet.entry.callers.now n.0 → OnOk result (string_bytes text.new ≡ string_bytes text.old ++ texts (strokes_at (plain sheet.entry) n.0 callers.now)) }
{
    if callers.is_empty() {
        return Ok(());
    }
    let mut path = feet_at(alloc, sheet, n, callers)?;
    close_path(&mut path)?;
    let change = is_interchange(sheet.graph, sheet.callers, n);
    push_strokes_over(text, change, path.as_slice())?;
    Ok(())
}

/// Appends the black stroke through feet and the white one over it, broader at an interchange.
fn push_strokes_over(text: &mut String, change: bool, path: &[Corner]) -> Result<(), NoMemory>
    ensures { OnOk result (string_bytes text.new ≡ string_bytes text.old ++ texts (strokes_over change path.now)) }
{
    if change {
        push_inked(text, path, Ink::Black, 28)?;
        push_inked(text, path, Ink::White, 18)?;
        return Ok(());
    }
    push_inked(text, path, Ink::Black, 20)?;
    push_inked(text, path, Ink::White, 12)?;
    Ok(())
}

/// Puts the only corner of a path a second time, so that its round end is drawn.
fn close_path(path: &mut Vec<Corner>) -> Result<(), NoMemory>
    ensures { OnOk result (path.new.items ≡ stroke_through path.old.items) }
{
    if path.len() != 1 {
        return Ok(());
    }
    let only = path[0];
    path.push(only)?;
    Ok(())
}

/// The segments of a node, those of more lines first, and those of as many by their numbers. A node has few.
fn by_size(alloc: Global, graph: &LineGraph, n: NodeId) -> Result<Vec<SegId>, NoMemory>
    requires { IsConsistent graph.now }
    ensures { IfOk result (λ segments. segments.items ≡ by_size graph.now n.0) }
{
    let round = round_of(graph, n);
    let mut sorted = Vec::new(alloc);
    for s in round {
        let place = place_for(graph, sorted.as_slice(), *s);
        sorted.insert(place, *s)?;
    }
    Ok(sorted)
}

/// The place of the first of these segments that a segment goes before, or their number.
fn place_for(graph: &LineGraph, sorted: &[SegId], s: SegId) -> usize
    requires { IsConsistent graph.now }
    ensures value { result ≡ position_or_len (goes_before graph.now.lines s) sorted.now }
    ensures within { result ≤ length sorted.now }
{
    for (place, other) in sorted.iter().enumerate() {
        if goes_before(graph, s, *other) {
            return place;
        }
    }
    sorted.len()
}

/// Whether a segment goes before another: it has more lines, or as many and a lesser number.
fn goes_before(graph: &LineGraph, a: SegId, b: SegId) -> bool
    requires { IsConsistent graph.now }
    ensures { result ≡ goes_before graph.now.lines a b }
{
    let first = lines_of(graph, a.0).len();
    let second = lines_of(graph, b.0).len();
    if first == second {
        a.0 < b.0
    } else {
        second < first
    }
}

/// The feet of the lines that call at a node, each once: that of a line is on the first segment on which it stands.
fn feet_at(
    alloc: Global,
    sheet: Sheet<'_>,
    n: NodeId,
    callers: &[LineId],
) -> Result<Vec<Corner>, NoMemory>
    requires pitch { sheet.pitch ≤ 200 }
    requires graph { IsConsistent sheet.graph.now }
    ensures { callers.now ≡ callers_at sheet.entry.callers.now n.0 → IfOk result (λ path. path.items ≡ feet_at (plain sheet.entry) n.0) }
{
    let segments = by_size(alloc, sheet.graph, n)?;
    let mut seen = Vec::new(alloc);
    let mut path = Vec::new(alloc);
    for i in 0..segments.len() {
        put_feet(&mut path, &mut seen, sheet, n, segments[i], callers)?;
    }
    Ok(path)
}

/// Appends the feet of the lines of a segment that call and are not seen yet.
fn put_feet(
    path: &mut Vec<Corner>,
    seen: &mut Vec<LineId>,
    sheet: Sheet<'_>,
    n: NodeId,
    s: SegId,
    callers: &[LineId],
) -> Result<(), NoMemory>
    requires { sheet.pitch ≤ 200 }
    ensures { OnOk result (record { seen = seen.new.items; path = path.new.items } ≡ with_stands (plain sheet.entry) n.0 callers.now (record { seen = seen.old.items; path = path.old.items }) (stands_on (plain sheet.entry) s)) }
{
    for line in order_of(sheet.orders, s.0) {
        put_line(path, seen, sheet, n, s, *line, callers)?;
    }
    Ok(())
}

/// Appends the foot of a line on a segment, where it calls and is not seen yet.
fn put_line(
    path: &mut Vec<Corner>,
    seen: &mut Vec<LineId>,
    sheet: Sheet<'_>,
    n: NodeId,
    s: SegId,
    line: LineId,
    callers: &[LineId],
) -> Result<(), NoMemory>
    requires { sheet.pitch ≤ 200 }
    ensures { OnOk result (record { seen = seen.new.items; path = path.new.items } ≡ with_stand (plain sheet.entry) n.0 callers.now (record { seen = seen.old.items; path = path.old.items }) (record { seg = s.0; line = line })) }
{
    if !is_new(line, callers, seen.as_slice()) {
        return Ok(());
    }
    let foot = foot_on(sheet, n, s.0, line)?;
    seen.push(line)?;
    put_foot(path, foot)?;
    Ok(())
}

/// Whether a line calls and is not seen yet.
fn is_new(line: LineId, callers: &[LineId], seen: &[LineId]) -> bool
    ensures { result ≡ (has_line line callers.now && not (has_line line seen.now)) }
{
    if !has_line(line, callers) {
        return false;
    }
    !has_line(line, seen)
}

/// Appends a corner where the path has it not yet.
fn put_foot(path: &mut Vec<Corner>, foot: Corner) -> Result<(), NoMemory>
    ensures { OnOk result (path.new.items ≡ with_corner path.old.items foot) }
{
    if has_corner(path.as_slice(), foot) {
        return Ok(());
    }
    path.push(foot)?;
    Ok(())
}

/// Whether a corner is one of a path's.
fn has_corner(path: &[Corner], corner: Corner) -> bool
    ensures { result ≡ list_any (are_one corner) path.now }
{
    for known in path {
        if are_one(corner, *known) {
            return true;
        }
    }
    false
}
