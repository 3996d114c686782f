//! The lines on segments, and those from segment to segment.

ghost use Rattle.std.specs.Prelude.{◌≡◌, ◌≤◌, ◌<◌, ◌++◌, length, slice_index_or, OnOk, string_bytes};
ghost use Rattle.line_offsets.specs.Paths.{line_path_at};
ghost use Rattle.svg_writer.specs.Picture.{no_line, walk_at};
ghost use Rattle.poster_rules.specs.Elements.{texts, AtNode, BehindAtNode, BehindOnSegment, OnSegment};
ghost use Rattle.poster_rules.specs.Posters.{join_elements, node_joins, segment_elements, with_behind};
ghost use Rattle.poster_picture.specs.Sheets.{plain};
ghost use Rattle.poster_picture.specs.Parts.{all_joins, all_lines, line_at};

use crate::elements::{push_at_node, push_behind_at_node, push_behind_on_segment, push_on_segment};
use crate::sheet::{Sheet, foot_on, walk_of};
use graph_core::Join;
use line_offsets::{Corner, put_path_at};
use map_base::{LineId, NoMemory, NodeId};
use name_widths::is_pale;
use std::alloc::Global;
use svg_writer::{are_one, colour_of, gauge, name_of, order_of};

/// Appends each line of each segment.
pub(crate) fn push_all_lines(
    alloc: Global,
    text: &mut String,
    sheet: Sheet<'_>,
) -> Result<(), NoMemory>
    requires { sheet.pitch ≤ 200 }
    ensures { OnOk result (string_bytes text.new ≡ string_bytes text.old ++ texts (all_lines (plain sheet.entry))) }
{
    let mut path = Vec::new(alloc);
    for s in 0..sheet.graph.segs() {
        push_segment(text, &mut path, sheet, s)?;
    }
    Ok(())
}

/// Appends the lines of a segment. `path` is a buffer that is used anew for each of them.
fn push_segment(
    text: &mut String,
    path: &mut Vec<Corner>,
    sheet: Sheet<'_>,
    s: u32,
) -> Result<(), NoMemory>
    requires { sheet.pitch ≤ 200 }
    ensures { OnOk result (string_bytes text.new ≡ string_bytes text.old ++ texts (segment_elements (plain sheet.entry) s)) }
{
    let order = order_of(sheet.orders, s);
    for i in 0..order.len() {
        push_line(text, path, sheet, s, order, i)?;
    }
    Ok(())
}

/// Appends line i of the order of a segment.
fn push_line(
    text: &mut String,
    path: &mut Vec<Corner>,
    sheet: Sheet<'_>,
    s: u32,
    order: &[LineId],
    i: usize,
) -> Result<(), NoMemory>
    requires pitch { sheet.pitch ≤ 200 }
    requires place { i < length order.now }
    ensures { OnOk result (string_bytes text.new ≡ string_bytes text.old ++ texts (line_at (plain sheet.entry) s (length order.now) i (slice_index_or order.now i no_line))) }
{
    let line = order[i];
    let k = gauge(order.len(), i)?;
    put_line(path, sheet, s, k)?;
    push_on(
        text,
        s,
        line,
        path.as_slice(),
        colour_of(sheet.names, line),
        name_of(sheet.names, line),
    )?;
    Ok(())
}

/// Puts the path of a line that is shifted k places beside the walk of a segment into `path`, in place of what it held.
fn put_line(path: &mut Vec<Corner>, sheet: Sheet<'_>, s: u32, k: i32) -> Result<(), NoMemory>
    requires { sheet.pitch ≤ 200 }
    ensures { OnOk result (path.new.items ≡ line_path_at sheet.entry.pitch (walk_at sheet.entry.drawing.now.walks s) k) }
{
    match walk_of(sheet, s) {
        Some(walk) => put_path_at(path, sheet.pitch, walk, k),
        None => {
            path.clear();
            Ok(())
        }
    }
}

/// Appends a line on a segment, and what stands behind it where it is pale.
fn push_on(
    text: &mut String,
    s: u32,
    line: LineId,
    path: &[Corner],
    colour: &[u8],
    name: &str,
) -> Result<(), NoMemory>
    ensures { OnOk result (string_bytes text.new ≡ string_bytes text.old ++ texts (with_behind colour.now (BehindOnSegment s line.0 path.now) (OnSegment s line.0 path.now colour.now name.now))) }
{
    if is_pale(colour) {
        push_behind_on_segment(text, s, line, path)?;
        push_on_segment(text, s, line, path, colour, name)?;
        return Ok(());
    }
    push_on_segment(text, s, line, path, colour, name)?;
    Ok(())
}

/// Appends each line from segment to segment at each node.
pub(crate) fn push_all_joins(text: &mut String, sheet: Sheet<'_>) -> Result<(), NoMemory>
    requires { sheet.pitch ≤ 200 }
    ensures { OnOk result (string_bytes text.new ≡ string_bytes text.old ++ texts (all_joins (plain sheet.entry))) }
{
    for n in 0..sheet.graph.nodes() {
        push_node_joins(text, sheet, NodeId(n))?;
    }
    Ok(())
}

/// Appends the lines from segment to segment at a node.
fn push_node_joins(text: &mut String, sheet: Sheet<'_>, n: NodeId) -> Result<(), NoMemory>
    requires pitch { sheet.pitch ≤ 200 }
    requires node { n.0 < length sheet.graph.now.kinds }
    ensures { OnOk result (string_bytes text.new ≡ string_bytes text.old ++ texts (node_joins (plain sheet.entry) n.0)) }
{
    for join in sheet.graph.joins(n) {
        push_join(text, sheet, n, *join)?;
    }
    Ok(())
}

/// Appends a line from segment to segment at a node, where its two ends differ.
fn push_join(text: &mut String, sheet: Sheet<'_>, n: NodeId, join: Join) -> Result<(), NoMemory>
    requires { sheet.pitch ≤ 200 }
    ensures { OnOk result (string_bytes text.new ≡ string_bytes text.old ++ texts (join_elements (plain sheet.entry) n.0 join)) }
{
    let start = foot_on(sheet, n, join.e.0, join.line)?;
    let end = foot_on(sheet, n, join.f.0, join.line)?;
    if are_one(start, end) {
        return Ok(());
    }
    let path = [start, end];
    let colour = colour_of(sheet.names, join.line);
    push_between(text, n, join.line, &path, colour)
}

/// Appends a line between its two ends at a node, and what stands behind it where it is pale.
fn push_between(
    text: &mut String,
    n: NodeId,
    line: LineId,
    path: &[Corner],
    colour: &[u8],
) -> Result<(), NoMemory>
    ensures { OnOk result (string_bytes text.new ≡ string_bytes text.old ++ texts (with_behind colour.now (BehindAtNode n.0 line.0 path.now) (AtNode n.0 line.0 path.now colour.now))) }
{
    if is_pale(colour) {
        push_behind_at_node(text, n.0, line, path)?;
        push_at_node(text, n.0, line, path, colour)?;
        return Ok(());
    }
    push_at_node(text, n.0, line, path, colour)?;
    Ok(())
}
