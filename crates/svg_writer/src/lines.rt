//! The lines on segments, and those from segment to segment.

ghost use Rattle.std.specs.Prelude.{◌≡◌, ◌++◌, ◌≤◌, ◌<◌, ◌↔◌, length, slice_index_or, unsigned_abs, IfOk, IsOk, OnOk, string_bytes};
ghost use Rattle.svg_writer.specs.Elements.{texts};
ghost use Rattle.svg_writer.specs.Courses.{gauge, AreInReach};
ghost use Rattle.svg_writer.specs.Picture.{end_at, segment_elements, no_line, line_text, place_in, line_end, are_one, between, join_elements, node_joins, all_lines, all_joins};

use crate::drawable::Drawn;
use crate::elements::{push_at_node, push_on_segment};
use crate::scene::{Scene, colour_of, ends_of, name_of, order_of, small_count};
use crate::style::Style;
use graph_core::Join;
use line_offsets::Corner;
use map_base::{LineId, NoMemory, NodeId, SegId};
use std::alloc::Global;

/// How many places line i of n stands to the right of the middle, doubled. For more lines than can be reckoned with there
/// is no room.
pub fn gauge(n: usize, i: usize) -> Result<i32, NoMemory>
    requires { i ≤ n }
    ensures value { IfOk result (λ k. k ≡ gauge n i) }
    ensures small { IfOk result (λ k. unsigned_abs k ≤ 200000001) }
    ensures room { IsOk result ↔ (n ≤ 100000000) }
{
    let n = small_count(n)?;
    let i = i as i32;
    Ok(2 * i + 1 - n)
}

/// Appends each line of each segment.
pub(crate) fn push_all_lines<D: Drawn>(
    alloc: Global,
    text: &mut String,
    scene: &Scene<'_, D>,
) -> Result<(), NoMemory>
    requires { AreInReach (D.Reaches scene.now.drawn.now) scene.now.orders.now.lists }
    ensures { OnOk result (string_bytes text.new ≡ string_bytes text.old ++ texts scene.now.style (all_lines scene.now.names.now scene.now.graph.now (D.courses scene.now.drawn.now) scene.now.orders.now.lists)) }
{
    let mut path = Vec::new(alloc);
    for s in 0..scene.graph.segs() {
        push_segment(text, &mut path, scene, s)?;
    }
    Ok(())
}

/// Appends the lines of a segment. `path` is a buffer that is used anew for each of them.
fn push_segment<D: Drawn>(
    text: &mut String,
    path: &mut Vec<Corner>,
    scene: &Scene<'_, D>,
    s: u32,
) -> Result<(), NoMemory>
    requires { AreInReach (D.Reaches scene.now.drawn.now) scene.now.orders.now.lists }
    ensures { OnOk result (string_bytes text.new ≡ string_bytes text.old ++ texts scene.now.style (segment_elements scene.now.names.now (D.courses scene.now.drawn.now) scene.now.orders.now.lists s)) }
{
    let order = order_of(scene.orders, s);
    for i in 0..order.len() {
        push_line(text, path, scene, s, order, i)?;
    }
    Ok(())
}

/// Appends line i of the order of a segment.
fn push_line<D: Drawn>(
    text: &mut String,
    path: &mut Vec<Corner>,
    scene: &Scene<'_, D>,
    s: u32,
    order: &[LineId],
    i: usize,
) -> Result<(), NoMemory>
    requires place { i < length order.now }
    requires reach { D.Reaches scene.now.drawn.now (gauge (length order.now) i) }
    ensures { OnOk result (string_bytes text.new ≡ string_bytes text.old ++ line_text scene.now.style scene.now.names.now (D.courses scene.now.drawn.now) s (length order.now) i (slice_index_or order.now i no_line)) }
{
    let line = order[i];
    let k = gauge(order.len(), i)?;
    scene.drawn.put_line(path, s, k)?;
    push_on_segment(
        text,
        scene.style,
        s,
        line.0,
        path.as_slice(),
        colour_of(scene.names, line),
        name_of(scene.names, line),
    )?;
    Ok(())
}

/// Appends each line from one segment to another at each node.
pub(crate) fn push_all_joins<D: Drawn>(
    text: &mut String,
    scene: &Scene<'_, D>,
) -> Result<(), NoMemory>
    requires { AreInReach (D.Reaches scene.now.drawn.now) scene.now.orders.now.lists }
    ensures { OnOk result (string_bytes text.new ≡ string_bytes text.old ++ texts scene.now.style (all_joins scene.now.names.now scene.now.graph.now (D.courses scene.now.drawn.now) scene.now.orders.now.lists)) }
{
    for n in 0..scene.graph.nodes() {
        push_node_joins(text, scene, n)?;
    }
    Ok(())
}

/// Appends the lines from one segment to another at a node.
fn push_node_joins<D: Drawn>(
    text: &mut String,
    scene: &Scene<'_, D>,
    n: u32,
) -> Result<(), NoMemory>
    requires node { n < length scene.now.graph.now.kinds }
    requires reach { AreInReach (D.Reaches scene.now.drawn.now) scene.now.orders.now.lists }
    ensures { OnOk result (string_bytes text.new ≡ string_bytes text.old ++ texts scene.now.style (node_joins scene.now.names.now scene.now.graph.now (D.courses scene.now.drawn.now) scene.now.orders.now.lists n)) }
{
    for join in scene.graph.joins(NodeId(n)) {
        push_join(text, scene, n, *join)?;
    }
    Ok(())
}

/// Appends a line from one segment to another at a node, where its two ends differ.
fn push_join<D: Drawn>(
    text: &mut String,
    scene: &Scene<'_, D>,
    n: u32,
    join: Join,
) -> Result<(), NoMemory>
    requires { AreInReach (D.Reaches scene.now.drawn.now) scene.now.orders.now.lists }
    ensures { OnOk result (string_bytes text.new ≡ string_bytes text.old ++ texts scene.now.style (join_elements scene.now.names.now scene.now.graph.now (D.courses scene.now.drawn.now) scene.now.orders.now.lists n join)) }
{
    let start = line_end(scene, n, join.e, join.line)?;
    let end = line_end(scene, n, join.f, join.line)?;
    push_between(
        text,
        scene.style,
        n,
        join.line,
        start,
        end,
        colour_of(scene.names, join.line),
    )?;
    Ok(())
}

/// Appends a line between its two ends at a node, where they differ.
fn push_between(
    text: &mut String,
    style: Style,
    n: u32,
    line: LineId,
    start: Corner,
    end: Corner,
    colour: &[u8],
) -> Result<(), NoMemory>
    ensures { OnOk result (string_bytes text.new ≡ string_bytes text.old ++ texts style (between n line start end colour.now)) }
{
    if are_one(start, end) {
        return Ok(());
    }
    push_at_node(text, style, n, line.0, start, end, colour)?;
    Ok(())
}

/// Whether two points are one.
pub fn are_one(a: Corner, b: Corner) -> bool
    ensures { result ≡ are_one a b }
{
    a.x == b.x && a.y == b.y
}

/// Where a line ends on a segment at a node.
fn line_end<D: Drawn>(
    scene: &Scene<'_, D>,
    n: u32,
    s: SegId,
    line: LineId,
) -> Result<Corner, NoMemory>
    requires { AreInReach (D.Reaches scene.now.drawn.now) scene.now.orders.now.lists }
    ensures { IfOk result (λ c. c ≡ line_end scene.now.graph.now (D.courses scene.now.drawn.now) scene.now.orders.now.lists n s line) }
{
    let order = order_of(scene.orders, s.0);
    let k = gauge(order.len(), place_in(order, line))?;
    Ok(end_at(scene.drawn, ends_of(scene.graph, s.0), n, s.0, k))
}

/// Where a line that stands k places beside a segment with these ends ends at node n.
fn end_at<D: Drawn>(drawn: &D, ends: (NodeId, NodeId), n: u32, s: u32, k: i32) -> Corner
    requires { D.Reaches drawn.now k }
    ensures { result ≡ end_at (D.courses drawn.now) n ends s k }
{
    if ends.0.0 == n {
        drawn.start(s, k)
    } else {
        drawn.end(s, k)
    }
}

/// The number of a line in an order, or how many there are where it is none of them.
pub fn place_in(order: &[LineId], line: LineId) -> usize
    ensures place { result ≡ place_in order.now line }
    ensures within { result ≤ length order.now }
{
    for (place, other) in order.iter().enumerate() {
        if other.0 == line.0 {
            return place;
        }
    }
    order.len()
}
