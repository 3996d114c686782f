//! Cells of the plane, and the grid that they make.

ghost use Rattle.std.specs.Prelude.{◌≡◌, ◌≤◌, ◌<◌, ◌*◌, ◌^◌, ◌-ℤ◌, length, max, IfOk, unsigned_abs};
ghost use Rattle.graph_core.specs.Consistent.{IsConsistent};
ghost use Rattle.start_positions.specs.Cells.{ceil_quotient, cell_side, first_number, greatest_number, greater, grid_over, least_number, lesser, limit_of, offsets_of, root_up, side_of, AreExtents};
ghost use Rattle.start_positions.specs.Nodes.{coordinates, coordinate_at};

use crate::placing::Offset;
use graph_core::LineGraph;
use grid_board::Bounds;
use map_base::{Limit, LimitKind, NoMemory, NodeId, Point};
use std::alloc::Global;

/// The least coordinates of the nodes of a graph, and how far they lie apart, in decimetres.
#[derive(Clone, Copy, Debug, PartialEq, Eq)]
pub(crate) struct Extents {
    pub(crate) least: Point,
    pub(crate) width: u32,
    pub(crate) height: u32,
}

/// The extents of the nodes of a graph.
pub(crate) fn extents_of(graph: &LineGraph) -> Extents
    ensures extents { AreExtents graph.now.places result }
    ensures graph { IsConsistent graph.now }
{
    let nodes = graph.nodes();
    let least = Point {
        x: least(graph, nodes, true),
        y: least(graph, nodes, false),
    };
    Extents {
        least,
        width: apart(least.x, greatest(graph, nodes, true)),
        height: apart(least.y, greatest(graph, nodes, false)),
    }
}

/// How far east or north a node lies.
fn coordinate(graph: &LineGraph, n: u32, east: bool) -> i64
    requires graph { IsConsistent graph.now }
    requires node { n < length graph.now.kinds }
    ensures value { result ≡ coordinate_at graph.now.places n east }
    ensures near { unsigned_abs result ≤ 300000000 }
{
    let place = graph.place(NodeId(n));
    if east { place.x } else { place.y }
}

/// How far east or north the first node lies; 0 where there is none.
fn first(graph: &LineGraph, nodes: u32, east: bool) -> i64
    requires graph { IsConsistent graph.now }
    requires nodes { nodes ≡ length graph.now.kinds }
    ensures value { result ≡ first_number (coordinates graph.now.places east) }
    ensures near { unsigned_abs result ≤ 300000000 }
{
    if nodes == 0 {
        return 0;
    }
    coordinate(graph, 0, east)
}

/// The least of how far nodes lie east or north.
fn least(graph: &LineGraph, nodes: u32, east: bool) -> i64
    requires graph { IsConsistent graph.now }
    requires nodes { nodes ≡ length graph.now.kinds }
    ensures value { result ≡ least_number (coordinates graph.now.places east) }
    ensures near { unsigned_abs result ≤ 300000000 }
{
    let mut least = first(graph, nodes, east);
    for n in 0..nodes {
        least = lesser(least, coordinate(graph, n, east));
    }
    least
}

/// The greatest of how far nodes lie east or north.
fn greatest(graph: &LineGraph, nodes: u32, east: bool) -> i64
    requires graph { IsConsistent graph.now }
    requires nodes { nodes ≡ length graph.now.kinds }
    ensures value { result ≡ greatest_number (coordinates graph.now.places east) }
    ensures near { unsigned_abs result ≤ 300000000 }
{
    let mut greatest = first(graph, nodes, east);
    for n in 0..nodes {
        greatest = greater(greatest, coordinate(graph, n, east));
    }
    greatest
}

/// The lesser of two numbers.
fn lesser(a: i64, b: i64) -> i64
    requires a { unsigned_abs a ≤ 300000000 }
    requires b { unsigned_abs b ≤ 300000000 }
    ensures value { result ≡ lesser a b }
    ensures near { unsigned_abs result ≤ 300000000 }
{
    if b < a { b } else { a }
}

/// The greater of two numbers.
fn greater(a: i64, b: i64) -> i64
    requires a { unsigned_abs a ≤ 300000000 }
    requires b { unsigned_abs b ≤ 300000000 }
    ensures value { result ≡ greater a b }
    ensures near { unsigned_abs result ≤ 300000000 }
{
    if a < b { b } else { a }
}

/// How far two coordinates lie apart.
fn apart(a: i64, b: i64) -> u32
    requires a { unsigned_abs a ≤ 300000000 }
    requires b { unsigned_abs b ≤ 300000000 }
    ensures value { result ≡ unsigned_abs (b -ℤ a) }
    ensures within { result ≤ 600000000 }
{
    (b - a).unsigned_abs() as u32
}

/// The quotient, rounded up.
fn ceil_quotient(a: u64, b: u64) -> u64
    requires a { a < 2 ^ 60 }
    requires b { 0 < b }
    requires small { b < 2 ^ 60 }
    ensures { result ≡ ceil_quotient a b }
{
    (a + b - 1) / b
}

/// The side of the cells over a line graph, in decimetres: what is asked for, and for 0 a fiftieth of its greater extent.
pub fn side_over(graph: &LineGraph, cell: u32) -> u32
    ensures value { result ≡ cell_side graph.now.places cell }
    ensures some { 0 < result }
{
    cell_side(extents_of(graph), cell)
}

/// The side of a cell in decimetres: what is asked for, and for 0 a fiftieth of the greater extent.
pub(crate) fn cell_side(extents: Extents, cell: u32) -> u32
    requires wide { extents.width ≤ 600000000 }
    requires high { extents.height ≤ 600000000 }
    ensures value { result ≡ side_of (max extents.width extents.height) cell }
    ensures some { 0 < result }
{
    if cell != 0 {
        return cell;
    }
    let extent = extents.width.max(extents.height);
    (ceil_quotient(u64::from(extent), 50) as u32).max(1)
}

/// How many cells of a side the greater extent takes on a grid four times as fine.
pub(crate) fn fine_cells(extents: Extents, side: u32) -> u64
    requires { 0 < side }
    ensures { result ≡ ceil_quotient (4 * max extents.width extents.height) side }
{
    let extent = extents.width.max(extents.height);
    ceil_quotient(4 * u64::from(extent), u64::from(side))
}

/// How far each node lies from the least coordinates.
pub(crate) fn offsets_of(
    alloc: Global,
    graph: &LineGraph,
    extents: Extents,
) -> Result<Vec<Offset>, NoMemory>
    requires graph { IsConsistent graph.now }
    requires extents { AreExtents graph.now.places extents }
    ensures { IfOk result (λ offsets. offsets.items ≡ offsets_of graph.now.places) }
{
    let mut offsets = Vec::new(alloc);
    for n in 0..graph.nodes() {
        offsets.push(Offset {
            east: apart(extents.least.x, coordinate(graph, n, true)),
            north: apart(extents.least.y, coordinate(graph, n, false)),
        })?;
    }
    Ok(offsets)
}

/// The grid of cells of a side at a fineness, with a margin in which so many nodes have room.
pub(crate) fn grid_of(extents: Extents, nodes: u32, side: u32, fineness: u32) -> Bounds
    requires nodes { nodes ≤ 10000 }
    requires side { 0 < side }
    requires width { ceil_quotient (extents.width * fineness) side ≤ 1600 }
    requires height { ceil_quotient (extents.height * fineness) side ≤ 1600 }
    ensures { result ≡ grid_over extents.width extents.height side fineness nodes }
{
    let margin = (4 + root_up(nodes)) as i32;
    Bounds {
        left: -margin,
        right: lines_of(extents.width, side, fineness) as i32 + margin,
        bottom: -margin,
        top: lines_of(extents.height, side, fineness) as i32 + margin,
    }
}

/// How many columns or rows of a fineness an extent takes.
pub(crate) fn lines_of(extent: u32, side: u32, fineness: u32) -> u32
    requires side { 0 < side }
    requires few { ceil_quotient (extent * fineness) side ≤ 1600 }
    ensures value { result ≡ ceil_quotient (extent * fineness) side }
    ensures within { result ≤ 1600 }
{
    ceil_quotient(u64::from(extent) * u64::from(fineness), u64::from(side)) as u32
}

/// The least number whose square is no less.
fn root_up(n: u32) -> u32
    requires { n ≤ 10000 }
    ensures value { result ≡ root_up n }
    ensures within { result ≤ 100 }
{
    for m in 0..100 {
        if n <= m * m {
            return m;
        }
    }
    100
}

/// The limit of cells, where a side is asked for under which a grid four times as fine as the first has too many.
pub fn cells_over(graph: &LineGraph, cell: u32) -> Option<Limit>
    ensures limit { result ≡ limit_of graph.now.places cell }
    ensures graph { IsConsistent graph.now }
{
    let extents = extents_of(graph);
    if cell == 0 {
        return None;
    }
    let found = fine_cells(extents, cell);
    if found <= 400 {
        return None;
    }
    Some(Limit {
        what: LimitKind::Cells,
        found,
        most: 400,
    })
}
