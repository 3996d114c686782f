//! What is drawn, and at which pitch.

ghost use Rattle.std.specs.Prelude.{◌≡◌, ◌≤◌, option_map, slice_get, IfOk};
ghost use Rattle.line_offsets.specs.Paths.{path_end_at, path_start_at};
ghost use Rattle.svg_writer.specs.Picture.{walk_at};
ghost use Rattle.poster_rules.specs.Posters.{foot_on};
ghost use Rattle.poster_picture.specs.Sheets.{foot_at, plain};

use graph_core::LineGraph;
use line_offsets::{Corner, drawn_at, path_end_at, path_start_at};
use map_base::{LineId, NoMemory, NodeId, Sequence};
use octi_grid::{Drawing, GridPoint, Walk};
use order_values::Orders;
use poster_graph::Served;
use svg_writer::{Names, ends_of, gauge, order_of, place_in};

/// A drawn line graph with the orders of its lines, and how many units one grid step is.
#[derive(Clone, Copy)]
pub(crate) struct Sheet<'a> {
    pub graph: &'a LineGraph,
    pub names: &'a Names,
    pub drawing: &'a Drawing,
    pub orders: &'a Orders,
    pub callers: &'a Sequence<Sequence<LineId>>,
    pub pitch: u32,
}

/// A sheet without orders and pitch.
pub(crate) fn served<'a>(sheet: Sheet<'a>) -> Served<'a>
    ensures graph { result.graph.now ≡ sheet.entry.graph.now }
    ensures names { result.names.now ≡ sheet.entry.names.now }
    ensures callers { result.callers.now ≡ sheet.entry.callers.now }
{
    Served {
        graph: sheet.graph,
        names: sheet.names,
        drawing: sheet.drawing,
        callers: sheet.callers,
    }
}

/// The walk of a segment, where there is one.
pub(crate) fn walk_of<'a>(sheet: Sheet<'a>, s: u32) -> Option<&'a Walk>
    ensures { slice_get sheet.entry.drawing.now.walks s ≡ option_map (λ w. w.now) result }
{
    sheet.drawing.walks.as_slice().get(s as usize)
}

/// Where a line ends on a segment at a node: its foot there.
pub(crate) fn foot_on(sheet: Sheet<'_>, n: NodeId, s: u32, line: LineId) -> Result<Corner, NoMemory>
    requires { sheet.pitch ≤ 200 }
    ensures { IfOk result (λ c. c ≡ foot_on (plain sheet.entry) n.0 s line) }
{
    let order = order_of(sheet.orders, s);
    let k = gauge(order.len(), place_in(order, line))?;
    Ok(foot_at(sheet, ends_of(sheet.graph, s).0, n, s, k))
}

/// Where a line that stands k places beside the walk of a segment ends at node n, an end of the segment, which starts
/// at this node.
fn foot_at(sheet: Sheet<'_>, first: NodeId, n: NodeId, s: u32, k: i32) -> Corner
    requires { sheet.pitch ≤ 200 }
    ensures { result ≡ foot_at (plain sheet.entry) first.0 n.0 s k }
{
    if first.0 == n.0 {
        start_on(sheet, s, k)
    } else {
        end_on(sheet, s, k)
    }
}

/// Where a line that stands k places beside the walk of a segment starts.
fn start_on(sheet: Sheet<'_>, s: u32, k: i32) -> Corner
    requires { sheet.pitch ≤ 200 }
    ensures { result ≡ path_start_at sheet.entry.pitch (walk_at sheet.entry.drawing.now.walks s) k }
{
    match walk_of(sheet, s) {
        Some(walk) => path_start_at(sheet.pitch, walk, k),
        None => drawn_at(sheet.pitch, GridPoint { x: 0, y: 0 }),
    }
}

/// Where it ends.
fn end_on(sheet: Sheet<'_>, s: u32, k: i32) -> Corner
    requires { sheet.pitch ≤ 200 }
    ensures { result ≡ path_end_at sheet.entry.pitch (walk_at sheet.entry.drawing.now.walks s) k }
{
    match walk_of(sheet, s) {
        Some(walk) => path_end_at(sheet.pitch, walk, k),
        None => drawn_at(sheet.pitch, GridPoint { x: 0, y: 0 }),
    }
}
