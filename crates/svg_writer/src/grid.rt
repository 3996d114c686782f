//! Drawings on the grid.

ghost use Rattle.std.specs.Prelude.{◌≡◌, ◌≤◌, ◌*ℤ◌, pos, slice_get, option_map, unsigned_abs, OnOk};
ghost use Rattle.line_offsets.specs.Paths.{line_path, path_end, path_start};
ghost use Rattle.line_offsets.specs.Shifts.{drawn};
ghost use Rattle.svg_writer.specs.Picture.{centre_of, first_of, put_at, walk_at};

use crate::drawable::Drawn;
use crate::scene::{ends_of, round_of};
use graph_core::LineGraph;
use line_offsets::{Corner, path_end, path_start, put_path};
use map_base::{NoMemory, NodeId, SegId, Sequence};
use octi_grid::{Drawing, GridPoint, Walk, end_of};

/// A line graph with a walk on the grid for each of its segments.
#[derive(Drop)]
pub struct GridDrawing<'a> {
    pub graph: &'a LineGraph,
    pub drawing: &'a Drawing,
}

impl Drawn for GridDrawing<'_> {
    ghost use Rattle.svg_writer.specs.Picture.{grid_courses};

    ghost courses = { λ d. grid_courses d.graph.now d.drawing.now.walks };

    ghost Reaches = { λ d k. Unit {0} };

    fn put_line(&self, path: &mut Vec<Corner>, s: u32, k: i32) -> Result<(), NoMemory> {
        put_line(path, &self.drawing.walks, s, k)
    }

    fn start(&self, s: u32, k: i32) -> Corner {
        start_at(&self.drawing.walks, s, k)
    }

    fn end(&self, s: u32, k: i32) -> Corner {
        end_at(&self.drawing.walks, s, k)
    }

    fn centre(&self, n: NodeId) -> Corner {
        centre_of(self.graph, self.drawing, n)
    }
}

/// Puts the corners of a line that is shifted k places beside the walk of a segment into `path`, in place of what it
/// held.
fn put_line(path: &mut Vec<Corner>, walks: &Sequence<Walk>, s: u32, k: i32) -> Result<(), NoMemory>
    ensures { OnOk result (path.new.items ≡ line_path (walk_at walks.now s) k) }
{
    match walks.as_slice().get(s as usize) {
        Some(walk) => put_path(path, walk, k),
        None => {
            path.clear();
            Ok(())
        }
    }
}

/// Where a line that is shifted k places beside the walk of a segment starts.
fn start_at(walks: &Sequence<Walk>, s: u32, k: i32) -> Corner
    ensures { result ≡ path_start (walk_at walks.now s) k }
{
    match walk_of(walks, s) {
        Some(walk) => path_start(walk, k),
        None => Corner { x: 0, y: 0 },
    }
}

/// Where it ends.
fn end_at(walks: &Sequence<Walk>, s: u32, k: i32) -> Corner
    ensures { result ≡ path_end (walk_at walks.now s) k }
{
    match walk_of(walks, s) {
        Some(walk) => path_end(walk, k),
        None => Corner { x: 0, y: 0 },
    }
}

/// The walk of a segment, where there is one.
fn walk_of(walks: &Sequence<Walk>, s: u32) -> Option<&Walk>
    ensures { slice_get walks.now s ≡ option_map (λ w. w.now) result }
{
    walks.as_slice().get(s as usize)
}

/// Where a node is drawn: where the walk of the first segment of its round puts it.
pub fn centre_of(graph: &LineGraph, drawing: &Drawing, n: NodeId) -> Corner
    ensures value { result ≡ centre_of graph.now drawing.now.walks n.0 }
    ensures x { unsigned_abs result.x ≤ 214748364800 }
    ensures y { unsigned_abs result.y ≤ 214748364800 }
{
    let first = first_of(round_of(graph, n));
    drawn(put_at(&drawing.walks, ends_of(graph, first), n.0, first))
}

/// Where the walk of a segment puts node n, an end of the segment.
pub fn put_at(walks: &Sequence<Walk>, ends: (NodeId, NodeId), n: u32, s: u32) -> GridPoint
    ensures { result ≡ put_at n ends (walk_at walks.now s) }
{
    match walks.as_slice().get(s as usize) {
        Some(walk) => {
            if ends.0.0 == n {
                walk.start()
            } else {
                end_of(walk)
            }
        }
        None => GridPoint { x: 0, y: 0 },
    }
}

/// The number of the first segment of a round.
pub fn first_of(round: &[SegId]) -> u32
    ensures { result ≡ first_of round.now }
{
    match round {
        [] => 0,
        [first, ..] => first.0,
    }
}

/// A grid point as it is drawn.
pub fn drawn(p: GridPoint) -> Corner
    ensures { result ≡ drawn p }
{
    Corner {
        x: hundred(p.x),
        y: 0 - hundred(p.y),
    }
}

/// A hundred times a coordinate.
fn hundred(z: i32) -> i64
    ensures value { result ≡ pos 100 *ℤ z }
    ensures small { unsigned_abs result ≤ 214748364800 }
{
    100 * i64::from(z)
}
