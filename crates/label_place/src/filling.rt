//! The markers and the walks of a drawing, put into a table.

ghost use Rattle.std.specs.Prelude.{◌≡◌, ◌≤◌, ◌<◌, ◌∷◌, [], length, replicate, unsigned_abs, OnOk, IfOk};
ghost use Rattle.octi_grid.specs.Ways.{IsWithin};
ghost use Rattle.svg_writer.specs.Picture.{kind_at, walk_at};
ghost use Rattle.label_place.specs.Places.{marker_square, marker_squares, margin_of};
ghost use Rattle.label_place.specs.Grids.{strokes_from, Adds, IsLinked};
ghost use Rattle.label_place.specs.Signs.{areas, walk_things, all_strokes};

use crate::boxes::square;
use crate::grid::Grid;
use crate::strokes::Stroke;
use crate::things::Thing;
use graph_core::{LineGraph, NodeKind};
use map_base::{NoMemory, NodeId, SegId};
use octi_grid::{Dir, Drawing, GridPoint, Run, Walk, run_end};
use svg_writer::{centre_of, drawn, radius_of};

/// A side of cells with which a step and what is near to it reach into few of them.
pub(crate) fn side_of(graph: &LineGraph) -> u64
    ensures { 0 < result }
{
    let mut most = 0;
    for s in 0..graph.segs() {
        most = most.max(graph.lines(SegId(s)).len());
    }
    200 + 28 * most.min(1000) as u64
}

/// Puts the squares of the markers of all stations.
pub(crate) fn put_markers(
    grid: &mut Grid,
    graph: &LineGraph,
    drawing: &Drawing,
) -> Result<(), NoMemory>
    requires { IsLinked grid.old }
    ensures { OnOk result (Adds grid.old grid.new (areas (marker_squares graph.now drawing.now.walks))) }
{
    for n in 0..graph.nodes() {
        put_marker(grid, graph, drawing, n, graph.kind(NodeId(n)))?;
    }
    Ok(())
}

/// Puts the square of the marker of a node of this kind, where that is a station.
fn put_marker(
    grid: &mut Grid,
    graph: &LineGraph,
    drawing: &Drawing,
    n: u32,
    kind: NodeKind,
) -> Result<(), NoMemory>
    requires linked { IsLinked grid.old }
    requires node { n < length graph.now.kinds }
    requires lines { length graph.now.lines ≡ length graph.now.ends }
    ensures { OnOk result (Adds grid.old grid.new (areas (marker_square graph.now drawing.now.walks n kind))) }
{
    match kind {
        NodeKind::Station(_) => {
            let radius = radius_of(graph, NodeId(n))?;
            let centre = centre_of(graph, drawing, NodeId(n));
            grid.put(Thing::Area(square(centre, radius)))
        }
        NodeKind::Junction => Ok(()),
    }
}

/// Puts the steps of all walks.
pub(crate) fn put_walks(
    grid: &mut Grid,
    graph: &LineGraph,
    drawing: &Drawing,
) -> Result<(), NoMemory>
    requires { IsLinked grid.old }
    ensures { OnOk result (Adds grid.old grid.new (all_strokes graph.now drawing.now.walks)) }
{
    for s in 0..graph.segs() {
        put_walk_of(grid, graph, drawing, s)?;
    }
    Ok(())
}

/// Puts the steps of the walk of a segment.
fn put_walk_of(
    grid: &mut Grid,
    graph: &LineGraph,
    drawing: &Drawing,
    s: u32,
) -> Result<(), NoMemory>
    requires linked { IsLinked grid.old }
    requires segment { s < length graph.now.ends }
    ensures { OnOk result (Adds grid.old grid.new (walk_things graph.now drawing.now.walks s)) }
{
    let margin = margin_of(graph, s)?;
    match drawing.walks.as_slice().get(s as usize) {
        Some(walk) => put_walk(grid, margin, walk),
        None => Ok(()),
    }
}

/// How far names keep from the walk of a segment: seven units for each of its lines. For more lines than can be reckoned
/// with there is no room.
fn margin_of(graph: &LineGraph, s: u32) -> Result<u32, NoMemory>
    requires { s < length graph.now.ends }
    ensures value { IfOk result (λ m. m ≡ margin_of graph.now s) }
    ensures small { IfOk result (λ m. m ≤ 700000000) }
{
    let count = graph.lines(SegId(s)).len();
    if count > 100_000_000 {
        return Err(NoMemory);
    }
    Ok(7 * count as u32)
}

/// Puts the steps of a walk.
fn put_walk(grid: &mut Grid, margin: u32, walk: &Walk) -> Result<(), NoMemory>
    requires linked { IsLinked grid.old }
    requires margin { margin ≤ 700000000 }
    ensures { OnOk result (Adds grid.old grid.new (strokes_from margin walk.now.start walk.now.steps)) }
{
    let runs = walk.runs();
    let mut at = walk.start();
    for run in runs {
        put_run(grid, margin, at, *run)?;
        at = run_end(at, *run);
    }
    Ok(())
}

/// Puts the steps of a run.
fn put_run(grid: &mut Grid, margin: u32, start: GridPoint, run: Run) -> Result<(), NoMemory>
    requires linked { IsLinked grid.old }
    requires margin { margin ≤ 700000000 }
    requires start { IsWithin start }
    requires count { run.count ≤ 20000 }
    ensures { OnOk result (Adds grid.old grid.new (strokes_from margin start (replicate run.count run.dir))) }
{
    let mut at = start;
    for _ in 0..run.count {
        put_step(grid, margin, at, run.dir)?;
        at = at.step(run.dir);
    }
    Ok(())
}

/// Puts a step from a grid point.
fn put_step(grid: &mut Grid, margin: u32, at: GridPoint, dir: Dir) -> Result<(), NoMemory>
    requires linked { IsLinked grid.old }
    requires margin { margin ≤ 700000000 }
    requires across { unsigned_abs at.x ≤ 30000 }
    requires along { unsigned_abs at.y ≤ 30000 }
    ensures { OnOk result (Adds grid.old grid.new (strokes_from margin at (dir ∷ []))) }
{
    grid.put(Thing::Line(Stroke {
        start: drawn(at),
        dir,
        margin,
    }))
}
