//! A grid, and the homes of nodes on it.

ghost use Rattle.std.specs.Prelude.{◌≡◌, ◌≤◌, ◌<◌, false, IfOk};
ghost use Rattle.std.specs.List.{AllByRecursion};
ghost use Rattle.start_positions.specs.Cells.{is_too_fine, IsOffset};
ghost use Rattle.start_positions.specs.Homes.{placing_at};
ghost use Rattle.start_positions.specs.Spreads.{places_of, spread_offsets};

use crate::cells::{cell_side, extents_of, grid_of};
use crate::homes::homes_of;
use crate::spreading::{Place, places_of, spread_offsets};
use graph_core::LineGraph;
use map_base::{NoMemory, Sequence};
use octi_grid::GridPoint;
use std::alloc::Global;

/// How far a node is put east and north of the least coordinates of all nodes, in decimetres.
#[derive(Clone, Copy, Debug, PartialEq, Eq)]
pub struct Offset {
    pub east: u32,
    pub north: u32,
}

/// The home of each node, in their order, and the columns and rows of the grid, first and last.
#[derive(Debug, Drop)]
pub struct Placing {
    pub points: Sequence<GridPoint>,
    pub left: i32,
    pub right: i32,
    pub bottom: i32,
    pub top: i32,
}

/// The homes of a graph's nodes on the grid of a cell and a fineness from 1 to 16, where the nodes are put so many percent
/// of the way to their even places: in the order of the nodes the nearest even grid points that are not used, among equals
/// the least y, then the least x. The cell is not too small.
pub fn place(
    alloc: Global,
    graph: &LineGraph,
    cell: u32,
    fineness: u32,
    percent: u32,
) -> Result<Placing, NoMemory>
    requires fine { (0 < fineness) × (fineness ≤ 16) }
    requires cell { is_too_fine graph.now.places cell ≡ false }
    requires percent { percent ≤ 100 }
    ensures { IfOk result (λ placing. placing ≡ placing_at graph.now cell fineness (spread_offsets graph.now.places percent)) }
{
    let places = places_of(alloc, graph)?;
    place_spread(alloc, graph, cell, fineness, percent, &places)
}

/// The homes of a graph's nodes, which are put so many percent of the way to their even places, by where they lie and
/// these places.
pub fn place_spread(
    alloc: Global,
    graph: &LineGraph,
    cell: u32,
    fineness: u32,
    percent: u32,
    places: &[Place],
) -> Result<Placing, NoMemory>
    requires fine { (0 < fineness) × (fineness ≤ 16) }
    requires cell { is_too_fine graph.now.places cell ≡ false }
    requires percent { percent ≤ 100 }
    requires places { places.now ≡ places_of graph.now.places }
    ensures { IfOk result (λ placing. placing ≡ placing_at graph.now cell fineness (spread_offsets graph.now.places percent)) }
{
    let offsets = spread_offsets(alloc, places, percent)?;
    place_at(alloc, graph, cell, fineness, &offsets)
}

/// The homes of a graph's nodes, which are put at any offsets within the extents of the graph.
fn place_at(
    alloc: Global,
    graph: &LineGraph,
    cell: u32,
    fineness: u32,
    offsets: &[Offset],
) -> Result<Placing, NoMemory>
    requires fine { (0 < fineness) × (fineness ≤ 16) }
    requires cell { is_too_fine graph.now.places cell ≡ false }
    requires offsets { AllByRecursion (IsOffset graph.now.places) offsets.now }
    ensures { IfOk result (λ placing. placing ≡ placing_at graph.now cell fineness offsets.now) }
{
    let extents = extents_of(graph);
    let side = cell_side(extents, cell);
    let grid = grid_of(extents, graph.nodes(), side, fineness);
    let points = homes_of(alloc, grid, side, fineness, offsets)?;
    Ok(Placing {
        points: Sequence::of(points),
        left: grid.left,
        right: grid.right,
        bottom: grid.bottom,
        top: grid.top,
    })
}
