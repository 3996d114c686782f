//! Straightening.

ghost use Rattle.std.specs.Prelude.{◌≡◌, ◌<◌, IfOk, true};
ghost use Rattle.drawing_weights.specs.Drawn.{IsDrawn};
ghost use Rattle.grid_board.specs.Points.{are_near};
ghost use Rattle.kept_walks.specs.Straightening.{IsStraightened};

use crate::groups::groups_of;
use drawing_search::{Searched, search};
use drawing_weights::Weighing;
use graph_core::LineGraph;
use line_chains::{chains_of, corners_of};
use map_base::NoMemory;
use octi_grid::Drawing;
use std::alloc::Global;

/// A drawing whose lines run straighter, after at most so many improving attempts, on cells of a side in decimetres.
pub fn straighten(
    alloc: Global,
    graph: &LineGraph,
    drawing: Drawing,
    cell: u32,
    most: u32,
) -> Result<Searched, NoMemory>
    requires drawn { IsDrawn graph.now drawing.walks }
    requires near { are_near 1800 drawing.walks ≡ true }
    requires cell { 0 < cell }
    ensures { IfOk result (IsStraightened graph.now cell most drawing.walks) }
{
    let _nodes = graph.nodes();
    let corners = corners_of(alloc, graph, cell)?;
    let chains = chains_of(alloc, graph, &corners)?;
    let groups = groups_of(alloc, graph, &corners, &chains)?;
    let by = Weighing {
        turns: 12,
        overs: 12,
        aparts: 1,
        held: &corners,
    };
    search(alloc, graph, drawing, by, 20, &groups, most, most)
}
