//! Moves that make a drawing straighter.

ghost use Rattle.std.specs.Prelude.{◌≡◌, IfOk, true};
ghost use Rattle.grid_board.specs.Points.{are_near};
ghost use Rattle.graph_maps.specs.Stages.{IsDrawing, IsMoved};

use crate::drawing::are_walks;
use crate::improvement::Improvement;
use graph_core::LineGraph;
use kept_walks::improve;
use map_base::NoMemory;
use octi_grid::{Drawing, illegal_drawings_have_a_first_walk};
use std::alloc::Global;

/// A drawing after at most so many moves, each the first that makes it lighter, and what they made of it.
pub(crate) fn moved(
    alloc: Global,
    graph: &LineGraph,
    drawing: Drawing,
    moves: u32,
) -> Result<(Drawing, Improvement), NoMemory>
    requires drawing { IsDrawing graph.now drawing.walks }
    requires near { are_near 1900 drawing.walks ≡ true }
    ensures { IfOk result (IsMoved moves graph.now drawing.walks) }
{
    let improved = improve(alloc, graph, drawing, moves)?;
    are_walks(improved.drawing.walks.as_slice());
    illegal_drawings_have_a_first_walk();
    let improvement = Improvement {
        before: improved.before,
        after: improved.after,
        made: improved.made,
    };
    Ok((improved.drawing, improvement))
}
