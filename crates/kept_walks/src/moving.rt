//! Moves.

ghost use Rattle.std.specs.Prelude.{◌≡◌, ◌<◌, ℕ, length, slice_index_or, false, true, IfOk};
ghost use Rattle.drawing_weights.specs.Drawn.{IsDrawn};
ghost use Rattle.grid_board.specs.Points.{are_near};
ghost use Rattle.kept_walks.specs.Moves.{IsImproved};

use crate::groups::move_groups;
use bit_flags::Flags;
use drawing_search::{Searched, search};
use drawing_weights::Weighing;
use graph_core::LineGraph;
use map_base::NoMemory;
use octi_grid::Drawing;
use std::alloc::Global;

/// A drawing after at most so many moves, one after another, until none makes it lighter. A move is the first attempt, in
/// the order of nodes and of directions clockwise from north, that makes the drawing lighter: the node moves by two steps,
/// and the segments at it are laid anew by number. The board reaches four steps past the drawing.
pub fn improve(
    alloc: Global,
    graph: &LineGraph,
    drawing: Drawing,
    moves: u32,
) -> Result<Searched, NoMemory>
    requires drawn { IsDrawn graph.now drawing.walks }
    requires near { are_near 1900 drawing.walks ≡ true }
    ensures { IfOk result (IsImproved graph.now drawing.walks moves) }
{
    let nodes = graph.nodes();
    let held = all_raised(alloc, nodes as usize)?;
    let groups = move_groups(alloc, graph)?;
    let by = Weighing {
        turns: 8,
        overs: 0,
        aparts: 3,
        held: &held,
    };
    search(alloc, graph, drawing, by, 4, &groups, 1, moves)
}

/// So many flags, all of them raised.
fn all_raised(alloc: Global, count: usize) -> Result<Flags, NoMemory>
    ensures each { IfOk result (λ flags. length flags ≡ count) }
    ensures raised { IfOk result (λ flags. (n : ℕ) → n < count → slice_index_or flags n false ≡ true) }
{
    let mut flags = Flags::none(alloc, count)?;
    for n in 0..count {
        flags.raise(n);
    }
    Ok(flags)
}
