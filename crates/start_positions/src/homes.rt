//! The homes of nodes: the nearest even grid points that are not used.

ghost use Rattle.std.specs.Prelude.{◌≡◌, ◌<◌, ◌≤◌, ◌≤ℤ◌, ◌++◌, ◌∷◌, [], pos, IfOk, OnOk};
ghost use Rattle.std.specs.List.{AllByRecursion};
ghost use Rattle.grid_board.specs.Boards.{parts_of, AreBounds};
ghost use Rattle.start_positions.specs.Homes.{home_of, homes_of};
ghost use Rattle.start_positions.specs.Nearest.{home_on, with_home, HasHomes, IsOver, IsSpot};

use crate::nearest::nearest_open;
use crate::placing::Offset;
use crate::spot::Spot;
use grid_board::{Board, Bounds};
use map_base::NoMemory;
use octi_grid::GridPoint;
use std::alloc::Global;

/// The homes of nodes that are put at these offsets, one after another.
pub(crate) fn homes_of(
    alloc: Global,
    grid: Bounds,
    side: u32,
    fineness: u32,
    offsets: &[Offset],
) -> Result<Vec<GridPoint>, NoMemory>
    requires grid { AreBounds grid }
    requires left { grid.left ≤ℤ pos 0 }
    requires bottom { grid.bottom ≤ℤ pos 0 }
    requires side { 0 < side }
    requires fine { fineness ≤ 16 }
    requires offsets { AllByRecursion (IsOver grid side fineness) offsets.now }
    ensures { IfOk result (λ homes. homes.items ≡ homes_of grid side fineness offsets.now) }
{
    let mut board = Board::new(alloc, grid.left, grid.right, grid.bottom, grid.top)?;
    let mut homes = Vec::new(alloc);
    for offset in offsets {
        let spot = Spot::at(grid, side, fineness, *offset);
        put_home(&mut board, &mut homes, spot)?;
    }
    Ok(homes)
}

/// Lists the home of one more node, and puts the node there.
fn put_home(board: &mut Board, homes: &mut Vec<GridPoint>, spot: Spot) -> Result<(), NoMemory>
    requires bounds { AreBounds (parts_of board.old).bounds }
    requires spot { IsSpot (parts_of board.old).bounds spot }
    requires homes { HasHomes (parts_of board.old) homes.old.items }
    ensures homes { OnOk result (homes.new.items ≡ homes.old.items ++ home_of (parts_of board.old).bounds spot.side spot.fineness homes.old.items spot.offset ∷ []) }
    ensures bounds { OnOk result ((parts_of board.new).bounds ≡ (parts_of board.old).bounds) }
    ensures board { OnOk result (HasHomes (parts_of board.new) homes.new.items) }
{
    let home = take_home(board, spot);
    homes.push(home)?;
    Ok(())
}

/// The home of a node at a spot of a board, on which the node is put.
fn take_home(board: &mut Board, spot: Spot) -> GridPoint
    requires bounds { AreBounds (parts_of board.old).bounds }
    requires spot { IsSpot (parts_of board.old).bounds spot }
    ensures home { result ≡ home_on (parts_of board.old) spot }
    ensures board { parts_of board.new ≡ with_home (parts_of board.old) result }
{
    match nearest_open(board, spot) {
        Some(home) => {
            board.add_node(home);
            home
        }
        None => {
            let bounds = board.bounds();
            GridPoint {
                x: bounds.left,
                y: bounds.bottom,
            }
        }
    }
}
