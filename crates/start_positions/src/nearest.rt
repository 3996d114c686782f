//! The nearest open point of a board, row by row from where a node lies.

ghost use Rattle.std.specs.Prelude.{◌≡◌, ◌≤ℤ◌, true};
ghost use Rattle.std.specs.Bool.{OnTrue};
ghost use Rattle.grid_board.specs.Boards.{is_between, parts_of};
ghost use Rattle.start_positions.specs.Nearest.{is_open, nearer_of, nearer_or, IsAbove, IsBelow, IsEvenLine, IsFirstEast, IsFirstWest, IsInRange, IsInRow, IsNearest, IsSpot, IsTooFar};

use crate::spot::Spot;
use grid_board::Board;
use octi_grid::GridPoint;

/// The nearest open point of a board; among equals the one of the least y, then of the least x.
pub(crate) fn nearest_open(board: &Board, spot: Spot) -> Option<GridPoint>
    requires { IsSpot (parts_of board.now).bounds spot }
    ensures { IsNearest spot (λ p. is_open (parts_of board.now) p ≡ true) None result }
{
    let above = nearest_above(board, spot);
    nearest_below(board, spot, above)
}

/// The nearest open point in the row of the spot or above it.
fn nearest_above(board: &Board, spot: Spot) -> Option<GridPoint>
    requires { IsSpot (parts_of board.now).bounds spot }
    ensures { IsNearest spot (IsAbove (parts_of board.now) spot.row) None result }
{
    let top = board.bounds().top;
    let mut found = None;
    let mut y = spot.row;
    while y <= top {
        if is_too_far(spot, found, y) {
            return found;
        }
        found = nearest_in_row(board, spot, found, y);
        y += 2;
    }
    found
}

/// The nearest of a point and the open points below the row of the spot.
fn nearest_below(board: &Board, spot: Spot, above: Option<GridPoint>) -> Option<GridPoint>
    requires { IsSpot (parts_of board.now).bounds spot }
    ensures { IsNearest spot (IsBelow (parts_of board.now) spot.row) above result }
{
    let bottom = board.bounds().bottom;
    let mut found = above;
    let mut y = spot.row - 2;
    while y >= bottom {
        if is_too_far(spot, found, y) {
            return found;
        }
        found = nearest_in_row(board, spot, found, y);
        y -= 2;
    }
    found
}

/// Whether no point of a row can be nearer than the one that was found.
fn is_too_far(spot: Spot, found: Option<GridPoint>, y: i32) -> bool
    requires { IsInRange spot }
    ensures { OnTrue result (IsTooFar spot found y) }
{
    match found {
        None => false,
        Some(found) => spot.distance2(found) < spot.square_apart(y, spot.offset.north),
    }
}

/// The nearest of a point and the open points of a row.
fn nearest_in_row(board: &Board, spot: Spot, found: Option<GridPoint>, y: i32) -> Option<GridPoint>
    requires spot { IsSpot (parts_of board.now).bounds spot }
    requires inside { is_between (parts_of board.now).bounds.bottom y (parts_of board.now).bounds.top ≡ true }
    requires even { IsEvenLine y }
    ensures { IsNearest spot (IsInRow (parts_of board.now) y) found result }
{
    let east = first_east(board, y, spot.column);
    let west = first_west(board, y, spot.column - 2);
    nearer(spot, nearer(spot, found, east), west)
}

/// The first open point of a row, going east from a column.
fn first_east(board: &Board, y: i32, from: i32) -> Option<GridPoint>
    requires inside { is_between (parts_of board.now).bounds.bottom y (parts_of board.now).bounds.top ≡ true }
    requires row { IsEvenLine y }
    requires column { IsEvenLine from }
    requires left { (parts_of board.now).bounds.left ≤ℤ from }
    ensures { IsFirstEast (parts_of board.now) y from result }
{
    let right = board.bounds().right;
    let mut x = from;
    while x <= right {
        let point = GridPoint { x, y };
        if !board.is_node(point) {
            return Some(point);
        }
        x += 2;
    }
    None
}

/// The first open point of a row, going west from a column.
fn first_west(board: &Board, y: i32, from: i32) -> Option<GridPoint>
    requires inside { is_between (parts_of board.now).bounds.bottom y (parts_of board.now).bounds.top ≡ true }
    requires row { IsEvenLine y }
    requires column { IsEvenLine from }
    requires right { from ≤ℤ (parts_of board.now).bounds.right }
    ensures { IsFirstWest (parts_of board.now) y from result }
{
    let left = board.bounds().left;
    let mut x = from;
    while x >= left {
        let point = GridPoint { x, y };
        if !board.is_node(point) {
            return Some(point);
        }
        x -= 2;
    }
    None
}

/// The nearer of two points, where there are two.
fn nearer(spot: Spot, one: Option<GridPoint>, other: Option<GridPoint>) -> Option<GridPoint>
    requires { IsInRange spot }
    ensures { result ≡ nearer_of spot one other }
{
    match one {
        None => other,
        Some(p) => Some(nearer_or(spot, p, other)),
    }
}

/// The nearer of a point and another, where there is another.
fn nearer_or(spot: Spot, p: GridPoint, other: Option<GridPoint>) -> GridPoint
    requires { IsInRange spot }
    ensures { result ≡ nearer_or spot p other }
{
    match other {
        None => p,
        Some(q) => { if spot.is_no_farther(p, q) { p } else { q } }
    }
}
