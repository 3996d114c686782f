//! The seats of an end.

ghost use Rattle.std.specs.Prelude.{◌≡◌, ◌<◌, ◌≤◌, ◌^◌, ◌||◌, ◌++◌, not, unsigned_abs, IfOk, OnOk, true, length};
ghost use Rattle.grid_board.specs.Boards.{AreBounds, contains, doubled_bounds, is_inside, parts_of};
ghost use Rattle.walk_search.specs.Seats.{is_free_seat, kept_seat, seat_cost, seats_of, shifted};
ghost use Rattle.octi_grid.specs.Ways.{CanStep, IsWithin, are_one, doubled};
ghost use Rattle.std.specs.List.{list_any};
ghost use Rattle.octi_grid.specs.Legal.{is_among};

use crate::ends::End;
use grid_board::{Board, Bounds};
use map_base::NoMemory;
use octi_grid::GridPoint;
use std::alloc::Global;

/// How far a seat may lie from its home, east and north, by the least y and then the least x.
const SHIFTS: [(i32, i32); 9] = [
    (-2, -2),
    (0, -2),
    (2, -2),
    (-2, 0),
    (0, 0),
    (2, 0),
    (-2, 2),
    (0, 2),
    (2, 2),
];

/// The seats of an end: its point, where it is settled, else the points near its home where it may be put.
pub(crate) fn seats_of(alloc: Global, board: &Board, end: End) -> Result<Vec<GridPoint>, NoMemory>
    requires { IsWithin end.at }
    ensures { IfOk result (λ seats. seats.items ≡ seats_of (parts_of board.now) end) }
{
    if !end.is_free {
        return Ok(vec![in alloc; end.at; 1]?);
    }
    let mut seats = Vec::new(alloc);
    for shift in SHIFTS {
        add_seat(board, end.at, shifted(end.at, shift), &mut seats)?;
    }
    Ok(seats)
}

/// The point so far east and north of another.
fn shifted(p: GridPoint, by: (i32, i32)) -> GridPoint
    requires p { IsWithin p }
    requires east { unsigned_abs by.0 ≤ 2 }
    requires north { unsigned_abs by.1 ≤ 2 }
    ensures { result ≡ shifted p by }
{
    GridPoint {
        x: p.x + by.0,
        y: p.y + by.1,
    }
}

/// Adds a point to the seats, if the end may be put there.
fn add_seat(
    board: &Board,
    home: GridPoint,
    p: GridPoint,
    seats: &mut Vec<GridPoint>,
) -> Result<(), NoMemory>
    ensures { OnOk result (seats.new.items ≡ seats.old.items ++ kept_seat (parts_of board.now) home p) }
{
    if is_free_seat(board, home, p) {
        seats.push(p)?;
    }
    Ok(())
}

/// Whether an end that is not settled may be put on a point: one of the board that is its home or no node's point, and
/// of no walk.
fn is_free_seat(board: &Board, home: GridPoint, p: GridPoint) -> bool
    ensures { result ≡ is_free_seat (parts_of board.now) home p }
{
    board.bounds().contains(p) && (are_one(home, p) || !board.is_node(p)) && is_clear(board, p)
}

/// Whether no walk has a point of the board.
pub(crate) fn is_clear(board: &Board, p: GridPoint) -> bool
    requires { is_inside (parts_of board.now) p ≡ true }
    ensures { result ≡ not ((parts_of board.now).is_taken (doubled p)) }
{
    let bounds = board.bounds();
    !board.is_taken(doubled_within(bounds, p))
}

/// A point of the board, doubled.
pub(crate) fn doubled_within(bounds: Bounds, p: GridPoint) -> GridPoint
    requires bounds { AreBounds bounds }
    requires inside { contains bounds p ≡ true }
    ensures value { result ≡ doubled p }
    ensures inside { contains (doubled_bounds bounds) result ≡ true }
    ensures can_step { CanStep result }
{
    p.doubled()
}

/// Whether a point is one of these.
pub(crate) fn is_among(points: &[GridPoint], p: GridPoint) -> bool
    ensures { result ≡ is_among points.now p }
{
    for point in points {
        if are_one(p, *point) {
            return true;
        }
    }
    false
}

/// Whether one of some points is among others.
pub(crate) fn have_common(points: &[GridPoint], others: &[GridPoint]) -> bool
    ensures { result ≡ list_any (is_among points.now) others.now }
{
    for other in others {
        if is_among(points, *other) {
            return true;
        }
    }
    false
}

/// Whether two points are the same.
pub(crate) fn are_one(p: GridPoint, q: GridPoint) -> bool
    ensures { result ≡ are_one p q }
{
    p.x == q.x && p.y == q.y
}

/// What a seat costs: 5 times the sum of its differences from the home.
pub(crate) fn seat_cost(home: GridPoint, p: GridPoint) -> u64
    requires home { IsWithin home }
    requires p { IsWithin p }
    ensures { result ≡ seat_cost home p }
{
    5 * (u64::from(home.x.abs_diff(p.x)) + u64::from(home.y.abs_diff(p.y)))
}
