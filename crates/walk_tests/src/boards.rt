//! Boards with nodes and walks, and questions to them.

ghost use Rattle.std.specs.Prelude.{◌≡◌, IfOk, OnOk, true};
ghost use Rattle.std.specs.List.{list_all};
ghost use Rattle.octi_grid.specs.Walks.{points_of};
ghost use Rattle.grid_board.specs.Boards.{is_inside, parts_of};

use grid_board::Board;
use octi_grid::{Dir, GridPoint, Run, Walk, end_of};
use std::alloc::Global;
use std::process::Abort;
use std::test::Fail;
use walk_search::least_settled_walk;

pub(crate) fn at(x: i32, y: i32) -> GridPoint
    ensures { result ≡ record { x = x; y = y } }
{
    GridPoint { x, y }
}

pub(crate) fn run(dir: Dir, count: u32) -> Run {
    Run { dir, count }
}

/// Puts a node on a board.
pub(crate) fn put_node(rt: &impl Abort, board: &mut Board, p: GridPoint) {
    assert!(rt; board.bounds().contains(p));
    assert!(rt; p.x.unsigned_abs() % 2 == 0 && p.y.unsigned_abs() % 2 == 0);
    board.add_node(p);
}

/// Puts a walk on a board, by its start and its steps.
pub(crate) fn put_walk(
    rt: &impl Abort,
    alloc: Global,
    board: &mut Board,
    start: GridPoint,
    first: Dir,
    rest: &[Dir],
) -> Result<(), Fail> {
    let walk = walk_on(rt, alloc, board, start, first, rest)?;
    board.add_walk(&walk);
    Ok(())
}

/// A walk on a board, by its start and its steps.
fn walk_on(
    rt: &impl Abort,
    alloc: Global,
    board: &Board,
    start: GridPoint,
    first: Dir,
    rest: &[Dir],
) -> Result<Walk, Fail>
    ensures { IfOk result (λ walk. list_all (is_inside (parts_of board.now)) (points_of walk) ≡ true) }
{
    let mut walk = step_on(rt, alloc, board, start, first)?;
    for dir in rest {
        go_on(rt, board, &mut walk, *dir)?;
    }
    Ok(walk)
}

/// A walk of one step on a board.
fn step_on(
    rt: &impl Abort,
    alloc: Global,
    board: &Board,
    start: GridPoint,
    dir: Dir,
) -> Result<Walk, Fail>
    ensures { IfOk result (λ walk. list_all (is_inside (parts_of board.now)) (points_of walk) ≡ true) }
{
    let bounds = board.bounds();
    assert!(rt; bounds.contains(start));
    assert!(rt; bounds.contains(start.step(dir)));
    Ok(Walk::of_step(alloc, start, dir)?)
}

/// A walk goes on by a step on a board.
fn go_on(rt: &impl Abort, board: &Board, walk: &mut Walk, dir: Dir) -> Result<(), Fail>
    requires { list_all (is_inside (parts_of board.now)) (points_of walk.old) ≡ true }
    ensures { OnOk result (list_all (is_inside (parts_of board.now)) (points_of walk.new) ≡ true) }
{
    let bounds = board.bounds();
    let end = end_of(walk);
    assert!(rt; bounds.contains(end));
    assert!(rt; bounds.contains(end.step(dir)));
    walk.push(dir)?;
    Ok(())
}

/// The least free walk between two nodes by any ports, where each end may be free.
pub(crate) fn ask(
    rt: &impl Abort,
    alloc: Global,
    board: &Board,
    from: (GridPoint, bool),
    to: (GridPoint, bool),
) -> Result<Option<Walk>, Fail> {
    let bounds = board.bounds();
    assert!(rt; bounds.contains(from.0));
    assert!(rt; bounds.contains(to.0));
    assert!(rt; board.is_node(from.0));
    assert!(rt; board.is_node(to.0));
    assert!(rt; from.0.x != to.0.x);
    Ok(least_settled_walk(alloc, board, from.0, from.1, 255, to.0, to.1, 255)?)
}

/// Expects a walk of these runs from a start to an end.
pub(crate) fn expect_walk(
    rt: &impl Abort,
    found: &Option<Walk>,
    start: GridPoint,
    runs: &[Run],
    end: GridPoint,
) {
    match found {
        None => panic!(rt; "no walk"),
        Some(walk) => {
            assert_eq!(rt; walk.start(), start);
            let told = walk.runs();
            assert_eq!(rt; told, runs);
            assert_eq!(rt; end_of(walk), end);
        }
    }
}
