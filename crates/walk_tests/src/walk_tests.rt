//! Tests of the least free walks.

use crate::boards::{ask, at, expect_walk, put_node, put_walk, run};
use grid_board::Board;
use octi_grid::Dir;
use std::test::Fail;
use walk_search::{least_walk, least_walk_within};

/// A walk stands between two nodes: the least way round it lies outside the box of the ends, and is the lesser of two
/// lists. Where walks take all eight neighbours of the start, there is no way.
#[test]
fn goes_round_a_wall(rt: HostRuntime) -> Result<(), Fail> {
    let mut board = Board::new(rt.alloc(), -6, 8, -6, 8)?;
    put_node(&rt, &mut board, at(0, 0));
    put_node(&rt, &mut board, at(4, 0));
    put_walk(
        &rt,
        rt.alloc(),
        &mut board,
        at(2, -1),
        Dir::N,
        [Dir::N].as_slice(),
    )?;
    let ends = (at(0, 0), at(4, 0));
    let round = ask(&rt, rt.alloc(), &board, (ends.0, false), (ends.1, false))?;
    let over = [run(Dir::NE, 2), run(Dir::SE, 2)];
    expect_walk(&rt, &round, ends.0, over.as_slice(), ends.1);
    let rest = [Dir::N, Dir::E, Dir::E, Dir::S, Dir::S, Dir::W];
    put_walk(
        &rt,
        rt.alloc(),
        &mut board,
        at(-1, -1),
        Dir::N,
        rest.as_slice(),
    )?;
    let shut = ask(&rt, rt.alloc(), &board, (ends.0, false), (ends.1, false))?;
    assert!(rt; shut.is_none());
    Ok(())
}

/// A walk takes a diagonal of each cell between two nodes, so no walk takes the other one.
#[test]
fn crosses_no_diagonal(rt: HostRuntime) -> Result<(), Fail> {
    let mut board = Board::new(rt.alloc(), -6, 8, -6, 8)?;
    put_node(&rt, &mut board, at(0, 0));
    put_node(&rt, &mut board, at(2, 2));
    put_node(&rt, &mut board, at(2, 0));
    put_node(&rt, &mut board, at(0, 2));
    put_walk(
        &rt,
        rt.alloc(),
        &mut board,
        at(0, 0),
        Dir::NE,
        [Dir::NE].as_slice(),
    )?;
    let found = ask(
        &rt,
        rt.alloc(),
        &board,
        (at(2, 0), false),
        (at(0, 2), false),
    )?;
    let round = [
        run(Dir::NE, 1),
        run(Dir::N, 1),
        run(Dir::NW, 1),
        run(Dir::W, 1),
        run(Dir::SW, 1),
    ];
    expect_walk(&rt, &found, at(2, 0), round.as_slice(), at(0, 2));
    Ok(())
}

/// A free end that a walk shuts in is put beside its home; a settled one has no walk.
#[test]
fn starts_beside_a_home(rt: HostRuntime) -> Result<(), Fail> {
    let mut board = Board::new(rt.alloc(), -6, 8, -6, 8)?;
    put_node(&rt, &mut board, at(0, 0));
    put_node(&rt, &mut board, at(4, 0));
    let rest = [Dir::N, Dir::E, Dir::E, Dir::S, Dir::S, Dir::W];
    put_walk(
        &rt,
        rt.alloc(),
        &mut board,
        at(-1, -1),
        Dir::N,
        rest.as_slice(),
    )?;
    let beside = [run(Dir::E, 2)];
    let one = ask(&rt, rt.alloc(), &board, (at(0, 0), true), (at(4, 0), false))?;
    expect_walk(&rt, &one, at(2, 0), beside.as_slice(), at(4, 0));
    let both = ask(&rt, rt.alloc(), &board, (at(0, 0), true), (at(4, 0), true))?;
    expect_walk(&rt, &both, at(2, 0), beside.as_slice(), at(4, 0));
    let neither = ask(
        &rt,
        rt.alloc(),
        &board,
        (at(0, 0), false),
        (at(4, 0), false),
    )?;
    assert!(rt; neither.is_none());
    Ok(())
}

/// Two free ends stay at their homes, where no walk between other seats costs less.
#[test]
fn stays_at_homes(rt: HostRuntime) -> Result<(), Fail> {
    let mut board = Board::new(rt.alloc(), -8, 24, -8, 24)?;
    put_node(&rt, &mut board, at(0, 0));
    put_node(&rt, &mut board, at(16, 2));
    let found = ask(&rt, rt.alloc(), &board, (at(0, 0), true), (at(16, 2), true))?;
    let wanted = [run(Dir::NE, 2), run(Dir::E, 14)];
    expect_walk(&rt, &found, at(0, 0), wanted.as_slice(), at(16, 2));
    Ok(())
}

/// From corner to corner of a large board: a search that looks at each point does not end in the time of a test. The walk
/// costs 10,000, so none costs 9,999 at most.
#[test]
fn crosses_a_large_board(rt: HostRuntime) -> Result<(), Fail> {
    let mut board = Board::new(rt.alloc(), -1000, 1000, -1000, 1000)?;
    let (from, to) = (at(-1000, -1000), at(1000, 1000));
    put_node(&rt, &mut board, from);
    put_node(&rt, &mut board, to);
    assert!(rt; board.bounds().contains(from) && board.bounds().contains(to));
    assert!(rt; board.is_node(from) && board.is_node(to));
    assert!(rt; from.x != to.x);
    let found = least_walk(rt.alloc(), &board, from, 255, to, 255)?;
    expect_walk(&rt, &found, from, [run(Dir::NE, 2000)].as_slice(), to);
    let within = least_walk_within(rt.alloc(), &board, from, 255, to, 255, 10000)?;
    expect_walk(&rt, &within, from, [run(Dir::NE, 2000)].as_slice(), to);
    let cheaper = least_walk_within(rt.alloc(), &board, from, 255, to, 255, 9999)?;
    assert!(rt; cheaper.is_none());
    Ok(())
}
