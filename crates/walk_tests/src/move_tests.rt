//! Tests of moves.

use crate::boards::{at, run};
use crate::drawings::{bent_line, expect_walk};
use crate::graphs::three_in_a_row;
use kept_walks::improve;
use octi_grid::{Dir, check_drawing};
use std::test::Fail;

/// The middle one of three stations moves down by two steps, and the line over them becomes straight. The walks weighed
/// 75 each: `NE2 E14` costs 66, and 1 for its turn, which counts nine times. They weigh 64 each in the end, and the node
/// 12 for its two steps.
#[test]
fn the_middle_station_moves(rt: HostRuntime) -> Result<(), Fail> {
    let graph = three_in_a_row(rt.alloc())?;
    let drawing = bent_line(&rt, rt.alloc())?;
    match check_drawing(rt.alloc(), &graph, &drawing) {
        Err(_) => panic!(rt; "not legal"),
        Ok(()) => {
            let improved = improve(rt.alloc(), &graph, drawing, 5)?;
            assert_eq!(rt; improved.made, 1);
            assert_eq!(rt; improved.before, 150);
            assert_eq!(rt; improved.after, 140);
            let straight = [run(Dir::E, 16)];
            expect_walk(&rt, &improved.drawing, 0, at(0, 0), straight.as_slice());
            expect_walk(&rt, &improved.drawing, 1, at(16, 0), straight.as_slice());
        }
    }
    Ok(())
}
