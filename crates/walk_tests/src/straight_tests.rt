//! Tests of straightening.

use crate::boards::{at, run};
use crate::drawings::{bent_line, expect_walk};
use crate::graphs::three_in_a_row;
use kept_walks::straighten;
use octi_grid::{Dir, check_drawing};
use std::test::Fail;

/// The middle one of three stations lies 400 decimetres off the straight piece between the others, and both walks weigh 79:
/// `NE2 E14` costs 67, and 12 for its turn. On cells of 134 the middle one is no corner: the line is laid straight from end
/// to end, with the middle one halfway, and then both ends come nearer by two steps, which weighs 4 each and saves 8. On
/// cells of 133 it is a corner and stays, and both ends come up to it, by two steps for 4 more each.
#[test]
fn a_station_is_a_corner_where_it_lies_off(rt: HostRuntime) -> Result<(), Fail> {
    for (cell, made, after, height) in [(134u32, 3, 120, 0), (133, 4, 128, 2)] {
        assert!(rt; cell > 0);
        let graph = three_in_a_row(rt.alloc())?;
        let drawing = bent_line(&rt, rt.alloc())?;
        match check_drawing(rt.alloc(), &graph, &drawing) {
            Err(_) => panic!(rt; "not legal"),
            Ok(()) => {
                let laid = straighten(rt.alloc(), &graph, drawing, cell, 1000)?;
                assert_eq!(rt; laid.made, made);
                assert_eq!(rt; laid.before, 158);
                assert_eq!(rt; laid.after, after);
                let straight = [run(Dir::E, 14)];
                expect_walk(&rt, &laid.drawing, 0, at(2, height), straight.as_slice());
                expect_walk(&rt, &laid.drawing, 1, at(16, height), straight.as_slice());
            }
        }
    }
    Ok(())
}
