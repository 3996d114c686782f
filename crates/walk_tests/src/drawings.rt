//! A drawing of three stations in a row.

ghost use Rattle.std.specs.Prelude.{◌≡◌, Some, IfOk, length, true};
ghost use Rattle.octi_grid.specs.Walks.{walk_by};
ghost use Rattle.grid_board.specs.Points.{are_near};

use map_base::Sequence;
use octi_grid::{Dir, Drawing, GridPoint, Run, Walk};
use std::alloc::Global;
use std::process::Abort;
use std::test::Fail;

/// The walk of these runs.
fn walk(rt: &impl Abort, start: GridPoint, runs: Vec<Run>) -> Walk
    ensures { walk_by start runs.items ≡ Some result }
{
    match Walk::of_runs(start, runs) {
        None => panic!(rt; "no walk"),
        Some(walk) => walk,
    }
}

/// A line up to a station, and down again behind it.
pub(crate) fn bent_line(rt: &impl Abort, alloc: Global) -> Result<Drawing, Fail>
    ensures each { IfOk result (λ drawing. length drawing.walks ≡ 2) }
    ensures near { IfOk result (λ drawing. are_near 1900 drawing.walks ≡ true) }
    ensures nearer { IfOk result (λ drawing. are_near 1800 drawing.walks ≡ true) }
{
    let up = vec![in alloc;
        Run {
            dir: Dir::NE,
            count: 2
        },
        Run {
            dir: Dir::E,
            count: 14
        },
    ]?;
    let down = vec![in alloc;
        Run {
            dir: Dir::E,
            count: 14
        },
        Run {
            dir: Dir::SE,
            count: 2
        },
    ]?;
    let first = walk(rt, GridPoint { x: 0, y: 0 }, up);
    let second = walk(rt, GridPoint { x: 16, y: 2 }, down);
    let walks = vec![in alloc; first, second]?;
    Ok(Drawing {
        walks: Sequence::of(walks),
    })
}

/// Expects that a walk of a drawing starts here and has these runs.
pub(crate) fn expect_walk(
    rt: &impl Abort,
    drawing: &Drawing,
    k: usize,
    start: GridPoint,
    runs: &[Run],
) {
    let walks = drawing.walks.as_slice();
    assert!(rt; k < walks.len());
    let walk = &walks[k];
    assert_eq!(rt; walk.start(), start);
    let told = walk.runs();
    assert_eq!(rt; told, runs);
}
