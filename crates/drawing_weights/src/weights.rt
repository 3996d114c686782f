//! What the turns of a walk cost together, and how far two points lie apart.

ghost use Rattle.std.specs.Prelude.{◌≡◌, ◌<◌, ◌≤◌, drop, length, unsigned_abs, true};
ghost use Rattle.octi_grid.specs.Costs.{turn_to};
ghost use Rattle.octi_grid.specs.Runs.{are_runs, steps_of};
ghost use Rattle.drawing_weights.specs.Weights.{square, square_apart, turn_after, turns_of};

use octi_grid::{Dir, GridPoint, Run, turn_cost};

/// What the turns of runs cost together.
pub(crate) fn turns_of(runs: &[Run]) -> u64
    requires runs { are_runs runs.now ≡ true }
    requires few { length (steps_of runs.now) ≤ 16008001 }
    ensures turns { result ≡ turns_of (steps_of runs.now) }
    ensures small { result ≤ 64032004 }
{
    let mut total = 0;
    for i in 0..runs.len() {
        total += turn_after(runs, i);
    }
    total
}

/// What the turn from a run to the next one costs.
fn turn_after(runs: &[Run], i: usize) -> u64
    requires { i < length runs.now }
    ensures cost { result ≡ turn_after (drop i runs.now) }
    ensures small { result ≤ 4 }
{
    let run = runs[i];
    turn_to(run.dir, runs, i + 1)
}

/// What the turn from a direction to that of the run at a place costs; nothing where there is no such run.
fn turn_to(dir: Dir, runs: &[Run], i: usize) -> u64
    ensures cost { result ≡ turn_to dir (drop i runs.now) }
    ensures small { result ≤ 4 }
{
    match runs.get(i) {
        None => 0,
        Some(run) => u64::from(turn_cost(dir, run.dir)),
    }
}

/// The square of the distance between two points.
pub(crate) fn square_apart(first: GridPoint, here: GridPoint) -> u64
    requires first_x { unsigned_abs first.x ≤ 2000 }
    requires first_y { unsigned_abs first.y ≤ 2000 }
    requires x { unsigned_abs here.x ≤ 2000 }
    requires y { unsigned_abs here.y ≤ 2000 }
    ensures value { result ≡ square_apart first here }
    ensures small { result ≤ 32000000 }
{
    square(here.x.abs_diff(first.x)) + square(here.y.abs_diff(first.y))
}

/// The square of a number.
fn square(n: u32) -> u64
    requires { n ≤ 4000 }
    ensures value { result ≡ square n }
    ensures small { result ≤ 16000000 }
{
    u64::from(n) * u64::from(n)
}
