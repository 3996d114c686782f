//! What walks cost, and where they end.

ghost use Rattle.std.specs.Prelude.{◌≡◌, ◌<◌, ◌≤◌, ◌*◌, ◌^◌, length, drop};
ghost use Rattle.octi_grid.specs.Costs.{run_cost, step_cost, turn_between, turn_to};
ghost use Rattle.octi_grid.specs.Walks.{cost_of, end_point};

use crate::dir::Dir;
use crate::point::GridPoint;
use crate::runs::run_end;
use crate::walk::{Run, Walk};

/// What a turn costs: its angle, in parts of 45 degrees, from 0 to 4.
pub fn turn_cost(a: Dir, b: Dir) -> u32
    ensures cost { result ≡ turn_between a b }
    ensures within { result ≤ 4 }
{
    let right = (8 + b.index() - a.index()) % 8;
    let left = (8 + a.index() - b.index()) % 8;
    u32::from(right.min(left))
}

/// What a step costs: 4 along an axis, 5 along a diagonal.
pub fn step_cost(dir: Dir) -> u32
    ensures cost { result ≡ step_cost dir }
    ensures within { result ≤ 5 }
{
    match dir {
        Dir::N | Dir::E | Dir::S | Dir::W => 4,
        Dir::NE | Dir::SE | Dir::SW | Dir::NW => 5,
    }
}

/// What a walk costs: its steps, and the turns between them.
pub fn walk_cost(walk: &Walk) -> u64
    requires { length walk.now.steps < 2 ^ 60 }
    ensures { result ≡ cost_of walk.now }
{
    let runs = walk.runs();
    let mut total = 0;
    for i in 0..runs.len() {
        total += run_cost(runs, i);
    }
    total
}

/// Where a walk ends.
pub fn end_of(walk: &Walk) -> GridPoint
    ensures { result ≡ end_point walk.now }
{
    let mut at = walk.start();
    for run in walk.runs() {
        at = run_end(at, *run);
    }
    at
}

/// What a run costs, and the turn to the next one.
fn run_cost(runs: &[Run], i: usize) -> u64
    requires { i < length runs.now }
    ensures { result ≡ run_cost (drop i runs.now) }
{
    let run = runs[i];
    steps_cost(run.dir, run.count) + turn_to(run.dir, runs, i + 1)
}

/// What so many steps in a direction cost.
fn steps_cost(dir: Dir, count: u32) -> u64
    ensures cost { result ≡ count * step_cost dir }
    ensures within { result ≤ 5 * 2 ^ 32 }
{
    u64::from(count) * u64::from(step_cost(dir))
}

/// What the turn from a direction to that of the run at a place costs; nothing where there is no such run.
fn turn_to(dir: Dir, runs: &[Run], i: usize) -> u64
    ensures cost { result ≡ turn_to dir (drop i runs.now) }
    ensures within { result ≤ 4 }
{
    match runs.get(i) {
        None => 0,
        Some(run) => u64::from(turn_cost(dir, run.dir)),
    }
}
