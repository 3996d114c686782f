//! Runs of steps, one after another.

ghost use Rattle.std.specs.Prelude.{◌≡◌, ◌≤◌, ◌<◌, ◌++◌, ◌∷◌, [], length, drop, replicate, IsTrue, OnOk, OnErr, unsigned_abs, vec_len};
ghost use Rattle.std.specs.List.{list_all, AllByRecursion};
ghost use Rattle.octi_grid.specs.Ways.{after, end_within, moved, points_from, is_within, IsWithin};
ghost use Rattle.octi_grid.specs.Runs.{are_runs, goes_on, prolonged, steps_of, turns_next, IsShort};

use crate::dir::Dir;
use crate::point::GridPoint;
use crate::walk::Run;
use map_base::NoMemory;

/// Whether no run is without steps, and neighbours go different ways.
#[tactic(auto, using(std::proofs::lemmas::List::at_drop_more))]
pub(crate) fn are_runs(runs: &[Run]) -> bool
    ensures { result ≡ are_runs runs.now }
{
    for i in 0..runs.len() {
        if runs[i].count == 0 || !turns_next(runs[i].dir, runs, i + 1) {
            return false;
        }
    }
    true
}

/// Whether there is no run at a place, or it goes another way.
fn turns_next(dir: Dir, runs: &[Run], i: usize) -> bool
    ensures { result ≡ turns_next dir (drop i runs.now) }
{
    match runs.get(i) {
        None => true,
        Some(run) => run.dir != dir,
    }
}

/// Whether each point of the steps of runs from a start lies within 10,000 either way.
pub(crate) fn stay_within(start: GridPoint, runs: &[Run]) -> bool
    ensures { result ≡ list_all is_within (points_from start (steps_of runs.now)) }
{
    if !is_within(start) {
        return false;
    }
    let mut at = start;
    for run in runs {
        match end_within(at, *run) {
            None => return false,
            Some(end) => at = end,
        }
    }
    true
}

/// Whether a point lies within 10,000 either way.
fn is_within(p: GridPoint) -> bool
    ensures { result ≡ is_within p }
{
    p.x.unsigned_abs() <= 10000 && p.y.unsigned_abs() <= 10000
}

/// Where a run from a point ends, if each of its points lies within 10,000 either way.
fn end_within(at: GridPoint, run: Run) -> Option<GridPoint>
    requires { IsWithin at }
    ensures { result ≡ end_within at (replicate run.count run.dir) }
{
    if run.count > 20000 {
        return None;
    }
    let end = run_end(at, run);
    if is_within(end) { Some(end) } else { None }
}

/// Where a run from a point ends.
pub fn run_end(at: GridPoint, run: Run) -> GridPoint
    requires at { IsWithin at }
    requires count { run.count ≤ 20000 }
    ensures { result ≡ after at (replicate run.count run.dir) }
{
    GridPoint {
        x: moved(at.x, run.dir.east(), run.count as i32),
        y: moved(at.y, run.dir.north(), run.count as i32),
    }
}

/// A coordinate after so many steps, each of which changes it by 1 in this sense.
fn moved(from: i32, sense: i32, count: i32) -> i32
    requires from { unsigned_abs from ≤ 10000 }
    requires count { unsigned_abs count ≤ 20000 }
    ensures { result ≡ moved from sense count }
{
    if sense > 0 {
        from + count
    } else if sense < 0 {
        from - count
    } else {
        from
    }
}

/// Lets runs take one step more: the last run has it where it goes that way, else a run of its own.
pub(crate) fn push_step(runs: &mut Vec<Run>, dir: Dir) -> Result<(), NoMemory>
    requires runs { IsTrue (are_runs runs.old.items) }
    requires counts { AllByRecursion IsShort runs.old.items }
    ensures steps { OnOk result (steps_of runs.new.items ≡ steps_of runs.old.items ++ dir ∷ []) }
    ensures runs { OnOk result (IsTrue (are_runs runs.new.items)) }
    ensures refused { OnErr result (runs.new.items ≡ runs.old.items) }
{
    if goes_on(runs, dir) {
        prolong(runs);
        return Ok(());
    }
    runs.push(Run { dir, count: 1 })?;
    Ok(())
}

/// Whether the last run goes this way.
fn goes_on(runs: &[Run], dir: Dir) -> bool
    ensures { result ≡ goes_on runs.now dir }
{
    if runs.is_empty() {
        return false;
    }
    runs[runs.len() - 1].dir == dir
}

/// Lets the last run take one step more.
fn prolong(runs: &mut Vec<Run>)
    requires some { 0 < vec_len runs.old }
    requires counts { AllByRecursion IsShort runs.old.items }
    ensures { runs.new.items ≡ prolonged runs.old.items }
{
    let last = runs.len() - 1;
    runs[last].count += 1;
}
