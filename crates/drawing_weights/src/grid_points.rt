//! Grid points of walks.

ghost use Rattle.std.specs.Prelude.{◌≡◌, ◌≤◌, ◌++◌, replicate, OnOk};
ghost use Rattle.octi_grid.specs.Taking.{trail};
ghost use Rattle.octi_grid.specs.Ways.{IsWithin};
ghost use Rattle.octi_grid.specs.Walks.{points_of};

use map_base::NoMemory;
use octi_grid::{GridPoint, Run, Walk, run_end};

/// Lists the grid points of a walk.
pub fn push_points(points: &mut Vec<GridPoint>, walk: &Walk) -> Result<(), NoMemory>
    ensures { OnOk result (points.new.items ≡ points.old.items ++ points_of walk.now) }
{
    let runs = walk.runs();
    let mut at = walk.start();
    points.push(at)?;
    for run in runs {
        push_run(points, at, *run)?;
        at = run_end(at, *run);
    }
    Ok(())
}

/// Lists the grid points of a run behind its start.
fn push_run(points: &mut Vec<GridPoint>, start: GridPoint, run: Run) -> Result<(), NoMemory>
    requires start { IsWithin start }
    requires count { run.count ≤ 20000 }
    ensures { OnOk result (points.new.items ≡ points.old.items ++ trail start (replicate run.count run.dir)) }
{
    let mut at = start;
    for _ in 0..run.count {
        at = at.step(run.dir);
        points.push(at)?;
    }
    Ok(())
}
