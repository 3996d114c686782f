//! The flags of the doubled points of walks.

ghost use Rattle.std.specs.Prelude.{◌≡◌, length, replicate, if◌then◌else◌, true, [], ◌∷◌};
ghost use Rattle.std.specs.List.{list_all};
ghost use Rattle.octi_grid.specs.Ways.{after, doubled, points_from, step_from};
ghost use Rattle.octi_grid.specs.Walks.{doubled_of, points_of};
ghost use Rattle.grid_board.specs.Boards.{AreBounds, cells_of, contains, doubled_bounds};
ghost use Rattle.grid_board.specs.Taking.{behind, flagged};

use crate::bounds::Bounds;
use bit_flags::Flags;
use octi_grid::{Dir, GridPoint, Run, Walk};

/// Raises or lowers the flags of the doubled points of a walk.
pub(crate) fn flag_walk(taken: &mut Flags, bounds: Bounds, walk: &Walk, flag: bool)
    requires bounds { AreBounds bounds }
    requires flags { length taken.old ≡ cells_of (doubled_bounds bounds) }
    requires inside { list_all (contains bounds) (points_of walk.now) ≡ true }
    ensures { taken.new ≡ flagged (doubled_bounds bounds) flag taken.old (doubled_of walk.now) }
{
    let mut at = walk.start();
    flag_point(taken, bounds, at, flag);
    for run in walk.runs() {
        at = flag_run(taken, bounds, at, *run, flag);
    }
}

/// Raises or lowers the flags of the doubled points of a run behind its start; tells where the run ends.
fn flag_run(taken: &mut Flags, bounds: Bounds, start: GridPoint, run: Run, flag: bool) -> GridPoint
    requires bounds { AreBounds bounds }
    requires flags { length taken.old ≡ cells_of (doubled_bounds bounds) }
    requires inside { list_all (contains bounds) (points_from start (replicate run.count run.dir)) ≡ true }
    ensures flags { taken.new ≡ flagged (doubled_bounds bounds) flag taken.old (behind start (replicate run.count run.dir)) }
    ensures end { result ≡ after start (replicate run.count run.dir) }
{
    let mut at = start;
    for count in 0..run.count {
        at = flag_step(taken, bounds, at, run.dir, flag);
    }
    at
}

/// Raises or lowers the flags of the doubled points of a step behind its start; tells where the step ends.
fn flag_step(taken: &mut Flags, bounds: Bounds, start: GridPoint, dir: Dir, flag: bool) -> GridPoint
    requires bounds { AreBounds bounds }
    requires flags { length taken.old ≡ cells_of (doubled_bounds bounds) }
    requires start { contains bounds start ≡ true }
    requires end { contains bounds (step_from start dir) ≡ true }
    ensures flags { taken.new ≡ flagged (doubled_bounds bounds) flag taken.old (behind start (dir ∷ [])) }
    ensures end { result ≡ step_from start dir }
{
    let frame = bounds.doubled();
    let middle = start.doubled().step(dir);
    taken.put(frame.cell_of(middle) as usize, flag);
    let end = start.step(dir);
    flag_point(taken, bounds, end, flag);
    end
}

/// Raises or lowers the flag of a point, doubled.
fn flag_point(taken: &mut Flags, bounds: Bounds, at: GridPoint, flag: bool)
    requires bounds { AreBounds bounds }
    requires flags { length taken.old ≡ cells_of (doubled_bounds bounds) }
    requires inside { contains bounds at ≡ true }
    ensures { taken.new ≡ flagged (doubled_bounds bounds) flag taken.old (doubled at ∷ []) }
{
    let frame = bounds.doubled();
    taken.put(frame.cell_of(at.doubled()) as usize, flag);
}

/// Raises the flag of a point that is kept.
pub(crate) fn keep_point(taken: &mut Flags, bounds: Bounds, at: GridPoint, is_kept: bool)
    requires bounds { AreBounds bounds }
    requires flags { length taken.old ≡ cells_of (doubled_bounds bounds) }
    requires inside { contains bounds at ≡ true }
    ensures { taken.new ≡ (if is_kept then flagged (doubled_bounds bounds) true taken.old (doubled at ∷ []) else taken.old) }
{
    if is_kept {
        flag_point(taken, bounds, at, true);
    }
}
