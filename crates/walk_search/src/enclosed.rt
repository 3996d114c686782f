//! Whether the start of a walk is shut in by earlier walks, by a look at the few points about it.

ghost use Rattle.std.specs.Prelude.{◌≡◌, ◌<◌, true, IfOk, OnOk};
ghost use Rattle.octi_grid.specs.Ways.{step_from};
ghost use Rattle.octi_grid.specs.Legal.{is_among};
ghost use Rattle.grid_board.specs.Boards.{is_inside};
ghost use Rattle.walk_search.specs.Asking.{question};
ghost use Rattle.walk_search.specs.Enclosed.{leads_on, AreInside, HasSteps, IsLonger, IsShutIn};

use crate::asked::Asked;
use crate::directions::direction;
use crate::seats::is_among;
use map_base::NoMemory;
use octi_grid::{Dir, GridPoint};
use std::alloc::Global;

/// How many points are followed at most: a start that is not shut in has more about it soon.
const MOST_POINTS: usize = 64;

/// Whether the start is shut in: walks from it can come to a few points only, and none of them is a seat of the end. A
/// search for such a walk would go over the whole board before it ended. Not told where there are many points.
pub(crate) fn is_shut_in(alloc: Global, asked: &Asked) -> Result<bool, NoMemory>
    ensures { IfOk result (λ shut_in. shut_in ≡ true → IsShutIn (question asked.now)) }
{
    let mut points = asked.starts(alloc)?;
    for followed in 0..MOST_POINTS {
        if followed == points.len() {
            return Ok(!asked.has_end_among(&points));
        }
        let p = points[followed];
        add_steps(asked, p, &mut points)?;
    }
    Ok(false)
}

/// Adds the points that steps lead to from a point, where they are not among the points.
fn add_steps(asked: &Asked, p: GridPoint, points: &mut Vec<GridPoint>) -> Result<(), NoMemory>
    requires p { is_inside (question asked.now).board p ≡ true }
    requires inside { AreInside (question asked.now) points.old.items }
    ensures longer { OnOk result (IsLonger points.old.items points.new.items) }
    ensures inside { OnOk result (AreInside (question asked.now) points.new.items) }
    ensures steps { OnOk result (HasSteps (question asked.now) points.new.items p 8) }
{
    for n in 0..8 {
        add_step(asked, p, direction(n), points)?;
    }
    Ok(())
}

/// The same for one direction.
fn add_step(
    asked: &Asked,
    p: GridPoint,
    dir: Dir,
    points: &mut Vec<GridPoint>,
) -> Result<(), NoMemory>
    requires p { is_inside (question asked.now).board p ≡ true }
    requires inside { AreInside (question asked.now) points.old.items }
    ensures longer { OnOk result (IsLonger points.old.items points.new.items) }
    ensures inside { OnOk result (AreInside (question asked.now) points.new.items) }
    ensures step { OnOk result (leads_on (question asked.now) p dir ≡ true → is_among points.new.items (step_from p dir) ≡ true) }
{
    if !asked.leads_on(p, dir) {
        return Ok(());
    }
    let next = p.step(dir);
    if is_among(points, next) {
        return Ok(());
    }
    points.push(next)?;
    Ok(())
}
