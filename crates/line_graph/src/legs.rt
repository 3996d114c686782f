//! The stretches of all legs of courses.

ghost use Rattle.std.specs.Prelude.{◌≡◌, IfOk, All, fold};
ghost use Rattle.line_graph.specs.Legs.{all_legs, legs_of};
ghost use Rattle.line_graph.specs.StretchTables.{table_of, with_leg};
ghost use Rattle.line_graph.specs.Premises.{HasHops};

use crate::stretches::{Stretches, stretch_between};
use feed_courses::Course;
use map_base::NoMemory;
use std::alloc::Global;

/// The stretches of all legs of courses, each with its corridor.
pub(crate) fn stretches_of(alloc: Global, courses: &[Course]) -> Result<Stretches, NoMemory>
    requires { All HasHops courses.now }
    ensures { IfOk result (λ table. table ≡ table_of (all_legs courses.now)) }
{
    let mut table = Stretches::none(alloc);
    for course in courses {
        table = with_course(alloc, table, course)?;
    }
    Ok(table)
}

/// These stretches with the legs of one more course.
fn with_course(alloc: Global, table: Stretches, course: &Course) -> Result<Stretches, NoMemory>
    requires { HasHops course.now }
    ensures { IfOk result (λ made. made ≡ fold with_leg table (legs_of course.now)) }
{
    let stops = course.stops.as_slice();
    let hops = course.hops.as_slice();
    let mut table = table;
    for k in 0..hops.len() {
        let stretch = stretch_between(course.line, stops[k], stops[k + 1]);
        table = table.with(alloc, stretch, hops[k].as_slice())?;
    }
    Ok(table)
}
