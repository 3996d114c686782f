//! The samples of all courses.

ghost use Rattle.std.specs.Prelude.{◌≡◌, ◌++◌, IfOk, List, OnOk};
ghost use Rattle.std.specs.List.{flat_map};
ghost use Rattle.map_base.specs.declared.point.Point.{Point as P};
ghost use Rattle.line_graph.specs.Outcome.{all_samples};

use feed_courses::Course;
use map_base::{NoMemory, Point, Sequence};
use std::alloc::Global;

/// The samples of all courses, in order.
pub(crate) fn all_samples(alloc: Global, courses: &[Course]) -> Result<Vec<Point>, NoMemory>
    ensures { IfOk result (λ samples. samples.items ≡ all_samples courses.now) }
{
    let mut samples = Vec::new(alloc);
    for course in courses {
        push_hops(&mut samples, course.hops.as_slice())?;
    }
    Ok(samples)
}

/// The samples of hops, in order.
fn push_hops(samples: &mut Vec<Point>, hops: &[Sequence<Point>]) -> Result<(), NoMemory>
    ensures { OnOk result (samples.new.items ≡ samples.old.items ++ flat_map (λ (hop : List P). hop) hops.now) }
{
    for hop in hops {
        samples.extend_from_slice(hop.as_slice())?;
    }
    Ok(())
}
