//! The net of courses.

ghost use Rattle.std.specs.Prelude.{◌≡◌, ◌≤◌, IfErr, IfOk, length};
ghost use Rattle.track_net.specs.Faults.{HasCause};
ghost use Rattle.track_net.specs.Laws.{HasOwnDirections, JoinsStations};
ghost use Rattle.feed_courses.specs.Fit.{AreFit};
ghost use Rattle.line_graph.specs.Outcome.{all_samples, net_of_courses};

use crate::samples::all_samples;
use feed_courses::Courses;
use map_base::LimitFault;
use std::alloc::Global;
use track_net::{Net, net_of};

/// The net over the stations of courses and their samples. There is a limit where it has more than 100,000 points.
/// `near` is in decimetres.
pub(crate) fn net_of_courses(alloc: Global, courses: &Courses, near: u32) -> Result<Net, LimitFault>
    requires fit { AreFit near courses.now }
    requires near_low { 20 ≤ near }
    requires near_high { near ≤ 20000 }
    ensures net { IfOk result (λ net. net ≡ net_of_courses near courses.now) }
    ensures few { IfOk result (λ net. length net.points ≤ 100000) }
    ensures cause { IfErr result (λ fault. HasCause (length (net_of_courses near courses.now).points) fault) }

    // Edges of one point have different directions, and the net joins stations that follow each other.
    ensures directions { IfOk result HasOwnDirections }
    ensures joined { IfOk result (JoinsStations near courses.now.points (all_samples courses.now.courses)) }
{
    let samples = all_samples(alloc, courses.courses.as_slice())?;
    net_of(alloc, courses.points.as_slice(), &samples, near)
}
