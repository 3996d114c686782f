//! The network of courses over a net.

ghost use Rattle.std.specs.Prelude.{◌≡◌, ◌≤◌, IfOk, All};
ghost use Rattle.track_net.specs.Laws.{HasOwnDirections, JoinsStations};
ghost use Rattle.track_net.specs.Nets.{IsNet};
ghost use Rattle.way_network.specs.Premises.{IsNetwork, IsPassage};
ghost use Rattle.feed_courses.specs.Fit.{AreFit, AreServed};
ghost use Rattle.line_graph.specs.Legs.{all_legs, ways_of};
ghost use Rattle.line_graph.specs.Outcome.{all_passages, all_samples, net_of_courses, network_of};
ghost use Rattle.line_graph.specs.Rides.{AreKept};

use crate::legs::stretches_of;
use crate::passages::passages_of;
use crate::ways::ways_over;
use feed_courses::Courses;
use map_base::NoMemory;
use std::alloc::Global;
use track_net::Net;
use way_network::{Passage, Way};

/// The ways that lines take over a net, and where they go on from edge to edge.
#[derive(Drop)]
pub(crate) struct Traced {
    /// The ways of all stretches, in the order of first sight.
    pub(crate) ways: Vec<Way>,
    /// The passages along the ways, and from each leg of a course to the next.
    pub(crate) passages: Vec<Passage>,
}

/// The ways of courses over the net of their samples, and all passages. `near` is in decimetres, and there are `lines`
/// lines.
pub(crate) fn network(
    alloc: Global,
    courses: &Courses,
    net: &Net,
    near: u32,
    lines: u32,
) -> Result<Traced, NoMemory>
    requires kept { IsNet net.now }
    requires fit { AreFit near courses.now }
    requires served { AreServed lines courses.now }
    requires net { net.now ≡ net_of_courses near courses.now }
    requires directions { HasOwnDirections net.now }
    requires joined { JoinsStations near courses.now.points (all_samples courses.now.courses) net.now }
    requires near_high { near ≤ 20000 }
    ensures ways { IfOk result (λ traced. traced.ways.items ≡ ways_of near net.now (all_legs courses.now.courses)) }
    ensures passages { IfOk result (λ traced. traced.passages.items ≡ all_passages near courses.now net.now) }

    // It is a network, and these are its passages.
    ensures network { IfOk result (λ _. IsNetwork net.now.points (network_of near lines courses.now net.now)) }
    ensures are_passages { IfOk result (λ _. All (IsPassage (network_of near lines courses.now net.now)) (all_passages near courses.now net.now)) }

    // Its graph keeps the line of each course.
    ensures kept { IfOk result (λ _. AreKept near lines courses.now net.now) }
{
    let table = stretches_of(alloc, courses.courses.as_slice())?;
    let ways = ways_over(alloc, &table, net, near)?;
    let passages = passages_of(alloc, courses.courses.as_slice(), &table, &ways)?;
    Ok(Traced { ways, passages })
}
