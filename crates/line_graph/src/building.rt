//! The line graph of a feed.

ghost use Rattle.std.specs.Prelude.{◌≡◌, ◌<◌, ◌≤◌, length, All, IfOk, IfErr, Ok};
ghost use Rattle.map_base.specs.declared.ids.LineId.{LineId as Line};
ghost use Rattle.track_net.specs.Laws.{HasOwnDirections, JoinsStations};
ghost use Rattle.feed_courses.specs.Fit.{AreFit, AreServed};
ghost use Rattle.way_network.specs.Graphs.{graph_over, graph_within};
ghost use Rattle.way_network.specs.Premises.{IsNetwork};
ghost use Rattle.way_network.specs.Segments.{segment_chains};
ghost use Rattle.line_graph.specs.Outcome.{all_passages, all_samples, graph_outcome, graph_over_net, net_of_courses as net_of, network_of};
ghost use Rattle.map_base.specs.Faults.{HasCause};
ghost use Rattle.line_graph.specs.Rides.{AreKept, KeepsLines};
ghost use Rattle.line_graph.specs.Text.{IsKnown};

use crate::course_net::net_of_courses;
use crate::network::network;
use feed_courses::{Courses, courses_of};
use graph_core::LineGraph;
use map_base::{LimitFault, Settings};
use std::alloc::Global;
use track_net::Net;
use transit_feed::Tables;
use way_network::{ChainedGraph, graph_of};

/// The line graph of a feed: how its lines share their ways.
///
/// Shapes and hops are sampled, at most `near` decimetres apart, and thinned to a net of points. Each stretch of a
/// line, from one station of a pattern to the next, takes the least path over the net along its own samples. Nodes
/// are the stations that lines use, and the points at which lines part or meet; segments are the ways between them,
/// each with its lines. Hidden lines are left out.
///
/// There is a limit where the feed has more lines, stations, samples, net points, nodes or segments than are worked
/// on, the first of these in this order.
pub fn build(alloc: Global, tables: &Tables, settings: &Settings) -> Result<LineGraph, LimitFault>
    ensures graph { IfOk result (λ graph. graph_outcome settings.now.near tables.now ≡ Ok graph) }
    ensures cause { IfErr result (λ fault. HasCause (graph_outcome settings.now.near tables.now) fault) }

    // Its stations are stations of the tables, and its lines are lines of the tables.
    ensures stations { IfOk result (λ graph. All (IsKnown tables.now.stations) graph.kinds) }
    ensures lines { IfOk result (λ graph. All (All (λ (a : Line). a.0 < length tables.now.lines)) graph.lines) }

    // No line is lost: that of each course rides over segments that have it, from each to the next by a join.
    ensures kept { IfOk result (λ graph. KeepsLines settings.now.near tables.now graph) }
{
    let courses = courses_of(alloc, tables, settings.near)?;
    graph_of_courses(alloc, &courses, settings.near, tables.lines.len() as u32)
}

/// The line graph of courses, of that many lines.
pub fn graph_of_courses(
    alloc: Global,
    courses: &Courses,
    near: u32,
    lines: u32,
) -> Result<LineGraph, LimitFault>
    requires fit { AreFit near courses.now }
    requires served { AreServed lines courses.now }
    requires near_low { 20 ≤ near }
    requires near_high { near ≤ 20000 }
    ensures graph { IfOk result (λ graph. graph_over_net near lines courses.now (net_of near courses.now) ≡ Ok graph) }
    ensures cause { IfErr result (λ fault. HasCause (graph_over_net near lines courses.now (net_of near courses.now)) fault) }
    ensures kept { IfOk result (λ _. AreKept near lines courses.now (net_of near courses.now)) }
{
    let net = net_of_courses(alloc, courses, near)?;
    graph_of_net(alloc, courses, &net, near, lines)
}

/// The line graph of courses over the net of their samples.
fn graph_of_net(
    alloc: Global,
    courses: &Courses,
    net: &Net,
    near: u32,
    lines: u32,
) -> Result<LineGraph, LimitFault>
    requires fit { AreFit near courses.now }
    requires served { AreServed lines courses.now }
    requires net { net.now ≡ net_of near courses.now }
    requires directions { HasOwnDirections net.now }
    requires joined { JoinsStations near courses.now.points (all_samples courses.now.courses) net.now }
    requires near_high { near ≤ 20000 }
    ensures graph { IfOk result (λ graph. graph_within (graph_over courses.now.stations net.now.points (network_of near lines courses.now net.now) (all_passages near courses.now net.now)) ≡ Ok graph) }
    ensures cause { IfErr result (λ fault. HasCause (graph_within (graph_over courses.now.stations net.now.points (network_of near lines courses.now net.now) (all_passages near courses.now net.now))) fault) }
    ensures kept { IfOk result (λ _. AreKept near lines courses.now net.now) }
{
    let made = chained_graph(alloc, courses, net, near, lines)?;
    Ok(made.graph)
}

/// The line graph of courses over the net of their samples, with the chains of its segments.
pub(crate) fn chained_graph(
    alloc: Global,
    courses: &Courses,
    net: &Net,
    near: u32,
    lines: u32,
) -> Result<ChainedGraph, LimitFault>
    requires fit { AreFit near courses.now }
    requires served { AreServed lines courses.now }
    requires net { net.now ≡ net_of near courses.now }
    requires directions { HasOwnDirections net.now }
    requires joined { JoinsStations near courses.now.points (all_samples courses.now.courses) net.now }
    requires near_high { near ≤ 20000 }
    ensures graph { IfOk result (λ made. graph_within (graph_over courses.now.stations net.now.points (network_of near lines courses.now net.now) (all_passages near courses.now net.now)) ≡ Ok made.graph) }
    ensures chains { IfOk result (λ made. made.chains ≡ segment_chains net.now.points (network_of near lines courses.now net.now)) }
    ensures cause { IfErr result (λ fault. HasCause (graph_within (graph_over courses.now.stations net.now.points (network_of near lines courses.now net.now) (all_passages near courses.now net.now))) fault) }
    ensures kept { IfOk result (λ _. AreKept near lines courses.now net.now) }
    ensures network { IfOk result (λ _. IsNetwork net.now.points (network_of near lines courses.now net.now)) }
{
    let points = net.points();
    let traced = network(alloc, courses, net, near, lines)?;
    let stations = courses.stations.as_slice();
    let made = graph_of(
        alloc,
        points,
        stations,
        lines,
        &traced.ways,
        &traced.passages,
    )?;
    Ok(made)
}
