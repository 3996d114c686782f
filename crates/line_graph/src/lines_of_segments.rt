//! The courses of segments over the net.

ghost use Rattle.std.specs.Prelude.{◌≡◌, ◌<◌, ◌≤◌, length, map, All, IfOk, IfErr, Ok};
ghost use Rattle.map_base.specs.Faults.{HasCause};
ghost use Rattle.track_net.specs.Nearness.{point_at};
ghost use Rattle.geo_lines.specs.Courses.{IsCourse};
ghost use Rattle.feed_courses.specs.Fit.{AreFit, AreServed};
ghost use Rattle.line_graph.specs.Outcome.{graph_outcome, graph_over_net, net_of_courses as net_of, network_of};
ghost use Rattle.line_graph.specs.Rides.{AreKept, KeepsLines};
ghost use Rattle.line_graph.specs.SegmentLines.{lines_outcome, lines_over_net};

use crate::building::chained_graph;
use crate::course_net::net_of_courses;
use feed_courses::{Courses, courses_of};
use graph_core::LineGraph;
use map_base::{LimitFault, NoMemory, Point, Sequence, Settings};
use std::alloc::Global;
use transit_feed::Tables;
use way_network::places_of;

/// A line graph, and the course of each of its segments: the net points that the segment runs over, from its lower to
/// its upper end.
#[derive(Drop)]
pub struct GraphWithLines {
    /// The line graph.
    pub graph: LineGraph,
    /// The course of each segment.
    pub lines: Sequence<Sequence<Point>>,
}

/// The course of each segment of a feed's line graph, as `build` numbers them: the points of the net that the segment runs
/// over, in decimetres, from its lower to its upper end. Each has two points at least, and each point lies apart from the
/// next. It is refused as `build` refuses the graph.
#[tactic(auto, using(crate::proofs::SegmentCourses::refused_with))]
pub fn segment_lines(
    alloc: Global,
    tables: &Tables,
    settings: &Settings,
) -> Result<Sequence<Sequence<Point>>, LimitFault>
    ensures lines { IfOk result (λ lines. lines_outcome settings.now.near tables.now ≡ Ok lines) }
    ensures courses { IfOk result (λ lines. All IsCourse lines) }
    ensures cause { IfErr result (λ fault. HasCause (lines_outcome settings.now.near tables.now) fault) }
{
    let made = build_with_lines(alloc, tables, settings)?;
    Ok(made.lines)
}

/// The line graph of a feed, as `build` gives it, with the course of each of its segments.
pub fn build_with_lines(
    alloc: Global,
    tables: &Tables,
    settings: &Settings,
) -> Result<GraphWithLines, LimitFault>
    ensures graph { IfOk result (λ made. graph_outcome settings.now.near tables.now ≡ Ok made.graph) }
    ensures lines { IfOk result (λ made. lines_outcome settings.now.near tables.now ≡ Ok made.lines) }
    ensures courses { IfOk result (λ made. All IsCourse made.lines) }
    ensures cause { IfErr result (λ fault. HasCause (graph_outcome settings.now.near tables.now) fault) }

    // No line is lost, as `build` says it.
    ensures kept { IfOk result (λ made. KeepsLines settings.now.near tables.now made.graph) }
{
    let courses = courses_of(alloc, tables, settings.near)?;
    lines_of_courses(alloc, &courses, settings.near, tables.lines.len() as u32)
}

/// The line graph of courses, of that many lines, with the course of each of its segments.
fn lines_of_courses(
    alloc: Global,
    courses: &Courses,
    near: u32,
    lines: u32,
) -> Result<GraphWithLines, LimitFault>
    requires fit { AreFit near courses.now }
    requires served { AreServed lines courses.now }
    requires near_low { 20 ≤ near }
    requires near_high { near ≤ 20000 }
    ensures graph { IfOk result (λ made. graph_over_net near lines courses.now (net_of near courses.now) ≡ Ok made.graph) }
    ensures lines { IfOk result (λ made. lines_over_net near lines courses.now (net_of near courses.now) ≡ Ok made.lines) }
    ensures courses { IfOk result (λ made. All IsCourse made.lines) }
    ensures cause { IfErr result (λ fault. HasCause (graph_over_net near lines courses.now (net_of near courses.now)) fault) }
    ensures kept { IfOk result (λ _. AreKept near lines courses.now (net_of near courses.now)) }
{
    let net = net_of_courses(alloc, courses, near)?;
    let made = chained_graph(alloc, courses, &net, near, lines)?;
    let along = places_along(alloc, net.points(), made.chains.as_slice())?;
    Ok(GraphWithLines {
        graph: made.graph,
        lines: along,
    })
}

/// Where the points of each of these chains lie.
fn places_along(
    alloc: Global,
    points: &[Point],
    chains: &[Sequence<u32>],
) -> Result<Sequence<Sequence<Point>>, NoMemory>
    requires { All (All (λ p. p < length points.now)) chains.now }
    ensures { IfOk result (λ lines. lines ≡ map (map (point_at points.now)) chains.now) }
{
    let mut lines = Vec::with_capacity(alloc, chains.len())?;
    for chain in chains {
        lines.push(course_along(alloc, points, chain.as_slice())?)?;
    }
    Ok(Sequence::of(lines))
}

/// Where the points of a chain lie.
fn course_along(alloc: Global, points: &[Point], chain: &[u32]) -> Result<Sequence<Point>, NoMemory>
    requires { All (λ p. p < length points.now) chain.now }
    ensures { IfOk result (λ course. course ≡ map (point_at points.now) chain.now) }
{
    let course = places_of(alloc, points, chain)?;
    Ok(Sequence::of(course))
}
