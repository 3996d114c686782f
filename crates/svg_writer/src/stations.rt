//! The markers of stations, and their names.

ghost use Rattle.std.specs.Prelude.{◌≡◌, ◌++◌, ◌≤◌, ◌<◌, ◌+◌, ◌*◌, ◌↔◌, length, unsigned_abs, IfOk, IsOk, OnOk, string_bytes};
ghost use Rattle.svg_writer.specs.Elements.{texts};
ghost use Rattle.svg_writer.specs.Picture.{most_lines, radius_in, radius_of, beside, marker, label, kind_at, round_at, all_markers, all_labels, spot_at, placed_label, placed_labels};

use crate::drawable::Drawn;
use crate::elements::{push_label, push_marker};
use crate::names::Names;
use crate::scene::{Scene, lines_of, small_count, station_name};
use crate::style::{Style, grid_style};
use graph_core::{LineGraph, NodeKind};
use line_offsets::Corner;
use map_base::{NoMemory, NodeId, SegId};

/// Appends the marker of each station.
pub(crate) fn push_all_markers<D: Drawn>(
    text: &mut String,
    scene: &Scene<'_, D>,
) -> Result<(), NoMemory>
    ensures { OnOk result (string_bytes text.new ≡ string_bytes text.old ++ texts scene.now.style (all_markers scene.now.style scene.now.graph.now (D.courses scene.now.drawn.now))) }
{
    for n in 0..scene.graph.nodes() {
        push_marker_at(text, scene, n)?;
    }
    Ok(())
}

/// Appends the marker of node n, where it is a station.
fn push_marker_at<D: Drawn>(text: &mut String, scene: &Scene<'_, D>, n: u32) -> Result<(), NoMemory>
    requires node { n < length scene.now.graph.now.kinds }
    requires lines { length scene.now.graph.now.lines ≡ length scene.now.graph.now.ends }
    ensures { OnOk result (string_bytes text.new ≡ string_bytes text.old ++ texts scene.now.style (marker scene.now.style scene.now.graph.now (D.courses scene.now.drawn.now) n (kind_at scene.now.graph.now.kinds n))) }
{
    push_marker_of(text, scene, n, scene.graph.kind(NodeId(n)))
}

/// Appends the marker of a node of this kind, where that is a station.
fn push_marker_of<D: Drawn>(
    text: &mut String,
    scene: &Scene<'_, D>,
    n: u32,
    kind: NodeKind,
) -> Result<(), NoMemory>
    requires node { n < length scene.now.graph.now.kinds }
    requires lines { length scene.now.graph.now.lines ≡ length scene.now.graph.now.ends }
    ensures { OnOk result (string_bytes text.new ≡ string_bytes text.old ++ texts scene.now.style (marker scene.now.style scene.now.graph.now (D.courses scene.now.drawn.now) n kind)) }
{
    match kind {
        NodeKind::Station(_) => {
            let radius = radius_in(scene.style, scene.graph, NodeId(n))?;
            push_marker(text, scene.style, scene.drawn.centre(NodeId(n)), radius)?;
            Ok(())
        }
        NodeKind::Junction => Ok(()),
    }
}

/// Appends the name of each station.
pub(crate) fn push_all_labels<D: Drawn>(
    text: &mut String,
    scene: &Scene<'_, D>,
) -> Result<(), NoMemory>
    ensures { OnOk result (string_bytes text.new ≡ string_bytes text.old ++ texts scene.now.style (all_labels scene.now.style scene.now.names.now scene.now.graph.now (D.courses scene.now.drawn.now))) }
{
    for n in 0..scene.graph.nodes() {
        push_label_at(text, scene, n)?;
    }
    Ok(())
}

/// Appends the name of node n, where it is a station.
fn push_label_at<D: Drawn>(text: &mut String, scene: &Scene<'_, D>, n: u32) -> Result<(), NoMemory>
    requires node { n < length scene.now.graph.now.kinds }
    requires lines { length scene.now.graph.now.lines ≡ length scene.now.graph.now.ends }
    ensures { OnOk result (string_bytes text.new ≡ string_bytes text.old ++ texts scene.now.style (label scene.now.style scene.now.names.now scene.now.graph.now (D.courses scene.now.drawn.now) n (kind_at scene.now.graph.now.kinds n))) }
{
    push_label_of(text, scene, n, scene.graph.kind(NodeId(n)))
}

/// Appends the name of a node of this kind, where that is a station.
fn push_label_of<D: Drawn>(
    text: &mut String,
    scene: &Scene<'_, D>,
    n: u32,
    kind: NodeKind,
) -> Result<(), NoMemory>
    requires node { n < length scene.now.graph.now.kinds }
    requires lines { length scene.now.graph.now.lines ≡ length scene.now.graph.now.ends }
    ensures { OnOk result (string_bytes text.new ≡ string_bytes text.old ++ texts scene.now.style (label scene.now.style scene.now.names.now scene.now.graph.now (D.courses scene.now.drawn.now) n kind)) }
{
    match kind {
        NodeKind::Station(station) => {
            let radius = radius_in(scene.style, scene.graph, NodeId(n))?;
            let place = beside(scene.style.gap, scene.drawn.centre(NodeId(n)), radius);
            push_label(
                text,
                scene.style,
                place,
                station_name(scene.names, station.0),
            )?;
            Ok(())
        }
        NodeKind::Junction => Ok(()),
    }
}

/// Appends the names of stations at these places, one for each node.
pub(crate) fn push_placed_labels<D: Drawn>(
    text: &mut String,
    scene: &Scene<'_, D>,
    spots: &[Option<Corner>],
) -> Result<(), NoMemory>
    ensures { OnOk result (string_bytes text.new ≡ string_bytes text.old ++ texts scene.now.style (placed_labels scene.now.names.now scene.now.graph.now spots.now)) }
{
    for n in 0..scene.graph.nodes() {
        let kind = scene.graph.kind(NodeId(n));
        push_placed_label(text, scene.style, scene.names, kind, spot_at(spots, n))?;
    }
    Ok(())
}

/// Appends the name of a node at a place, where it is a station and there is one.
fn push_placed_label(
    text: &mut String,
    style: Style,
    names: &Names,
    kind: NodeKind,
    spot: Option<Corner>,
) -> Result<(), NoMemory>
    ensures { OnOk result (string_bytes text.new ≡ string_bytes text.old ++ texts style (placed_label names.now kind spot)) }
{
    match (kind, spot) {
        (NodeKind::Station(station), Some(place)) => {
            push_label(text, style, place, station_name(names, station.0))?;
            Ok(())
        }
        _ => Ok(()),
    }
}

/// The place at which the name of node n begins, where there is one.
fn spot_at(spots: &[Option<Corner>], n: u32) -> Option<Corner>
    ensures { result ≡ spot_at spots.now n }
{
    match spots.get(n as usize) {
        Some(spot) => *spot,
        None => None,
    }
}

/// To the right of a marker, and above it, with a gap between.
fn beside(gap: u16, centre: Corner, radius: u64) -> Corner
    requires across { unsigned_abs centre.x ≤ 1099511627776 }
    requires down { unsigned_abs centre.y ≤ 1099511627776 }
    requires radius { radius ≤ 6553500065535 }
    ensures { result ≡ beside gap centre radius }
{
    let away = (radius + u64::from(gap)) as i64;
    Corner {
        x: centre.x + away,
        y: centre.y - away,
    }
}

/// The radius of the marker of a node on the grid: seven units for each line of the segment there with the most, and three.
/// For more lines than can be reckoned with there is no room.
pub fn radius_of(graph: &LineGraph, n: NodeId) -> Result<u32, NoMemory>
    requires node { n.0 < length graph.now.kinds }
    requires lines { length graph.now.lines ≡ length graph.now.ends }
    ensures value { IfOk result (λ r. r ≡ radius_of graph.now n.0) }
    ensures small { IfOk result (λ r. r ≤ 700000003) }
    ensures room { IsOk result ↔ (most_lines graph.now.lines (round_at graph.now.rounds n.0) ≤ 100000000) }
{
    let radius = radius_in(grid_style(), graph, n)?;
    Ok(radius as u32)
}

/// The radius of the marker of a node in a style.
fn radius_in(style: Style, graph: &LineGraph, n: NodeId) -> Result<u64, NoMemory>
    requires node { n.0 < length graph.now.kinds }
    requires lines { length graph.now.lines ≡ length graph.now.ends }
    ensures value { IfOk result (λ r. r ≡ radius_in style graph.now n.0) }
    ensures few { IfOk result (λ _. most_lines graph.now.lines (round_at graph.now.rounds n.0) ≤ 100000000) }
    ensures small { IfOk result (λ r. r ≤ 6553500065535) }
    ensures room { IsOk result ↔ (most_lines graph.now.lines (round_at graph.now.rounds n.0) ≤ 100000000) }
{
    let most = small_count(most_lines(graph, graph.round(n)))?;
    Ok(radius_with(style.radius_each, style.radius_more, most as u64))
}

/// The radius of a marker to which each line of the segment with the most adds so much, and something more is added once.
fn radius_with(each: u16, more: u16, most: u64) -> u64
    requires { most ≤ 100000000 }
    ensures value { result ≡ each * most + more }
    ensures small { result ≤ 6553500065535 }
{
    let lines = u64::from(each) * most;
    lines + u64::from(more)
}

/// How many lines the segment with the most has, of a round.
pub fn most_lines(graph: &LineGraph, round: &[SegId]) -> usize
    requires { length graph.now.lines ≡ length graph.now.ends }
    ensures { result ≡ most_lines graph.now.lines round.now }
{
    let mut most = 0;
    for s in round {
        most = most.max(lines_of(graph, s.0).len());
    }
    most
}
