//! Pictures by a certificate: the map with its names, the geographic map, and the poster.

ghost use Rattle.std.specs.Prelude.{◌≡◌, All, IfOk, Ok};
ghost use Rattle.line_graph.specs.Outcome.{graph_outcome};
ghost use Rattle.line_graph.specs.Rides.{KeepsLines};
ghost use Rattle.line_graph.specs.SegmentLines.{lines_outcome};
ghost use Rattle.geo_lines.specs.Courses.{IsCourse};
ghost use Rattle.graph_maps.specs.Readings.{certificate_in};
ghost use Rattle.graph_maps.specs.Checking.{Gives};
ghost use Rattle.map_engine.specs.Labelling.{labelled_by, pictured_items, IsLabelledMap};
ghost use Rattle.map_engine.specs.Geographic.{geographic_by, IsGeographicMap};
ghost use Rattle.map_engine.specs.Postering.{postered_items, IsPoster};

use crate::importance::line_numbers;
use crate::names::names_of;
use geo_map::geographic;
use graph_core::LineGraph;
use graph_maps::{checked_certificate, labels_from};
use line_calls::node_callers;
use map_base::{Point, Sequence, Settings};
use map_faults::CheckFault;
use map_method::Claim;
use poster_picture::poster;
use std::alloc::Global;
use transit_feed::Tables;

/// The map of a feed with the names of its stations at free places (SVG 1.1), by the line graph of its tables and a
/// certificate. All of the certificate is checked as `check_certificate` does, with the same refusals: so the map shows
/// exactly the line graph of the feed, in a legal drawing and with line orders of which the certificate proves what is
/// claimed.
pub fn labels_on_graph(
    alloc: Global,
    tables: &Tables,
    settings: &Settings,
    claim: Claim,
    graph: &LineGraph,
    certificate: &[u8],
) -> Result<Vec<u8>, CheckFault>
    requires graph { graph_outcome settings.now.near tables.now ≡ Ok graph.now }
    requires kept { KeepsLines settings.now.near tables.now graph.now }
    ensures outcome { Gives (λ map. map.items) result (pictured_items (labelled_by tables.now graph.now)
        tables.now settings.now claim graph.now (certificate_in certificate.now)) }
    ensures certified { IfOk result (λ map. IsLabelledMap tables.now settings.now claim map.items certificate.now) }
{
    let names = names_of(alloc, tables)?;
    let importance = line_numbers(alloc, tables, settings, graph)?;
    labels_from(
        alloc,
        graph,
        &names,
        importance.as_slice(),
        settings,
        claim,
        certificate,
    )
}

/// The map of a feed over the courses of its segments, as they lie in the plane (SVG 1.1), by the line graph of its
/// tables, these courses and a certificate. All of the certificate is checked as `check_certificate` does, with the
/// same refusals: so the map shows exactly the line graph of the feed, with line orders of which the certificate proves
/// what is claimed.
pub fn geo_on_graph(
    alloc: Global,
    tables: &Tables,
    settings: &Settings,
    claim: Claim,
    graph: &LineGraph,
    lines: &[Sequence<Point>],
    certificate: &[u8],
) -> Result<Vec<u8>, CheckFault>
    requires graph { graph_outcome settings.now.near tables.now ≡ Ok graph.now }
    requires kept { KeepsLines settings.now.near tables.now graph.now }
    requires lines { lines_outcome settings.now.near tables.now ≡ Ok lines.now }
    requires courses { All IsCourse lines.now }
    ensures outcome { Gives (λ map. map.items) result (pictured_items (geographic_by tables.now graph.now lines.now)
        tables.now settings.now claim graph.now (certificate_in certificate.now)) }
    ensures certified { IfOk result (λ map. IsGeographicMap tables.now settings.now claim map.items certificate.now) }
{
    let names = names_of(alloc, tables)?;
    let importance = line_numbers(alloc, tables, settings, graph)?;
    let checked = checked_certificate(
        alloc,
        graph,
        importance.as_slice(),
        settings,
        claim,
        certificate,
    )?;
    Ok(geographic(alloc, graph, &names, lines, &checked.orders)?)
}

/// The poster of a feed (SVG 1.1), by the line graph of its tables and a certificate. All of the certificate is checked
/// as `check_certificate` does, with the same refusals: so the poster shows exactly the line graph of the feed, in a
/// legal drawing and with line orders of which the certificate proves what is claimed.
pub fn poster_on_graph(
    alloc: Global,
    tables: &Tables,
    settings: &Settings,
    claim: Claim,
    graph: &LineGraph,
    certificate: &[u8],
) -> Result<Vec<u8>, CheckFault>
    requires graph { graph_outcome settings.now.near tables.now ≡ Ok graph.now }
    requires kept { KeepsLines settings.now.near tables.now graph.now }
    ensures outcome { Gives (λ map. map.items) result
        (postered_items tables.now settings.now claim graph.now (certificate_in certificate.now)) }
    ensures certified { IfOk result (λ map. IsPoster tables.now settings.now claim map.items certificate.now) }
{
    let names = names_of(alloc, tables)?;
    let importance = line_numbers(alloc, tables, settings, graph)?;
    let checked = checked_certificate(
        alloc,
        graph,
        importance.as_slice(),
        settings,
        claim,
        certificate,
    )?;
    let callers = node_callers(alloc, tables, graph)?;
    Ok(poster(
        alloc,
        graph,
        &names,
        &checked.drawing,
        &checked.orders,
        &callers,
    )?)
}
