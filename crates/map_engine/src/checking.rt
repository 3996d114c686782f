//! The check of a map of a feed and its certificate.

ghost use Rattle.std.specs.Prelude.{◌≡◌, IfOk, Ok};
ghost use Rattle.line_graph.specs.Outcome.{graph_outcome};
ghost use Rattle.line_graph.specs.Rides.{KeepsLines};
ghost use Rattle.graph_maps.specs.Readings.{certificate_in};
ghost use Rattle.graph_maps.specs.Checking.{checked_bytes, Gives};
ghost use Rattle.map_engine.specs.Checking.{certificate_outcome, check_outcome, checked_text};
ghost use Rattle.map_engine.specs.Promises.{IsCertified, ShowsLineGraph};

use crate::importance::line_numbers;
use crate::names::names_of;
use graph_core::LineGraph;
use graph_maps::{Checked, Proved, check_from, first_difference};
use line_graph::build;
use map_base::Settings;
use map_faults::{CheckFault, CheckItem};
use map_method::Claim;
use std::alloc::Global;
use transit_feed::Tables;

/// Whether a map and its certificate show exactly the line graph of a feed, in a legal drawing and with line orders of
/// which the certificate proves what is claimed: then it answers what they cost, and what none cost less than. The
/// items are checked in order: the certificate's text; the counts of the line graph; the importance of lines; the
/// walks; the orders; their cost; the proof that none cost less than the sum of its targets, and that this is their
/// cost where best orders are claimed; last the map, byte by byte. The first item that is refused is named. Whoever
/// made map and certificate isn't trusted.
pub fn check(
    alloc: Global,
    tables: &Tables,
    settings: &Settings,
    claim: Claim,
    svg: &[u8],
    certificate: &[u8],
) -> Result<Proved, CheckFault>
    ensures outcome { Gives (λ proved. proved) result
        (check_outcome tables.now settings.now claim svg.now (certificate_in certificate.now)) }
    ensures certified { IfOk result (λ proved. IsCertified tables.now settings.now claim svg.now certificate.now
        proved) }
    ensures shown { IfOk result (λ proved. ShowsLineGraph tables.now settings.now claim svg.now proved) }
{
    let checked = check_certificate(alloc, tables, settings, claim, certificate)?;
    match first_difference(checked.svg.as_slice(), svg) {
        None => Ok(checked.proved),
        Some(at) => Err(CheckFault::Refuted(CheckItem::Picture { at: at as u64 })),
    }
}

/// What a certificate proves of a feed's line orders, and the picture that is due; every item of the check but the map.
pub fn check_certificate(
    alloc: Global,
    tables: &Tables,
    settings: &Settings,
    claim: Claim,
    certificate: &[u8],
) -> Result<Checked, CheckFault>
    ensures outcome { Gives checked_bytes result
        (certificate_outcome tables.now settings.now claim (certificate_in certificate.now)) }
    ensures certified { IfOk result (λ checked. IsCertified tables.now settings.now claim checked.svg.items
        certificate.now checked.proved) }
    ensures shown { IfOk result (λ checked. ShowsLineGraph tables.now settings.now claim checked.svg.items
        checked.proved) }
{
    let graph = build(alloc, tables, settings)?;
    check_on_graph(alloc, tables, settings, claim, &graph, certificate)
}

/// `check_certificate`, by the line graph of the tables, where that is known.
pub fn check_on_graph(
    alloc: Global,
    tables: &Tables,
    settings: &Settings,
    claim: Claim,
    graph: &LineGraph,
    certificate: &[u8],
) -> Result<Checked, CheckFault>
    requires graph { graph_outcome settings.now.near tables.now ≡ Ok graph.now }
    requires kept { KeepsLines settings.now.near tables.now graph.now }
    ensures outcome { Gives checked_bytes result
        (checked_text tables.now settings.now claim graph.now (certificate_in certificate.now)) }
    ensures certified { IfOk result (λ checked. IsCertified tables.now settings.now claim checked.svg.items
        certificate.now checked.proved) }
    ensures shown { IfOk result (λ checked. ShowsLineGraph tables.now settings.now claim checked.svg.items
        checked.proved) }
{
    let names = names_of(alloc, tables)?;
    let importance = line_numbers(alloc, tables, settings, graph)?;
    check_from(
        alloc,
        graph,
        &names,
        importance.as_slice(),
        settings,
        claim,
        certificate,
    )
}
