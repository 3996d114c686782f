//! The check of a map of a line graph and its certificate.

ghost use Rattle.std.specs.Prelude.{◌≡◌, ◌<◌, ◌^◌, length, All, IfOk, Ok};
ghost use Rattle.map_base.specs.Settings.{IsImportance};
ghost use Rattle.graph_core.specs.Consistent.{IsConsistent};
ghost use Rattle.order_model.specs.Costs.{cost_of, AreOrders};
ghost use Rattle.order_check.specs.Verdict.{targets};
ghost use Rattle.order_check.specs.LowerBounds.{IsLowerBound};
ghost use Rattle.order_proof.specs.Plain.{plain_proof};
ghost use Rattle.cert_file.specs.Plain.{plain as certificate_of};
ghost use Rattle.cert_file.specs.Ranges.{IsInRange};
ghost use Rattle.graph_maps.specs.Subjects.{told_by, AreListed};
ghost use Rattle.graph_maps.specs.Readings.{certificate_in};
ghost use Rattle.graph_maps.specs.Checking.{accepted_items, accepted_map, accepted_text, accepted_walks, certificate_on, checked_bytes, held_by, unless_costlier, Gives};
ghost use Rattle.graph_maps.specs.Promises.{IsAcceptedOn, IsCertifiedOn, IsClaimed, ShowsAccepted};

use crate::checked::{Checked, CheckedMap, Proved};
use crate::drawn_lines::{drawn_lines, line_total, weighty_lines};
use crate::items::{are_same_pairs, first_disorder};
use cert_file::{Certificate, read_certificate};
use graph_core::LineGraph;
use map_base::Settings;
use map_faults::{CheckFault, CheckItem};
use map_method::Claim;
use octi_grid::{Drawing, check_drawing};
use order_check::{check_bound, check_proof};
use order_model::{Problem, cost_by_tables};
use order_proof::Proof;
use order_terms::terms_of;
use order_values::Orders;
use std::alloc::Global;
use svg_writer::{Names, picture};

/// What a certificate proves of the line orders of a line graph, and the picture that is due. The items are checked in
/// order: the certificate's text; the counts of the line graph; the importance of lines; the walks; the orders; their
/// cost; the proof that none cost less than the sum of its targets, and that this is their cost where best orders are
/// claimed. The first item that is refused is named. Whoever made the certificate isn't trusted.
pub fn check_from(
    alloc: Global,
    graph: &LineGraph,
    names: &Names,
    importance: &[u32],
    settings: &Settings,
    claim: Claim,
    certificate: &[u8],
) -> Result<Checked, CheckFault>
    requires numbers { All IsImportance importance.now }
    requires lines { AreListed importance.now graph.now }
    requires few { length importance.now < 2 ^ 32 }
    ensures outcome { Gives checked_bytes result
        (certificate_on (told_by names.now importance.now) settings.now claim graph.now
        (certificate_in certificate.now)) }
    ensures certified { IfOk result (λ checked. IsCertifiedOn
        (told_by names.now importance.now) settings.now claim graph.now checked.svg.items certificate.now
        checked.proved) }
{
    let checked = checked_certificate(alloc, graph, importance, settings, claim, certificate)?;
    let svg = picture(alloc, graph, names, &checked.drawing, &checked.orders)?;
    Ok(Checked {
        proved: checked.proved,
        svg,
    })
}

/// The drawing and the line orders of a certificate that is accepted, from which pictures are made, and what it proves.
/// It is refused as `check_from` does.
pub fn checked_certificate(
    alloc: Global,
    graph: &LineGraph,
    importance: &[u32],
    settings: &Settings,
    claim: Claim,
    certificate: &[u8],
) -> Result<CheckedMap, CheckFault>
    requires numbers { All IsImportance importance.now }
    requires lines { AreListed importance.now graph.now }
    requires few { length importance.now < 2 ^ 32 }
    ensures outcome { Gives accepted_map result
        (accepted_text held_by importance.now settings.now claim graph.now (certificate_in certificate.now)) }
    ensures accepted { IfOk result (λ checked. IsAcceptedOn importance.now settings.now claim graph.now certificate.now
        (accepted_map checked)) }
{
    let read = read_certificate(alloc, certificate)?;
    check_items(alloc, graph, importance, settings, claim, read)
}

/// The items of a certificate that was read.
fn check_items(
    alloc: Global,
    graph: &LineGraph,
    importance: &[u32],
    settings: &Settings,
    claim: Claim,
    certificate: Certificate,
) -> Result<CheckedMap, CheckFault>
    requires numbers { All IsImportance importance.now }
    requires lines { AreListed importance.now graph.now }
    requires few { length importance.now < 2 ^ 32 }
    requires range { IsInRange (certificate_of certificate) }
    ensures outcome { Gives accepted_map result
        (accepted_items importance.now settings.now claim graph.now (certificate_of certificate)
        (held_by (certificate_of certificate))) }
    ensures accepted { IfOk result (λ checked. ShowsAccepted importance.now settings.now claim graph.now
        (certificate_of certificate) (accepted_map checked)) }
{
    let nodes = graph.nodes();
    let lines = drawn_lines(alloc, graph, line_total(importance))?;
    if certificate.nodes != nodes
        || certificate.segs != graph.segs()
        || certificate.lines as usize != lines.len()
    {
        return Err(CheckFault::Refuted(CheckItem::Graph));
    }
    let weighty = weighty_lines(alloc, lines.as_slice(), importance)?;
    if !are_same_pairs(weighty.as_slice(), certificate.importance.as_slice()) {
        return Err(CheckFault::Refuted(CheckItem::Importance));
    }
    check_walks(alloc, graph, importance, settings, claim, certificate)
}

/// The items of a certificate from its walks on: the walks, the orders, what these cost, and the proof of what none
/// cost less than.
fn check_walks(
    alloc: Global,
    graph: &LineGraph,
    importance: &[u32],
    settings: &Settings,
    claim: Claim,
    certificate: Certificate,
) -> Result<CheckedMap, CheckFault>
    requires fits { IsConsistent graph.now }
    requires numbers { All IsImportance importance.now }
    requires lines { AreListed importance.now graph.now }
    requires range { IsInRange (certificate_of certificate) }
    requires segs { certificate.segs ≡ length graph.now.ends }
    ensures outcome { Gives accepted_map result
        (accepted_walks importance.now settings.now claim graph.now (certificate_of certificate)
        (held_by (certificate_of certificate))) }
    ensures accepted { IfOk result (λ checked. ShowsAccepted importance.now settings.now claim graph.now
        (certificate_of certificate) (accepted_map checked)) }
{
    let drawing = Drawing {
        walks: certificate.walks,
    };
    check_drawing(alloc, graph, &drawing)?;
    let orders = certificate.orders;
    if let Some(seg) = first_disorder(graph, orders.lists.as_slice()) {
        return Err(CheckFault::Refuted(CheckItem::Order { seg }));
    }
    let problem = terms_of(alloc, graph, &settings.weights, importance)?;
    let cost = certificate.cost;
    let bound = check_orders(alloc, problem, &orders, claim, cost, certificate.proof)?;
    Ok(CheckedMap {
        drawing,
        orders,
        proved: Proved { cost, bound },
    })
}

/// Whether orders cost so much, and the proof shows what is claimed: then it answers what no orders cost less than.
fn check_orders(
    alloc: Global,
    problem: Problem,
    orders: &Orders,
    claim: Claim,
    cost: u64,
    proof: Proof,
) -> Result<u64, CheckFault>
    requires { AreOrders problem.segs orders.now.lists }
    ensures outcome { Gives (λ bound. bound) result
        (unless_costlier claim problem orders.now.lists cost (plain_proof proof)
        (Ok (targets (plain_proof proof).parts))) }
    ensures cost { IfOk result (λ _. cost_of problem.terms orders.now.lists ≡ cost) }
    ensures bound { IfOk result (IsLowerBound problem.segs problem.terms) }
    ensures claimed { IfOk result (λ bound. IsClaimed claim (record { cost = cost; bound = bound })) }
{
    if cost != cost_by_tables(alloc, &problem, orders)? {
        return Err(CheckFault::Refuted(CheckItem::Cost));
    }
    match claim {
        Claim::Best => {
            check_proof(alloc, problem, orders, &proof)?;
            Ok(cost)
        }
        Claim::Bound => Ok(check_bound(alloc, problem, &proof)?),
    }
}
