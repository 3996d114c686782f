//! The drawing of a line graph: routes at the first attempt at which every segment has one.

ghost use Rattle.std.specs.Prelude.{◌≡◌, ◌≤◌, length, true, false, IfOk, IfErr, Ok};
ghost use Rattle.std.specs.List.{AllByRecursion};
ghost use Rattle.graph_core.specs.Consistent.{IsConsistent};
ghost use Rattle.octi_grid.specs.Legal.{legal};
ghost use Rattle.grid_board.specs.Points.{are_near};
ghost use Rattle.map_method.specs.Methods.{IsSpread};
ghost use Rattle.start_positions.specs.Cells.{is_too_fine};
ghost use Rattle.segment_router.specs.Orders.{routing_order};
ghost use Rattle.segment_router.specs.Routing.{first_drawn, nothing_drawn, outcome_of, route_outcome, routes_at, HasCause, IsAttempt};
ghost use Rattle.start_positions.specs.Cells.{limit_of};
ghost use Rattle.start_positions.specs.Spreads.{places_of};

use crate::attempts::{Attempt, attempts_of};
use crate::fault::RouteFault;
use crate::order::routing_order;
use crate::routing::routes_from;
use graph_core::LineGraph;
use map_base::{NoMemory, SegId, Sequence};
use map_method::DrawingPlan;
use octi_grid::{Drawing, Walk};
use start_positions::{Place, cells_over, place_spread, places_of};
use std::alloc::Global;

/// The routes of a line graph's segments, one after another, at the first attempt at which every segment has a free walk.
/// The grids have those of the finenesses 1, 2, 4, 8 and 16 that lie between the plan's coarsest and its finest, and on each
/// one nodes are spread as the plan says, before the next one. The drawing is legal, has one walk for each segment, and lies
/// within 1,800 grid steps of the origin either way. A fault is the limit of cells, or the first segment that has no free
/// walk at the last attempt.
pub fn route(alloc: Global, graph: &LineGraph, plan: DrawingPlan) -> Result<Drawing, RouteFault>
    requires { IsSpread plan.spread }
    ensures drawing { IfOk result (λ d. route_outcome graph.now plan ≡ Ok d.walks) }
    ensures cause { IfErr result (λ fault. HasCause (route_outcome graph.now plan) fault) }
    ensures legal { IfOk result (λ d. legal graph.now d.walks ≡ true) }
    ensures each { IfOk result (λ d. length d.walks ≡ length graph.now.ends) }
    ensures near { IfOk result (λ d. are_near 1800 d.walks ≡ true) }
{
    let attempts = attempts_of(alloc, plan)?;
    draw(alloc, graph, plan.cell, &attempts)
}

/// The same for any attempts, on cells of this side.
fn draw(
    alloc: Global,
    graph: &LineGraph,
    cell: u32,
    attempts: &[Attempt],
) -> Result<Drawing, RouteFault>
    requires { AllByRecursion IsAttempt attempts.now }
    ensures drawing { IfOk result (λ d. outcome_of graph.now cell attempts.now ≡ Ok d.walks) }
    ensures cause { IfErr result (λ fault. HasCause (outcome_of graph.now cell attempts.now) fault) }
    ensures legal { IfOk result (λ d. legal graph.now d.walks ≡ true) }
    ensures each { IfOk result (λ d. length d.walks ≡ length graph.now.ends) }
    ensures near { IfOk result (λ d. are_near 1800 d.walks ≡ true) }
{
    if let Some(limit) = cells_over(graph, cell) {
        return Err(RouteFault::Limit(limit));
    }
    let order = routing_order(alloc, graph)?;
    let places = places_of(alloc, graph)?;
    match first_drawn(alloc, graph, &order, cell, &places, attempts)? {
        Ok(walks) => Ok(Drawing { walks }),
        Err(seg) => Err(RouteFault::NoRoute { seg }),
    }
}

/// The walks of the first attempt at which every segment has a free walk; where there is none, the first segment without
/// one at the last attempt.
fn first_drawn(
    alloc: Global,
    graph: &LineGraph,
    order: &[SegId],
    cell: u32,
    places: &[Place],
    attempts: &[Attempt],
) -> Result<Result<Sequence<Walk>, SegId>, NoMemory>
    requires graph { IsConsistent graph.now }
    requires order { order.now ≡ routing_order graph.now.lines }
    requires cell { is_too_fine graph.now.places cell ≡ false }
    requires places { places.now ≡ places_of graph.now.places }
    requires attempts { AllByRecursion IsAttempt attempts.now }
    ensures { IfOk result (λ outcome. outcome ≡ first_drawn graph.now cell nothing_drawn attempts.now) }
{
    let mut outcome = Err(SegId(0));
    for attempt in attempts {
        if outcome.is_ok() {
            return Ok(outcome);
        }
        outcome = routes_at(alloc, graph, order, cell, places, *attempt)?;
    }
    Ok(outcome)
}

/// The walks of an attempt, or the first segment without one.
fn routes_at(
    alloc: Global,
    graph: &LineGraph,
    order: &[SegId],
    cell: u32,
    places: &[Place],
    attempt: Attempt,
) -> Result<Result<Sequence<Walk>, SegId>, NoMemory>
    requires graph { IsConsistent graph.now }
    requires order { order.now ≡ routing_order graph.now.lines }
    requires cell { is_too_fine graph.now.places cell ≡ false }
    requires places { places.now ≡ places_of graph.now.places }
    requires attempt { IsAttempt attempt }
    ensures { IfOk result (λ outcome. outcome ≡ routes_at graph.now cell attempt) }
{
    let placing = place_spread(
        alloc,
        graph,
        cell,
        attempt.fineness,
        attempt.percent,
        places,
    )?;
    match routes_from(alloc, graph, order, &placing)? {
        Ok(walks) => Ok(Ok(Sequence::of(walks))),
        Err(seg) => Ok(Err(seg)),
    }
}
