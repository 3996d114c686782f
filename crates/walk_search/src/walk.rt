//! The walk along known costs.

ghost use Rattle.std.specs.Prelude.{◌≡◌, ℕ, ◌+◌, ◌<◌, ◌≤◌, ◌↔◌, ◌∷◌, map, true, Some, IsTrue, IfOk, IfSome, IfNone, length};
ghost use Rattle.grid_board.specs.Boards.{is_inside};
ghost use Rattle.walk_search.specs.Spots.{spot_of, spots_of};
ghost use Rattle.state_search.specs.Searching.{IsSearched, known_at};
ghost use Rattle.walk_search.specs.Asking.{question};
ghost use Rattle.walk_search.specs.Moves.{IsMove, direction, move_of, space_of};
ghost use Rattle.walk_search.specs.Walked.{AreLabels, AreSteps, DifferBy, EndsAt, IsAnswer, IsLeastMove, IsPath, KeepsCost, StopsAt, walk_of_labels};

use crate::asked::Asked;
use crate::directions::direction;
use crate::search::is_sum;
use crate::spots::Spot;
use map_base::NoMemory;
use octi_grid::{GridPoint, Walk};
use state_search::Known;
use std::alloc::Global;

/// A move: its label, the number of the spot that it leads to, and what it costs.
#[derive(Clone, Copy, Debug)]
pub(crate) struct Move {
    pub label: u8,
    pub to: u32,
    pub cost: u64,
}

/// The walk along the known costs: each time by the least label that keeps to them, until it may end, first to a seat and
/// then step by step. None where no cost is known before a seat is chosen.
pub(crate) fn walk(alloc: Global, asked: &Asked, known: &Known) -> Result<Option<Walk>, NoMemory>
    requires { IsSearched (space_of (question asked.now)) (spots_of (question asked.now).board.bounds) known.now }
    ensures { IfOk result (IsAnswer (question asked.now)) }
{
    let labels = labels_along(alloc, asked, known)?;
    if labels.len() < 2 {
        return Ok(None);
    }
    Ok(Some(walk_by(alloc, asked, labels.as_slice())?))
}

/// The labels of the moves along the known costs.
fn labels_along(alloc: Global, asked: &Asked, known: &Known) -> Result<Vec<u8>, NoMemory>
    requires { IsSearched (space_of (question asked.now)) (spots_of (question asked.now).board.bounds) known.now }
    ensures { IfOk result (λ labels. AreLabels (question asked.now) known.now labels.items) }
{
    let mut labels = Vec::new(alloc);
    let mut at = asked.before();
    while let Some(step) = next_move(asked, known, at) {
        labels.push(step.label)?;
        at = step.to;
    }
    Ok(labels)
}

/// The move by the least label that keeps to the known costs; none where the walk may end or no move keeps to them.
fn next_move(asked: &Asked, known: &Known, at: u32) -> Option<Move>
    requires at { at < spots_of (question asked.now).board.bounds + 1 }
    requires each { length known.now ≡ spots_of (question asked.now).board.bounds + 1 }
    ensures least { IfSome result (λ step. IsLeastMove (question asked.now) known.now at step.label step.to) }
    ensures within { IfSome result (λ step. step.to < spots_of (question asked.now).board.bounds + 1) }
    ensures none { IfNone result (StopsAt (question asked.now) known.now at) }
{
    if ends_at(asked, known, at) {
        return None;
    }
    for label in 0..9 {
        if let Some(step) = kept_move(asked, known, at, label) {
            return Some(step);
        }
    }
    None
}

/// Whether the walk ends at a spot: its known cost is what it costs to end there.
fn ends_at(asked: &Asked, known: &Known, at: u32) -> bool
    requires at { at < spots_of (question asked.now).board.bounds + 1 }
    requires each { length known.now ≡ spots_of (question asked.now).board.bounds + 1 }
    ensures { IsTrue result ↔ EndsAt (question asked.now) known.now at }
{
    match asked.spot_of(at) {
        None => false,
        Some(spot) => are_known(known.of(at), asked.end_cost(spot)),
    }
}

/// Whether two costs are known and are the same.
fn are_known(a: Option<u64>, b: Option<u64>) -> bool
    ensures { IsTrue result ↔ ((k : ℕ) × (a ≡ Some k) × (b ≡ Some k)) }
{
    match a {
        None => false,
        Some(first) => b == Some(first),
    }
}

/// The move by a label, if it keeps to the known costs.
fn kept_move(asked: &Asked, known: &Known, at: u32, label: u8) -> Option<Move>
    requires at { at < spots_of (question asked.now).board.bounds + 1 }
    requires each { length known.now ≡ spots_of (question asked.now).board.bounds + 1 }
    ensures some { IfSome result (λ step. (step.label ≡ label) × KeepsCost (question asked.now) known.now at label step.to) }
    ensures within { IfSome result (λ step. step.to < spots_of (question asked.now).board.bounds + 1) }
    ensures none { IfNone result ((to : ℕ) → KeepsCost (question asked.now) known.now at label to → ⊥) }
{
    let step = move_by(asked, at, label)?;
    if differ_by(known.of(at), known.of(step.to), step.cost) {
        Some(step)
    } else {
        None
    }
}

/// The move by a label.
fn move_by(asked: &Asked, at: u32, label: u8) -> Option<Move>
    requires at { at < spots_of (question asked.now).board.bounds + 1 }
    ensures some { IfSome result (λ step. (step.label ≡ label) × IsMove (question asked.now) at label step.to step.cost) }
    ensures within { IfSome result (λ step. step.to < spots_of (question asked.now).board.bounds + 1) }
    ensures none { IfNone result ((to cost : ℕ) → IsMove (question asked.now) at label to cost → ⊥) }
{
    let (landing, cost) = landing_of(asked, at, label)?;
    Some(Move {
        label,
        to: asked.number_of(landing),
        cost,
    })
}

/// Where a label leads to from the spot of a number, and at what cost.
fn landing_of(asked: &Asked, at: u32, label: u8) -> Option<(Spot, u64)>
    requires at { at < spots_of (question asked.now).board.bounds + 1 }
    ensures { result ≡ move_of (question asked.now) (spot_of (question asked.now).board.bounds at) label }
{
    match asked.spot_of(at) {
        None => asked.chosen_seat(label),
        Some(spot) => asked.stepped(spot, label),
    }
}

/// Whether two costs are known, and the one is greater than the other by this much.
fn differ_by(greater: Option<u64>, lesser: Option<u64>, by: u64) -> bool
    ensures { IsTrue result ↔ DifferBy greater lesser by }
{
    match greater {
        None => false,
        Some(whole) => match lesser {
            None => false,
            Some(rest) => is_sum(whole, by, rest),
        },
    }
}

/// The walk of the labels of a path: the place of its start in the list of starts, and the numbers of its directions.
fn walk_by(alloc: Global, asked: &Asked, labels: &[u8]) -> Result<Walk, NoMemory>
    requires path { IsPath (question asked.now) labels.now }
    requires long { 2 ≤ length labels.now }
    ensures { IfOk result (λ walk. walk ≡ walk_of_labels (question asked.now) labels.now) }
{
    let start = asked.start(labels[0]);
    walk_from(alloc, asked, start, labels[1], &labels[2..])
}

/// The walk from a point by the numbers of its directions.
fn walk_from(
    alloc: Global,
    asked: &Asked,
    start: GridPoint,
    first: u8,
    rest: &[u8],
) -> Result<Walk, NoMemory>
    requires start { is_inside (question asked.now).board start ≡ true }
    requires steps { AreSteps (question asked.now) start (first ∷ rest.now) }
    ensures { IfOk result (λ walk. walk ≡ record { start = start; steps = map direction (first ∷ rest.now) }) }
{
    let mut walk = Walk::of_step(alloc, start, direction(first))?;
    for label in rest {
        walk.push(direction(*label))?;
    }
    Ok(walk)
}
