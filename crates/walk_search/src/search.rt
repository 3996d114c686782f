//! The search for the least costs to the ends.

ghost use Rattle.std.specs.Prelude.{◌≡◌, ℕ, ◌+◌, ◌<◌, ◌↔◌, [], Some, None, true, IsTrue, IfOk, IfSome, IfNone, OnOk, length, replicate};
ghost use Rattle.state_search.specs.Searching.{IsSearchedUpTo, known_at, lesser_limit};
ghost use Rattle.walk_search.specs.Spots.{spots_of};
ghost use Rattle.walk_search.specs.Asking.{question};
ghost use Rattle.walk_search.specs.Moves.{space_of};
ghost use Rattle.walk_search.specs.Enclosed.{IsShutIn};

use crate::asked::Asked;
use crate::enclosed::is_shut_in;
use crate::offers::{offer_back, offer_ends};
use map_base::NoMemory;
use state_search::{Known, Queue};
use std::alloc::Global;

/// After how many rounds a search looks whether the start is shut in.
const FEW_ROUNDS: u32 = 512;

/// Notes, where nothing is known, the least costs at which the ends can be reached, as far as they can lie on a walk
/// no dearer than the least, and no dearer than a limit, if there is one. The search goes from the ends backwards and ends
/// where what waits can only be dearer.
pub(crate) fn note_costs(
    alloc: Global,
    asked: &Asked,
    known: &mut Known,
    limit: Option<u64>,
) -> Result<(), NoMemory>
    requires { known.old ≡ replicate (spots_of (question asked.now).board.bounds + 1) None }
    ensures searched { OnOk result (IsSearchedUpTo limit (space_of (question asked.now)) (spots_of (question asked.now).board.bounds) known.new) }
    ensures each { OnOk result (length known.new ≡ spots_of (question asked.now).board.bounds + 1) }
{
    let mut queue = Queue::new(alloc);
    search(alloc, asked, known, &mut queue, limit)
}

/// The same, with a queue in which nothing waits.
fn search(
    alloc: Global,
    asked: &Asked,
    known: &mut Known,
    queue: &mut Queue,
    limit: Option<u64>,
) -> Result<(), NoMemory>
    requires nothing_known { known.old ≡ replicate (spots_of (question asked.now).board.bounds + 1) None }
    requires nothing_waits { queue.old ≡ [] }
    ensures searched { OnOk result (IsSearchedUpTo limit (space_of (question asked.now)) (spots_of (question asked.now).board.bounds) known.new) }
    ensures each { OnOk result (length known.new ≡ spots_of (question asked.now).board.bounds + 1) }
{
    let before = asked.before();
    offer_ends(asked, known, queue)?;
    let mut rounds = 0u32;
    while let Some((estimate, at)) = queue.next(lesser(known.of(before), limit)) {
        if is_in_vain(alloc, asked, rounds)? {
            return Ok(());
        }
        rounds = rounds.saturating_add(1);
        if let Some(cost) = fresh_cost(asked, known, estimate, at) {
            offer_back(asked, at, cost, known, queue)?;
        }
    }
    Ok(())
}

/// The lesser of two limits, as far as there are any.
fn lesser(a: Option<u64>, b: Option<u64>) -> Option<u64>
    ensures { result ≡ lesser_limit a b }
{
    match a {
        None => b,
        Some(first) => match b {
            None => a,
            Some(second) => Some(first.min(second)),
        },
    }
}

/// Whether, after so many rounds, the start is found to be shut in.
fn is_in_vain(alloc: Global, asked: &Asked, rounds: u32) -> Result<bool, NoMemory>
    ensures { IfOk result (λ in_vain. in_vain ≡ true → IsShutIn (question asked.now)) }
{
    if rounds != FEW_ROUNDS {
        return Ok(false);
    }
    is_shut_in(alloc, asked)
}

/// The known cost of a spot, if it makes this estimate.
fn fresh_cost(asked: &Asked, known: &Known, estimate: u64, at: u32) -> Option<u64>
    requires at { at < spots_of (question asked.now).board.bounds + 1 }
    requires each { length known.now ≡ spots_of (question asked.now).board.bounds + 1 }
    ensures some { IfSome result (λ cost. (known_at known.now at ≡ Some cost) × (estimate ≡ cost + (space_of (question asked.now)).ahead at)) }
    ensures none { IfNone result ((k : ℕ) → known_at known.now at ≡ Some k → estimate ≡ k + (space_of (question asked.now)).ahead at → ⊥) }
{
    let cost = known.of(at)?;
    if is_sum(estimate, cost, ahead_of(asked, at)) {
        Some(cost)
    } else {
        None
    }
}

/// What it costs at least to come to the spot of a number.
fn ahead_of(asked: &Asked, at: u32) -> u64
    requires at { at < spots_of (question asked.now).board.bounds + 1 }
    ensures { result ≡ (space_of (question asked.now)).ahead at }
{
    match asked.spot_of(at) {
        None => 0,
        Some(spot) => asked.ahead_at(spot.at, spot.arrival),
    }
}

/// Whether a number is the sum of two others.
pub(crate) fn is_sum(whole: u64, first: u64, second: u64) -> bool
    ensures { IsTrue result ↔ (whole ≡ first + second) }
{
    first <= whole && whole - first == second
}
