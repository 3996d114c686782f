//! The value of prices, and whether a stop holds.

ghost use Rattle.std.specs.Prelude.{◌≡◌, ◌<◌, ◌^◌, ◌≤ℤ◌, ◌+ℤ◌, ◌-ℤ◌, pos, length, true, Some, IfOk};
ghost use Rattle.order_values.specs.PriceLists.{price_at, AreRisingPrices};
ghost use Rattle.dual_bound.specs.Values.{value_of};
ghost use Rattle.dual_bound.specs.Accepting.{shows, is_stopped};
ghost use Rattle.dual_check.specs.Asking.{IsAsked, HasRoomFor, question_of};
ghost use Rattle.dual_check.specs.Settling.{pairs_of};
ghost use Rattle.dual_check.specs.Nodes.{IsNode, AreAsBefore, share_at};

use crate::asked::Asked;
use crate::node::{KnownShare, Node};
use crate::prices::are_allowed;
use crate::solver::Solver;
use map_base::NoMemory;

/// Whether a stop holds with these prices at a node.
#[inline(never)]
pub(crate) fn is_stopped(
    asked: &Asked,
    node: &mut Node,
    solver: &mut Solver,
    prices: &[(u32, i64)],
) -> Result<bool, NoMemory>
    requires asked { IsAsked asked.now }
    requires node { IsNode asked.now node.old }
    requires room { HasRoomFor asked.now solver.old }
    requires rising { AreRisingPrices prices.now }
    ensures holds { IfOk result (λ holds. holds ≡ is_stopped (question_of asked.now) (pairs_of node.old.settled.items) prices.now) }
    ensures settled { IfOk result (λ _. node.new.settled.items ≡ node.old.settled.items) }
    ensures node { IfOk result (λ _. IsNode asked.now node.new) }
    ensures room { HasRoomFor asked.now solver.new }
{
    if !asked.narrow || !are_allowed(asked, prices) {
        return Ok(false);
    }
    node.take_prices(asked, prices)?;
    match value(asked, node, solver) {
        None => Ok(true),
        Some(value) => Ok(shows(asked.target, value)),
    }
}

/// Whether a value shows the target.
fn shows(target: u64, value: i128) -> bool
    ensures { result ≡ shows target (Some value) }
{
    value > 1000 * (i128::from(target) - 1)
}

/// The sum of the least shares of the part's segments at a node, none where one has none.
fn value(asked: &Asked, node: &mut Node, solver: &mut Solver) -> Option<i128>
    requires asked { IsAsked asked.now }
    requires narrow { asked.now.narrow ≡ true }
    requires node { IsNode asked.now node.old }
    requires room { HasRoomFor asked.now solver.old }
    ensures value { result ≡ value_of asked.now.problem.now.segs (question_of asked.now).terms (price_at node.old.prices.items) (pairs_of node.old.settled.items) asked.now.part.now }
    ensures same { AreAsBefore node.old node.new }
    ensures node { IsNode asked.now node.new }
    ensures room { HasRoomFor asked.now solver.new }
{
    let mut total: i128 = 0;
    for k in (0..asked.part.len()).rev() {
        match share_at(asked, k, node, solver) {
            None => return None,
            Some(share) => total = with_share(total, share),
        }
    }
    Some(total)
}

/// A sum of shares with one more.
fn with_share(total: i128, share: i64) -> i128
    requires low { (pos 0 -ℤ pos (2 ^ 100)) ≤ℤ total }
    requires high { total ≤ℤ pos (2 ^ 100) }
    ensures sum { result ≡ total +ℤ share }
    ensures low { (total -ℤ pos (2 ^ 63)) ≤ℤ result }
    ensures high { result ≤ℤ (total +ℤ pos (2 ^ 63)) }
{
    total + i128::from(share)
}

/// The least share of a segment of the part at a node; it is known from then on.
fn share_at(asked: &Asked, k: usize, node: &mut Node, solver: &mut Solver) -> Option<i64>
    requires asked { IsAsked asked.now }
    requires narrow { asked.now.narrow ≡ true }
    requires known { k < length asked.now.part.now }
    requires node { IsNode asked.now node.old }
    requires room { HasRoomFor asked.now solver.old }
    ensures share { result ≡ share_at asked.now node.old.settled.items node.old.prices.items k }
    ensures same { AreAsBefore node.old node.new }
    ensures node { IsNode asked.now node.new }
    ensures room { HasRoomFor asked.now solver.new }
{
    match node.shares[k] {
        KnownShare::NoOrder => None,
        KnownShare::Least(share) => Some(share),
        KnownShare::Unknown => {
            let settled = node.settled.as_slice();
            let share = solver.least_share(asked, k, settled, node.prices.as_slice());
            node.keep(asked, k, share);
            share
        }
    }
}
