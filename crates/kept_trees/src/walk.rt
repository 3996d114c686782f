//! The walk over nodes, depth first.

ghost use Rattle.std.specs.Prelude.{◌≡◌, ◌+◌, ◌≤◌, ◌∷◌, length, All, IfOk, IfErr};
ghost use Rattle.dual_ascent.specs.OwnNumbers.{listed};
ghost use Rattle.dual_ascent.specs.DualSteps.{AreWithin};
ghost use Rattle.dual_ascent.specs.OpenPairs.{OpenPair};
ghost use Rattle.dual_ascent.specs.LocalSearch.{after_offer};
ghost use Rattle.dual_ascent.specs.Walks.{walked, stopped, exact_prices, orders_left};
ghost use Rattle.dual_orders.specs.Values.{incumbent_of};
ghost use Rattle.dual_orders.specs.SettledPairs.{pairs_of, IsPairOn};
ghost use Rattle.dual_orders.specs.NextPairs.{IsForkAt};
ghost use Rattle.kept_trees.specs.Searching.{search_of, ascent_of, bound_of, progress_of, fork_at, counted, plain_walked, IsSearch, IsUnderWay, IsAscent, WalkIs, EndIs, IsForkOn};

use crate::ascent::{Ascent, LowerBound, first_ascent, is_shown};
use crate::rounds::{ascend, offer_trial};
use crate::under_way::{Progress, Search};
use crate::walked::{WalkedTree, listed};
use dual_bound::SettledPair;
use dual_orders::{Answers, next_pair, put_left};
use dual_rounds::{LineOrder, most_price, subgradient};
use map_base::{NoMemory, Steps};
use order_model::Problem;
use std::alloc::Global;
use std::sync::ledger::Ledger;

/// How many rounds a node below the root may have.
const NODE_ROUNDS: u32 = 200;

/// What becomes of a node after its rounds.
#[derive(Drop)]
pub(crate) enum NodeEnd {
    /// Its bound shows the incumbent's cost, or all pairs are settled.
    Stop(WalkedTree),
    /// This pair is settled next.
    Fork(SettledPair),
}

/// What becomes of a node after its rounds.
pub(crate) fn node_end(
    alloc: Global,
    search: &Search,
    now: &mut Progress,
    settled: &[SettledPair],
    ascent: &Ascent,
) -> Result<NodeEnd, NoMemory>
    requires search { IsSearch search.now }
    requires now { IsUnderWay search.now now.old }
    requires settled { All (IsPairOn search.now.part.problem.now.segs) settled.now }
    requires ascent { IsAscent search.now.part.problem.now ascent.now }
    ensures now { IsUnderWay search.now now.new }
    ensures branches { now.new.branches ≡ now.old.branches }
    ensures end { IfOk result (EndIs search.now.part.problem.now (pairs_of settled.now) (ascent_of now.old ascent.now) (progress_of now.new)) }
    ensures pair { IfOk result (IsForkOn search.now.part.problem.now.segs) }
{
    if is_shown(search, now, ascent) {
        let prices = listed(alloc, ascent.kept.as_slice())?;
        return Ok(NodeEnd::Stop(WalkedTree::Stopped { prices }));
    }
    let averages = ascent.averages.as_slice();
    match next_pair(&search.part, &mut now.solver, settled, averages) {
        Some(pair) => Ok(NodeEnd::Fork(pair)),
        None => Ok(NodeEnd::Stop(stop_at_orders(alloc, search, now, settled)?)),
    }
}

/// A node where all pairs are settled: the orders that are left are offered.
fn stop_at_orders(
    alloc: Global,
    search: &Search,
    now: &mut Progress,
    settled: &[SettledPair],
) -> Result<WalkedTree, NoMemory>
    requires search { IsSearch search.now }
    requires now { IsUnderWay search.now now.old }
    requires settled { All (IsPairOn search.now.part.problem.now.segs) settled.now }
    ensures now { IsUnderWay search.now now.new }
    ensures branches { now.new.branches ≡ now.old.branches }
    ensures stop { IfOk result (λ tree. plain_walked tree ≡ stopped (listed (exact_prices search.now.part.problem.now (orders_left search.now.part.problem.now (pairs_of settled.now))))) }
    ensures offered { IfOk result (λ _. incumbent_of now.new.incumbent ≡ after_offer search.now.part.problem.now (orders_left search.now.part.problem.now (pairs_of settled.now)) (incumbent_of now.old.incumbent)) }
{
    put_left(
        &search.part,
        &mut now.solver,
        settled,
        now.trial.as_mut_slice(),
    );
    let prices = exact_prices(alloc, search.part.problem, now.trial.as_slice())?;
    let prices = listed(alloc, prices.as_slice())?;
    offer_trial(search, now);
    Ok(WalkedTree::Stopped { prices })
}

/// Prices under which orders have 1000 times their cost as their shares.
fn exact_prices(
    alloc: Global,
    problem: &Problem,
    orders: &[LineOrder],
) -> Result<Vec<i64>, NoMemory>
    requires { length orders.now ≡ length problem.now.segs }
    ensures { IfOk result (λ prices. prices.items ≡ exact_prices problem.now orders.now) }
{
    let terms = problem.terms();
    let mut prices = Vec::with_capacity(alloc, terms.len())?;
    for term in terms {
        prices.push(i64::from(most_price(*term)) * subgradient(orders, *term))?;
    }
    Ok(prices)
}

/// A node and all below it, with room for so many forks on a way. None where the budget doesn't allow it.
#[cycle(walk)]
fn walk<L: Ledger>(
    alloc: Global,
    search: &Search,
    now: &mut Progress,
    room: u32,
    settled: &mut Vec<SettledPair>,
    prices: &[i64],
    steps: &mut Steps<L>,
) -> Result<Option<WalkedTree>, NoMemory>
    requires search { IsSearch search.now }
    requires now { IsUnderWay search.now now.old }
    requires settled { All (IsPairOn search.now.part.problem.now.segs) settled.old.items }
    requires prices { AreWithin search.now.part.problem.now.terms prices.now }
    ensures now { IsUnderWay search.now now.new }
    ensures settled { IfOk result (λ _. settled.new.items ≡ settled.old.items) }
    ensures walked { IfOk result (λ w. WalkIs w (progress_of now.new) (walked (search_of search.now) room 200 (pairs_of settled.old.items) prices.now (progress_of now.old))) }
    ensures few { IfErr result (λ _. now.new.branches ≤ counted (walked (search_of search.now) room 200 (pairs_of settled.old.items) prices.now (progress_of now.old))) }
    ensures steps { steps.new + now.old.branches ≡ steps.old + now.new.branches }
{
    let mut ascent = first_ascent(alloc, search, prices)?;
    let mut answers = Answers::none(alloc, &search.part)?;
    if !ascend(
        search,
        now,
        settled.as_slice(),
        NODE_ROUNDS,
        &mut ascent,
        &mut answers,
        steps,
    ) {
        return Ok(None);
    }
    match node_end(alloc, search, now, settled.as_slice(), &ascent)? {
        NodeEnd::Stop(tree) => Ok(Some(tree)),
        NodeEnd::Fork(pair) => {
            let bound = ascent.into_bound();
            fork(alloc, search, now, room, settled, pair, &bound, steps)
        }
    }
}

/// A fork at a pair: first with the one line before the other, then the other way round. None where no fork has room, or the
/// budget doesn't allow what lies below.
#[cycle(walk)]
pub(crate) fn fork<L: Ledger>(
    alloc: Global,
    search: &Search,
    now: &mut Progress,
    room: u32,
    settled: &mut Vec<SettledPair>,
    pair: SettledPair,
    bound: &LowerBound,
    steps: &mut Steps<L>,
) -> Result<Option<WalkedTree>, NoMemory>
    requires search { IsSearch search.now }
    requires now { IsUnderWay search.now now.old }
    requires settled { All (IsPairOn search.now.part.problem.now.segs) settled.old.items }
    requires pair { IsPairOn search.now.part.problem.now.segs pair }
    requires prices { AreWithin search.now.part.problem.now.terms bound.now.prices.items }
    ensures now { IsUnderWay search.now now.new }
    ensures settled { IfOk result (λ _. settled.new.items ≡ settled.old.items) }
    ensures walked { IfOk result (λ w. (c : OpenPair) → IsForkAt c pair
        → WalkIs w (progress_of now.new) (fork_at (search_of search.now) room c (bound_of bound.now) (pairs_of settled.old.items) (progress_of now.old))) }
    ensures few { IfErr result (λ _. (c : OpenPair) → IsForkAt c pair
        → now.new.branches ≤ counted (fork_at (search_of search.now) room c (bound_of bound.now) (pairs_of settled.old.items) (progress_of now.old))) }
    ensures steps { steps.new + now.old.branches ≡ steps.old + now.new.branches }
{
    if room == 0 {
        return Ok(None);
    }
    let Some(first) = walk_with(alloc, search, now, room - 1, settled, pair, bound, steps)? else {
        return Ok(None);
    };
    let back = turned(pair);
    let Some(second) = walk_with(alloc, search, now, room - 1, settled, back, bound, steps)? else {
        return Ok(None);
    };
    let prices = listed(alloc, bound.prices.as_slice())?;
    Ok(Some(WalkedTree::Forked {
        value: bound.value,
        prices,
        seg: pair.seg,
        a: pair.first,
        b: pair.second,
        first: Box::new(alloc, first)?,
        second: Box::new(alloc, second)?,
    }))
}

/// A node with one more pair settled, and all below it.
#[cycle(walk)]
fn walk_with<L: Ledger>(
    alloc: Global,
    search: &Search,
    now: &mut Progress,
    room: u32,
    settled: &mut Vec<SettledPair>,
    pair: SettledPair,
    bound: &LowerBound,
    steps: &mut Steps<L>,
) -> Result<Option<WalkedTree>, NoMemory>
    requires search { IsSearch search.now }
    requires now { IsUnderWay search.now now.old }
    requires settled { All (IsPairOn search.now.part.problem.now.segs) settled.old.items }
    requires pair { IsPairOn search.now.part.problem.now.segs pair }
    requires prices { AreWithin search.now.part.problem.now.terms bound.now.prices.items }
    ensures now { IsUnderWay search.now now.new }
    ensures settled { IfOk result (λ _. settled.new.items ≡ settled.old.items) }
    ensures walked { IfOk result (λ w. WalkIs w (progress_of now.new)
        (walked (search_of search.now) room 200 (pair ∷ pairs_of settled.old.items) bound.now.prices.items (progress_of now.old))) }
    ensures few { IfErr result (λ _. now.new.branches
        ≤ counted (walked (search_of search.now) room 200 (pair ∷ pairs_of settled.old.items) bound.now.prices.items (progress_of now.old))) }
    ensures steps { steps.new + now.old.branches ≡ steps.old + now.new.branches }
{
    settled.push(pair)?;
    let tree = walk(
        alloc,
        search,
        now,
        room,
        settled,
        bound.prices.as_slice(),
        steps,
    )?;
    settled.pop();
    Ok(tree)
}

/// The pair the other way round.
fn turned(pair: SettledPair) -> SettledPair
    ensures { result ≡ record { seg = pair.seg; first = pair.second; second = pair.first } }
{
    SettledPair {
        seg: pair.seg,
        first: pair.second,
        second: pair.first,
    }
}
