//! The search by dual prices over a part by itself.

ghost use Rattle.std.specs.Prelude.{◌≡◌, ◌+◌, ◌^◌, ◌<◌, ◌≤◌, true, false, length, IfOk, IfErr};
ghost use Rattle.order_values.specs.DualTrees.{stop};
ghost use Rattle.dual_bound.specs.Accepting.{most_load};
ghost use Rattle.dual_ascent.specs.DualResults.{is_in_reach, rounded_up, collapsed, dual_result};
ghost use Rattle.dual_ascent.specs.OwnNumbers.{listed};
ghost use Rattle.dual_ascent.specs.LocalSearch.{first_incumbent};
ghost use Rattle.dual_ascent.specs.Shown.{IsShown};
ghost use Rattle.kept_trees.specs.Finding.{result_found};
ghost use Rattle.kept_trees.specs.Searching.{IsSearch, IsUnderWay, plain_walked};
ghost use Rattle.dual_orders.specs.Values.{incumbent_of};

use crate::ascent::{LowerBound, first_ascent};
use crate::dual_found::DualFound;
use crate::rounds::ascend;
use crate::under_way::{Progress, Search};
use crate::walk::{NodeEnd, fork, node_end};
use crate::walked::{WalkedTree, collapsed, listed};
use dual_orders::{Answers, Part, Solver, first_incumbent};
use dual_rounds::{LineOrder, orders_of};
use map_base::{LineId, NoMemory, Sequence, Steps};
use order_model::Problem;
use order_values::{DualTree, Orders};
use std::alloc::Global;
use std::sync::ledger::Ledger;

/// How many forks may lie on a way from the root to a stop.
const MOST_FORKS: u32 = 2048;

/// How many rounds the root may have.
const ROOT_ROUNDS: u32 = 1000;

/// The search for orders of a part by itself, all segments and terms of the problem, within a budget of branch nodes: what
/// `dual_ascent` defines. Each round counts as many as the part's load, and takes as many steps of the counter. A search that
/// can't come to its end within the budget is no refusal: the bound of its root is found then. Only want of memory is refused.
pub fn search<L: Ledger>(
    alloc: Global,
    problem: &Problem,
    budget: u32,
    steps: &mut Steps<L>,
) -> Result<DualFound, NoMemory>
    requires some { 0 < length problem.now.segs }
    requires reach { is_in_reach problem.now ≡ true }
    requires budget { budget ≤ most_load }
    ensures found { IfOk result (λ f. result_found f ≡ dual_result problem.now budget) }
    ensures shown { IfOk result (λ f. IsShown problem.now budget (result_found f)) }
    ensures steps { IfOk result (λ f. steps.new ≡ steps.old + f.branches) }
    ensures few_steps { IfErr result (λ _. steps.new ≤ steps.old + (dual_result problem.now budget).branches) }
{
    let part = Part::of(alloc, problem)?;
    let search = Search { part, budget };
    let mut now = begin(alloc, &search)?;
    let prices = vec![in alloc; 0_i64; problem.terms().len()]?;
    let mut root = first_ascent(alloc, &search, prices.as_slice())?;
    let mut answers = Answers::none(alloc, &search.part)?;
    let mut settled = Vec::new(alloc);
    if !ascend(
        &search,
        &mut now,
        settled.as_slice(),
        ROOT_ROUNDS,
        &mut root,
        &mut answers,
        steps,
    ) {
        return spent(alloc, now, root.into_bound());
    }
    match node_end(alloc, &search, &mut now, settled.as_slice(), &root)? {
        NodeEnd::Stop(tree) => complete(alloc, now, tree),
        NodeEnd::Fork(pair) => {
            let bound = root.into_bound();
            match fork(
                alloc,
                &search,
                &mut now,
                MOST_FORKS,
                &mut settled,
                pair,
                &bound,
                steps,
            )? {
                Some(tree) => complete(alloc, now, tree),
                None => spent(alloc, now, bound),
            }
        }
    }
}

/// A search before its first node.
fn begin(alloc: Global, search: &Search) -> Result<Progress, NoMemory>
    requires { IsSearch search.now }
    ensures now { IfOk result (IsUnderWay search.now) }
    ensures first { IfOk result (λ now. incumbent_of now.incumbent ≡ first_incumbent search.now.part.problem.now) }
    ensures none { IfOk result (λ now. now.branches ≡ 0) }
{
    let mut solver = Solver::for_part(alloc, &search.part)?;
    let incumbent = first_incumbent(alloc, &search.part, &mut solver)?;
    let trial = orders_of(alloc, search.part.problem.segs())?;
    Ok(Progress {
        incumbent,
        branches: 0,
        solver,
        trial,
    })
}

/// A walk that came to its end.
fn complete(alloc: Global, now: Progress, tree: WalkedTree) -> Result<DualFound, NoMemory>
    requires { now.incumbent.cost ≤ 1024000000000 }
    ensures { IfOk result (λ f. result_found f ≡ record {
      complete = true;
      target = now.incumbent.cost;
      tree = collapsed now.incumbent.cost (plain_walked tree);
      orders = now.incumbent.orders.items;
      branches = now.branches;
    }) }
{
    let target = now.incumbent.cost;
    Ok(DualFound {
        complete: true,
        target,
        tree: collapsed(alloc, target, tree)?,
        orders: lists_of(alloc, now.incumbent.orders)?,
        branches: now.branches,
    })
}

/// A walk that was spent: the bound of the root is left of it.
fn spent(alloc: Global, now: Progress, root: LowerBound) -> Result<DualFound, NoMemory>
    requires { length root.prices.items < 2 ^ 32 }
    ensures { IfOk result (λ f. result_found f ≡ record {
      complete = false;
      target = rounded_up root.value;
      tree = stop (listed root.prices.items);
      orders = now.incumbent.orders.items;
      branches = now.branches;
    }) }
{
    let prices = listed(alloc, root.prices.as_slice())?;
    Ok(DualFound {
        complete: false,
        target: rounded_up(root.value),
        tree: DualTree::Stop { prices },
        orders: lists_of(alloc, now.incumbent.orders)?,
        branches: now.branches,
    })
}

/// The least whole number that is at least a thousandth of this, and at least 0.
fn rounded_up(value: i64) -> u64
    ensures { result ≡ rounded_up value }
{
    if value <= 0 {
        return 0;
    }
    (value as u64).div_ceil(1000)
}

/// Orders as lists.
fn lists_of(alloc: Global, orders: Vec<LineOrder>) -> Result<Orders, NoMemory>
    ensures { IfOk result (λ lists. lists.lists ≡ orders.items) }
{
    let mut lists: Vec<Sequence<LineId>> = Vec::with_capacity(alloc, orders.len())?;
    for order in orders.as_slice() {
        lists.push(Sequence::of(Vec::from_slice(alloc, order.as_slice())?))?;
    }
    Ok(Orders {
        lists: Sequence::of(lists),
    })
}
