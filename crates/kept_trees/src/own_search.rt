//! Which search a part by itself has, and what it finds.

ghost use Rattle.std.specs.Prelude.{◌≡◌, ◌+◌, ◌<◌, ◌≤◌, ◌^◌, length, All, Ok, IfOk, IfErr, true};
ghost use Rattle.map_base.specs.declared.ids.SegId.{SegId as Seg};
ghost use Rattle.map_method.specs.declared.search.Search.TheVariants.{Dual};
ghost use Rattle.order_model.specs.Problems.{IsProblem};
ghost use Rattle.order_model.specs.Parts.{IsRisingPart};
ghost use Rattle.order_search.specs.FoundParts.{branches_in};
ghost use Rattle.dual_ascent.specs.DualResults.{dual_result};
ghost use Rattle.dual_ascent.specs.OwnNumbers.{all_segments};
ghost use Rattle.kept_trees.specs.Finding.{result_found as dual_found};
ghost use Rattle.kept_trees.specs.OwnTrees.{part_of_key};
ghost use Rattle.kept_trees.specs.Results.{by_dual, live_outcome, dual_outcome, dual_own, own_outcome, own_branches};
ghost use Rattle.kept_trees.specs.Results.{is_dual, result_found, IsOwnFound, IsFaultOf};

use crate::dual_found::DualFound;
use crate::dual_search;
use crate::found_part::FoundPart;
use crate::part_key::{PartKey, own_problem};
use crate::plan::SearchPlan;
use dual_orders::is_in_reach;
use map_base::{NoMemory, SegId, Steps};
use map_method::{Claim, Search};
use order_model::Problem;
use order_proof::PartTree;
use order_search::SearchFault;
use std::alloc::Global;
use std::sync::ledger::Ledger;

/// What the search finds in a part by itself, with its causes of refusal and its steps of the counter.
pub(crate) fn search_by_itself<L: Ledger>(
    alloc: Global,
    key: &PartKey,
    plan: SearchPlan,
    steps: &mut Steps<L>,
) -> Result<FoundPart, SearchFault>
    requires problem { IsProblem (part_of_key key.now) }
    requires some { 0 < length key.now.lists.items }
    requires budget { plan.budget ≤ 100000 }
    ensures found { IfOk result (IsOwnFound plan (part_of_key key.now)) }
    ensures steps { IfOk result (λ _. steps.new ≡ steps.old + own_branches plan (part_of_key key.now)) }
    ensures fault { IfErr result (IsFaultOf (own_outcome plan (part_of_key key.now))) }
    ensures few_steps { IfErr result (λ _. steps.new ≤ steps.old + own_branches plan (part_of_key key.now)) }
{
    let problem = own_problem(alloc, key)?;
    if is_dual(plan.search, &problem) {
        return search_by_prices(alloc, &problem, plan, steps);
    }
    let part = all_segments(alloc, key)?;
    search_live(alloc, &problem, part.as_slice(), plan.budget, steps)
}

/// Whether a part by itself is searched by dual prices.
fn is_dual(search: Search, problem: &Problem) -> bool
    ensures { result ≡ is_dual search problem.now (all_segments problem.now) }
{
    match search {
        Search::Live => false,
        Search::Dual => is_in_reach(problem),
    }
}

/// What the live search finds in a part.
fn search_live<L: Ledger>(
    alloc: Global,
    problem: &Problem,
    part: &[SegId],
    budget: u32,
    steps: &mut Steps<L>,
) -> Result<FoundPart, SearchFault>
    requires known { All (λ (s : Seg). s.0 < length problem.now.segs) part.now }
    requires rising { IsRisingPart part.now }
    requires budget { budget + 1 < 2 ^ 32 }
    ensures found { IfOk result (λ f. live_outcome budget problem.now part.now ≡ Ok (result_found f)) }
    ensures steps { IfOk result (λ _. steps.new ≡ steps.old + branches_in problem.now part.now) }
    ensures fault { IfErr result (IsFaultOf (live_outcome budget problem.now part.now)) }
    ensures few_steps { IfErr result (λ _. steps.new ≤ steps.old + branches_in problem.now part.now) }
{
    let found = order_search::search(alloc, problem, part, budget, steps)?;
    Ok(FoundPart {
        complete: true,
        orders: found.orders,
        target: found.target,
        branches: found.branches,
        tree: PartTree::ByCases(found.tree),
    })
}

/// What dual prices find in a part that is a problem by itself.
fn search_by_prices<L: Ledger>(
    alloc: Global,
    problem: &Problem,
    plan: SearchPlan,
    steps: &mut Steps<L>,
) -> Result<FoundPart, SearchFault>
    requires some { 0 < length problem.now.segs }
    requires reach { is_dual Dual problem.now (all_segments problem.now) ≡ true }
    requires budget { plan.budget ≤ 100000 }
    ensures found { IfOk result (λ f.
        dual_outcome plan.claim plan.budget (dual_own plan.budget problem.now) ≡ Ok (result_found f)) }
    ensures steps { IfOk result (λ _. steps.new ≡ steps.old + (dual_result problem.now plan.budget).branches) }
    ensures fault { IfErr result (IsFaultOf (dual_outcome plan.claim plan.budget (dual_own plan.budget problem.now))) }
    ensures few_steps { IfErr result (λ _. steps.new ≤ steps.old + (dual_result problem.now plan.budget).branches) }
{
    let found = dual_search::search(alloc, problem, plan.budget, steps)?;
    if found.complete {
        let branches = found.branches;
        return Ok(part_of(found, branches));
    }
    match plan.claim {
        Claim::Best => Err(SearchFault::Spent {
            branches: plan.budget + 1,
        }),
        Claim::Bound => Ok(part_of(found, plan.budget)),
    }
}

/// What dual prices found, with so many branch nodes.
fn part_of(found: DualFound, branches: u32) -> FoundPart
    ensures { result_found result ≡ record (by_dual (dual_found found)) { branches = branches } }
{
    FoundPart {
        complete: found.complete,
        orders: found.orders,
        target: found.target,
        branches,
        tree: PartTree::ByPairs(found.tree),
    }
}

/// All segments of a part by itself.
fn all_segments(alloc: Global, key: &PartKey) -> Result<Vec<SegId>, NoMemory>
    requires { length key.now.lists.items < 2 ^ 32 }
    ensures { IfOk result (λ part. part.items ≡ all_segments (part_of_key key.now)) }
{
    let count = key.lists.len();
    let mut part = Vec::with_capacity(alloc, count)?;
    for k in 0..count {
        part.push(SegId(k as u32))?;
    }
    Ok(part)
}
