//! The parts of a problem, each solved by a search.

ghost use Rattle.std.specs.Prelude.{◌≡◌, ◌≤◌, ◌<◌, ◌+◌, [], ◌∷◌, ◌++◌, length, map, sum_by, All, Contains, IfOk, OnOk, IfErr, slice_set};
ghost use Rattle.map_base.specs.declared.ids.SegId.{SegId as Seg};
ghost use Rattle.order_model.specs.Problems.{IsProblem};
ghost use Rattle.order_model.specs.Costs.{AreOrders};
ghost use Rattle.order_model.specs.Parts.{AreParts, IsRisingPart};
ghost use Rattle.order_model.specs.Gathering.{part_lists};
ghost use Rattle.order_model.specs.PartTerms.{part_numbers};
ghost use Rattle.order_model.specs.Places.{tables_of};
ghost use Rattle.order_search.specs.Finding.{with_lists};
ghost use Rattle.kept_trees.specs.Keeping.{branches_to_meet};
ghost use Rattle.kept_trees.specs.OwnTrees.{held_as};
ghost use Rattle.graph_maps.specs.Solving.{of_search};
ghost use Rattle.graph_maps.specs.Keeping.{finished_of, HoldsFinished};
ghost use Rattle.graph_maps.specs.Solving.{parts_in, solve_outcome};
ghost use Rattle.graph_maps.specs.Stages.{IsMore, IsUnsolved, Solves};

use crate::solution::Solution;
use kept_trees::{FoundPart, Kept, SearchPlan};
use map_base::{LineId, NoMemory, SegId, Sequence, Steps};
use map_faults::MakeFault;
use order_model::{Problem, numbers_of, parts_of, terms_by_part};
use order_proof::Part;
use order_search::SearchFault;
use std::alloc::Global;
use std::sync::ledger::Ledger;

/// The line orders of a problem, part by part, each with its proof, as they are found by this plan. The first part of
/// which nothing is found ends it. The terms of all parts are gathered once. A part of which what is to be known is
/// kept is not searched, and each part that is solved is kept.
#[tactic(auto, using(crate::proofs::KeepLemmas::itself_held))]
pub(crate) fn solve_parts<L: Ledger>(
    alloc: Global,
    problem: &Problem,
    plan: SearchPlan,
    kept: &mut Kept,
    steps: &mut Steps<L>,
) -> Result<Solution, MakeFault>
    requires budget { plan.budget ≤ 100000 }
    ensures solved { Solves plan problem.now result (solve_outcome plan problem.now) }
    ensures orders { IfOk result (λ s. AreOrders problem.now.segs s.orders.items) }
    ensures fits { IfOk result (λ _. IsProblem problem.now) }
    ensures kept { All (Contains kept.new) kept.old }
    ensures finished { HoldsFinished result (finished_of plan problem.now) kept.new }
    ensures steps { steps.new ≤ steps.old + sum_by (branches_to_meet kept.old plan problem.now) (parts_in problem.now) }
{
    let parts = parts_of(alloc, problem)?;
    let numbers = numbers_of(alloc, problem, parts.as_slice())?;
    let terms = terms_by_part(alloc, problem, parts.as_slice(), numbers.as_slice())?;
    solve_all(
        alloc,
        problem,
        parts.as_slice(),
        terms.as_slice(),
        plan,
        kept,
        steps,
    )
}

/// Solves these parts in turn, each with the numbers of its terms.
#[tactic(auto, using(crate::proofs::KeepLemmas::itself_held))]
fn solve_all<L: Ledger>(
    alloc: Global,
    problem: &Problem,
    parts: &[Vec<SegId>],
    terms: &[Vec<u32>],
    plan: SearchPlan,
    kept: &mut Kept,
    steps: &mut Steps<L>,
) -> Result<Solution, MakeFault>
    requires parts { part_lists parts.now ≡ parts_in problem.now }
    requires classes { AreParts problem.now.segs problem.now.terms (part_lists parts.now) }
    requires terms { tables_of terms.now ≡ map (part_numbers problem.now.terms) (part_lists parts.now) }
    requires budget { plan.budget ≤ 100000 }
    ensures solved { Solves plan problem.now result (solve_outcome plan problem.now) }
    ensures orders { IfOk result (λ s. AreOrders problem.now.segs s.orders.items) }
    ensures fits { IfOk result (λ _. IsProblem problem.now) }
    ensures kept { All (Contains kept.new) kept.old }
    ensures finished { HoldsFinished result (finished_of plan problem.now) kept.new }
    ensures steps { steps.new ≤ steps.old + sum_by (branches_to_meet kept.old plan problem.now) (parts_in problem.now) }
{
    let mut solution = Solution {
        orders: number_orders(alloc, problem.segs())?,
        parts: Vec::with_capacity(alloc, parts.len())?,
    };
    for k in 0..parts.len() {
        steps.enter_part(k, parts.len());
        solve_part(
            alloc,
            problem,
            k as u32,
            parts[k].as_slice(),
            terms[k].as_slice(),
            plan,
            &mut solution,
            kept,
            steps,
        )?;
    }
    Ok(solution)
}

/// The lines of each segment, rising.
fn number_orders(
    alloc: Global,
    segs: &[Sequence<LineId>],
) -> Result<Vec<Sequence<LineId>>, NoMemory>
    ensures { IfOk result (λ orders. orders.items ≡ segs.now) }
{
    let mut orders = Vec::with_capacity(alloc, segs.len())?;
    for lines in segs {
        let order = Vec::from_slice(alloc, lines.as_slice())?;
        orders.push(Sequence::of(order))?;
    }
    Ok(orders)
}

/// Solves part `k`, whose terms have these numbers: its segments get their orders, and its proof is added.
fn solve_part<L: Ledger>(
    alloc: Global,
    problem: &Problem,
    k: u32,
    part: &[SegId],
    numbers: &[u32],
    plan: SearchPlan,
    solution: &mut Solution,
    kept: &mut Kept,
    steps: &mut Steps<L>,
) -> Result<(), MakeFault>
    requires rising { IsRisingPart part.now }
    requires known { All (λ (s : Seg). s.0 < length problem.now.segs) part.now }
    requires numbers { numbers.now ≡ part_numbers problem.now.terms part.now }
    requires budget { plan.budget ≤ 100000 }
    requires orders { AreOrders problem.now.segs solution.old.orders.items }
    ensures more { OnOk result (IsMore plan problem.now part.now solution.old solution.new) }
    ensures orders { OnOk result (AreOrders problem.now.segs solution.new.orders.items) }
    ensures unsolved { IfErr result (IsUnsolved plan problem.now k part.now) }
    ensures kept { All (Contains kept.new) kept.old }
    ensures held { OnOk result (Contains kept.new (held_as plan problem.now part.now)) }
    ensures steps { steps.new ≤ steps.old + branches_to_meet kept.old plan problem.now part.now }
{
    match kept.solve_part(alloc, problem, part, numbers, plan, steps) {
        Ok(found) => {
            take_found(alloc, part, found, solution)?;
            Ok(())
        }
        Err(stop) => Err(unsolved(k, stop)),
    }
}

/// Why part `k` is not solved.
fn unsolved(k: u32, stop: SearchFault) -> MakeFault
    ensures { result ≡ of_search k stop }
{
    match stop {
        SearchFault::Spent { branches } => MakeFault::Spent {
            component: k,
            branches,
        },
        SearchFault::TooDeep(limit) => MakeFault::Limit(limit),
        SearchFault::NoMemory => MakeFault::NoMemory,
    }
}

/// Gives the segments of a part the orders that were found, and adds its proof.
fn take_found(
    alloc: Global,
    part: &[SegId],
    found: FoundPart,
    solution: &mut Solution,
) -> Result<(), NoMemory>
    requires each { length found.orders.lists ≡ length part.now }
    requires known { All (λ (s : Seg). s.0 < length solution.old.orders.items) part.now }
    ensures orders { OnOk result (solution.new.orders.items
        ≡ with_lists part.now found.orders.lists solution.old.orders.items) }
    ensures parts { OnOk result (solution.new.parts.items
        ≡ solution.old.parts.items ++ record { segs = part.now; target = found.target; tree = found.tree } ∷ []) }
{
    let segs = Vec::from_slice(alloc, part)?;
    put_orders(&mut solution.orders, part, found.orders.lists.into_vec());
    solution.parts.push(Part {
        segs: Sequence::of(segs),
        target: found.target,
        tree: found.tree,
    })?;
    Ok(())
}

/// Gives the segments of a part these orders.
fn put_orders(orders: &mut Vec<Sequence<LineId>>, part: &[SegId], lists: Vec<Sequence<LineId>>)
    requires each { length lists.items ≡ length part.now }
    requires known { All (λ (s : Seg). s.0 < length orders.old.items) part.now }
    ensures { orders.new.items ≡ with_lists part.now lists.items orders.old.items }
{
    let mut lists = lists;
    for i in (0..part.len()).rev() {
        let Some(order) = lists.pop() else {
            unreachable!()
        };
        put_order(orders, part[i], order);
    }
}

/// Gives a segment this order.
fn put_order(orders: &mut Vec<Sequence<LineId>>, seg: SegId, order: Sequence<LineId>)
    requires { seg.0 < length orders.old.items }
    ensures { orders.new.items ≡ slice_set orders.old.items seg.0 order }
{
    orders[seg.0 as usize] = order;
}
