//! Line orders of a problem, with their proof.

ghost use Rattle.std.specs.Prelude.{◌≡◌, ◌≤◌, ◌+◌, sum_by, All, Contains, IfOk};
ghost use Rattle.order_model.specs.Problems.{IsProblem};
ghost use Rattle.order_model.specs.Costs.{cost_of, AreOrders};
ghost use Rattle.order_proof.specs.Plain.{plain_proof};
ghost use Rattle.order_proof.specs.Trees.{HasTrees};
ghost use Rattle.order_rules.specs.Lifting.{lifted_all};
ghost use Rattle.kept_trees.specs.Keeping.{branches_to_meet};
ghost use Rattle.graph_maps.specs.Keeping.{finished_of, HoldsFinished};
ghost use Rattle.graph_maps.specs.Problems.{untangled_problem};
ghost use Rattle.graph_maps.specs.Solving.{parts_in, solve_outcome};
ghost use Rattle.graph_maps.specs.Stages.{plain_parts, Finds};

use crate::solution::Solution;
use crate::solving::solve_parts;
use kept_trees::{Kept, SearchPlan};
use map_base::{NoMemory, Sequence, Steps};
use map_faults::MakeFault;
use order_model::{Problem, cost_by_tables};
use order_proof::Proof;
use order_rules::lift;
use order_untangle::untangle;
use order_values::{Orders, Rule};
use std::alloc::Global;
use std::sync::ledger::Ledger;

/// Line orders, what they cost, and the proof of what none cost less than.
#[derive(Debug, Drop)]
pub(crate) struct BestOrders {
    /// The order of each segment.
    pub orders: Orders,
    /// What they cost.
    pub cost: u64,
    /// The proof.
    pub proof: Proof,
}

/// The line orders of a problem, with the proof of what none cost less than. The problem is untangled, the parts of the
/// untangled problem are solved by this plan, and their orders are lifted. The first part of which nothing is found
/// ends it.
#[tactic(auto, using(crate::proofs::KeepLemmas::itself_held))]
pub(crate) fn best_orders<L: Ledger>(
    alloc: Global,
    problem: Problem,
    plan: SearchPlan,
    kept: &mut Kept,
    steps: &mut Steps<L>,
) -> Result<BestOrders, MakeFault>
    requires problem { IsProblem problem }
    requires budget { plan.budget ≤ 100000 }
    ensures found { Finds plan problem result (solve_outcome plan (untangled_problem problem)) }
    ensures orders { IfOk result (λ best. AreOrders problem.segs best.orders.lists) }
    ensures kept { All (Contains kept.new) kept.old }
    ensures finished { HoldsFinished result (finished_of plan (untangled_problem problem)) kept.new }
    ensures steps { steps.new ≤ steps.old + sum_by (branches_to_meet kept.old plan (untangled_problem problem))
        (parts_in (untangled_problem problem)) }
{
    let (rules, untangled) = untangle(alloc, problem)?;
    let solution = solve_parts(alloc, &untangled, plan, kept, steps)?;
    Ok(lifted(alloc, rules, &untangled, solution)?)
}

/// Line orders of the problem that rules untangled, from those of the untangled problem. Both cost the same.
fn lifted(
    alloc: Global,
    rules: Sequence<Rule>,
    untangled: &Problem,
    solution: Solution,
) -> Result<BestOrders, NoMemory>
    requires orders { AreOrders untangled.now.segs solution.orders.items }
    requires trees { HasTrees (record { rules = rules; parts = plain_parts solution }) }
    ensures orders { IfOk result (λ best. best.orders.lists ≡ lifted_all rules solution.orders.items) }
    ensures cost { IfOk result (λ best. best.cost ≡ cost_of untangled.now.terms solution.orders.items) }
    ensures proof { IfOk result (λ best. plain_proof best.proof
        ≡ record { rules = rules; parts = plain_parts solution }) }
{
    let orders = Orders {
        lists: Sequence::of(solution.orders),
    };
    let cost = cost_by_tables(alloc, untangled, &orders)?;
    let orders = lift(alloc, rules.as_slice(), orders)?;
    let parts = Sequence::of(solution.parts);
    Ok(BestOrders {
        orders,
        cost,
        proof: Proof { rules, parts },
    })
}
