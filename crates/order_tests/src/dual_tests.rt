//! Searches by dual prices whose orders, tree and branch nodes are known by a second reading of the rules.

ghost use Rattle.std.specs.Prelude.{◌≡◌, ◌<◌, true, length, IfOk};
ghost use Rattle.order_values.specs.DualTrees.{plain_dual};
ghost use Rattle.order_proof.specs.Trees.{IsProofDual};
ghost use Rattle.dual_ascent.specs.DualResults.{is_in_reach};

use crate::answers::found_text;
use crate::known;
use crate::known::Small;
use crate::problems::problem_of;
use kept_trees::{DualFound, is_in_reach, search};
use map_base::{NoMemory, SegId, Steps};
use order_model::Problem;
use order_proof::PartTree;
use std::alloc::{AllocError, Global};
use std::marker::Brand;
use std::sync::ledger::{Blank, Ledger};
use std::test::Fail;

/// What a search within a budget finds, with a counter of steps of its own.
fn searched_by<L: Ledger>(
    alloc: Global,
    problem: &Problem,
    budget: u16,
    blank: Blank,
) -> Result<DualFound, NoMemory>
    requires name { blank.name ≡ L.name }
    requires parts { blank.parts ≡ L.parts }
    requires some_part { 0 < blank.parts }
    requires some { 0 < length problem.now.segs }
    requires reach { is_in_reach problem.now ≡ true }
    ensures { IfOk result (λ f. IsProofDual (plain_dual f.tree)) }
{
    let mut steps = Steps::<L>::open(blank);
    search(alloc, problem, u32::from(budget), &mut steps)
}

/// What a search within a budget finds in a part by itself that it can search.
fn searched(alloc: Global, problem: &Problem, budget: u16) -> Result<DualFound, Fail>
    ensures { IfOk result (λ f. IsProofDual (plain_dual f.tree)) }
{
    if problem.segs().is_empty() {
        return Err(Fail::from("no segments"));
    }
    if !is_in_reach(problem) {
        return Err(Fail::from("out of reach"));
    }
    Ok(searched_by::<Brand>(alloc, problem, budget, Blank::new(1))?)
}

/// The segments of a problem.
fn all_segments(alloc: Global, problem: &Problem) -> Result<Vec<SegId>, AllocError> {
    let mut segs = Vec::new(alloc);
    let mut next: u32 = 0;
    for _ in problem.segs() {
        segs.push(SegId(next))?;
        next = next.saturating_add(1);
    }
    Ok(segs)
}

/// What a search of a small problem within a budget tells: the orders, the text of its proof, and its branch nodes.
fn told(alloc: Global, small: Small, budget: u16) -> Result<String, Fail> {
    let problem = problem_of(alloc, small.lines, small.terms)?;
    let DualFound {
        target,
        tree,
        orders,
        branches,
        ..
    } = searched(alloc, &problem, budget)?;
    let segs = all_segments(alloc, &problem)?;
    let tree = PartTree::ByPairs(tree);
    found_text(alloc, segs, &orders, target, tree, branches)
}

/// Problems with budgets, each with what a search tells: found at the root, by the least budget; found by two cases; and
/// spent, with the bound of the root.
const FOUND: [(Small, u16, &str); 6] = [
    (
        known::CROSSING,
        2,
        "/ 0/ 0 1/ 1/ 1 0/ 1/ 0\nrules 0\nparts 1\npart 1 0 1 2 3 4 5\nstop 1 1 1000\nbranches 2\n",
    ),
    (
        known::CROSSING,
        1,
        "/ 0/ 0 1/ 1/ 1 0/ 1/ 0\nrules 0\nparts 1\npart 0 0 1 2 3 4 5\nstop 0\nbranches 1\n",
    ),
    (
        known::CONNECTIONS,
        323,
        "/ 1 0/ 0 1/ 0 1\nrules 0\nparts 1\npart 21 0 1 2\nfork 0 1 0\nstop 3 6 -11747 7 -11747 8 11212\nstop 3 6 12000 7 12000 8 -11138\nbranches 323\n",
    ),
    (
        known::IMPORTANT,
        1000,
        "/ 0/ 0 1 2/ 2/ 1/ 0 2\nrules 0\nparts 1\npart 9 0 1 2 3 4\nstop 1 4 8001\nbranches 2\n",
    ),
    (
        known::TWO_PAIRS,
        1000,
        "/ 0 2 1 3/ 0 4 1/ 2 4 3\nrules 0\nparts 1\npart 5 0 1 2\nstop 2 9 -2266 11 -2266\nbranches 3\n",
    ),
    (
        known::TWO_PAIRS,
        2,
        "/ 0 2 1 3/ 0 4 1/ 2 4 3\nrules 0\nparts 1\npart 4 0 1 2\nstop 2 9 -2000 11 -2000\nbranches 2\n",
    ),
];

#[test]
fn searches_by_dual_prices_find_what_is_known(rt: HostRuntime) -> Result<(), Fail> {
    for (small, budget, known) in FOUND {
        let found = told(rt.alloc(), small, budget)?;
        assert_eq!(rt; found.as_str(), known);
    }
    Ok(())
}
