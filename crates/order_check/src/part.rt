//! The check of one part.

ghost use Rattle.std.specs.Prelude.{◌≡◌, ◌<◌, length, All, IfOk, IfErr, None};
ghost use Rattle.map_base.specs.declared.ids.SegId.{SegId};
ghost use Rattle.order_model.specs.Problems.{IsProblem};
ghost use Rattle.order_model.specs.Prefixes.{IsPrefixOf};
ghost use Rattle.order_values.specs.DualTrees.{plain_dual};
ghost use Rattle.order_proof.specs.Plain.{plain, plain_part_tree, plain_part};
ghost use Rattle.order_proof.specs.Trees.{IsTree, IsPartTree};
ghost use Rattle.order_model.specs.Parts.{IsRisingPart};
ghost use Rattle.order_model.specs.PartTerms.{part_terms, part_numbers};
ghost use Rattle.order_model.specs.Numbers.{TellPart};
ghost use Rattle.order_model.specs.Prefixes.{none_placed};
ghost use Rattle.order_model.specs.Questions.{question};
ghost use Rattle.order_bound.specs.Accepting.{failing};
ghost use Rattle.dual_bound.specs.Accepting as pairs;
ghost use Rattle.order_check.specs.Asking.{question_of, IsAsked};
ghost use Rattle.order_check.specs.Verdict.{are_same, tree_refusal, part_refusal, IsCause};

use crate::asked::Asked;
use crate::part_table::part_table;
use crate::refusal::{ProofItem, ProofStop};
use crate::slot::SlotCost;
use crate::tally::first_tally;
use crate::walk::walk;
use dual_check::{DualStop, check_dual};
use map_base::{SegId, Sequence};
use order_model::{Prefix, Problem};
use order_proof::{Part, PartTree, Tree};
use order_values::DualTree;
use std::alloc::Global;

/// Refuses part `k` of a proof where its segments are not those of the problem's part, or its tree isn't accepted. Of
/// the numbers of segments those of this part are `k`, and the terms are this part's, by number. Lines are placed on a prefix on
/// which none is placed, and taken back from it.
pub(crate) fn check_part(
    alloc: Global,
    problem: &Problem,
    k: u32,
    segs: &[SegId],
    numbers: &[u32],
    terms: &[u32],
    prefix: &mut Prefix,
    part: &Part,
) -> Result<(), ProofStop>
    requires problem { IsProblem problem.now }
    requires known { All (λ (s : SegId). s.0 < length problem.now.segs) segs.now }
    requires numbers { TellPart segs.now k (length problem.now.segs) numbers.now }
    requires rising { IsRisingPart segs.now }
    requires terms { terms.now ≡ part_numbers problem.now.terms segs.now }
    requires fits { IsPrefixOf problem.now.segs prefix.old }
    requires none { prefix.old.placed ≡ none_placed problem.now.segs }
    requires tree { IsPartTree (plain_part_tree part.now.tree) }
    ensures fits { IsPrefixOf problem.now.segs prefix.new }
    ensures kept { prefix.new.placed ≡ prefix.old.placed }
    ensures accepted { IfOk result (λ _. part_refusal problem.now.segs problem.now.terms k segs.now (plain_part part.now) ≡ None) }
    ensures refused { IfErr result (IsCause (part_refusal problem.now.segs problem.now.terms k segs.now (plain_part part.now))) }
{
    if !are_same(segs, part.segs.as_slice()) {
        return Err(ProofStop::Refuted(ProofItem::Part {
            index: k,
            after: Sequence::of(Vec::new(alloc)),
        }));
    }
    match &part.tree {
        PartTree::ByCases(tree) => {
            let table = part_table(alloc, problem, terms)?;
            let asked = Asked {
                problem,
                part: segs,
                k,
                numbers,
                terms,
                table: &table,
                target: part.target,
            };
            check_tree(alloc, &asked, prefix, tree)
        }
        PartTree::ByPairs(tree) => {
            check_pairs(alloc, problem, k, segs, terms, part.target, tree)
        }
    }
}

/// Refuses the part where its dual tree isn't accepted.
fn check_pairs(
    alloc: Global,
    problem: &Problem,
    k: u32,
    segs: &[SegId],
    terms: &[u32],
    target: u64,
    tree: &DualTree,
) -> Result<(), ProofStop>
    requires problem { IsProblem problem.now }
    requires known { All (λ (s : SegId). s.0 < length problem.now.segs) segs.now }
    requires rising { IsRisingPart segs.now }
    requires terms { terms.now ≡ part_numbers problem.now.terms segs.now }
    ensures accepted { IfOk result (λ _. tree_refusal k (pairs.failing (question problem.now.segs segs.now (part_terms problem.now.terms segs.now) target) (plain_dual tree.now)) ≡ None) }
    ensures refused { IfErr result (IsCause (tree_refusal k (pairs.failing (question problem.now.segs segs.now (part_terms problem.now.terms segs.now) target) (plain_dual tree.now)))) }
{
    match check_dual(alloc, problem, segs, terms, target, tree) {
        Ok(()) => Ok(()),
        Err(DualStop::Failing(way)) => Err(ProofStop::Refuted(ProofItem::Part {
            index: k,
            after: Sequence::of(way),
        })),
        Err(DualStop::NoMemory) => Err(ProofStop::NoMemory),
    }
}

/// Refuses the part where its tree isn't accepted from the prefix in which no line is chosen. The table of
/// slots is made once.
fn check_tree(
    alloc: Global,
    asked: &Asked,
    prefix: &mut Prefix,
    tree: &Tree,
) -> Result<(), ProofStop>
    requires asked { IsAsked asked.now }
    requires fits { IsPrefixOf asked.now.problem.now.segs prefix.old }
    requires none { prefix.old.placed ≡ none_placed asked.now.problem.now.segs }
    requires tree { IsTree (plain tree.now) }
    ensures fits { IsPrefixOf asked.now.problem.now.segs prefix.new }
    ensures kept { prefix.new.placed ≡ prefix.old.placed }
    ensures accepted { IfOk result (λ _. tree_refusal asked.now.k (failing (question_of asked.now) (none_placed asked.now.problem.now.segs) (plain tree.now)) ≡ None) }
    ensures refused { IfErr result (IsCause (tree_refusal asked.now.k (failing (question_of asked.now) (none_placed asked.now.problem.now.segs) (plain tree.now)))) }
{
    let nothing = SlotCost {
        lesser_first: 0,
        greater_first: 0,
    };
    let mut costs = vec![in alloc; nothing; asked.table.slots.len()]?;
    let mut way = Vec::new(alloc);
    let costs = costs.as_mut_slice();
    let mut sums = first_tally(asked, prefix, costs);
    if walk(alloc, asked, prefix, &mut sums, costs, &mut way, tree)? {
        return Ok(());
    }
    Err(ProofStop::Refuted(ProofItem::Part {
        index: asked.k,
        after: Sequence::of(way),
    }))
}

/// Whether these are the same segments in the same order.
fn are_same(some: &[SegId], others: &[SegId]) -> bool
    ensures { result ≡ are_same some.now others.now }
{
    if some.len() != others.len() {
        return false;
    }
    for i in 0..some.len() {
        if some[i] != others[i] {
            return false;
        }
    }
    true
}
