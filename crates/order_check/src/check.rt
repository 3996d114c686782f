//! The check of a whole proof.

ghost use Rattle.std.specs.Prelude.{◌≡◌, [], map, IfOk, IfErr, None};
ghost use Rattle.std.specs.List.{AllByRecursion};
ghost use Rattle.order_model.specs.Problems.{IsProblem};
ghost use Rattle.order_model.specs.Costs.{AreBest, AreOrders};
ghost use Rattle.order_model.specs.Parts.{AreParts};
ghost use Rattle.order_model.specs.Gathering.{part_lists};
ghost use Rattle.order_proof.specs.Plain.{plain_part, plain_proof};
ghost use Rattle.order_proof.specs.Trees.{IsPartTree};
ghost use Rattle.order_check.specs.Verdict.{bound_refusal, first_part, targets, verdict, IsCause};
ghost use Rattle.order_check.specs.LowerBounds.{IsLowerBound};

use crate::part::check_part;
use crate::refusal::{ProofItem, ProofStop};
use crate::rules::after_rules;
use crate::total::target_sum;
use map_base::{SegId, Sequence};
use order_model::{Prefix, Problem, cost_by_tables, numbers_of, parts_of, terms_by_part};
use order_proof::{Part, Proof};
use order_values::Orders;
use std::alloc::Global;

/// Whether a proof shows that no orders of the problem cost less than these. The items are checked in order: the rules,
/// each of which has to apply to the problem that those before it make; the parts of the last problem, one by one, each
/// with its segments and its tree; and that the targets of the parts sum to what the orders cost on the problem itself.
/// The first item that is refused is named.
pub fn check_proof(
    alloc: Global,
    problem: Problem,
    orders: &Orders,
    proof: &Proof,
) -> Result<(), ProofStop>
    requires { AreOrders problem.segs orders.now.lists }
    ensures accepted { IfOk result (λ _. verdict problem orders.now.lists (plain_proof proof.now) ≡ None) }
    ensures refused { IfErr result (IsCause (verdict problem orders.now.lists (plain_proof proof.now))) }
    ensures best { IfOk result (λ _. AreBest problem.segs problem.terms orders.now.lists) }
{
    let cost = cost_by_tables(alloc, &problem, orders)?;
    let bound = check_bound(alloc, problem, proof)?;
    if bound != cost {
        return Err(ProofStop::Refuted(ProofItem::Total));
    }
    Ok(())
}

/// What a proof shows that no orders of the problem cost less than: the sum of the targets of its parts. Its rules and its
/// parts are checked as `check_proof` does, and the first item that is refused is named.
pub fn check_bound(alloc: Global, problem: Problem, proof: &Proof) -> Result<u64, ProofStop>
    ensures accepted { IfOk result (λ _. bound_refusal problem (plain_proof proof.now) ≡ None) }
    ensures sum { IfOk result (λ bound. bound ≡ targets (plain_proof proof.now).parts) }
    ensures refused { IfErr result (IsCause (bound_refusal problem (plain_proof proof.now))) }
    ensures bound { IfOk result (IsLowerBound problem.segs problem.terms) }
{
    let last = after_rules(alloc, problem, proof.rules.as_slice())?;
    let parts = parts_of(alloc, &last)?;
    let proofs = proof.parts.as_slice();
    check_parts(alloc, &last, parts.as_slice(), proofs)?;
    Ok(target_sum(proofs))
}

/// Refuses the first part that is not the problem's in its turn, or has a tree that isn't accepted. The numbers and the
/// terms of all parts, and one prefix, are made once.
fn check_parts(
    alloc: Global,
    problem: &Problem,
    parts: &[Vec<SegId>],
    proofs: &[Part],
) -> Result<(), ProofStop>
    requires problem { IsProblem problem.now }
    requires parts { AreParts problem.now.segs problem.now.terms (part_lists parts.now) }
    requires trees { AllByRecursion (λ p. IsPartTree p.tree) (map plain_part proofs.now) }
    ensures accepted { IfOk result (λ _. first_part problem.now.segs problem.now.terms 0 (part_lists parts.now) (map plain_part proofs.now) ≡ None) }
    ensures refused { IfErr result (IsCause (first_part problem.now.segs problem.now.terms 0 (part_lists parts.now) (map plain_part proofs.now))) }
{
    let numbers = numbers_of(alloc, problem, parts)?;
    let groups = terms_by_part(alloc, problem, parts, numbers.as_slice())?;
    let mut prefix = Prefix::none(alloc, problem)?;
    for k in 0..parts.len() {
        if k >= proofs.len() {
            return Err(part_alone(alloc, k as u32));
        }
        check_part(
            alloc,
            problem,
            k as u32,
            parts[k].as_slice(),
            numbers.as_slice(),
            groups[k].as_slice(),
            &mut prefix,
            &proofs[k],
        )?;
    }
    if proofs.len() > parts.len() {
        return Err(part_alone(alloc, parts.len() as u32));
    }
    Ok(())
}

/// Part `k` is refused with no lines.
fn part_alone(alloc: Global, k: u32) -> ProofStop
    ensures { result ≡ ProofStop.Refuted (ProofItem.Part k []) }
{
    ProofStop::Refuted(ProofItem::Part {
        index: k,
        after: Sequence::of(Vec::new(alloc)),
    })
}
