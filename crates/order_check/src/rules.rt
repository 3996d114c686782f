//! The rules of a proof, applied in turn.

ghost use Rattle.std.specs.Prelude.{◌≡◌, IfOk, IfErr, None};
ghost use Rattle.order_model.specs.Problems.{IsProblem};
ghost use Rattle.order_rules.specs.Untangling.{after_rules, first_refused};
ghost use Rattle.order_check.specs.Verdict.{rule_refusal, IsCause};

use crate::refusal::{ProofItem, ProofStop};
use order_model::Problem;
use order_untangle::apply_rules;
use order_values::Rule;
use std::alloc::Global;

/// The problem that the rules make, each of which has to apply to the problem that those before it make. The first that
/// doesn't is refused. Where there are no rules, it is the problem itself.
pub(crate) fn after_rules(
    alloc: Global,
    problem: Problem,
    rules: &[Rule],
) -> Result<Problem, ProofStop>
    requires { IsProblem problem }
    ensures problem { IsProblem problem }
    ensures last { IfOk result (λ p. p ≡ after_rules problem rules.now) }
    ensures accepted { IfOk result (λ _. first_refused 0 problem rules.now ≡ None) }
    ensures refused { IfErr result (IsCause (rule_refusal (first_refused 0 problem rules.now))) }
{
    if rules.is_empty() {
        return Ok(problem);
    }
    match apply_rules(alloc, problem, rules)? {
        Ok(last) => Ok(last),
        Err(index) => Err(ProofStop::Refuted(ProofItem::Rule {
            index: index as u32,
        })),
    }
}
