//! The untangling of a problem, and rules that are given, done one after another.

ghost use Rattle.std.specs.Prelude.{◌≡◌, IfOk};
ghost use Rattle.std.specs.Result.{result_err};
ghost use Rattle.order_rules.specs.Untangling.{first_refused, after_rules, untangling};

use crate::looking::rule_applies;
use crate::next_rules::next_rule;
use crate::work::{after_rule, begun, problem_of};
use map_base::{NoMemory, Sequence};
use order_model::Problem;
use order_values::Rule;
use std::alloc::Global;

/// Does the least rule that applies to the problem, and so on until none is left: the least merge, or the least division
/// by the closure of a line where no merge applies. Gives the rules in turn and the problem that they make.
pub fn untangle(alloc: Global, problem: Problem) -> Result<(Sequence<Rule>, Problem), NoMemory>
    ensures rules { IfOk result (λ u. u.0 ≡ (untangling problem).0) }
    ensures problem { IfOk result (λ u. u.1 ≡ (untangling problem).1) }
{
    let mut work = begun(alloc, problem)?;
    let mut rules = Vec::new(alloc);
    while let Some(rule) = next_rule(
        alloc,
        work.segs.as_slice(),
        &work.terms,
        &mut work.waiting,
        &mut work.room,
    )? {
        work = after_rule(alloc, work, &rule)?;
        rules.push(rule)?;
    }
    let last = problem_of(alloc, work)?;
    Ok((Sequence::of(rules), last))
}

/// Does rules that are given, one after another, each where it applies to the problem that those before it make. Gives the
/// last problem, or the number of the first rule that does not apply, counted from 0. It takes time near the terms that the
/// rules touch.
pub fn apply_rules(
    alloc: Global,
    problem: Problem,
    rules: &[Rule],
) -> Result<Result<Problem, usize>, NoMemory>
    ensures refused { IfOk result (λ done. result_err done ≡ first_refused 0 problem rules.now) }
    ensures problem { IfOk result (λ done. IfOk done (λ p. p ≡ after_rules problem rules.now)) }
{
    let mut work = begun(alloc, problem)?;
    for i in 0..rules.len() {
        let rule = &rules[i];
        if !rule_applies(
            alloc,
            work.segs.as_slice(),
            &work.terms,
            &mut work.room,
            rule,
        )? {
            return Ok(Err(i));
        }
        work = after_rule(alloc, work, rule)?;
    }
    let last = problem_of(alloc, work)?;
    Ok(Ok(last))
}
