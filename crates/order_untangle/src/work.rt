//! A problem while it is untangled.

ghost use Rattle.std.specs.Prelude.{◌≡◌, ◌≤◌, IfOk, OnOk, IsTrue};
ghost use Rattle.order_rules.specs.Merging.{merge_applies, merged};
ghost use Rattle.order_rules.specs.Dividing.{divide_applies, divided};
ghost use Rattle.order_rules.specs.Untangling.{rule_applies, after_rule};
ghost use Rattle.order_untangle.specs.Waits.{AreLooked};
ghost use Rattle.order_untangle.specs.Works.{IsWork, parts_of};

use crate::left_terms::LeftTerms;
use crate::looking::look_again;
use crate::waiting::Waiting;
use map_base::{LineId, NoMemory, SegId, Sequence};
use order_model::{Problem, ProblemParts, Term};
use order_rules::{lines_on, others, with_lines};
use order_values::Rule;
use std::alloc::Global;

/// A problem under way. Each rule that applies to it waits: a rule changes what can be done at the segments that it touches
/// alone, so after it these are looked at again.
#[derive(Drop)]
pub(crate) struct Work {
    /// The lines of each segment.
    pub(crate) segs: Vec<Sequence<LineId>>,
    /// The terms that are left.
    pub(crate) terms: LeftTerms,
    /// What is to be looked at.
    pub(crate) waiting: Waiting,
    /// Room for the terms of one segment.
    pub(crate) room: Vec<Term>,
}

/// A problem before any rule.
pub(crate) fn begun(alloc: Global, problem: Problem) -> Result<Work, NoMemory>
    ensures parts { IfOk result (λ w. parts_of w.segs.items w.terms ≡ problem) }
    ensures work { IfOk result (λ w. IsWork w.segs.items w.terms w.waiting.merges.keys w.waiting.divides.keys) }
{
    let parts = problem.into_parts();
    let segs = parts.segs.into_vec();
    let terms = LeftTerms::of(alloc, segs.len(), parts.terms.into_vec())?;
    let mut waiting = Waiting::none(alloc);
    let mut room = Vec::new(alloc);
    look_at_all(&terms, segs.len(), &mut waiting, &mut room)?;
    Ok(Work {
        segs,
        terms,
        waiting,
        room,
    })
}

/// Adds what may be done at so many segments to what waits.
fn look_at_all(
    terms: &LeftTerms,
    count: usize,
    waiting: &mut Waiting,
    room: &mut Vec<Term>,
) -> Result<(), NoMemory>
    requires { count ≤ 20000000 }
    ensures { OnOk result (AreLooked terms.now.terms count waiting.new.merges.keys waiting.new.divides.keys) }
{
    for s in 0..count {
        look_again(terms, waiting, room, SegId(s as u32))?;
    }
    Ok(())
}

/// The problem after a rule that applies.
pub(crate) fn after_rule(alloc: Global, work: Work, rule: &Rule) -> Result<Work, NoMemory>
    requires work { IsWork work.segs.items work.terms work.waiting.merges.keys work.waiting.divides.keys }
    requires applies { IsTrue (rule_applies (parts_of work.segs.items work.terms) rule.now) }
    ensures parts { IfOk result (λ w. parts_of w.segs.items w.terms ≡ after_rule (parts_of work.segs.items work.terms) rule.now) }
    ensures work { IfOk result (λ w. IsWork w.segs.items w.terms w.waiting.merges.keys w.waiting.divides.keys) }
{
    match rule {
        Rule::Merge { into, from, flip } => merged(alloc, work, *into, *from, *flip),
        Rule::Divide { seg, first } => divided(alloc, work, *seg, first.as_slice()),
    }
}

/// The terms of `from` go to `into`, and its lines are taken away.
fn merged(alloc: Global, work: Work, into: SegId, from: SegId, flip: bool) -> Result<Work, NoMemory>
    requires work { IsWork work.segs.items work.terms work.waiting.merges.keys work.waiting.divides.keys }
    requires applies { IsTrue (merge_applies (parts_of work.segs.items work.terms) into from flip) }
    ensures parts { IfOk result (λ w. parts_of w.segs.items w.terms ≡ merged (parts_of work.segs.items work.terms) into from flip) }
    ensures work { IfOk result (λ w. IsWork w.segs.items w.terms w.waiting.merges.keys w.waiting.divides.keys) }
{
    let Work {
        segs,
        terms,
        mut waiting,
        mut room,
    } = work;
    let terms = terms.merged(alloc, into, from, flip)?;
    let segs = with_lines(segs, from, Vec::new(alloc));
    look_again(&terms, &mut waiting, &mut room, into)?;
    look_again(&terms, &mut waiting, &mut room, from)?;
    Ok(Work {
        segs,
        terms,
        waiting,
        room,
    })
}

/// The group stays on the segment, and a new one has its other lines and their terms.
fn divided(alloc: Global, work: Work, seg: SegId, group: &[LineId]) -> Result<Work, NoMemory>
    requires work { IsWork work.segs.items work.terms work.waiting.merges.keys work.waiting.divides.keys }
    requires applies { IsTrue (divide_applies (parts_of work.segs.items work.terms) seg group.now) }
    ensures parts { IfOk result (λ w. parts_of w.segs.items w.terms ≡ divided (parts_of work.segs.items work.terms) seg group.now) }
    ensures work { IfOk result (λ w. IsWork w.segs.items w.terms w.waiting.merges.keys w.waiting.divides.keys) }
{
    let Work {
        segs,
        terms,
        mut waiting,
        mut room,
    } = work;
    let new = SegId(segs.len() as u32);
    let rest = others(alloc, lines_on(segs.as_slice(), seg), group)?;
    let terms = terms.divided(alloc, seg, group, rest.as_slice())?;
    let mut segs = with_lines(segs, seg, Vec::from_slice(alloc, group)?);
    segs.push(Sequence::of(rest))?;
    look_again(&terms, &mut waiting, &mut room, seg)?;
    look_again(&terms, &mut waiting, &mut room, new)?;
    Ok(Work {
        segs,
        terms,
        waiting,
        room,
    })
}

/// The problem that is left.
pub(crate) fn problem_of(alloc: Global, work: Work) -> Result<Problem, NoMemory>
    requires work { IsWork work.segs.items work.terms work.waiting.merges.keys work.waiting.divides.keys }
    ensures { IfOk result (λ p. p ≡ parts_of work.segs.items work.terms) }
{
    let Work { segs, terms, .. } = work;
    let left = terms.into_terms(alloc)?;
    Ok(Problem::new(ProblemParts {
        segs: Sequence::of(segs),
        terms: Sequence::of(left),
    }))
}
