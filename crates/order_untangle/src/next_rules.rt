//! The least rule that applies to a problem under way.

ghost use Rattle.std.specs.Prelude.{◌≡◌, IfOk};
ghost use Rattle.order_model.specs.Problems.{IsProblem};
ghost use Rattle.order_rules.specs.Untangling.{first_merge, first_divide, next_rule};
ghost use Rattle.order_untangle.specs.Waits.{AllWait};
ghost use Rattle.order_untangle.specs.Works.{parts_of};

use crate::left_terms::LeftTerms;
use crate::looking::{group_at, merge_flip};
use crate::waiting::Waiting;
use map_base::{LineId, NoMemory, Sequence};
use order_model::Term;
use order_values::Rule;
use std::alloc::Global;

/// The least rule that applies, none where the problem is untangled.
pub(crate) fn next_rule(
    alloc: Global,
    segs: &[Sequence<LineId>],
    terms: &LeftTerms,
    waiting: &mut Waiting,
    room: &mut Vec<Term>,
) -> Result<Option<Rule>, NoMemory>
    requires problem { IsProblem (parts_of segs.now terms.now) }
    requires wait { AllWait (parts_of segs.now terms.now) waiting.old.merges.keys waiting.old.divides.keys }
    ensures rule { IfOk result (λ rule. rule ≡ next_rule (parts_of segs.now terms.now)) }
    ensures wait { AllWait (parts_of segs.now terms.now) waiting.new.merges.keys waiting.new.divides.keys }
{
    match next_merge(alloc, segs, terms, waiting, room)? {
        Some(rule) => Ok(Some(rule)),
        None => next_divide(alloc, segs, terms, waiting, room),
    }
}

/// The least merge that applies, if there is one. Merges before it wait no longer.
fn next_merge(
    alloc: Global,
    segs: &[Sequence<LineId>],
    terms: &LeftTerms,
    waiting: &mut Waiting,
    room: &mut Vec<Term>,
) -> Result<Option<Rule>, NoMemory>
    requires problem { IsProblem (parts_of segs.now terms.now) }
    requires wait { AllWait (parts_of segs.now terms.now) waiting.old.merges.keys waiting.old.divides.keys }
    ensures rule { IfOk result (λ rule. rule ≡ first_merge (parts_of segs.now terms.now)) }
    ensures wait { AllWait (parts_of segs.now terms.now) waiting.new.merges.keys waiting.new.divides.keys }
{
    while let Some((into, from)) = waiting.first_merge() {
        if let Some(flip) = merge_flip(alloc, segs, terms, room, into, from)? {
            return Ok(Some(Rule::Merge { into, from, flip }));
        }
        waiting.drop_merge();
    }
    Ok(None)
}

/// The least division that applies, if there is one. Segments before it wait no longer.
fn next_divide(
    alloc: Global,
    segs: &[Sequence<LineId>],
    terms: &LeftTerms,
    waiting: &mut Waiting,
    room: &mut Vec<Term>,
) -> Result<Option<Rule>, NoMemory>
    requires problem { IsProblem (parts_of segs.now terms.now) }
    requires wait { AllWait (parts_of segs.now terms.now) waiting.old.merges.keys waiting.old.divides.keys }
    ensures rule { IfOk result (λ rule. rule ≡ first_divide (parts_of segs.now terms.now)) }
    ensures wait { AllWait (parts_of segs.now terms.now) waiting.new.merges.keys waiting.new.divides.keys }
{
    while let Some(seg) = waiting.first_divide() {
        if let Some(first) = group_at(alloc, segs, terms, room, seg)? {
            return Ok(Some(Rule::Divide { seg, first }));
        }
        waiting.drop_divide();
    }
    Ok(None)
}
