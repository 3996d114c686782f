//! What can be done at segments of a problem under way: its terms are read segment by segment.

ghost use Rattle.std.specs.Prelude.{◌≡◌, Bool, IfOk, OnOk, ℕ, ◌||◌, ◌==◌};
ghost use Rattle.std.specs.Option.{option_map};
ghost use Rattle.order_values.specs.declared.rule.Rule.TheVariants.{Merge};
ghost use Rattle.order_model.specs.Problems.{IsProblem, lines_on};
ghost use Rattle.order_rules.specs.Merging.{merge_applies};
ghost use Rattle.order_rules.specs.Dividing.{divide_applies};
ghost use Rattle.order_rules.specs.Untangling.{merge_of, rule_applies};
ghost use Rattle.order_untangle.specs.Segments.{group_of, first_group};
ghost use Rattle.order_untangle.specs.Waits.{has_divide, StillWait, LinksWait};
ghost use Rattle.order_untangle.specs.Works.{parts_of};

use crate::left_terms::LeftTerms;
use crate::segments::{divides_by, flip_by, group_by, merges_by};
use crate::waiting::Waiting;
use map_base::{LineId, NoMemory, SegId, Sequence};
use order_model::Term;
use order_rules::lines_on;
use order_values::Rule;
use std::alloc::Global;

/// The flip with which `from` can take its order from `into`, if it can.
pub(crate) fn merge_flip(
    alloc: Global,
    segs: &[Sequence<LineId>],
    terms: &LeftTerms,
    room: &mut Vec<Term>,
    into: SegId,
    from: SegId,
) -> Result<Option<bool>, NoMemory>
    requires { IsProblem (parts_of segs.now terms.now) }
    ensures { IfOk result (λ flip. option_map (λ (f : Bool). Merge into from f) flip ≡ merge_of (parts_of segs.now terms.now) into from) }
{
    terms.gather(from, room)?;
    let flip = flip_by(
        alloc,
        room.as_slice(),
        lines_on(segs, into),
        lines_on(segs, from),
        into,
        from,
    )?;
    Ok(flip)
}

/// The closure of the least line of a segment whose closure is not all its lines, if there is one.
pub(crate) fn group_at(
    alloc: Global,
    segs: &[Sequence<LineId>],
    terms: &LeftTerms,
    room: &mut Vec<Term>,
    seg: SegId,
) -> Result<Option<Sequence<LineId>>, NoMemory>
    requires { IsProblem (parts_of segs.now terms.now) }
    ensures { IfOk result (λ group. group ≡ first_group (group_of (parts_of segs.now terms.now) seg) (lines_on segs.now seg)) }
{
    terms.gather(seg, room)?;
    let group = group_by(alloc, room.as_slice(), seg, lines_on(segs, seg))?;
    Ok(group)
}

/// Whether a rule applies, which may name what the problem has not.
pub(crate) fn rule_applies(
    alloc: Global,
    segs: &[Sequence<LineId>],
    terms: &LeftTerms,
    room: &mut Vec<Term>,
    rule: &Rule,
) -> Result<bool, NoMemory>
    requires { IsProblem (parts_of segs.now terms.now) }
    ensures { IfOk result (λ applies. applies ≡ rule_applies (parts_of segs.now terms.now) rule.now) }
{
    match rule {
        Rule::Merge { into, from, flip } => {
            merge_applies(alloc, segs, terms, room, *into, *from, *flip)
        }
        Rule::Divide { seg, first } => divide_applies(
            alloc,
            segs,
            terms,
            room,
            *seg,
            first.as_slice(),
        ),
    }
}

/// Whether `from` can take its order from `into`, or with `flip` the reverse.
fn merge_applies(
    alloc: Global,
    segs: &[Sequence<LineId>],
    terms: &LeftTerms,
    room: &mut Vec<Term>,
    into: SegId,
    from: SegId,
    flip: bool,
) -> Result<bool, NoMemory>
    requires { IsProblem (parts_of segs.now terms.now) }
    ensures { IfOk result (λ applies. applies ≡ merge_applies (parts_of segs.now terms.now) into from flip) }
{
    terms.gather(from, room)?;
    let applies = merges_by(
        alloc,
        room.as_slice(),
        lines_on(segs, into),
        lines_on(segs, from),
        into,
        from,
        flip,
    )?;
    Ok(applies)
}

/// Whether a group can stand before the other lines of a segment.
fn divide_applies(
    alloc: Global,
    segs: &[Sequence<LineId>],
    terms: &LeftTerms,
    room: &mut Vec<Term>,
    seg: SegId,
    group: &[LineId],
) -> Result<bool, NoMemory>
    requires { IsProblem (parts_of segs.now terms.now) }
    ensures { IfOk result (λ applies. applies ≡ divide_applies (parts_of segs.now terms.now) seg group.now) }
{
    terms.gather(seg, room)?;
    let applies = divides_by(alloc, room.as_slice(), seg, lines_on(segs, seg), group)?;
    Ok(applies)
}

/// Adds what may be done at a segment to what waits.
pub(crate) fn look_again(
    terms: &LeftTerms,
    waiting: &mut Waiting,
    room: &mut Vec<Term>,
    seg: SegId,
) -> Result<(), NoMemory>
    ensures kept { OnOk result (StillWait waiting.old.merges.keys waiting.new.merges.keys) }
    ensures links { OnOk result (LinksWait terms.now.terms seg waiting.new.merges.keys) }
    ensures divides { OnOk result ((e : ℕ) → has_divide waiting.new.divides.keys e ≡ (seg.0 == e || has_divide waiting.old.divides.keys e)) }
{
    terms.gather(seg, room)?;
    waiting.look_again(seg, room.as_slice())?;
    Ok(())
}
