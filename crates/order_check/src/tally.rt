//! What the terms of a part come to with no prices, kept while lines are placed: the sum of the decided terms, the table of
//! slots, and the sum over them.

ghost use Rattle.std.specs.Prelude.{◌≡◌, ◌<◌, length, false, Contains, IfOk, OnOk, OnErr};
ghost use Rattle.order_model.specs.Problems.{lines_on};
ghost use Rattle.order_model.specs.Prefixes.{first_placed, is_placed, IsPrefixOf};
ghost use Rattle.order_model.specs.Completions.{placed_more};
ghost use Rattle.order_check.specs.Asking.{IsAsked, HasTable};
ghost use Rattle.order_check.specs.Placings.{placing_of, changed_terms};
ghost use Rattle.order_check.specs.Counting.{placed_less, ArePicked, IsTally, IsTallyWithout, IsSameBeside};

use crate::asked::Asked;
use crate::picking::changed_terms;
use crate::placing::placing_of;
use crate::slot::{PartTerm, SlotCost, Sums};
use crate::slot_costs::{clear, count};
use map_base::{LineId, NoMemory, SegId};
use order_model::Prefix;
use std::alloc::Global;

/// The tally of all terms, whatever stood in the table.
pub(crate) fn first_tally(asked: &Asked, prefix: &Prefix, costs: &mut [SlotCost]) -> Sums
    requires asked { IsAsked asked.now }
    requires fits { IsPrefixOf asked.now.problem.now.segs prefix.now }
    requires table { HasTable asked.now costs.old }
    ensures { IsTally asked.now prefix.now.placed result costs.new }
{
    clear(costs);
    let terms = asked.table.terms.as_slice();
    count(asked.problem, prefix, terms, costs, 0, false)
}

/// Places a line, keeps up the tally, and answers the terms that this may have changed. They are taken off, and put on again.
#[inline(never)]
pub(crate) fn place_line(
    alloc: Global,
    asked: &Asked,
    prefix: &mut Prefix,
    sums: &mut Sums,
    costs: &mut [SlotCost],
    seg: SegId,
    line: LineId,
) -> Result<Vec<PartTerm>, NoMemory>
    requires asked { IsAsked asked.now }
    requires fits { IsPrefixOf asked.now.problem.now.segs prefix.old }
    requires seg { seg.0 < length asked.now.problem.now.segs }
    requires line { Contains (lines_on asked.now.problem.now.segs seg) line }
    requires unplaced { is_placed (lines_on prefix.old.placed seg) line ≡ false }
    requires table { HasTable asked.now costs.old }
    requires tally { IsTally asked.now prefix.old.placed sums.old costs.old }
    ensures fits { IsPrefixOf asked.now.problem.now.segs prefix.new }
    ensures tally { IsTally asked.now prefix.new.placed sums.new costs.new }
    ensures placed { OnOk result (prefix.new.placed ≡ placed_more asked.now.problem.now.segs prefix.old.placed seg line) }
    ensures unchanged { OnErr result (prefix.new.placed ≡ prefix.old.placed) }
    ensures changed { IfOk result (λ v. v.items ≡ changed_terms (placing_of asked.now.problem.now.segs prefix.old.placed seg line)
        (lines_on asked.now.problem.now.segs seg) (lines_on prefix.old.placed seg) asked.now.table.now.terms.items) }
{
    let placing = placing_of(asked.problem, prefix, seg, line);
    let changed = changed_terms(alloc, asked, prefix, placing)?;
    let some = changed.as_slice();
    let beside = take_off(asked, prefix, some, *sums, costs);
    prefix.place(asked.problem, seg, line);
    *sums = put_on(asked, prefix, some, beside, costs);
    Ok(changed)
}

/// Takes back what the last placing on a segment placed, in the same way.
#[inline(never)]
pub(crate) fn take_line_back(
    asked: &Asked,
    prefix: &mut Prefix,
    some: &[PartTerm],
    sums: &mut Sums,
    costs: &mut [SlotCost],
    seg: SegId,
)
    requires asked { IsAsked asked.now }
    requires fits { IsPrefixOf asked.now.problem.now.segs prefix.old }
    requires seg { seg.0 < length asked.now.problem.now.segs }
    requires some { length (first_placed (lines_on asked.now.problem.now.segs seg)) < length (lines_on prefix.old.placed seg) }
    requires table { HasTable asked.now costs.old }
    requires picked { ArePicked asked.now some.now }
    requires same { IsSameBeside some.now asked.now prefix.old.placed (placed_less asked.now.problem.now.segs prefix.old.placed seg) }
    requires tally { IsTally asked.now prefix.old.placed sums.old costs.old }
    ensures fits { IsPrefixOf asked.now.problem.now.segs prefix.new }
    ensures placed { prefix.new.placed ≡ placed_less asked.now.problem.now.segs prefix.old.placed seg }
    ensures tally { IsTally asked.now prefix.new.placed sums.new costs.new }
{
    let beside = take_off(asked, prefix, some, *sums, costs);
    prefix.take_back(asked.problem, seg);
    *sums = put_on(asked, prefix, some, beside, costs);
}

/// Takes some terms of the part off the tally of all.
fn take_off(
    asked: &Asked,
    prefix: &Prefix,
    some: &[PartTerm],
    sums: Sums,
    costs: &mut [SlotCost],
) -> Sums
    requires asked { IsAsked asked.now }
    requires fits { IsPrefixOf asked.now.problem.now.segs prefix.now }
    requires table { HasTable asked.now costs.old }
    requires picked { ArePicked asked.now some.now }
    requires tally { IsTally asked.now prefix.now.placed sums costs.old }
    ensures { IsTallyWithout some.now asked.now prefix.now.placed result costs.new }
{
    let removed = count(asked.problem, prefix, some, costs, sums.least, true);
    Sums {
        decided: sums.decided - removed.decided,
        least: removed.least,
    }
}

/// Puts them onto the tally of the others.
fn put_on(
    asked: &Asked,
    prefix: &Prefix,
    some: &[PartTerm],
    beside: Sums,
    costs: &mut [SlotCost],
) -> Sums
    requires asked { IsAsked asked.now }
    requires fits { IsPrefixOf asked.now.problem.now.segs prefix.now }
    requires table { HasTable asked.now costs.old }
    requires picked { ArePicked asked.now some.now }
    requires tally { IsTallyWithout some.now asked.now prefix.now.placed beside costs.old }
    ensures { IsTally asked.now prefix.now.placed result costs.new }
{
    let added = count(asked.problem, prefix, some, costs, beside.least, false);
    Sums {
        decided: beside.decided + added.decided,
        least: added.least,
    }
}
