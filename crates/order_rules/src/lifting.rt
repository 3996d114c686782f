//! Orders of a problem from orders of what rules make of it.

ghost use Rattle.std.specs.Prelude.{◌≡◌, ◌-◌, ◌++◌, [], length, take, reverse, IfOk, if◌then◌else◌, slice_set, slice_index_or};
ghost use Rattle.order_model.specs.Problems.{lines_on};
ghost use Rattle.order_rules.specs.Lifting.{lifted, lifted_all};

use crate::terms::lines_on;
use map_base::{LineId, NoMemory, SegId, Sequence};
use order_values::{Orders, Rule};
use std::alloc::Global;

/// The orders of a problem that these orders of the problem after the rules stand for. Where the rules apply in turn they
/// cost the same there. After a merge `from` has the order of `into`, or its reverse; after a division the segment has
/// the order of its group and then that of the last segment, which goes.
pub fn lift(alloc: Global, rules: &[Rule], orders: Orders) -> Result<Orders, NoMemory>
    ensures { IfOk result (λ q. q.lists ≡ lifted_all rules.now orders.lists) }
{
    let mut lists = orders.lists.into_vec();
    for done in 0..rules.len() {
        lists = lifted(alloc, &rules[rules.len() - 1 - done], lists)?;
    }
    Ok(Orders {
        lists: Sequence::of(lists),
    })
}

/// The orders before one rule.
fn lifted(
    alloc: Global,
    rule: &Rule,
    lists: Vec<Sequence<LineId>>,
) -> Result<Vec<Sequence<LineId>>, NoMemory>
    ensures { IfOk result (λ q. q.items ≡ lifted rule.now lists.items) }
{
    match rule {
        Rule::Merge { into, from, flip } => shared(alloc, lists, *into, *from, *flip),
        Rule::Divide { seg, .. } => joined(alloc, lists, *seg),
    }
}

/// Orders in which `from` has the order of `into`, or with `flip` its reverse.
fn shared(
    alloc: Global,
    lists: Vec<Sequence<LineId>>,
    into: SegId,
    from: SegId,
    flip: bool,
) -> Result<Vec<Sequence<LineId>>, NoMemory>
    ensures { IfOk result (λ q. q.items ≡ slice_set lists.items from.0 (if flip then reverse (lines_on lists.items into) else lines_on lists.items into)) }
{
    let mut order = Vec::from_slice(alloc, lines_on(lists.as_slice(), into))?;
    if flip {
        order.reverse();
    }
    Ok(with_order(lists, from, order))
}

/// Orders in which a segment has its order and then that of the last segment, which goes.
fn joined(
    alloc: Global,
    mut lists: Vec<Sequence<LineId>>,
    seg: SegId,
) -> Result<Vec<Sequence<LineId>>, NoMemory>
    ensures { IfOk result (λ q. let last = length lists.items - 1 in
        q.items ≡ slice_set (take last lists.items) seg.0 (lines_on lists.items seg ++ slice_index_or lists.items last [])) }
{
    let mut order = Vec::from_slice(alloc, lines_on(lists.as_slice(), seg))?;
    let Some(last) = lists.pop() else {
        return Ok(lists);
    };
    order.extend_from_slice(last.as_slice())?;
    Ok(with_order(lists, seg, order))
}

/// Orders in which a segment has this one, if there is such a segment.
fn with_order(
    mut lists: Vec<Sequence<LineId>>,
    seg: SegId,
    order: Vec<LineId>,
) -> Vec<Sequence<LineId>>
    ensures { result.items ≡ slice_set lists.items seg.0 order.items }
{
    if (seg.0 as usize) < lists.len() {
        lists[seg.0 as usize] = Sequence::of(order);
    }
    lists
}
