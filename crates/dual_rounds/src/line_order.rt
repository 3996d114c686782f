//! An order of a segment that can be written anew in place.

ghost use Rattle.std.specs.Prelude.{◌≡◌, ◌<◌, ◌≤◌, length, map, IfOk, slice_index_or, slice_set};

use map_base::{LineId, NoMemory, Sequence};
use std::alloc::Global;
use std::marker::Model;

/// Lines in an order; seen as their list.
#[derive(Debug, Drop)]
pub struct LineOrder {
    lines: Vec<LineId>,
}

impl Model for LineOrder {
    ghost use Rattle.std.specs.Prelude.{List};
    ghost use Rattle.map_base.specs.declared.ids.LineId.{LineId};

    ghost Value = { List LineId };

    ghost view = { λ o. o.lines.items };
}

impl LineOrder {
    ghost use Rattle.std.specs.Prelude.{◌≡◌, ◌<◌, length, slice_set, IfOk};

    /// These lines in their order.
    pub fn copy_of(alloc: Global, lines: &[LineId]) -> Result<LineOrder, NoMemory>
        ensures { IfOk result (λ o. o ≡ lines.now) }
    {
        Ok(LineOrder {
            lines: Vec::from_slice(alloc, lines)?,
        })
    }

    /// The lines.
    pub fn as_slice(&self) -> &[LineId]
        ensures { result.now ≡ self.now }
    {
        self.lines.as_slice()
    }

    /// Takes another order of as many lines.
    pub fn take(&mut self, lines: &[LineId])
        requires { length lines.now ≡ length self.old }
        ensures { self.new ≡ lines.now }
    {
        self.lines.as_mut_slice().copy_from_slice(lines);
    }

    /// Another line stands at a place.
    pub fn set(&mut self, i: usize, line: LineId)
        requires { i < length self.old }
        ensures { self.new ≡ slice_set self.old i line }
    {
        self.lines[i] = line;
    }
}

/// A copy of the lists of a problem's segments.
pub fn orders_of(alloc: Global, lists: &[Sequence<LineId>]) -> Result<Vec<LineOrder>, NoMemory>
    ensures { IfOk result (λ orders. orders.items ≡ lists.now) }
{
    let mut orders = Vec::with_capacity(alloc, lists.len())?;
    for lines in lists {
        orders.push(LineOrder::copy_of(alloc, lines.as_slice())?)?;
    }
    Ok(orders)
}

/// One order of a list is replaced by another of as many lines.
pub fn set_order(orders: &mut [LineOrder], s: usize, lines: &[LineId])
    requires known { s < length orders.old }
    requires same { length lines.now ≡ length (slice_index_or orders.old s lines.now) }
    ensures { orders.new ≡ slice_set orders.old s lines.now }
{
    orders[s].take(lines);
}

/// Orders take the place of others of as many lines each.
pub fn copy_orders(from: &[LineOrder], to: &mut [LineOrder])
    requires { map (λ o. length o) from.now ≡ map (λ o. length o) to.old }
    ensures { to.new ≡ from.now }
{
    for s in 0..from.len() {
        set_order(to, s, from[s].as_slice());
    }
}
