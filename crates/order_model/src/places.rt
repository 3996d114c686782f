//! The places of lines in orders.

ghost use Rattle.std.specs.Prelude.{◌≡◌, ◌<◌, [], length, All, IfOk, IsPermutation};
ghost use Rattle.graph_core.specs.Consistent.{AreRising};
ghost use Rattle.order_model.specs.Costs.{AreOrders};
ghost use Rattle.order_model.specs.Places.{places_in, no_place, ArePlaces, AreShort, tables_of};

use crate::ranks::rank;
use map_base::{LineId, NoMemory, Sequence};
use std::alloc::Global;

/// What stands in a table for a line that has no place.
pub const NO_PLACE: u32 = u32::MAX;

/// For each segment the place of each of its lines in the segment's order.
pub(crate) fn places_of(
    alloc: Global,
    segs: &[Sequence<LineId>],
    lists: &[Sequence<LineId>],
) -> Result<Vec<Vec<u32>>, NoMemory>
    requires rising { All AreRising segs.now }
    requires short { AreShort segs.now }
    requires orders { AreOrders segs.now lists.now }
    ensures { IfOk result (λ places. ArePlaces segs.now lists.now (tables_of places.items)) }
{
    let mut places = Vec::new(alloc);
    for s in 0..segs.len() {
        let lines = segs[s].as_slice();
        let order = lists[s].as_slice();
        places.push(places_in(alloc, lines, order)?)?;
    }
    Ok(places)
}

/// The place of each of these lines in an order of them.
fn places_in(alloc: Global, lines: &[LineId], order: &[LineId]) -> Result<Vec<u32>, NoMemory>
    requires rising { AreRising lines.now }
    requires short { length lines.now < no_place }
    requires order { IsPermutation lines.now order.now }
    ensures { IfOk result (λ places. places.items ≡ places_in lines.now order.now) }
{
    let mut places = vec![in alloc; NO_PLACE; lines.len()]?;
    put_places(places.as_mut_slice(), lines, order);
    Ok(places)
}

/// Writes into a table with no place yet the place of each of these lines in an order of them.
fn put_places(places: &mut [u32], lines: &[LineId], order: &[LineId])
    requires none { places.old ≡ places_in lines.now [] }
    requires rising { AreRising lines.now }
    requires short { length lines.now < no_place }
    requires order { IsPermutation lines.now order.now }
    ensures { places.new ≡ places_in lines.now order.now }
{
    for (i, line) in order.iter().enumerate() {
        places[rank(lines, *line)] = i as u32;
    }
}
