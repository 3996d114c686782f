//! The least order of the lines of a segment.

ghost use Rattle.std.specs.Prelude.{◌≡◌, ◌≤◌, ◌<◌, List, length, All};
ghost use Rattle.map_base.specs.declared.ids.LineId.{LineId};
ghost use Rattle.graph_core.specs.Consistent.{AreRising};
ghost use Rattle.least_orders.specs.OrderCosts.{PairCosts};
ghost use Rattle.least_orders.specs.LeastOrders.{least_cost, least_order};
ghost use Rattle.least_orders.specs.Rows.{AreRows, TellCosts};
ghost use Rattle.subset_program.specs.PlainRows.{plain_rows};
ghost use Rattle.dual_shares.specs.Writing.{IsWritten, lines_at_places};

use map_base::LineId;
use subset_program::{PairRows, SubsetProgram};

/// Writes the least order of these lines under the rows, of those that keep the settled pairs, and tells what it costs.
/// Writes nothing where no order keeps them. `places` is room to work in.
pub fn least_order(
    program: &mut SubsetProgram,
    rows: &PairRows,
    lines: &[LineId],
    places: &mut [u32],
    order: &mut [LineId],
) -> Option<i64>
    requires rows { AreRows (plain_rows rows.now) }
    requires count { rows.now.count ≡ length lines.now }
    requires rising { AreRising lines.now }
    requires room { rows.now.count ≤ program.old }
    requires places { length places.old ≡ length lines.now }
    requires order { length order.old ≡ length lines.now }
    ensures cost { (costs : PairCosts) (settled : List (LineId × LineId)) → TellCosts (plain_rows rows.now) costs settled lines.now
        → result ≡ least_cost costs settled lines.now }
    ensures order { (costs : PairCosts) (settled : List (LineId × LineId)) → TellCosts (plain_rows rows.now) costs settled lines.now
        → IsWritten (least_order costs settled lines.now) order.old order.new }
    ensures room { program.new ≡ program.old }
{
    let cost = program.least_order(rows, places)?;
    take_places(lines, places, order);
    Some(cost)
}

/// Writes the lines at these places.
fn take_places(lines: &[LineId], places: &[u32], order: &mut [LineId])
    requires places { length places.now ≡ length lines.now }
    requires order { length order.old ≡ length lines.now }
    requires known { All (λ k. k < length lines.now) places.now }
    ensures { order.new ≡ lines_at_places lines.now places.now }
{
    for i in 0..order.len() {
        let place = places[i] as usize;
        order[i] = lines[place];
    }
}
