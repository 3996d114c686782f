//! The orders nearest to averages.

ghost use Rattle.std.specs.Prelude.{◌≡◌, ◌+◌, ◌<◌, ◌≤◌, ℕ, length, All, slice_index_or, slice_set};
ghost use Rattle.std.specs.Prelude.{[], pos, ◌-ℤ◌, unsigned_abs};
ghost use Rattle.graph_core.specs.Consistent.{AreRising};
ghost use Rattle.order_model.specs.Costs.{AreOrders};
ghost use Rattle.least_orders.specs.OrderCosts.{summed_costs};
ghost use Rattle.dual_shares.specs.RowSteps.{AreTwoOf};
ghost use Rattle.dual_shares.specs.CostRows.{HasRoom, Tell, IsAdded, AreSmallCosts};
ghost use Rattle.dual_ascent.specs.Averages.{ArePairs, nearest_on, averaged_orders};
ghost use Rattle.dual_ascent.specs.SegmentCosts.{distance_costs};
ghost use Rattle.dual_rounds.specs.Ranges.{IsAverage, averages_of};
ghost use Rattle.dual_orders.specs.Parts.{IsPart};
ghost use Rattle.dual_orders.specs.SettledPairs.{pairs_of, IsPairOn};
ghost use Rattle.dual_orders.specs.Solvers.{HasRoomFor};
ghost use Rattle.dual_orders.specs.Values.{IsOfTwo};

use crate::part::Part;
use crate::settled::put_ahead;
use crate::solver::Solver;
use dual_ascent::PairAverage;
use dual_bound::SettledPair;
use dual_rounds::{ALWAYS, LineOrder, set_order};
use dual_shares::CostRows;
use map_base::LineId;

/// Puts in place on each segment, of the orders that keep the settled pairs, the one that is nearest to its averages.
pub fn put_averaged(
    part: &Part,
    solver: &mut Solver,
    settled: &[SettledPair],
    averages: &[Vec<PairAverage>],
    orders: &mut [LineOrder],
)
    requires part { IsPart part.now }
    requires room { HasRoomFor part.now.problem.now solver.old }
    requires settled { All (IsPairOn part.now.problem.now.segs) settled.now }
    requires each { length averages.now ≡ length part.now.problem.now.segs }
    requires pairs { ArePairs part.now.problem.now (averages_of averages.now) }
    requires within { All (All IsAverage) (averages_of averages.now) }
    requires orders { AreOrders part.now.problem.now.segs orders.old }
    ensures orders { orders.new ≡ averaged_orders part.now.problem.now (pairs_of settled.now) (averages_of averages.now) }
    ensures room { HasRoomFor part.now.problem.now solver.new }
{
    for s in 0..part.len() {
        put_nearest(part, solver, settled, averages, s, orders);
    }
}

/// Puts in place on one segment, of the orders that keep the settled pairs, the one that is nearest to its averages.
fn put_nearest(
    part: &Part,
    solver: &mut Solver,
    settled: &[SettledPair],
    averages: &[Vec<PairAverage>],
    s: usize,
    orders: &mut [LineOrder],
)
    requires part { IsPart part.now }
    requires room { HasRoomFor part.now.problem.now solver.old }
    requires settled { All (IsPairOn part.now.problem.now.segs) settled.now }
    requires each { length averages.now ≡ length part.now.problem.now.segs }
    requires pairs { ArePairs part.now.problem.now (averages_of averages.now) }
    requires within { All (All IsAverage) (averages_of averages.now) }
    requires known { s < length part.now.problem.now.segs }
    requires orders { AreOrders part.now.problem.now.segs orders.old }
    ensures orders { orders.new ≡ slice_set orders.old s (nearest_on part.now.problem.now (pairs_of settled.now) (averages_of averages.now) (record { 0 = s })) }
    ensures room { HasRoomFor part.now.problem.now solver.new }
{
    put_distances(part.lines(s), averages[s].as_slice(), &mut solver.rows);
    put_ahead(part, s, settled, solver);
    let lines = part.lines(s);
    solver.solve(lines);
    set_order(orders, s, solver.order(lines.len()));
}

/// What their averages make each two of these lines cost.
fn put_distances(lines: &[LineId], averages: &[PairAverage], rows: &mut CostRows)
    requires rising { AreRising lines.now }
    requires few { length lines.now ≤ 16 }
    requires pairs { All (IsOfTwo lines.now) averages.now }
    requires few_pairs { length averages.now ≤ 1000000 }
    requires within { All IsAverage averages.now }
    requires room { HasRoom rows.old }
    ensures room { HasRoom rows.new }
    ensures count { rows.new.count ≡ length lines.now }
    ensures told { Tell lines.now (summed_costs distance_costs averages.now) rows.new }
    ensures small { AreSmallCosts 4000000 rows.new }
{
    rows.clear(lines.len());
    for average in averages {
        add_distance(lines, *average, rows);
    }
}

/// Adds what the average of two lines makes them cost.
fn add_distance(lines: &[LineId], average: PairAverage, rows: &mut CostRows)
    requires rising { AreRising lines.now }
    requires few { length lines.now ≤ 16 }
    requires count { rows.old.count ≡ length lines.now }
    requires two { IsOfTwo lines.now average }
    requires within { IsAverage average }
    requires room { HasRoom rows.old }
    requires small { AreSmallCosts 3999997 rows.old }
    ensures room { HasRoom rows.new }
    ensures added { IsAdded lines.now (distance_costs average) rows.old rows.new }
    ensures small { (m : ℕ) → m ≤ 3999997 → AreSmallCosts m rows.old → AreSmallCosts (m + 3) rows.new }
{
    let lesser = average.lesser;
    let greater = average.greater;
    rows.add_before(lines, lesser, greater, i64::from(average.swapped));
    rows.add_before(lines, greater, lesser, i64::from(ALWAYS - average.swapped));
    rows.add_beside(lines, lesser, greater, nearness(average.beside));
}

/// How often two lines did not stand side by side, less half of all times.
fn nearness(beside: u32) -> i64
    requires { beside ≤ 65536 }
    ensures value { result ≡ pos 32768 -ℤ pos beside }
    ensures small { unsigned_abs result ≤ 65536 }
{
    32768 - i64::from(beside)
}
