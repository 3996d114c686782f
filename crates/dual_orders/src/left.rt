//! The orders that are left where all pairs are settled.

ghost use Rattle.std.specs.Prelude.{◌≡◌, ◌<◌, length, All, slice_set};
ghost use Rattle.order_model.specs.Problems.{lines_on};
ghost use Rattle.order_model.specs.Costs.{AreOrders};
ghost use Rattle.least_orders.specs.Arrangements.{kept_orders};
ghost use Rattle.dual_bound.specs.Settled.{settled_on};
ghost use Rattle.dual_ascent.specs.Walks.{first_or, orders_left};
ghost use Rattle.dual_orders.specs.Parts.{IsPart};
ghost use Rattle.dual_orders.specs.SettledPairs.{pairs_of, IsPairOn};
ghost use Rattle.dual_orders.specs.Solvers.{HasRoomFor};

use crate::part::Part;
use crate::settled::put_ahead;
use crate::solver::Solver;
use dual_bound::SettledPair;
use dual_rounds::{LineOrder, set_order};

/// Puts in place on each segment the first of the orders that keep the settled pairs.
pub fn put_left(part: &Part, solver: &mut Solver, settled: &[SettledPair], orders: &mut [LineOrder])
    requires part { IsPart part.now }
    requires room { HasRoomFor part.now.problem.now solver.old }
    requires settled { All (IsPairOn part.now.problem.now.segs) settled.now }
    requires orders { AreOrders part.now.problem.now.segs orders.old }
    ensures orders { orders.new ≡ orders_left part.now.problem.now (pairs_of settled.now) }
    ensures room { HasRoomFor part.now.problem.now solver.new }
{
    for s in 0..part.len() {
        put_first(part, solver, settled, s, orders);
    }
}

/// Puts in place on one segment the first of the orders that keep the settled pairs.
fn put_first(
    part: &Part,
    solver: &mut Solver,
    settled: &[SettledPair],
    s: usize,
    orders: &mut [LineOrder],
)
    requires part { IsPart part.now }
    requires room { HasRoomFor part.now.problem.now solver.old }
    requires settled { All (IsPairOn part.now.problem.now.segs) settled.now }
    requires known { s < length part.now.problem.now.segs }
    requires orders { AreOrders part.now.problem.now.segs orders.old }
    ensures orders { orders.new ≡ slice_set orders.old s (first_or (lines_on part.now.problem.now.segs (record { 0 = s }))
        (kept_orders (settled_on (pairs_of settled.now) (record { 0 = s })) (lines_on part.now.problem.now.segs (record { 0 = s })))) }
    ensures room { HasRoomFor part.now.problem.now solver.new }
{
    solver.rows.clear(part.lines(s).len());
    put_ahead(part, s, settled, solver);
    let lines = part.lines(s);
    solver.solve(lines);
    set_order(orders, s, solver.order(lines.len()));
}
