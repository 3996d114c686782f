//! Orders that are met, and the local search from them.

ghost use Rattle.std.specs.Prelude.{◌≡◌, ◌<◌, length, unwrap_or, IfOk, IsTrue, IsFalse};
ghost use Rattle.order_model.specs.Problems.{lines_on};
ghost use Rattle.order_model.specs.Costs.{cost_of, AreOrders};
ghost use Rattle.dual_ascent.specs.LocalSearch.{least_beside, improved_on, after_turn, local_minimum, after_meeting, after_offer, first_incumbent};
ghost use Rattle.dual_orders.specs.Parts.{IsPart};
ghost use Rattle.dual_orders.specs.Solvers.{HasRoomFor, found_of};
ghost use Rattle.dual_orders.specs.Values.{incumbent_of, IsIncumbent};

use crate::beside::put_costs_beside;
use crate::incumbent::Incumbent;
use crate::part::Part;
use crate::segment_costs::take_if_less;
use crate::solver::Solver;
use dual_rounds::{LineOrder, copy_orders, cost_of, orders_of};
use map_base::NoMemory;
use std::alloc::Global;

/// The first incumbent: the number order is offered.
pub fn first_incumbent(
    alloc: Global,
    part: &Part,
    solver: &mut Solver,
) -> Result<Incumbent, NoMemory>
    requires part { IsPart part.now }
    requires room { HasRoomFor part.now.problem.now solver.old }
    ensures best { IfOk result (λ best. incumbent_of best ≡ first_incumbent part.now.problem.now) }
    ensures is { IfOk result (IsIncumbent part.now.problem.now) }
    ensures room { HasRoomFor part.now.problem.now solver.new }
{
    let mut orders = orders_of(alloc, part.problem.segs())?;
    descend(part, solver, orders.as_mut_slice());
    let cost = cost_of(part.problem, orders.as_slice());
    Ok(Incumbent { cost, orders })
}

/// Orders are offered: those are met to which the local search comes from them. They are left in their place.
pub fn offer(part: &Part, solver: &mut Solver, orders: &mut [LineOrder], best: &mut Incumbent)
    requires part { IsPart part.now }
    requires room { HasRoomFor part.now.problem.now solver.old }
    requires orders { AreOrders part.now.problem.now.segs orders.old }
    requires best { IsIncumbent part.now.problem.now best.old }
    ensures best { incumbent_of best.new ≡ after_offer part.now.problem.now orders.old (incumbent_of best.old) }
    ensures is { IsIncumbent part.now.problem.now best.new }
    ensures orders { AreOrders part.now.problem.now.segs orders.new }
    ensures room { HasRoomFor part.now.problem.now solver.new }
{
    descend(part, solver, orders);
    meet(part, orders, best);
}

/// Orders are met.
fn meet(part: &Part, orders: &[LineOrder], best: &mut Incumbent)
    requires part { IsPart part.now }
    requires orders { AreOrders part.now.problem.now.segs orders.now }
    requires best { IsIncumbent part.now.problem.now best.old }
    ensures best { incumbent_of best.new ≡ after_meeting part.now.problem.now orders.now (incumbent_of best.old) }
    ensures is { IsIncumbent part.now.problem.now best.new }
{
    let cost = cost_of(part.problem, orders);
    if cost < best.cost {
        best.cost = cost;
        copy_orders(orders, best.orders.as_mut_slice());
    }
}

/// Turn after turn, until one changes nothing.
fn descend(part: &Part, solver: &mut Solver, orders: &mut [LineOrder])
    requires part { IsPart part.now }
    requires room { HasRoomFor part.now.problem.now solver.old }
    requires orders { AreOrders part.now.problem.now.segs orders.old }
    ensures orders { orders.new ≡ local_minimum part.now.problem.now orders.old }
    ensures are { AreOrders part.now.problem.now.segs orders.new }
    ensures room { HasRoomFor part.now.problem.now solver.new }
{
    while take_turn(part, solver, orders) {}
}

/// Each segment in turn takes its least order beside those of the others, where that costs less. Whether one did.
fn take_turn(part: &Part, solver: &mut Solver, orders: &mut [LineOrder]) -> bool
    requires part { IsPart part.now }
    requires room { HasRoomFor part.now.problem.now solver.old }
    requires orders { AreOrders part.now.problem.now.segs orders.old }
    ensures orders { orders.new ≡ after_turn part.now.problem.now orders.old }
    ensures are { AreOrders part.now.problem.now.segs orders.new }
    ensures less { IsTrue result → cost_of part.now.problem.now.terms orders.new < cost_of part.now.problem.now.terms orders.old }
    ensures same { IsFalse result → orders.new ≡ orders.old }
    ensures room { HasRoomFor part.now.problem.now solver.new }
{
    let mut changed = false;
    for s in 0..part.len() {
        if improve_on(part, solver, s, orders) {
            changed = true;
        }
    }
    changed
}

/// One segment does.
fn improve_on(part: &Part, solver: &mut Solver, s: usize, orders: &mut [LineOrder]) -> bool
    requires part { IsPart part.now }
    requires room { HasRoomFor part.now.problem.now solver.old }
    requires known { s < length part.now.problem.now.segs }
    requires orders { AreOrders part.now.problem.now.segs orders.old }
    ensures orders { orders.new ≡ improved_on part.now.problem.now orders.old (record { 0 = s }) }
    ensures are { AreOrders part.now.problem.now.segs orders.new }
    ensures less { IsTrue result → cost_of part.now.problem.now.terms orders.new < cost_of part.now.problem.now.terms orders.old }
    ensures same { IsFalse result → orders.new ≡ orders.old }
    ensures room { HasRoomFor part.now.problem.now solver.new }
{
    find_beside(part, solver, s, orders);
    take_if_less(part, s, solver.order(part.lines(s).len()), orders)
}

/// Finds the least order of a segment beside those of the others.
fn find_beside(part: &Part, solver: &mut Solver, s: usize, orders: &[LineOrder])
    requires part { IsPart part.now }
    requires room { HasRoomFor part.now.problem.now solver.old }
    requires known { s < length part.now.problem.now.segs }
    requires each { length orders.now ≡ length part.now.problem.now.segs }
    ensures found { found_of solver.new (length (lines_on part.now.problem.now.segs (record { 0 = s })))
        ≡ unwrap_or (least_beside part.now.problem.now orders.now (record { 0 = s })) (lines_on part.now.problem.now.segs (record { 0 = s })) }
    ensures room { HasRoomFor part.now.problem.now solver.new }
{
    let lines = part.lines(s);
    put_costs_beside(part, s, orders, &mut solver.rows);
    solver.settle_nothing(lines);
    solver.solve(lines);
}
