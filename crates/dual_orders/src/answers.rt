//! The orders that answer dual prices.

ghost use Rattle.std.specs.Prelude.{◌≡◌, ◌<◌, List, [], length, All, slice_index_or, slice_set, IfOk, IsTrue};
ghost use Rattle.order_model.specs.Problems.{lines_on};
ghost use Rattle.order_model.specs.Costs.{AreOrders};
ghost use Rattle.order_model.specs.PartTerms.{terms_by_number};
ghost use Rattle.dual_bound.specs.declared.settled.SettledPair.{SettledPair};
ghost use Rattle.dual_bound.specs.ShareCosts.{share_costs};
ghost use Rattle.dual_shares.specs.CostRows.{HasRoom, Tell, AreSmallCosts};
ghost use Rattle.dual_ascent.specs.OwnNumbers.{number_of};
ghost use Rattle.dual_ascent.specs.DualSteps.{AreWithin, answer_on, answers};
ghost use Rattle.dual_orders.specs.OwnTerms.{own_numbers};
ghost use Rattle.dual_orders.specs.Parts.{IsPart};
ghost use Rattle.dual_orders.specs.SettledPairs.{pairs_of, IsPairOn};
ghost use Rattle.dual_orders.specs.Solvers.{HasRoomFor};
ghost use Rattle.dual_orders.specs.Answered.{AreAnswers};

use crate::part::Part;
use crate::settled::put_ahead;
use crate::solver::Solver;
use dual_bound::SettledPair;
use dual_rounds::{LineOrder, orders_of, set_order};
use dual_shares::CostRows;
use map_base::{NoMemory, SegId};
use std::alloc::Global;

/// The orders that answer prices: on each segment, of the orders that keep the settled pairs, the one of least share.
#[derive(Drop)]
pub struct Answers {
    /// Whether any prices were answered.
    pub known: bool,
    /// The prices that were.
    pub prices: Vec<i64>,
    /// The order of each segment.
    pub orders: Vec<LineOrder>,
}

impl Answers {
    /// No prices were answered.
    pub fn none(alloc: Global, part: &Part) -> Result<Answers, NoMemory>
        requires { IsPart part.now }
        ensures { IfOk result (λ a. (pairs : List SettledPair) → AreAnswers part.now.problem.now pairs a) }
    {
        let prices = vec![in alloc; 0_i64; part.problem.terms().len()]?;
        Ok(Answers {
            known: false,
            prices,
            orders: orders_of(alloc, part.problem.segs())?,
        })
    }

    /// These prices are answered. Only segments with a price that changed are worked out anew; the same pairs are settled each
    /// time.
    pub fn answer(
        &mut self,
        part: &Part,
        solver: &mut Solver,
        settled: &[SettledPair],
        prices: &[i64],
    )
        requires part { IsPart part.now }
        requires room { HasRoomFor part.now.problem.now solver.old }
        requires settled { All (IsPairOn part.now.problem.now.segs) settled.now }
        requires prices { AreWithin part.now.problem.now.terms prices.now }
        requires answers { AreAnswers part.now.problem.now (pairs_of settled.now) self.old }
        ensures orders { self.new.orders.items ≡ answers part.now.problem.now (pairs_of settled.now) prices.now }
        ensures answers { AreAnswers part.now.problem.now (pairs_of settled.now) self.new }
        ensures room { HasRoomFor part.now.problem.now solver.new }
    {
        renew_all(
            part,
            solver,
            settled,
            self.known,
            self.prices.as_slice(),
            prices,
            self.orders.as_mut_slice(),
        );
        self.prices.as_mut_slice().copy_from_slice(prices);
        self.known = true;
    }
}

/// Puts in place the orders that answer prices, where it may be known that those at hand answer earlier ones.
fn renew_all(
    part: &Part,
    solver: &mut Solver,
    settled: &[SettledPair],
    known: bool,
    earlier: &[i64],
    prices: &[i64],
    orders: &mut [LineOrder],
)
    requires part { IsPart part.now }
    requires room { HasRoomFor part.now.problem.now solver.old }
    requires settled { All (IsPairOn part.now.problem.now.segs) settled.now }
    requires prices { AreWithin part.now.problem.now.terms prices.now }
    requires earlier { AreWithin part.now.problem.now.terms earlier.now }
    requires orders { AreOrders part.now.problem.now.segs orders.old }
    requires known { IsTrue known → orders.old ≡ answers part.now.problem.now (pairs_of settled.now) earlier.now }
    ensures orders { orders.new ≡ answers part.now.problem.now (pairs_of settled.now) prices.now }
    ensures room { HasRoomFor part.now.problem.now solver.new }
{
    for s in 0..part.len() {
        renew(part, solver, settled, known, earlier, prices, s, orders);
    }
}

/// Puts in place on one segment the order that answers prices, where it may be known that the one at hand answers
/// earlier ones.
fn renew(
    part: &Part,
    solver: &mut Solver,
    settled: &[SettledPair],
    known: bool,
    earlier: &[i64],
    prices: &[i64],
    s: usize,
    orders: &mut [LineOrder],
)
    requires part { IsPart part.now }
    requires room { HasRoomFor part.now.problem.now solver.old }
    requires settled { All (IsPairOn part.now.problem.now.segs) settled.now }
    requires prices { AreWithin part.now.problem.now.terms prices.now }
    requires earlier { AreWithin part.now.problem.now.terms earlier.now }
    requires at { s < length part.now.problem.now.segs }
    requires orders { AreOrders part.now.problem.now.segs orders.old }
    requires known { IsTrue known → slice_index_or orders.old s [] ≡ answer_on part.now.problem.now (pairs_of settled.now) earlier.now (record { 0 = s }) }
    ensures orders { orders.new ≡ slice_set orders.old s (answer_on part.now.problem.now (pairs_of settled.now) prices.now (record { 0 = s })) }
    ensures room { HasRoomFor part.now.problem.now solver.new }
{
    if known {
        if are_same_on(part, s, earlier, prices) {
            return;
        }
    }
    put_answer(part, solver, settled, prices, s, orders);
}

/// Whether all terms on a segment have the same prices.
fn are_same_on(part: &Part, s: usize, earlier: &[i64], prices: &[i64]) -> bool
    requires part { IsPart part.now }
    requires at { s < length part.now.problem.now.segs }
    requires earlier { AreWithin part.now.problem.now.terms earlier.now }
    requires prices { AreWithin part.now.problem.now.terms prices.now }
    ensures { IsTrue result → All (λ n. number_of earlier.now n ≡ number_of prices.now n) (own_numbers part.now.problem.now (record { 0 = s })) }
{
    for k in part.on[s].as_slice() {
        if earlier[*k as usize] != prices[*k as usize] {
            return false;
        }
    }
    true
}

/// A segment takes the order that answers prices.
fn put_answer(
    part: &Part,
    solver: &mut Solver,
    settled: &[SettledPair],
    prices: &[i64],
    s: usize,
    orders: &mut [LineOrder],
)
    requires part { IsPart part.now }
    requires room { HasRoomFor part.now.problem.now solver.old }
    requires settled { All (IsPairOn part.now.problem.now.segs) settled.now }
    requires prices { AreWithin part.now.problem.now.terms prices.now }
    requires known { s < length part.now.problem.now.segs }
    requires orders { AreOrders part.now.problem.now.segs orders.old }
    ensures orders { orders.new ≡ slice_set orders.old s (answer_on part.now.problem.now (pairs_of settled.now) prices.now (record { 0 = s })) }
    ensures room { HasRoomFor part.now.problem.now solver.new }
{
    put_shares(part, s, prices, &mut solver.rows);
    put_ahead(part, s, settled, solver);
    let lines = part.lines(s);
    solver.solve(lines);
    set_order(orders, s, solver.order(lines.len()));
}

/// What the shares of the terms on a segment make each two of its lines cost.
fn put_shares(part: &Part, s: usize, prices: &[i64], rows: &mut CostRows)
    requires part { IsPart part.now }
    requires known { s < length part.now.problem.now.segs }
    requires prices { AreWithin part.now.problem.now.terms prices.now }
    requires room { HasRoom rows.old }
    ensures room { HasRoom rows.new }
    ensures count { rows.new.count ≡ length (lines_on part.now.problem.now.segs (record { 0 = s })) }
    ensures told { Tell (lines_on part.now.problem.now.segs (record { 0 = s }))
        (share_costs (terms_by_number part.now.problem.now.terms (own_numbers part.now.problem.now (record { 0 = s }))) (number_of prices.now) (record { 0 = s })) rows.new }
    ensures small { AreSmallCosts 4000000 rows.new }
{
    let segment = SegId(s as u32);
    let terms = part.problem.terms();
    rows.clear(part.lines(s).len());
    for k in part.on[s].as_slice() {
        rows.add_share(
            part.problem,
            segment,
            terms[*k as usize],
            prices[*k as usize],
        );
    }
}
