//! What each two lines of a segment cost, in rows.

ghost use Rattle.std.specs.Prelude.{◌≡◌, ◌+◌, ◌*◌, ◌<◌, ◌≤◌, ℕ, List, length, take, unsigned_abs, IfOk};
ghost use Rattle.map_base.specs.declared.ids.LineId.{LineId};
ghost use Rattle.graph_core.specs.Consistent.{AreRising};
ghost use Rattle.order_model.specs.Problems.{IsProblem, IsTerm, lines_on};
ghost use Rattle.least_orders.specs.OrderCosts.{no_costs, cost_before, cost_beside};
ghost use Rattle.dual_bound.specs.ShareCosts.{term_costs};
ghost use Rattle.dual_shares.specs.RowSteps.{AreTwoOf};
ghost use Rattle.dual_shares.specs.CostRows.{HasRoom, Tell, IsAdded, AreSmallCosts};

use crate::rows::clear;
use crate::shares::{add_before, add_beside, add_term};
use map_base::{LineId, NoMemory, SegId};
use order_model::{Problem, Term};
use std::alloc::Global;
use subset_program::PairRows;

/// What each two of at most 16 lines cost, by their places. Amounts are at most 256,000,000 either way, and at most 4,000,000
/// of them are added.
#[derive(Drop)]
pub struct CostRows {
    /// How many lines there are.
    pub count: usize,
    /// At `i * count + j` what lines `i` and `j` cost where `i` stands before `j`.
    pub before: Vec<i64>,
    /// At `i * count + j` what they cost besides where `i` stands right before `j`.
    pub beside: Vec<i64>,
}

impl CostRows {
    /// Rows with room for 16 lines, at first of none.
    pub fn new(alloc: Global) -> Result<CostRows, NoMemory>
        ensures { IfOk result HasRoom }
    {
        let before = vec![in alloc; 0_i64; 256]?;
        let beside = vec![in alloc; 0_i64; 256]?;
        Ok(CostRows {
            count: 0,
            before,
            beside,
        })
    }

    /// So many lines cost nothing.
    pub fn clear(&mut self, count: usize)
        requires few { count ≤ 16 }
        requires room { HasRoom self.old }
        ensures count { self.new.count ≡ count }
        ensures room { HasRoom self.new }
        ensures told { (lines : List LineId) → length lines ≡ count → Tell lines no_costs self.new }
        ensures small { AreSmallCosts 0 self.new }
    {
        self.count = count;
        clear(self.before.as_mut_slice(), count);
        clear(self.beside.as_mut_slice(), count);
    }

    /// Two of these lines cost an amount more where the first stands before the second.
    pub fn add_before(&mut self, lines: &[LineId], first: LineId, second: LineId, amount: i64)
        requires rising { AreRising lines.now }
        requires count { length lines.now ≡ self.old.count }
        requires on { AreTwoOf lines.now first second }
        requires amount { unsigned_abs amount ≤ 256000000 }
        requires room { HasRoom self.old }
        requires small { AreSmallCosts 4000000 self.old }
        ensures room { HasRoom self.new }
        ensures added { IsAdded lines.now (cost_before first second amount) self.old self.new }
        ensures small { (m : ℕ) → AreSmallCosts m self.old → AreSmallCosts (m + 1) self.new }
    {
        add_before(
            lines,
            true,
            first,
            second,
            amount,
            self.before.as_mut_slice(),
        );
    }

    /// Two of these lines cost an amount more where they are neighbours.
    pub fn add_beside(&mut self, lines: &[LineId], a: LineId, b: LineId, amount: i64)
        requires rising { AreRising lines.now }
        requires count { length lines.now ≡ self.old.count }
        requires on { AreTwoOf lines.now a b }
        requires amount { unsigned_abs amount ≤ 256000000 }
        requires room { HasRoom self.old }
        requires small { AreSmallCosts 4000000 self.old }
        ensures room { HasRoom self.new }
        ensures added { IsAdded lines.now (cost_beside a b amount) self.old self.new }
        ensures small { (m : ℕ) → AreSmallCosts m self.old → AreSmallCosts (m + 1) self.new }
    {
        add_beside(lines, true, a, b, amount, self.beside.as_mut_slice());
    }

    /// The lines of a segment cost what a term of this price makes them cost there; nothing where it isn't on the segment.
    pub fn add_share(&mut self, problem: &Problem, s: SegId, term: Term, price: i64)
        requires problem { IsProblem problem.now }
        requires known { s.0 < length problem.now.segs }
        requires count { length (lines_on problem.now.segs s) ≡ self.old.count }
        requires term { IsTerm problem.now.segs term }
        requires price { unsigned_abs price ≤ 256000000 }
        requires room { HasRoom self.old }
        requires small { AreSmallCosts 4000000 self.old }
        ensures room { HasRoom self.new }
        ensures added { IsAdded (lines_on problem.now.segs s) (term_costs price s term) self.old self.new }
        ensures small { (m : ℕ) → AreSmallCosts m self.old → AreSmallCosts (m + 1) self.new }
    {
        add_term(
            problem,
            s,
            term,
            price,
            self.before.as_mut_slice(),
            self.beside.as_mut_slice(),
        );
    }

    /// These costs, with for each line the set of those that have to stand before it.
    pub fn with_ahead<'a>(&'a self, ahead: &'a [u32]) -> PairRows<'a>
        requires { HasRoom self.now }
        ensures count { result.count ≡ self.now.count }
        ensures before { result.before.now ≡ take (self.now.count * self.now.count) self.now.before.items }
        ensures beside { result.beside.now ≡ take (self.now.count * self.now.count) self.now.beside.items }
        ensures ahead { result.ahead.now ≡ ahead.now }
    {
        let size = self.count * self.count;
        PairRows {
            count: self.count,
            before: &self.before.as_slice()[..size],
            beside: &self.beside.as_slice()[..size],
            ahead,
        }
    }
}
