//! The least share of one segment.

ghost use Rattle.std.specs.Prelude.{◌≡◌, ◌≤◌, ◌<◌, ℕ, [], length, true, All, IfOk, slice_index};
ghost use Rattle.graph_core.specs.Consistent.{AreRising};
ghost use Rattle.order_model.specs.Problems.{IsProblem, lines_on};
ghost use Rattle.order_model.specs.PartTerms.{terms_by_number};
ghost use Rattle.order_values.specs.PriceLists.{price_at, AreRisingPrices};
ghost use Rattle.dual_bound.specs.Settled.{settled_on};
ghost use Rattle.dual_bound.specs.ShareCosts.{share_costs};
ghost use Rattle.dual_shares.specs.CostRows.{HasRoom, Tell, AreSmallCosts};
ghost use Rattle.dual_shares.specs.SettledSets.{TellAhead};
ghost use Rattle.dual_check.specs.Asking.{IsAsked, HasRoomFor};
ghost use Rattle.dual_check.specs.Prices.{AreSmallPrices};
ghost use Rattle.dual_check.specs.Settling.{pairs_of, IsPairOn, IsPairHere};
ghost use Rattle.dual_check.specs.Nodes.{ArePrices, share_at};

use crate::asked::Asked;
use crate::prices::price_at;
use dual_bound::SettledPair;
use dual_shares::{CostRows, settle};
use map_base::{LineId, NoMemory, SegId};
use order_model::Problem;
use std::alloc::Global;
use subset_program::SubsetProgram;

/// Room for one segment at a time.
#[derive(Drop)]
pub(crate) struct Solver {
    /// The program over sets of lines.
    pub(crate) program: SubsetProgram,
    /// What each two lines cost.
    pub(crate) rows: CostRows,
    /// For each line the set of those that have to stand before it.
    pub(crate) ahead: Vec<u32>,
}

impl Solver {
    /// Room for segments of up to so many lines.
    pub(crate) fn new(alloc: Global, width: usize) -> Result<Solver, NoMemory>
        requires { width ≤ 16 }
        ensures program { IfOk result (λ solver. solver.program ≡ width) }
        ensures rows { IfOk result (λ solver. HasRoom solver.rows) }
        ensures ahead { IfOk result (λ solver. length solver.ahead.items ≡ 16) }
    {
        let program = SubsetProgram::new(alloc, width)?;
        let rows = CostRows::new(alloc)?;
        let ahead = vec![in alloc; 0_u32; 16]?;
        Ok(Solver {
            program,
            rows,
            ahead,
        })
    }

    /// The least share of a segment of the part under prices, of the orders that keep the settled pairs; none where none does.
    pub(crate) fn least_share(
        &mut self,
        asked: &Asked,
        k: usize,
        settled: &[SettledPair],
        prices: &[(u32, i64)],
    ) -> Option<i64>
        requires asked { IsAsked asked.now }
        requires narrow { asked.now.narrow ≡ true }
        requires known { k < length asked.now.part.now }
        requires room { HasRoomFor asked.now self.old }
        requires settled { All (IsPairOn asked.now.problem.now.segs) settled.now }
        requires prices { ArePrices asked.now prices.now }
        ensures share { result ≡ share_at asked.now settled.now prices.now k }
        ensures room { HasRoomFor asked.now self.new }
    {
        let s = asked.part[k];
        let lines = asked.problem.segs()[s.0 as usize].as_slice();
        self.rows.clear(lines.len());
        add_shares(
            asked.problem,
            s,
            asked.groups[k].as_slice(),
            prices,
            &mut self.rows,
        );
        put_ahead(lines, s, settled, self.ahead.as_mut_slice());
        let pairs = self.rows.with_ahead(self.ahead.as_slice());
        self.program.least_cost(&pairs)
    }
}

/// Adds what the terms of these numbers make each two lines of a segment cost.
fn add_shares(
    problem: &Problem,
    s: SegId,
    numbers: &[u32],
    prices: &[(u32, i64)],
    rows: &mut CostRows,
)
    requires problem { IsProblem problem.now }
    requires known { s.0 < length problem.now.segs }
    requires count { rows.old.count ≡ length (lines_on problem.now.segs s) }
    requires numbers { All (λ n. n < length problem.now.terms) numbers.now }
    requires few { length numbers.now ≤ 4000000 }
    requires rising { AreRisingPrices prices.now }
    requires within { AreSmallPrices prices.now }
    requires room { HasRoom rows.old }
    requires small { AreSmallCosts 0 rows.old }
    requires nothing { Tell (lines_on problem.now.segs s) (share_costs [] (price_at prices.now) s) rows.old }
    ensures room { HasRoom rows.new }
    ensures count { rows.new.count ≡ rows.old.count }
    ensures told { Tell (lines_on problem.now.segs s) (share_costs (terms_by_number problem.now.terms numbers.now) (price_at prices.now) s) rows.new }
    ensures small { AreSmallCosts (length numbers.now) rows.new }
{
    let terms = problem.terms();
    for n in numbers {
        rows.add_share(problem, s, terms[*n as usize], price_at(prices, *n));
    }
}

/// Writes for each line of a segment which lines are settled to stand before it.
fn put_ahead(lines: &[LineId], s: SegId, settled: &[SettledPair], ahead: &mut [u32])
    requires rising { AreRising lines.now }
    requires few { length lines.now ≤ 16 }
    requires room { length ahead.old ≡ 16 }
    requires settled { All (IsPairHere s lines.now) settled.now }
    ensures { TellAhead (settled_on (pairs_of settled.now) s) lines.now ahead.new }
{
    clear_sets(ahead);
    for pair in settled {
        if pair.seg == s {
            settle(lines, pair.first, pair.second, ahead);
        }
    }
}

/// No line has to stand before another.
fn clear_sets(ahead: &mut [u32])
    ensures { (j : ℕ) → slice_index ahead.new j ≡ 0 }
{
    for j in 0..ahead.len() {
        ahead[j] = 0;
    }
}
