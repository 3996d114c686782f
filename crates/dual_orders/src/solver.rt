//! How the least order of a segment is found.

ghost use Rattle.std.specs.Prelude.{◌≡◌, ℕ, ◌≤◌, true, List, [], length, take, unwrap_or, slice_index_or, IfOk};
ghost use Rattle.map_base.specs.declared.ids.LineId.{LineId};
ghost use Rattle.graph_core.specs.Consistent.{AreRising};
ghost use Rattle.least_orders.specs.OrderCosts.{PairCosts};
ghost use Rattle.least_orders.specs.LeastOrders.{least_order};
ghost use Rattle.least_orders.specs.Rows.{AreRows, TellCosts};
ghost use Rattle.subset_program.specs.PlainRows.{plain_rows};
ghost use Rattle.dual_bound.specs.Accepting.{is_narrow};
ghost use Rattle.dual_ascent.specs.OwnNumbers.{all_segments};
ghost use Rattle.dual_orders.specs.Parts.{IsPart};
ghost use Rattle.dual_shares.specs.SettledSets.{TellAhead};
ghost use Rattle.dual_orders.specs.Solvers.{HasRoom, HasRoomFor, AreReady, TellsCosts, found_of};

use crate::part::Part;
use crate::settled::clear;
use dual_shares::{CostRows, least_order};
use map_base::{LineId, NoMemory};
use order_model::Problem;
use std::alloc::Global;
use subset_program::{PairRows, SubsetProgram};

/// Room to find the least orders of a part's segments in, one at a time.
#[derive(Drop)]
pub struct Solver {
    /// What each two lines of a segment cost.
    pub rows: CostRows,
    /// For each line the set of those that have to stand before it, a bit for each place.
    pub ahead: Vec<u32>,
    /// The program over sets of lines.
    pub program: SubsetProgram,
    /// The places of an order's lines.
    pub places: Vec<u32>,
    /// The order that was found.
    pub found: Vec<LineId>,
}

impl Solver {
    /// Room for the segments of a part.
    pub fn for_part(alloc: Global, part: &Part) -> Result<Solver, NoMemory>
        requires { IsPart part.now }
        ensures { IfOk result (HasRoomFor part.now.problem.now) }
    {
        let rows = CostRows::new(alloc)?;
        let ahead = vec![in alloc; 0_u32; 16]?;
        let program = SubsetProgram::new(alloc, widest(part.problem))?;
        let places = vec![in alloc; 0_u32; 16]?;
        let found = vec![in alloc; LineId(0); 16]?;
        Ok(Solver {
            rows,
            ahead,
            program,
            places,
            found,
        })
    }

    /// No line has to stand before another.
    pub(crate) fn settle_nothing(&mut self, lines: &[LineId])
        requires { length self.old.ahead.items ≡ 16 }
        ensures told { TellAhead [] lines.now self.new.ahead.items }
        ensures ahead { length self.new.ahead.items ≡ 16 }
        ensures rows { self.new.rows ≡ self.old.rows }
        ensures room { (width : ℕ) → HasRoom width self.old → HasRoom width self.new }
    {
        clear(self.ahead.as_mut_slice());
    }

    /// Finds the least order of these lines under the rows, of those that keep the settled pairs; the lines as they are where
    /// no order keeps them.
    pub(crate) fn solve(&mut self, lines: &[LineId])
        requires rising { AreRising lines.now }
        requires few { length lines.now ≤ 16 }
        requires room { HasRoom (length lines.now) self.old }
        requires ready { AreReady lines.now self.old }
        ensures found { (costs : PairCosts) (settled : List (LineId × LineId)) → TellsCosts lines.now costs settled self.old
            → found_of self.new (length lines.now) ≡ unwrap_or (least_order costs settled lines.now) lines.now }
        ensures room { (width : ℕ) → HasRoom width self.old → HasRoom width self.new }
    {
        let rows = self.rows.with_ahead(self.ahead.as_slice());
        take_least_ahead(
            &mut self.program,
            &rows,
            lines,
            self.places.as_mut_slice(),
            self.found.as_mut_slice(),
        );
    }

    /// The order of so many lines that was found.
    pub(crate) fn order(&self, count: usize) -> &[LineId]
        requires { count ≤ length self.now.found.items }
        ensures { result.now ≡ found_of self.now count }
    {
        &self.found[..count]
    }
}

/// Writes the least order of these lines under the rows, of those that keep the settled pairs, to the front of `found`;
/// the lines as they are where no order keeps them. `places` and `found` may be longer than the order.
fn take_least_ahead(
    program: &mut SubsetProgram,
    rows: &PairRows,
    lines: &[LineId],
    places: &mut [u32],
    found: &mut [LineId],
)
    requires rows { AreRows (plain_rows rows.now) }
    requires count { rows.now.count ≡ length lines.now }
    requires rising { AreRising lines.now }
    requires room { rows.now.count ≤ program.old }
    requires places { length lines.now ≤ length places.old }
    requires found { length lines.now ≤ length found.old }
    ensures found { (costs : PairCosts) (settled : List (LineId × LineId)) → TellCosts (plain_rows rows.now) costs settled lines.now
        → take (length lines.now) found.new ≡ unwrap_or (least_order costs settled lines.now) lines.now }
    ensures room { program.new ≡ program.old }
{
    let count = lines.len();
    take_least(
        program,
        rows,
        lines,
        &mut places[..count],
        &mut found[..count],
    );
}

/// Writes the least order of these lines under the rows, of those that keep the settled pairs; the lines as they are where no
/// order keeps them.
fn take_least(
    program: &mut SubsetProgram,
    rows: &PairRows,
    lines: &[LineId],
    places: &mut [u32],
    found: &mut [LineId],
)
    requires rows { AreRows (plain_rows rows.now) }
    requires count { rows.now.count ≡ length lines.now }
    requires rising { AreRising lines.now }
    requires room { rows.now.count ≤ program.old }
    requires places { length places.old ≡ length lines.now }
    requires found { length found.old ≡ length lines.now }
    ensures found { (costs : PairCosts) (settled : List (LineId × LineId)) → TellCosts (plain_rows rows.now) costs settled lines.now
        → found.new ≡ unwrap_or (least_order costs settled lines.now) lines.now }
    ensures room { program.new ≡ program.old }
{
    match least_order(program, rows, lines, places, found) {
        Some(_) => {}
        None => found.copy_from_slice(lines),
    }
}

/// The most lines of a segment.
fn widest(problem: &Problem) -> usize
    ensures each { (k : ℕ) → length (slice_index_or problem.now.segs k []) ≤ result }
    ensures most { is_narrow problem.now.segs (all_segments problem.now) ≡ true → result ≤ 16 }
{
    let mut most = 0;
    for lines in problem.segs() {
        most = lines.as_slice().len().max(most);
    }
    most
}
