//! The tables of a program.

ghost use Rattle.std.specs.Prelude.{◌≡◌, ◌≤◌, length, IfOk};
ghost use Rattle.least_orders.specs.Rows.{AreRows, row_lines, row_costs, row_pairs};
ghost use Rattle.least_orders.specs.LeastOrders.{least_cost, least_order};
ghost use Rattle.subset_program.specs.PlainRows.{plain_rows, ArePlacesOf};

use crate::entries::Tail;
use crate::place_sets::sets_of;
use crate::rows::PairRows;
use crate::table;
use least_orders::Choice;
use map_base::NoMemory;
use std::alloc::Global;
use std::marker::Model;

/// Tables for segments of so many lines at most; seen as that number.
#[derive(Drop)]
pub struct SubsetProgram {
    width: usize,
    /// For each set of lines and each line what is left behind it.
    tails: Vec<Tail>,
    /// The lines to go on with behind one set.
    heads: Vec<Choice>,
}

impl Model for SubsetProgram {
    ghost use Rattle.std.specs.Prelude.{◌≡◌, ◌≤◌, ◌*◌, ◌^◌, ℕ, length};

    ghost Value = { ℕ };

    ghost view = { λ p. p.width };

    ghost invariant = { λ p. (p.width ≤ 16) × (length p.tails.items ≡ 2 ^ p.width * p.width) × (length p.heads.items ≡ p.width) };
}

impl SubsetProgram {
    /// Tables for segments of up to so many lines.
    pub fn new(alloc: Global, width: usize) -> Result<SubsetProgram, NoMemory>
        requires { width ≤ 16 }
        ensures { IfOk result (λ p. p ≡ width) }
    {
        let tails = vec![in alloc; Tail { left: 0, cost: 0 }; sets_of(width) * width]?;
        let heads = vec![in alloc; Choice { place: 0, cost: 0 }; width]?;
        Ok(SubsetProgram {
            width,
            tails,
            heads,
        })
    }

    /// How many lines a segment may have.
    pub fn width(&self) -> usize
        ensures { result ≡ self.now }
    {
        self.width
    }

    /// What the least order of the lines costs that keeps the settled pairs, none where no order keeps them.
    pub fn least_cost(&mut self, rows: &PairRows) -> Option<i64>
        requires rows { AreRows (plain_rows rows.now) }
        requires room { rows.now.count ≤ self.old }
        ensures cost { result ≡ least_cost (row_costs (plain_rows rows.now)) (row_pairs (plain_rows rows.now)) (row_lines (plain_rows rows.now)) }
        ensures room { self.new ≡ self.old }
    {
        table::least_cost(self.tails.as_mut_slice(), self.heads.as_mut_slice(), rows)
    }

    /// What the least order of the lines costs that keeps the settled pairs, and into `order` the places of its lines,
    /// where there is such an order; among those of least cost it is the least as a list.
    pub fn least_order(&mut self, rows: &PairRows, order: &mut [u32]) -> Option<i64>
        requires rows { AreRows (plain_rows rows.now) }
        requires room { rows.now.count ≤ self.old }
        requires places { length order.old ≡ rows.now.count }
        ensures cost { result ≡ least_cost (row_costs (plain_rows rows.now)) (row_pairs (plain_rows rows.now)) (row_lines (plain_rows rows.now)) }
        ensures order { ArePlacesOf (least_order (row_costs (plain_rows rows.now)) (row_pairs (plain_rows rows.now)) (row_lines (plain_rows rows.now))) order.new }
        ensures room { self.new ≡ self.old }
    {
        table::least_order(
            self.tails.as_mut_slice(),
            self.heads.as_mut_slice(),
            rows,
            order,
        )
    }
}
