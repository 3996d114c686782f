//! Known costs of spots.

ghost use Rattle.std.specs.Prelude.{◌≡◌, ◌+◌, ◌*◌, ◌<◌, ◌≤◌, None, OnOk, length, replicate};
ghost use Rattle.state_search.specs.Searching.{known_at, with_known};
ghost use Rattle.state_search.specs.Rows.{row_at, with_row};

use crate::row::Row;
use map_base::NoMemory;
use std::alloc::Global;
use std::collections::HashMap;
use std::marker::Model;

/// The costs of so many spots, as far as they are known, seen as the list of them. The nine spots of a place stand in one
/// row, and only the rows of places with a known cost take memory.
#[derive(Drop)]
pub struct Known {
    rows: HashMap<u32, Row>,
    count: usize,
}

impl Model for Known {
    ghost use Rattle.std.specs.Prelude.{ℕ, List, Option};
    ghost use Rattle.state_search.specs.Rows.{costs_in};

    ghost Value = { List (Option ℕ) };

    ghost view = { λ k. costs_in k.rows k.count };
}

impl Known {
    /// No known cost, of so many spots.
    pub fn none(alloc: Global, count: usize) -> Known
        ensures { result ≡ replicate count None }
    {
        Known {
            rows: HashMap::new(alloc),
            count,
        }
    }

    /// The known cost of a spot.
    pub fn of(&self, at: u32) -> Option<u64>
        requires { at < length self.now }
        ensures { result ≡ known_at self.now at }
    {
        Row::known_in(self.rows.get(&(at / 9)), (at % 9) as u8)
    }

    /// Notes the cost of a spot.
    pub fn note(&mut self, at: u32, cost: u64) -> Result<(), NoMemory>
        requires { at < length self.old }
        ensures { OnOk result (self.new ≡ with_known self.old at cost) }
    {
        let mut row = Row::or_unknown(self.rows.get(&(at / 9)).copied());
        row.note((at % 9) as u8, cost);
        self.rows.insert(at / 9, row)?;
        Ok(())
    }

    /// The row of a place.
    pub fn row(&self, place: u32) -> Row
        requires { place * 9 + 9 ≤ length self.now }
        ensures value { result.costs ≡ row_at self.now place }
        ensures whole { length result.costs ≡ 9 }
    {
        Row::or_unknown(self.rows.get(&place).copied())
    }

    /// Puts the row of a place in the stead of the one before.
    pub fn put(&mut self, place: u32, row: Row) -> Result<(), NoMemory>
        requires fits { place * 9 + 9 ≤ length self.old }
        requires whole { length row.costs ≡ 9 }
        ensures { OnOk result (self.new ≡ with_row self.old place row.costs) }
    {
        self.rows.insert(place, row)?;
        Ok(())
    }
}
