//! Rows of costs.

ghost use Rattle.std.specs.Prelude.{◌≡◌, ◌<◌, length};
ghost use Rattle.std.specs.Option.{option_copied};
ghost use Rattle.state_search.specs.Searching.{known_at, with_known};
ghost use Rattle.state_search.specs.Rows.{costs_of};

/// The costs of the nine spots of a place, by the direction of arrival, 8 at a start, as far as they are known.
#[derive(Clone, Copy, Debug)]
pub struct Row {
    pub costs: [Option<u64>; 9],
}

/// A place: nine states side by side, by its number, and what it costs at least to come to each of them.
#[derive(Clone, Copy, Debug)]
pub struct Place {
    pub number: u32,
    pub ahead: u64,
}

impl Row {
    /// A row, or one in which nothing is known where there is none.
    pub fn or_unknown(row: Option<Row>) -> Row
        ensures value { result.costs ≡ costs_of row }
        ensures whole { length result.costs ≡ 9 }
    {
        match row {
            None => Row { costs: [None; 9] },
            Some(row) => row,
        }
    }

    /// The known cost of a spot.
    pub fn of(&self, arrival: u8) -> Option<u64>
        requires { arrival < 9 }
        ensures { result ≡ known_at self.now.costs arrival }
    {
        self.costs[usize::from(arrival)]
    }

    /// The known cost of a spot of a row; none where there is no row.
    pub fn known_in(row: Option<&Row>, arrival: u8) -> Option<u64>
        requires { arrival < 9 }
        ensures { result ≡ known_at (costs_of (option_copied row.entry)) arrival }
    {
        match row {
            None => None,
            Some(row) => row.of(arrival),
        }
    }

    /// Notes the cost of a spot.
    pub fn note(&mut self, arrival: u8, cost: u64)
        requires arrival { arrival < 9 }
        requires whole { length self.old.costs ≡ 9 }
        ensures value { self.new.costs ≡ with_known self.old.costs arrival cost }
        ensures whole { length self.new.costs ≡ 9 }
    {
        self.costs[usize::from(arrival)] = Some(cost);
    }
}
