//! Entries in order.

ghost use Rattle.std.specs.Prelude.{◌≡◌, ◌≤◌, ◌<◌, ◌+◌, ◌^◌, ℕ, length, IfOk, MatchOption, slice_index, Bool, Option, All};
ghost use Rattle.ordered_entries.specs.Entries.{places_of, entry_at, AreDistinct, IsFirstRepeat};
ghost use Rattle.ordered_entries.specs.Order.{IsOrderOf, IsRank};

use crate::entry::Entry;
use crate::order::places_in_order;
use crate::ranks::rank;
use crate::repeats::first_repeat;
use map_base::NoMemory;
use std::alloc::Global;
use std::marker::Model;

/// Entries, seen as the list of them. Beside them stands the order that their keys and sequence numbers give: 12
/// bytes an entry in all.
#[derive(Debug, Drop)]
pub struct OrderedEntries {
    entries: Vec<Entry>,
    order: Vec<u32>,
}

impl Model for OrderedEntries {
    ghost use Rattle.std.specs.Prelude.{List};
    ghost use Rattle.ordered_entries.specs.declared.entry.Entry.{Entry};
    ghost use Rattle.ordered_entries.specs.Order.{IsOrderOf};

    ghost Value = { List Entry };

    ghost view = { λ o. o.entries.items };

    ghost invariant = { λ o. IsOrderOf o.entries.items o.order.items };
}

impl OrderedEntries {
    /// Puts entries in order: in n where the runs that they stand in, each of one key and rising numbers, are few, and
    /// in n log n at most. While this works it takes 12 bytes an entry and 16 a run beside them.
    pub fn of(alloc: Global, entries: Vec<Entry>) -> Result<OrderedEntries, NoMemory>
        requires { length entries.items ≤ 2 ^ 32 }
        ensures { IfOk result (λ ordered. ordered ≡ entries.items) }
    {
        let order = places_in_order(alloc, &entries)?;
        Ok(OrderedEntries { entries, order })
    }

    /// The least place whose entry has the key and the sequence number of an earlier one.
    pub fn first_repeat(&self) -> Option<usize>
        ensures { MatchOption result (AreDistinct self.now) (IsFirstRepeat self.now) }
    {
        first_repeat(&self.entries, &self.order)
    }

    /// The places of a key's entries by rising sequence numbers; those of one number in the order of the places.
    pub fn places_of(&self, key: u32) -> &[u32]
        ensures places { result.now ≡ places_of self.now key }
        ensures within { All (λ place. place < length self.now) result.now }
    {
        let key = u64::from(key);
        let from = rank(&self.entries, &self.order, key);
        let to = rank(&self.entries, &self.order, key + 1);
        &self.order[from..to]
    }
}
