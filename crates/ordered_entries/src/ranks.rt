//! Where the entries of a key begin in an order.

ghost use Rattle.std.specs.Prelude.{◌≡◌, ◌≤◌, ◌<◌, ◌+◌, length, slice_index, Bool, if◌then◌else◌};
ghost use Rattle.ordered_entries.specs.Entries.{entry_at};
ghost use Rattle.ordered_entries.specs.Order.{IsOrderOf, IsRank};

use crate::entry::Entry;

fn key_at(entries: &[Entry], order: &[u32], at: usize) -> u32
    requires order { IsOrderOf entries.now order.now }
    requires within { at < length order.now }
    ensures { result ≡ (entry_at entries.now (slice_index order.now at)).key }
{
    entries[order[at] as usize].key
}

// The bounds of a search once its middle was looked at.
fn narrowed(low: usize, high: usize, middle: usize, is_below: bool) -> (usize, usize)
    requires { middle < high }
    ensures { result ≡ (if is_below then (middle + 1, high) else (low, middle)) }
{
    if is_below {
        (middle + 1, high)
    } else {
        (low, middle)
    }
}

/// How many places of an order hold entries of keys below `key`.
pub(crate) fn rank(entries: &[Entry], order: &[u32], key: u64) -> usize
    requires { IsOrderOf entries.now order.now }
    ensures { IsRank entries.now order.now key result }
{
    let mut low = 0;
    let mut high = order.len();
    while low < high {
        let middle = low + (high - low) / 2;
        let is_below = u64::from(key_at(entries, order, middle)) < key;
        (low, high) = narrowed(low, high, middle, is_below);
    }
    low
}
