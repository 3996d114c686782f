//! The first entry that comes again.

ghost use Rattle.std.specs.Prelude.{◌≡◌, ◌<◌, length, MatchOption};
ghost use Rattle.ordered_entries.specs.Entries.{entry_at, AreDistinct, IsFirstRepeat};
ghost use Rattle.ordered_entries.specs.Order.{IsOrderOf, is_same, tie, lesser};

use crate::entry::Entry;

fn is_same(x: Entry, y: Entry) -> bool
    ensures { result ≡ is_same x y }
{
    x.key == y.key && x.sequence == y.sequence
}

// The second of two places, where both hold the same.
fn tie(entries: &[Entry], before: usize, place: usize) -> Option<usize>
    requires before { before < length entries.now }
    requires place { place < length entries.now }
    ensures { result ≡ tie entries.now before place }
{
    if is_same(entries[before], entries[place]) {
        Some(place)
    } else {
        None
    }
}

fn lesser(a: Option<usize>, b: Option<usize>) -> Option<usize>
    ensures { result ≡ lesser a b }
{
    match a {
        None => b,
        Some(least) => match b {
            None => a,
            Some(other) => Some(least.min(other)),
        },
    }
}

/// The least place whose entry comes earlier, told an order of all places: entries that are the same stand side
/// by side in it.
pub(crate) fn first_repeat(entries: &[Entry], order: &[u32]) -> Option<usize>
    requires { IsOrderOf entries.now order.now }
    ensures { MatchOption result (AreDistinct entries.now) (IsFirstRepeat entries.now) }
{
    let mut least = None;
    for at in 1..order.len() {
        let found = tie(entries, order[at - 1] as usize, order[at] as usize);
        least = lesser(least, found);
    }
    least
}
