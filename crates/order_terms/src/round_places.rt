//! The places of segments in the round of a node, by a table with an entry for each segment of the graph.

ghost use Rattle.std.specs.Prelude.{◌≡◌, ◌<◌, ◌≤◌, length, All, IfOk, slice_index};
ghost use Rattle.order_terms.specs.WaysByPlace.{TellPlaces};

use map_base::{NoMemory, SegId};
use std::alloc::Global;

/// A table for so many segments, which tells no places yet.
pub(crate) fn no_places(alloc: Global, count: u32) -> Result<Vec<u32>, NoMemory>
    ensures { IfOk result (λ table. length table.items ≡ count) }
{
    let table = vec![in alloc; 0_u32; count as usize]?;
    Ok(table)
}

/// Writes the place of each segment of a round into the table, whose other entries mean nothing from then on.
pub(crate) fn set_places(table: &mut [u32], round: &[SegId])
    requires known { All (λ s. s.0 < length table.old) round.now }
    requires few { length round.now ≤ 20000 }
    ensures { TellPlaces round.now table.new }
{
    for place in (0..round.len()).rev() {
        table[round[place].0 as usize] = place as u32;
    }
}

/// What the table tells of a segment.
pub(crate) fn place_told(table: &[u32], s: SegId) -> usize
    requires { s.0 < length table.now }
    ensures { result ≡ slice_index table.now s.0 }
{
    table[s.0 as usize] as usize
}
