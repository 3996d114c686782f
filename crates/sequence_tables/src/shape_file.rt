//! The shapes of the file `shapes.txt`, which may be missing.

ghost use Rattle.std.specs.Prelude.{◌≤◌, ◌^◌, length, option_map, IfSome, Ok};
ghost use Rattle.table_rows.specs.Values.{rows_of};
ghost use Rattle.table_rows.specs.Outcome.{Answers, never};
ghost use Rattle.sequence_tables.specs.Shapes.{no_shapes, shapes_of_file};

use crate::known::KnownShapes;
use crate::shapes::shapes_in;
use crate::shapes_kept::places_among;
use map_base::Sequence;
use route_tables::KnownTrips;
use std::alloc::Global;
use table_rows::{FeedFault, Ids, rows_of};

/// No shape, where there is no such table.
fn no_shapes(alloc: Global, trips: &KnownTrips) -> Result<KnownShapes, FeedFault>
    ensures { Answers never (λ shapes. shapes) result (Ok (no_shapes trips.now)) }
{
    let none = Ids::new(alloc);
    let of_trips = places_among(alloc, &none, &trips.shapes)?;
    Ok(KnownShapes {
        shapes: Sequence::of(Vec::new(alloc)),
        of_trips: Sequence::of(of_trips),
    })
}

/// The shapes of the bytes of the table, or its first bad row; without the table there is none.
pub fn shapes_in_file(
    alloc: Global,
    trips: &KnownTrips,
    bytes: Option<Vec<u8>>,
) -> Result<KnownShapes, FeedFault>
    requires few { IfSome bytes (λ b. length (rows_of b.items) ≤ 2 ^ 32) }
    requires few_trips { length trips.now.shapes ≤ 2 ^ 32 }
    ensures { Answers never (λ shapes. shapes) result (shapes_of_file trips.now (option_map (λ v. v.items) bytes)) }
{
    match bytes {
        None => no_shapes(alloc, trips),
        Some(bytes) => {
            let rows = rows_of(alloc, &bytes)?;
            shapes_in(alloc, trips, &rows)
        }
    }
}
