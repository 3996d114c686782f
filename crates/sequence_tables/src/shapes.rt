//! The shapes of a feed.

ghost use Rattle.std.specs.Prelude.{◌≡◌, ◌≤◌, ◌<◌, ◌^◌, None, length};
ghost use Rattle.table_rows.specs.Ids.{AreSame};
ghost use Rattle.table_rows.specs.Outcome.{Answers, never};
ghost use Rattle.sequence_tables.specs.Shapes.{shape_columns, shapes_of};
ghost use Rattle.sequence_tables.specs.ShapeReads.{own_reason_at};

use crate::first_refused::first_refused;
use crate::known::KnownShapes;
use crate::shape_columns::ShapeColumns;
use crate::shape_row::shape_columns;
use crate::shapes_kept::{kept_shapes, places_among};
use crate::shapes_read::{ids_of, in_order_of_rows, read_shapes};
use gtfs_fields::Rows;
use map_base::Sequence;
use ordered_entries::OrderedEntries;
use route_tables::KnownTrips;
use std::alloc::Global;
use table_rows::{FeedFault, Ids, Table, Why, bad_row, header_reason};

/// The shapes of a table that selected trips name, or its first bad row behind the header.
fn shapes_of_rows(
    alloc: Global,
    trips: &KnownTrips,
    named: &Ids,
    rows: &Rows,
    columns: &ShapeColumns,
) -> Result<KnownShapes, FeedFault>
    requires header { 0 < length rows.now }
    requires few { length rows.now ≤ 2 ^ 32 }
    requires few_named { length named.now ≤ 2 ^ 32 }
    requires named { AreSame named.now trips.now.shapes }
    requires columns { columns.now ≡ shape_columns rows.now }
    requires good { own_reason_at named.now rows.now 0 ≡ None }
    ensures { Answers never (λ shapes. shapes) result (shapes_of trips.now rows.now) }
{
    let reads = read_shapes(alloc, named, rows, columns)?;
    let ordered = OrderedEntries::of(alloc, reads.entries.into_vec())?;
    let repeat = ordered.first_repeat();
    if let Some(bad) = first_refused(repeat, &reads.places, reads.upto, reads.stopped) {
        return Err(bad_row(Table::Shapes, bad.0, bad.1));
    }
    let ids = in_order_of_rows(alloc, named, rows, columns)?;
    let kept = kept_shapes(alloc, named, &ids, &ordered, reads.values.as_slice())?;
    let of_trips = places_among(alloc, &kept.ids, &trips.shapes)?;
    Ok(KnownShapes {
        shapes: Sequence::of(kept.shapes),
        of_trips: Sequence::of(of_trips),
    })
}

/// The shapes of a table that selected trips name, or its first bad row.
pub(crate) fn shapes_in(
    alloc: Global,
    trips: &KnownTrips,
    rows: &Rows,
) -> Result<KnownShapes, FeedFault>
    requires few { length rows.now ≤ 2 ^ 32 }
    requires few_trips { length trips.now.shapes ≤ 2 ^ 32 }
    ensures { Answers never (λ shapes. shapes) result (shapes_of trips.now rows.now) }
{
    if rows.len() == 0 {
        return Err(bad_row(Table::Shapes, 0, Why::MissingColumn));
    }
    let columns = shape_columns(rows);
    let required = [columns.id, columns.lat, columns.lon, columns.sequence];
    match header_reason(rows, &required) {
        Some(why) => Err(bad_row(Table::Shapes, 0, why)),
        None => {
            let named = ids_of(alloc, &trips.shapes)?;
            shapes_of_rows(alloc, trips, &named, rows, &columns)
        }
    }
}
