//! The trips of a feed.

ghost use Rattle.std.specs.Prelude.{◌≡◌, ◌≤◌, ◌<◌, ◌^◌, None, ℕ, length, map, drop, IfOk};
ghost use Rattle.table_rows.specs.Reasons.{first_bad};
ghost use Rattle.table_rows.specs.Outcome.{Answers, never};
ghost use Rattle.route_tables.specs.Trips.{trip_columns, trips_reason, line_in, shape_in, known_trips, trips_of};

use crate::known::{KnownRoutes, KnownTrips};
use crate::trip_columns::TripColumns;
use crate::trip_row::{line_in, shape_in, trip_columns};
use crate::trips_check::check_trips;
use gtfs_fields::Rows;
use map_base::{NoMemory, Sequence};
use std::alloc::Global;
use table_rows::{FeedFault, Slices, Table, Why, bad_row, ids_of_rows};

/// The line of each trip, where it is selected.
fn lines_of_trips(
    alloc: Global,
    routes: &KnownRoutes,
    rows: &Rows,
    columns: &TripColumns,
) -> Result<Vec<Option<u32>>, NoMemory>
    requires header { 0 < length rows.now }
    requires few { length routes.now.line_ids ≤ 2 ^ 32 }
    ensures { IfOk result (λ lines. lines.items ≡ map (line_in routes.now columns.now) (drop 1 rows.now)) }
{
    let mut lines = Vec::with_capacity(alloc, rows.len())?;
    for row in 1..rows.len() {
        lines.push(line_in(routes, rows, row, columns))?;
    }
    Ok(lines)
}

/// The shape of each trip, where it is selected.
fn shapes_of_trips<'a>(
    alloc: Global,
    routes: &KnownRoutes,
    rows: &'a Rows,
    columns: &TripColumns,
) -> Result<Slices<'a>, NoMemory>
    requires header { 0 < length rows.now }
    requires few { length routes.now.line_ids ≤ 2 ^ 32 }
    ensures { IfOk result (λ shapes. shapes ≡ map (shape_in routes.now columns.now) (drop 1 rows.now)) }
{
    let mut shapes = Slices::new(alloc);
    for row in 1..rows.len() {
        shapes.push(shape_in(routes, rows, row, columns))?;
    }
    Ok(shapes)
}

/// The trips of a table without a bad row, by their ids.
fn known_trips<'a>(
    alloc: Global,
    routes: &KnownRoutes,
    rows: &'a Rows,
    columns: &TripColumns,
) -> Result<KnownTrips<'a>, NoMemory>
    requires header { 0 < length rows.now }
    requires few { length routes.now.line_ids ≤ 2 ^ 32 }
    requires columns { columns.now ≡ trip_columns rows.now }
    requires good { first_bad (trips_reason routes.now rows.now) rows.now ≡ None }
    ensures { IfOk result (λ known. known ≡ known_trips routes.now rows.now) }
{
    Ok(KnownTrips {
        ids: ids_of_rows(alloc, rows, columns.id)?,
        lines: Sequence::of(lines_of_trips(alloc, routes, rows, columns)?),
        shapes: shapes_of_trips(alloc, routes, rows, columns)?,
    })
}

/// The trips of a table, or its first bad row.
pub fn trips_in<'a>(
    alloc: Global,
    routes: &KnownRoutes,
    rows: &'a Rows,
) -> Result<KnownTrips<'a>, FeedFault>
    requires few { length routes.now.line_ids ≤ 2 ^ 32 }
    ensures { Answers never (λ trips. trips) result (trips_of routes.now rows.now) }
{
    if rows.len() == 0 {
        return Err(bad_row(Table::Trips, 0, Why::MissingColumn));
    }
    let columns = trip_columns(rows);
    check_trips(alloc, routes, rows, &columns)?;
    Ok(known_trips(alloc, routes, rows, &columns)?)
}
