//! The rows of `trips.txt` are checked.

ghost use Rattle.std.specs.Prelude.{◌≡◌, ◌≤◌, ◌<◌, ℕ, None, length};
ghost use Rattle.table_rows.specs.declared.why.Table.TheVariants as tables;
ghost use Rattle.table_rows.specs.Ids.{is_among};
ghost use Rattle.table_rows.specs.Cells.{row_at, field_in, ids_in, rows_before};
ghost use Rattle.table_rows.specs.Reasons.{first_bad, unless_bad};
ghost use Rattle.table_rows.specs.Outcome.{Answers, never};
ghost use Rattle.route_tables.specs.Trips.{trip_columns, trip_reason, trips_reason};

use crate::known::KnownRoutes;
use crate::trip_columns::TripColumns;
use gtfs_fields::Rows;
use std::alloc::Global;
use table_rows::{
    FeedFault, Ids, Table, Why, bad_row, ends_early, field_in, header_reason, is_text,
};

/// What is wrong with a row behind the header, told whether an earlier row has its id.
fn trip_reason(
    routes: &KnownRoutes,
    rows: &Rows,
    row: usize,
    columns: &TripColumns,
    is_repeated: bool,
) -> Option<Why>
    requires behind { 1 ≤ row }
    requires within { row < length rows.now }
    requires repeated { is_repeated ≡ is_among (field_in (row_at rows.now row) columns.now.id) (ids_in columns.now.id (rows_before row rows.now)) }
    ensures { result ≡ trip_reason routes.now columns.now rows.now row }
{
    if ends_early(rows, row, &[columns.route, columns.id]) {
        return Some(Why::WrongFields);
    }
    if !is_text(rows, row) {
        return Some(Why::NotUtf8);
    }
    if field_in(rows, row, columns.id).is_empty() {
        return Some(Why::EmptyId);
    }
    if is_repeated {
        return Some(Why::RepeatedId);
    }
    if !routes.ids.contains(field_in(rows, row, columns.route)) {
        return Some(Why::UnknownRoute);
    }
    None
}

/// Finds the first bad row behind the header.
fn check_rows(
    alloc: Global,
    routes: &KnownRoutes,
    rows: &Rows,
    columns: &TripColumns,
) -> Result<(), FeedFault>
    requires header { 0 < length rows.now }
    requires columns { columns.now ≡ trip_columns rows.now }
    requires good { trips_reason routes.now rows.now 0 ≡ None }
    ensures { Answers never (λ done. done) result (unless_bad tables.Trips (first_bad (trips_reason routes.now rows.now) rows.now) tt) }
{
    let mut seen = Ids::new(alloc);
    for row in 1..rows.len() {
        let is_new = seen.note(field_in(rows, row, columns.id))?;
        if let Some(why) = trip_reason(routes, rows, row, columns, !is_new) {
            return Err(bad_row(Table::Trips, row, why));
        }
    }
    Ok(())
}

/// Finds the first bad row of a table that has a header.
pub(crate) fn check_trips(
    alloc: Global,
    routes: &KnownRoutes,
    rows: &Rows,
    columns: &TripColumns,
) -> Result<(), FeedFault>
    requires header { 0 < length rows.now }
    requires columns { columns.now ≡ trip_columns rows.now }
    ensures { Answers never (λ done. done) result (unless_bad tables.Trips (first_bad (trips_reason routes.now rows.now) rows.now) tt) }
{
    match header_reason(rows, &[columns.route, columns.id]) {
        Some(why) => Err(bad_row(Table::Trips, 0, why)),
        None => check_rows(alloc, routes, rows, columns),
    }
}
