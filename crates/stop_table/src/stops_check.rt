//! The rows of `stops.txt` are checked.

ghost use Rattle.std.specs.Prelude.{◌≡◌, ◌≤◌, ◌<◌, ◌+◌, ◌∷◌, [], ℕ, Bool, length, not};
ghost use Rattle.table_rows.specs.declared.why.Table.TheVariants as tables;
ghost use Rattle.table_rows.specs.declared.why.Why.TheVariants as why;
ghost use Rattle.table_rows.specs.declared.fault.FeedFault.TheVariants as faults;
ghost use Rattle.table_rows.specs.Ids.{is_among};
ghost use Rattle.table_rows.specs.Cells.{row_at, field_in, ids_in, rows_before};
ghost use Rattle.table_rows.specs.Reasons.{header_reason, first_bad, unless_bad};
ghost use Rattle.table_rows.specs.Outcome.{Answers, never};
ghost use Rattle.stop_table.specs.Stops.{stop_columns, required_columns, place_reason, lacks_parent, stop_reason, stops_reason, type_in};
ghost use Rattle.stop_table.specs.Parents.{AreParents};

use crate::parents::{Parents, parents_of};
use crate::stop_columns::{LocationType, StopColumns};
use crate::stop_row::{is_placed, latitude_in, longitude_in, type_in};
use gtfs_fields::Rows;
use std::alloc::Global;
use table_rows::{
    FeedFault, Ids, Table, Why, bad_row, ends_early, field_in, header_reason, is_text,
};

/// What is wrong with a row's latitude, longitude or type. Where the type is bad, neither of the others is read.
fn place_reason(rows: &Rows, row: usize, columns: &StopColumns) -> Option<Why>
    requires { row < length rows.now }
    ensures { result ≡ place_reason columns.now (row_at rows.now row) }
{
    let kind = type_in(rows, row, columns);
    if kind.is_none() {
        return Some(Why::BadType);
    }
    if !is_placed(kind) {
        return None;
    }
    if latitude_in(rows, row, columns).is_none() {
        return Some(Why::BadLatitude);
    }
    if longitude_in(rows, row, columns).is_none() {
        return Some(Why::BadLongitude);
    }
    None
}

/// Whether a row names a parent that is not there.
fn lacks_parent(rows: &Rows, row: usize, columns: &StopColumns, parents: &Parents) -> bool
    requires behind { 1 ≤ row }
    requires within { row < length rows.now }
    requires parents { AreParents columns.now rows.now parents.now }
    ensures { result ≡ lacks_parent columns.now rows.now (type_in columns.now (row_at rows.now row)) (field_in (row_at rows.now row) columns.now.parent) }
{
    let parent = field_in(rows, row, columns.parent);
    if parent.is_empty() {
        return false;
    }
    match type_in(rows, row, columns) {
        Some(LocationType::Stop) => !parents.stations.contains(parent),
        Some(LocationType::BoardingArea) => !parents.stops.contains(parent),
        _ => false,
    }
}

/// What is wrong with a row behind the header, told whether an earlier row has its id.
fn stop_reason(
    rows: &Rows,
    row: usize,
    columns: &StopColumns,
    parents: &Parents,
    is_repeated: bool,
) -> Option<Why>
    requires behind { 1 ≤ row }
    requires within { row < length rows.now }
    requires parents { AreParents columns.now rows.now parents.now }
    requires repeated { is_repeated ≡ is_among (field_in (row_at rows.now row) columns.now.id) (ids_in columns.now.id (rows_before row rows.now)) }
    ensures { result ≡ stop_reason columns.now rows.now row }
{
    if ends_early(rows, row, &[columns.id, columns.lat, columns.lon]) {
        return Some(Why::WrongFields);
    }
    if !is_text(rows, row) {
        return Some(Why::NotUtf8);
    }
    if field_in(rows, row, columns.id).is_empty() {
        return Some(Why::EmptyId);
    }
    if is_repeated {
        return Some(Why::RepeatedId);
    }
    if let Some(why) = place_reason(rows, row, columns) {
        return Some(why);
    }
    if lacks_parent(rows, row, columns, parents) {
        return Some(Why::UnknownParent);
    }
    None
}

/// Finds the first bad row behind the header.
fn check_rows(alloc: Global, rows: &Rows, columns: &StopColumns) -> Result<(), FeedFault>
    requires header { 0 < length rows.now }
    requires columns { columns.now ≡ stop_columns rows.now }
    requires good { stops_reason rows.now 0 ≡ None }
    ensures { Answers never (λ done. done) result (unless_bad tables.Stops (first_bad (stops_reason rows.now) rows.now) tt) }
{
    let parents = parents_of(alloc, rows, columns)?;
    let mut seen = Ids::new(alloc);
    for row in 1..rows.len() {
        let is_new = seen.note(field_in(rows, row, columns.id))?;
        if let Some(why) = stop_reason(rows, row, columns, &parents, !is_new) {
            return Err(bad_row(Table::Stops, row, why));
        }
    }
    Ok(())
}

/// Finds the first bad row of a table that has a header.
pub(crate) fn check_stops(
    alloc: Global,
    rows: &Rows,
    columns: &StopColumns,
) -> Result<(), FeedFault>
    requires header { 0 < length rows.now }
    requires columns { columns.now ≡ stop_columns rows.now }
    ensures { Answers never (λ done. done) result (unless_bad tables.Stops (first_bad (stops_reason rows.now) rows.now) tt) }
{
    match header_reason(rows, &[columns.id, columns.lat, columns.lon]) {
        Some(why) => Err(bad_row(Table::Stops, 0, why)),
        None => check_rows(alloc, rows, columns),
    }
}
