//! The rows of `routes.txt` are checked.

ghost use Rattle.std.specs.Prelude.{◌≡◌, ◌≤◌, ◌<◌, ℕ, None, length};
ghost use Rattle.table_rows.specs.declared.why.Table.TheVariants as tables;
ghost use Rattle.table_rows.specs.Ids.{is_among};
ghost use Rattle.table_rows.specs.Cells.{row_at, field_in, ids_in, rows_before};
ghost use Rattle.table_rows.specs.Reasons.{first_bad, unless_bad};
ghost use Rattle.table_rows.specs.Outcome.{Answers, never};
ghost use Rattle.route_tables.specs.Routes.{route_columns, route_reason, routes_reason};

use crate::route_columns::RouteColumns;
use crate::route_row::{is_bad_colour, is_selected, type_in};
use gtfs_fields::Rows;
use std::alloc::Global;
use table_rows::{
    FeedFault, Ids, Table, Why, bad_row, ends_early, field_in, header_reason, is_text,
};

/// What is wrong with a row behind the header, told whether an earlier row has its id.
fn route_reason(
    types: &[u32],
    rows: &Rows,
    row: usize,
    columns: &RouteColumns,
    is_repeated: bool,
) -> Option<Why>
    requires behind { 1 ≤ row }
    requires within { row < length rows.now }
    requires repeated { is_repeated ≡ is_among (field_in (row_at rows.now row) columns.now.id) (ids_in columns.now.id (rows_before row rows.now)) }
    ensures { result ≡ route_reason types.now columns.now rows.now row }
{
    if ends_early(rows, row, &[columns.id, columns.kind]) {
        return Some(Why::WrongFields);
    }
    if !is_text(rows, row) {
        return Some(Why::NotUtf8);
    }
    if field_in(rows, row, columns.id).is_empty() {
        return Some(Why::EmptyId);
    }
    if is_repeated {
        return Some(Why::RepeatedId);
    }
    if type_in(rows, row, columns).is_none() {
        return Some(Why::BadType);
    }
    if !is_selected(types, rows, row, columns) {
        return None;
    }
    if is_bad_colour(field_in(rows, row, columns.colour)) {
        return Some(Why::BadColour);
    }
    None
}

/// Finds the first bad row behind the header.
fn check_rows(
    alloc: Global,
    types: &[u32],
    rows: &Rows,
    columns: &RouteColumns,
) -> Result<(), FeedFault>
    requires header { 0 < length rows.now }
    requires columns { columns.now ≡ route_columns rows.now }
    requires good { routes_reason types.now rows.now 0 ≡ None }
    ensures { Answers never (λ done. done) result (unless_bad tables.Routes (first_bad (routes_reason types.now rows.now) rows.now) tt) }
{
    let mut seen = Ids::new(alloc);
    for row in 1..rows.len() {
        let is_new = seen.note(field_in(rows, row, columns.id))?;
        if let Some(why) = route_reason(types, rows, row, columns, !is_new) {
            return Err(bad_row(Table::Routes, row, why));
        }
    }
    Ok(())
}

/// Finds the first bad row of a table that has a header.
pub(crate) fn check_routes(
    alloc: Global,
    types: &[u32],
    rows: &Rows,
    columns: &RouteColumns,
) -> Result<(), FeedFault>
    requires header { 0 < length rows.now }
    requires columns { columns.now ≡ route_columns rows.now }
    ensures { Answers never (λ done. done) result (unless_bad tables.Routes (first_bad (routes_reason types.now rows.now) rows.now) tt) }
{
    match header_reason(rows, &[columns.id, columns.kind]) {
        Some(why) => Err(bad_row(Table::Routes, 0, why)),
        None => check_rows(alloc, types, rows, columns),
    }
}
