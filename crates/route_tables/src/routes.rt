//! The routes of a feed, and its lines.

ghost use Rattle.std.specs.Prelude.{◌≡◌, ◌≤◌, ◌<◌, ◌++◌, ◌∷◌, [], None, ℕ, true, length, vec_len, filter, drop, IfOk, OnOk, if◌then◌else◌};
ghost use Rattle.table_rows.specs.Cells.{row_at, is_text, ids_in};
ghost use Rattle.table_rows.specs.Reasons.{first_bad};
ghost use Rattle.table_rows.specs.NewIds.{AreNew};
ghost use Rattle.table_rows.specs.Outcome.{Answers, never};
ghost use Rattle.route_tables.specs.Routes.{route_columns, routes_reason, lines_from, selected_rows, lines_of, known_routes, feed_routes};

use crate::known::{FeedRoutes, KnownRoutes};
use crate::route_columns::RouteColumns;
use crate::route_row::{is_selected, line_of, route_columns};
use crate::routes_check::check_routes;
use gtfs_fields::Rows;
use map_base::{NoMemory, Sequence};
use std::alloc::Global;
use table_rows::{FeedFault, Ids, Table, Why, bad_row, field_in, ids_of_rows, note_new};
use transit_feed::Line;

/// Adds the line that a row is, where its route is selected.
fn add_line(
    alloc: Global,
    lines: &mut Vec<Line>,
    wanted: bool,
    rows: &Rows,
    row: usize,
    columns: &RouteColumns,
) -> Result<(), NoMemory>
    requires within { row < length rows.now }
    requires text { is_text (row_at rows.now row) ≡ true }
    ensures { OnOk result (lines.new.items ≡ lines.old.items ++ lines_from columns.now (length lines.old.items) (if wanted then row_at rows.now row ∷ [] else [])) }
{
    if wanted {
        let line = line_of(alloc, rows, row, columns, lines.len())?;
        lines.push(line)?;
    }
    Ok(())
}

/// The lines of a table without a bad row.
fn lines_of(
    alloc: Global,
    types: &[u32],
    rows: &Rows,
    columns: &RouteColumns,
) -> Result<Vec<Line>, NoMemory>
    requires header { 0 < length rows.now }
    requires columns { columns.now ≡ route_columns rows.now }
    requires good { first_bad (routes_reason types.now rows.now) rows.now ≡ None }
    ensures { IfOk result (λ lines. lines.items ≡ lines_of types.now rows.now) }
{
    let mut lines = Vec::new(alloc);
    for row in 1..rows.len() {
        let wanted = is_selected(types, rows, row, columns);
        add_line(alloc, &mut lines, wanted, rows, row, columns)?;
    }
    Ok(lines)
}

/// The ids of the selected routes.
fn line_ids<'a>(
    alloc: Global,
    types: &[u32],
    rows: &'a Rows,
    columns: &RouteColumns,
) -> Result<Ids<'a>, NoMemory>
    requires header { 0 < length rows.now }
    requires new { AreNew columns.now.id rows.now }
    ensures { IfOk result (λ ids. ids ≡ ids_in columns.now.id (selected_rows types.now columns.now rows.now)) }
{
    let mut ids = Ids::new(alloc);
    for row in 1..rows.len() {
        let wanted = is_selected(types, rows, row, columns);
        note_new(&mut ids, wanted, field_in(rows, row, columns.id))?;
    }
    Ok(ids)
}

/// The routes of a table without a bad row, by their ids.
fn known_routes<'a>(
    alloc: Global,
    types: &[u32],
    rows: &'a Rows,
    columns: &RouteColumns,
) -> Result<KnownRoutes<'a>, NoMemory>
    requires header { 0 < length rows.now }
    requires columns { columns.now ≡ route_columns rows.now }
    requires good { first_bad (routes_reason types.now rows.now) rows.now ≡ None }
    ensures { IfOk result (λ known. known ≡ known_routes types.now rows.now) }
{
    Ok(KnownRoutes {
        ids: ids_of_rows(alloc, rows, columns.id)?,
        line_ids: line_ids(alloc, types, rows, columns)?,
    })
}

/// The routes of a table, or its first bad row.
pub fn routes_in<'a>(
    alloc: Global,
    types: &[u32],
    rows: &'a Rows,
) -> Result<FeedRoutes<'a>, FeedFault>
    ensures { Answers never (λ routes. routes) result (feed_routes types.now rows.now) }
{
    if rows.len() == 0 {
        return Err(bad_row(Table::Routes, 0, Why::MissingColumn));
    }
    let columns = route_columns(rows);
    check_routes(alloc, types, rows, &columns)?;
    let lines = lines_of(alloc, types, rows, &columns)?;
    let known = known_routes(alloc, types, rows, &columns)?;
    Ok(FeedRoutes {
        lines: Sequence::of(lines),
        known,
    })
}
