//! What a row of `trips.txt` says.

ghost use Rattle.std.specs.Prelude.{◌≡◌, ◌≤◌, ◌<◌, ◌^◌, ℕ, length, codes, IfSome};
ghost use Rattle.table_rows.specs.Cells.{row_at};
ghost use Rattle.route_tables.specs.Trips.{trip_columns, line_in, shape_by, shape_in};

use crate::known::KnownRoutes;
use crate::trip_columns::TripColumns;
use gtfs_fields::Rows;
use table_rows::{column_of, field_in, small};

/// The columns that a header names.
pub(crate) fn trip_columns(rows: &Rows) -> TripColumns
    requires { 0 < length rows.now }
    ensures { result ≡ trip_columns rows.now }
{
    TripColumns {
        route: column_of(rows, b"route_id"),
        id: column_of(rows, b"trip_id"),
        shape: column_of(rows, b"shape_id"),
    }
}

/// The number of the line that a row names, where its route is selected.
pub(crate) fn line_in(
    routes: &KnownRoutes,
    rows: &Rows,
    row: usize,
    columns: &TripColumns,
) -> Option<u32>
    requires within { row < length rows.now }
    requires few { length routes.now.line_ids ≤ 2 ^ 32 }
    ensures { result ≡ line_in routes.now columns.now (row_at rows.now row) }
{
    small(routes.line_ids.place_of(field_in(rows, row, columns.route)))
}

fn shape_by<'a>(line: Option<u32>, shape: &'a [u8]) -> &'a [u8]
    ensures { result.now ≡ shape_by line shape.now }
{
    match line {
        None => &[],
        Some(_) => shape,
    }
}

/// The shape that a row names, where its route is selected.
pub(crate) fn shape_in<'a>(
    routes: &KnownRoutes,
    rows: &'a Rows,
    row: usize,
    columns: &TripColumns,
) -> &'a [u8]
    requires within { row < length rows.now }
    requires few { length routes.now.line_ids ≤ 2 ^ 32 }
    ensures { result.now ≡ shape_in routes.now columns.now (row_at rows.now row) }
{
    shape_by(
        line_in(routes, rows, row, columns),
        field_in(rows, row, columns.shape),
    )
}
