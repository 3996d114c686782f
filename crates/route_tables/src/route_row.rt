//! What a row of `routes.txt` says.

ghost use Rattle.std.specs.Prelude.{◌≡◌, ◌<◌, ℕ, Bool, true, length, codes, IfOk};
ghost use Rattle.table_rows.specs.Cells.{row_at, is_text};
ghost use Rattle.route_tables.specs.Routes.{route_columns, type_in, is_wanted, is_selected, is_bad_colour, filled, name_in, own_colour, colour_by, line_of};

use crate::route_columns::RouteColumns;
use gtfs_fields::Rows;
use map_base::NoMemory;
use std::alloc::Global;
use table_rows::{colour_of, column_of, field_in, number_of, text_of};
use transit_feed::Line;

/// The colours of lines that have none, which come in turn.
const OWN_COLOURS: [[u8; 3]; 12] = [
    [230, 25, 75],
    [60, 180, 75],
    [67, 99, 216],
    [245, 130, 49],
    [145, 30, 180],
    [70, 240, 240],
    [240, 50, 230],
    [154, 99, 36],
    [128, 0, 0],
    [128, 128, 0],
    [0, 0, 117],
    [128, 128, 128],
];

/// The columns that a header names.
pub(crate) fn route_columns(rows: &Rows) -> RouteColumns
    requires { 0 < length rows.now }
    ensures { result ≡ route_columns rows.now }
{
    RouteColumns {
        id: column_of(rows, b"route_id"),
        kind: column_of(rows, b"route_type"),
        short_name: column_of(rows, b"route_short_name"),
        long_name: column_of(rows, b"route_long_name"),
        colour: column_of(rows, b"route_color"),
    }
}

/// The type of a row, if it spells one.
pub(crate) fn type_in(rows: &Rows, row: usize, columns: &RouteColumns) -> Option<u32>
    requires { row < length rows.now }
    ensures { result ≡ type_in columns.now (row_at rows.now row) }
{
    number_of(field_in(rows, row, columns.kind))
}

fn is_wanted(types: &[u32], kind: Option<u32>) -> bool
    ensures { result ≡ is_wanted types.now kind }
{
    match kind {
        None => false,
        Some(kind) => types.contains(&kind),
    }
}

/// Whether a row's route is selected: its type is one of these.
pub(crate) fn is_selected(types: &[u32], rows: &Rows, row: usize, columns: &RouteColumns) -> bool
    requires { row < length rows.now }
    ensures { result ≡ is_selected types.now columns.now (row_at rows.now row) }
{
    is_wanted(types, type_in(rows, row, columns))
}

/// Whether a colour is neither empty nor six hexadecimal digits.
pub(crate) fn is_bad_colour(field: &[u8]) -> bool
    ensures { result ≡ is_bad_colour field.now }
{
    if field.is_empty() {
        return false;
    }
    colour_of(field).is_none()
}

fn filled<'a>(text: &'a [u8], other: &'a [u8]) -> &'a [u8]
    ensures { result.now ≡ filled text.now other.now }
{
    if text.is_empty() { other } else { text }
}

/// The name of a row's line: the short name, else the long name, else the id.
fn name_in<'a>(rows: &'a Rows, row: usize, columns: &RouteColumns) -> &'a [u8]
    requires { row < length rows.now }
    ensures { result.now ≡ name_in columns.now (row_at rows.now row) }
{
    let other = filled(
        field_in(rows, row, columns.long_name),
        field_in(rows, row, columns.id),
    );
    filled(field_in(rows, row, columns.short_name), other)
}

fn own_colour(number: usize) -> [u8; 3]
    ensures { result ≡ own_colour number }
{
    OWN_COLOURS[number % 12]
}

/// The colour of the line of a number.
fn colour_by(number: usize, field: &[u8]) -> [u8; 3]
    ensures { result ≡ colour_by number field.now }
{
    if field.is_empty() {
        return own_colour(number);
    }
    match colour_of(field) {
        Some(colour) => colour,
        None => own_colour(number),
    }
}

/// The line of a number that a row is.
pub(crate) fn line_of(
    alloc: Global,
    rows: &Rows,
    row: usize,
    columns: &RouteColumns,
    number: usize,
) -> Result<Line, NoMemory>
    requires within { row < length rows.now }
    requires text { is_text (row_at rows.now row) ≡ true }
    ensures { IfOk result (λ line. line ≡ line_of columns.now number (row_at rows.now row)) }
{
    let colour = colour_by(number, field_in(rows, row, columns.colour));
    Ok(Line {
        id: text_of(alloc, field_in(rows, row, columns.id))?,
        name: text_of(alloc, name_in(rows, row, columns))?,
        colour,
        hidden: false,
    })
}
