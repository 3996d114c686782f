//! The fields of a table, by its columns' names.

ghost use Rattle.std.specs.Prelude.{◌≡◌, ◌<◌, length};
ghost use Rattle.table_rows.specs.Cells.{row_at, field_in, ends_before, ends_early, is_text, column_of, lacks_column};
ghost use Rattle.table_rows.specs.Reasons.{header_reason};

use crate::values::bare;
use crate::why::Why;
use gtfs_fields::Rows;

/// The first column whose name in the header, spaces at its ends aside, is `name`.
pub fn column_of(rows: &Rows, name: &[u8]) -> Option<usize>
    requires { 0 < length rows.now }
    ensures { result ≡ column_of name.now rows.now }
{
    for column in 0..rows.width(0) {
        if bare(rows.field(0, column)) == name {
            return Some(column);
        }
    }
    None
}

/// The field of a row in a column: empty where the column is absent or the row ends before it.
pub fn field_in<'a>(rows: &'a Rows, row: usize, column: Option<usize>) -> &'a [u8]
    requires { row < length rows.now }
    ensures { result.now ≡ field_in (row_at rows.now row) column }
{
    match column {
        None => &[],
        Some(column) => {
            if column < rows.width(row) {
                rows.field(row, column)
            } else {
                &[]
            }
        }
    }
}

fn ends_before(rows: &Rows, row: usize, column: Option<usize>) -> bool
    requires { row < length rows.now }
    ensures { result ≡ ends_before (row_at rows.now row) column }
{
    match column {
        None => true,
        Some(column) => rows.width(row) <= column,
    }
}

/// Whether a row ends before its field of one of these columns.
pub fn ends_early(rows: &Rows, row: usize, required: &[Option<usize>]) -> bool
    requires { row < length rows.now }
    ensures { result ≡ ends_early (row_at rows.now row) required.now }
{
    required
        .iter()
        .any(|column| ends_before(rows, row, *column))
}

/// Whether one of these columns is absent.
pub fn lacks_column(required: &[Option<usize>]) -> bool
    ensures { result ≡ lacks_column required.now }
{
    required.iter().any(|column| column.is_none())
}

/// Whether each field of a row, read or not, is UTF-8.
pub fn is_text(rows: &Rows, row: usize) -> bool
    requires { row < length rows.now }
    ensures { result ≡ is_text (row_at rows.now row) }
{
    rows.is_text(row)
}

/// What is wrong with a header.
pub fn header_reason(rows: &Rows, required: &[Option<usize>]) -> Option<Why>
    requires { 0 < length rows.now }
    ensures { result ≡ header_reason required.now (row_at rows.now 0) }
{
    if lacks_column(required) {
        return Some(Why::MissingColumn);
    }
    if !is_text(rows, 0) {
        return Some(Why::NotUtf8);
    }
    None
}
