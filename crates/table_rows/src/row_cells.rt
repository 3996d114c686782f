//! The fields of a row that is read in place, by its table's columns.

ghost use Rattle.std.specs.Prelude.{◌≡◌, [], ◌∷◌};
ghost use Rattle.table_rows.specs.Cells.{field_in, ends_before, ends_early, column_of};
ghost use Rattle.table_rows.specs.Reasons.{header_reason};

use crate::cells::lacks_column;
use crate::values::bare;
use crate::why::Why;
use gtfs_fields::Row;

/// The first column whose name in the header, spaces at its ends aside, is `name`.
pub fn column_in(header: &Row, name: &[u8]) -> Option<usize>
    ensures { result ≡ column_of name.now (header.now ∷ []) }
{
    for column in 0..header.len() {
        if bare(header.field(column)) == name {
            return Some(column);
        }
    }
    None
}

/// The field of a row in a column: empty where the column is absent or the row ends before it.
pub fn field_of<'a>(row: &Row<'a>, column: Option<usize>) -> &'a [u8]
    ensures { result.now ≡ field_in row.now column }
{
    match column {
        None => &[],
        Some(column) => {
            if column < row.len() {
                row.field(column)
            } else {
                &[]
            }
        }
    }
}

fn row_ends_before(row: &Row, column: Option<usize>) -> bool
    ensures { result ≡ ends_before row.now column }
{
    match column {
        None => true,
        Some(column) => row.len() <= column,
    }
}

/// Whether a row ends before its field of one of these columns.
pub fn row_ends_early(row: &Row, required: &[Option<usize>]) -> bool
    ensures { result ≡ ends_early row.now required.now }
{
    required.iter().any(|column| row_ends_before(row, *column))
}

/// What is wrong with a header.
pub fn reason_of_header(header: &Row, required: &[Option<usize>]) -> Option<Why>
    ensures { result ≡ header_reason required.now header.now }
{
    if lacks_column(required) {
        return Some(Why::MissingColumn);
    }
    if !header.is_text() {
        return Some(Why::NotUtf8);
    }
    None
}
