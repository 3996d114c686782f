//! What a row of `shapes.txt` says.

ghost use Rattle.std.specs.Prelude.{◌≡◌, ◌<◌, ◌^◌, None, Some, length, codes, IfSome, IfOk, IfErr, is_some, is_none, false, unwrap_or};
ghost use Rattle.table_rows.specs.Cells.{row_at};
ghost use Rattle.sequence_tables.specs.Shapes.{shape_columns, latitude_in, longitude_in, sequence_in, point_in};
ghost use Rattle.sequence_tables.specs.ShapeReads.{own_reason, shape_place, read_by, FailsInFull};

use crate::reads::Read;
use crate::shape_columns::ShapeColumns;
use gtfs_fields::Rows;
use ordered_entries::Entry;
use table_rows::{Ids, Why, column_of, ends_early, field_in, latitude_of, longitude_of, number_of};

/// The columns that a header names.
pub(crate) fn shape_columns(rows: &Rows) -> ShapeColumns
    requires { 0 < length rows.now }
    ensures { result ≡ shape_columns rows.now }
{
    ShapeColumns {
        id: column_of(rows, b"shape_id"),
        lat: column_of(rows, b"shape_pt_lat"),
        lon: column_of(rows, b"shape_pt_lon"),
        sequence: column_of(rows, b"shape_pt_sequence"),
    }
}

/// The id of the shape of the last row, and its place among those that trips name. Most rows have the shape of the row
/// before.
#[derive(Clone, Copy)]
pub(crate) struct LastShape<'a> {
    pub(crate) id: &'a [u8],
    pub(crate) place: Option<usize>,
}

impl<'a> LastShape<'a> {
    /// The shape of an id.
    pub(crate) fn of(named: &Ids, id: &'a [u8]) -> LastShape<'a>
        ensures id { result.id.now ≡ id.now }
        ensures place { result.place ≡ shape_place named.now id.now }
    {
        LastShape {
            id,
            place: if id.is_empty() {
                None
            } else {
                named.place_of(id)
            },
        }
    }

    /// The shape of an id, told that of the last row.
    pub(crate) fn next(self, named: &Ids, id: &'a [u8]) -> LastShape<'a>
        requires { self.place ≡ shape_place named.now self.id.now }
        ensures id { result.id.now ≡ id.now }
        ensures place { result.place ≡ shape_place named.now id.now }
    {
        if self.id == id {
            return self;
        }
        LastShape::of(named, id)
    }
}

/// What a row says that is read in full, or why it can't be, told the place of its shape.
fn read_in_full(
    rows: &Rows,
    row: usize,
    columns: &ShapeColumns,
    shape: usize,
) -> Result<Read<(i64, i64)>, Why>
    requires within { row < length rows.now }
    requires few { shape < 2 ^ 32 }
    ensures read { IfOk result (λ read. read ≡ record { entry = record { key = shape; sequence = unwrap_or (sequence_in columns.now (row_at rows.now row)) 0 }; value = point_in columns.now (row_at rows.now row) }) }
    ensures lat { IfOk result (λ _. is_none (latitude_in columns.now (row_at rows.now row)) ≡ false) }
    ensures lon { IfOk result (λ _. is_none (longitude_in columns.now (row_at rows.now row)) ≡ false) }
    ensures sequence { IfOk result (λ _. is_none (sequence_in columns.now (row_at rows.now row)) ≡ false) }
    ensures bad { IfErr result (λ fault. FailsInFull columns.now (row_at rows.now row) fault) }
{
    let Some(lat) = latitude_of(field_in(rows, row, columns.lat)) else {
        return Err(Why::BadLatitude);
    };
    let Some(lon) = longitude_of(field_in(rows, row, columns.lon)) else {
        return Err(Why::BadLongitude);
    };
    let Some(sequence) = number_of(field_in(rows, row, columns.sequence)) else {
        return Err(Why::BadWhole);
    };
    Ok(Read {
        entry: Entry {
            key: shape as u32,
            sequence,
        },
        value: (lat, lon),
    })
}

/// What a row says, where it is read in full, or what is wrong with it by itself, told the place of its shape where a
/// trip names it.
pub(crate) fn read_row(
    rows: &Rows,
    row: usize,
    columns: &ShapeColumns,
    shape: Option<usize>,
) -> Result<Option<Read<(i64, i64)>>, Why>
    requires within { row < length rows.now }
    requires few { IfSome shape (λ place. place < 2 ^ 32) }
    ensures bad { IfErr result (λ fault. own_reason (is_some shape) columns.now (row_at rows.now row) ≡ Some fault) }
    ensures good { IfOk result (λ _. own_reason (is_some shape) columns.now (row_at rows.now row) ≡ None) }
    ensures read { IfOk result (λ read. read ≡ read_by columns.now (row_at rows.now row) shape) }
{
    if ends_early(
        rows,
        row,
        &[columns.id, columns.lat, columns.lon, columns.sequence],
    ) {
        return Err(Why::WrongFields);
    }
    if !rows.is_text(row) {
        return Err(Why::NotUtf8);
    }
    let Some(shape) = shape else {
        return Ok(None);
    };
    match read_in_full(rows, row, columns, shape) {
        Ok(read) => Ok(Some(read)),
        Err(why) => Err(why),
    }
}
