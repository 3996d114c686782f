//! The rows of a table.

ghost use Rattle.std.specs.Prelude.{◌≡◌, ◌==◌, ℕ, ◌<◌, [], ◌∷◌, ◌++◌, List, length, OnOk, IfOk, Some, true, slice_index_or};
ghost use Rattle.csv.specs.Records.{fields_of};
ghost use Rattle.gtfs_fields.specs.Records.{records_of, width_of, field_of, is_text};

use crate::pieces::{Pieces, bounds_of};
use crate::records::{read_next, reader_of};
use crate::text::is_utf8;
use csv::ByteRecord;
use map_base::NoMemory;
use std::alloc::Global;
use std::marker::Model;

/// The records of a CSV file, the header among them: a list of rows, each a list of fields, each a list of
/// bytes. Rows may differ in width. All fields' bytes stand in one buffer, with a number of four bytes for each
/// field and one for each row.
#[derive(Debug, Drop)]
pub struct Rows {
    fields: Pieces,
    ends: Vec<u32>,
}

impl Model for Rows {
    ghost use Rattle.std.specs.Prelude.{ℕ, List, length};
    ghost use Rattle.gtfs_fields.specs.Pieces.{cut, Covers};

    ghost Value = { List (List (List ℕ)) };

    ghost view = { λ r. cut 0 r.ends.items r.fields };

    ghost invariant = { λ r. Covers 0 r.ends.items (length r.fields) };
}

impl Rows {
    /// How many rows there are.
    pub fn len(&self) -> usize
        ensures { result ≡ length self.now }
    {
        self.ends.len()
    }

    /// Whether there is no row.
    pub fn is_empty(&self) -> bool
        ensures { result ≡ (length self.now == 0) }
    {
        self.len() == 0
    }

    /// How many fields a row has; rows are counted from 0.
    pub fn width(&self, row: usize) -> usize
        requires { row < length self.now }
        ensures { result ≡ width_of self.now row }
    {
        let (start, end) = bounds_of(&self.ends, row);
        end - start
    }

    /// The bytes of a field; rows and columns are counted from 0.
    pub fn field(&self, row: usize, column: usize) -> &[u8]
        requires row { row < length self.now }
        requires column { column < width_of self.now row }
        ensures { result.now ≡ field_of self.now row column }
    {
        let (start, _) = bounds_of(&self.ends, row);
        self.fields.at(start + column)
    }

    /// Whether each field of a row is UTF-8.
    pub fn is_text(&self, row: usize) -> bool
        requires { row < length self.now }
        ensures { result ≡ is_text (slice_index_or self.now row []) }
    {
        self.is_ascii(row) || self.is_utf8(row)
    }

    // Whether each field of a row is ASCII, as most are.
    fn is_ascii(&self, row: usize) -> bool
        requires { row < length self.now }
        ensures { result ≡ true → is_text (slice_index_or self.now row []) ≡ true }
    {
        let (start, end) = bounds_of(&self.ends, row);
        start < end && self.fields.are_ascii(start, end)
    }

    // Whether each field of a row is UTF-8, field by field.
    fn is_utf8(&self, row: usize) -> bool
        requires { row < length self.now }
        ensures { result ≡ is_text (slice_index_or self.now row []) }
    {
        for column in 0..self.width(row) {
            if !is_utf8(self.field(row, column)) {
                return false;
            }
        }
        true
    }
}

// Adds a record's fields at the end.
fn push_fields(fields: &mut Pieces, row: &ByteRecord) -> Result<(), NoMemory>
    ensures { OnOk result (fields.new ≡ fields.old ++ fields_of row.now) }
{
    for field in row {
        fields.push(field)?;
    }
    Ok(())
}

// A number of fields, if four bytes hold it.
fn place_of(count: usize) -> Result<u32, NoMemory>
    ensures { IfOk result (λ place. place ≡ count) }
{
    if count > u32::MAX as usize {
        return Err(NoMemory);
    }
    Ok(count as u32)
}

/// The records that `csv` defines for the bytes, after one byte order mark: commas, fields in double quotes
/// (RFC 4180), lines that end in LF, CR or CR LF, blank lines passed over, no field trimmed, and no row taken
/// for a header.
///
/// `csv` cannot rule out that reading from memory fails. Such a failure, which does not come, would be answered
/// as want of memory, and so are fields of more than 4 GiB in all.
pub fn read_rows(alloc: Global, bytes: &[u8]) -> Result<Rows, NoMemory>
    ensures { IfOk result (λ rows. rows ≡ records_of bytes.now) }
{
    let mut reader = reader_of(alloc, bytes)?;
    let mut row = ByteRecord::new(alloc);
    let mut fields = Pieces::with_room(alloc, bytes.len())?;
    let mut ends = Vec::new(alloc);
    while read_next(&mut *reader, &mut row)? {
        push_fields(&mut fields, &row)?;
        ends.push(place_of(fields.len())?)?;
    }
    Ok(Rows { fields, ends })
}
