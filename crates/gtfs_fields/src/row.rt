//! One row of a table, in place.

ghost use Rattle.std.specs.Prelude.{◌≡◌, ◌==◌, ◌<◌, [], length, true};
ghost use Rattle.std.specs.List.{slice_index_or};
ghost use Rattle.csv.specs.Records.{fields_of};
ghost use Rattle.gtfs_fields.specs.Records.{is_text};

use crate::text::is_utf8;
use csv::ByteRecord;
use std::marker::Model;

/// A row: a list of fields, each a list of bytes, which stay in the record that `csv` read.
#[derive(Drop)]
pub struct Row<'a> {
    fields: &'a ByteRecord,
}

impl<'a> Model for Row<'a> {
    ghost use Rattle.std.specs.Prelude.{ℕ, List};
    ghost use Rattle.csv.specs.Records.{fields_of};

    ghost Value = { List (List ℕ) };

    ghost view = { λ r. fields_of r.fields.now };
}

impl<'a> Row<'a> {
    /// The row of a record.
    pub(crate) fn of(fields: &'a ByteRecord) -> Row<'a>
        ensures { result ≡ fields_of fields.now }
    {
        Row { fields }
    }

    /// How many fields there are.
    pub fn len(&self) -> usize
        ensures { result ≡ length self.now }
    {
        self.fields.len()
    }

    /// Whether there is no field.
    pub fn is_empty(&self) -> bool
        ensures { result ≡ (length self.now == 0) }
    {
        self.len() == 0
    }

    /// The bytes of a field.
    pub fn field(&self, column: usize) -> &'a [u8]
        requires { column < length self.now }
        ensures { result.now ≡ slice_index_or self.now column [] }
    {
        let Some(field) = self.fields.get(column) else {
            unreachable!()
        };
        field
    }

    /// Whether each field is UTF-8.
    pub fn is_text(&self) -> bool
        ensures { result ≡ is_text self.now }
    {
        self.is_ascii() || self.are_utf8()
    }

    // Whether each field is ASCII, as most are: their bytes stand side by side, so this is one look at them.
    fn is_ascii(&self) -> bool
        ensures { result ≡ true → is_text self.now ≡ true }
    {
        self.fields.as_slice().is_ascii()
    }

    // Whether each field is UTF-8, field by field.
    fn are_utf8(&self) -> bool
        ensures { result ≡ is_text self.now }
    {
        for column in 0..self.len() {
            if !is_utf8(self.field(column)) {
                return false;
            }
        }
        true
    }
}
