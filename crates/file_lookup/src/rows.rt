//! A row of a table, with the header above it.

ghost use Rattle.std.specs.Prelude.{OnOk};
ghost use Rattle.gtfs_fields.specs.RowByRow.{IsReading};

use gtfs_fields::{Row, RowReader, trim_spaces, whole};
use map_base::{NoMemory, Text};
use std::alloc::Global;
use table_rows::row_reader_of;

/// The fields of a header and of a row below it.
#[derive(Drop)]
pub struct FoundRow {
    /// The fields of the header.
    pub header: Vec<Vec<u8>>,
    /// The fields of the row.
    pub fields: Vec<Vec<u8>>,
}

impl FoundRow {
    /// The place of the column of this name.
    pub fn column(&self, name: &str) -> Option<usize> {
        for (place, cell) in self.header.iter().enumerate() {
            if trim_spaces(cell.as_slice()) == name.as_bytes() {
                return Some(place);
            }
        }
        None
    }

    /// The field in the column of this name: empty where there is none.
    pub fn field(&self, name: &str) -> &[u8] {
        match self.column(name) {
            None => &[],
            Some(place) => match self.fields.get(place) {
                Some(field) => field.as_slice(),
                None => &[],
            },
        }
    }

    /// The names of the columns.
    pub fn names(&self, alloc: Global) -> Result<Vec<Text>, NoMemory> {
        let mut names = Vec::new(alloc);
        for cell in &self.header {
            let name = String::from_utf8_lossy(alloc, trim_spaces(cell.as_slice()))?;
            names.push(Text::of(alloc, name.as_str())?)?;
        }
        Ok(names)
    }
}

/// The row of this number of a table, with its header: row 1 is the header itself. None where there is no such row.
#[inline(never)]
pub fn row_at(alloc: Global, bytes: &[u8], row: u64) -> Result<Option<FoundRow>, NoMemory> {
    let mut reader = row_reader_of(alloc, bytes)?;
    if row == 0 || !advance(&mut reader, 1)? {
        return Ok(None);
    }
    let header = fields_of(alloc, &reader.row())?;
    if !advance(&mut reader, row - 1)? {
        return Ok(None);
    }
    let fields = fields_of(alloc, &reader.row())?;
    Ok(Some(FoundRow { header, fields }))
}

/// Reads so many rows more; false where there are fewer.
fn advance(reader: &mut RowReader<'_>, rows: u64) -> Result<bool, NoMemory>
    requires { IsReading reader.old }
    ensures { OnOk result (IsReading reader.new) }
{
    'rows: for _ in 0..rows {
        if !reader.next()? {
            return Ok(false);
        }
    }
    Ok(true)
}

/// The fields of a row.
fn fields_of(alloc: Global, row: &Row<'_>) -> Result<Vec<Vec<u8>>, NoMemory> {
    let mut fields = Vec::new(alloc);
    for place in 0..row.len() {
        fields.push(row.field(place).to_vec(alloc)?)?;
    }
    Ok(fields)
}

/// What is looked for in the rows above one: the id in a column, and the number in another, where one is told.
#[derive(Clone, Copy)]
pub struct Sought<'a> {
    /// The place of the id's column.
    pub id_column: usize,
    /// The id.
    pub id: &'a [u8],
    /// The place of the number's column, where a number is looked for.
    pub number_column: Option<usize>,
    /// The number.
    pub number: Option<u32>,
}

/// The number of the first row behind the header that has what is sought, before the row of this number.
#[inline(never)]
pub fn earlier_row(
    alloc: Global,
    bytes: &[u8],
    sought: &Sought<'_>,
    before: u64,
) -> Result<Option<u64>, NoMemory> {
    let mut reader = row_reader_of(alloc, bytes)?;
    for number in 1..before {
        if !reader.next()? {
            return Ok(None);
        }
        if number > 1 && has(&reader.row(), sought) {
            return Ok(Some(number));
        }
    }
    Ok(None)
}

/// Whether a row has what is sought.
fn has(row: &Row<'_>, sought: &Sought<'_>) -> bool {
    if field_at(row, sought.id_column) != sought.id {
        return false;
    }
    match sought.number_column {
        None => true,
        Some(column) => whole(field_at(row, column)) == sought.number,
    }
}

/// A field of a row, empty where the row ends before it.
fn field_at<'a>(row: &Row<'a>, column: usize) -> &'a [u8] {
    if column < row.len() {
        row.field(column)
    } else {
        &[]
    }
}

/// The number and the field of the first row of a table that has a field of several lines in which a text stands:
/// the rows behind a quote that was not closed. None where there is no such row.
#[inline(never)]
pub fn row_around(
    alloc: Global,
    bytes: &[u8],
    text: &[u8],
) -> Result<Option<(u64, Vec<u8>)>, NoMemory> {
    let mut reader = row_reader_of(alloc, bytes)?;
    for number in 1..u64::MAX {
        if !reader.next()? {
            return Ok(None);
        }
        let row = reader.row();
        if let Some(field) = field_around(&row, text) {
            return Ok(Some((number, field.to_vec(alloc)?)));
        }
    }
    Ok(None)
}

/// The first field of a row that has several lines, and a text in it.
fn field_around<'a>(row: &Row<'a>, text: &[u8]) -> Option<&'a [u8]> {
    for place in 0..row.len() {
        let field = row.field(place);
        if field.contains(&b'\n') && holds(field, text) {
            return Some(field);
        }
    }
    None
}

/// Whether a text stands in a field of several lines as if it were a field of one of them.
fn holds(field: &[u8], text: &[u8]) -> bool {
    let Ok(lines) = str::from_utf8(field) else {
        return false;
    };
    for line in lines.lines() {
        if line
            .split(',')
            .any(|cell| trim_spaces(cell.as_bytes()) == text)
        {
            return true;
        }
    }
    false
}
