//! A bad row of a feed: its field, the value there, and what is due.

use crate::feed_path::missing_table;
use crate::near_word::question;
use file_lookup::{
    FoundRow, Sought, bytes_at, earlier_row, ids_at, lacking_column, other_names, row_around,
    row_at, sought_in,
};
use map_base::NoMemory;
use message_texts::{column_of, due_in, id_column, list_of, quoted};
use run_status::file_name;
use std::alloc::Global;
use std::rt::Files;
use table_rows::{Table, Why};

/// How many names of columns, or fields of a row, are told.
const TOLD: usize = 20;

/// A bad row of a table: its number, and why it is bad.
#[derive(Clone, Copy)]
pub(crate) struct BadRow {
    pub(crate) table: Table,
    pub(crate) row: u64,
    pub(crate) why: Why,
}

/// The lines for a bad row of the feed in a folder.
pub(crate) fn bad_row<R: Files + AllocGlobal + Clone + Drop>(
    rt: &R,
    feed: &str,
    bad: BadRow,
) -> Result<String, NoMemory> {
    let alloc = rt.alloc();
    let name = file_name(bad.table);
    if bad.why == Why::MissingFile {
        return missing_table(rt, feed, name);
    }
    let path = format!(in alloc; "{feed}/{name}")?;
    let Some(bytes) = bytes_at(rt, path.as_str())? else {
        return Ok(String::new(alloc));
    };
    if is_utf16(bytes.as_slice()) {
        return Ok(format!(in alloc; "octimap: {name} is UTF-16; save it as UTF-8\n")?);
    }
    let Some(found) = row_at(alloc, bytes.as_slice(), bad.row)? else {
        return Ok(format!(in alloc; "octimap: {name} is empty: it has no header\n")?);
    };
    match bad.why {
        Why::UnknownRoute | Why::UnknownTrip | Why::UnknownStop | Why::UnknownParent => {
            unknown(rt, feed, bad, &found)
        }
        _ => in_table(alloc, bad, &found, bytes.as_slice()),
    }
}

/// Whether a file begins with the byte order mark of UTF-16.
fn is_utf16(bytes: &[u8]) -> bool {
    bytes.starts_with(b"\xFF\xFE".as_slice()) || bytes.starts_with(b"\xFE\xFF".as_slice())
}

/// The lines for a row that is bad by its own table.
#[inline(never)]
fn in_table(
    alloc: Global,
    bad: BadRow,
    found: &FoundRow,
    bytes: &[u8],
) -> Result<String, NoMemory> {
    match bad.why {
        Why::MissingColumn => lacks_column(alloc, bad.table, found),
        Why::WrongFields => ends_early(alloc, bad, found, bytes),
        Why::NotUtf8 => not_utf8(alloc, bad, found),
        Why::RepeatedId | Why::RepeatedSequence => repeated(alloc, bad, found, bytes),
        _ => bad_field(alloc, bad, found, "", due_in(bad.table, bad.why)),
    }
}

/// A header lacks a column: which one, and those that there are.
fn lacks_column(alloc: Global, table: Table, found: &FoundRow) -> Result<String, NoMemory> {
    let name = file_name(table);
    let names = found.names(alloc)?;
    let list = list_of(alloc, names.as_slice(), TOLD)?;
    let parted = wrongly_parted(found);
    match lacking_column(table, found) {
        Some(column) => {
            let other = other_names(alloc, table, names)?;
            let near = question(alloc, column.as_bytes(), other.as_slice())?;
            Ok(format!(in alloc;
                "octimap: {name} has no column {column}; its columns are {list}{near}{parted}\n"
            )?)
        }
        None => Ok(format!(in alloc; "octimap: {name} lacks a column; its columns are {list}\n")?),
    }
}

/// What is said of a header of one field that seems to be parted by something else than commas.
fn wrongly_parted(found: &FoundRow) -> &'static str {
    if found.header.len() != 1 {
        return "";
    }
    for field in &found.header {
        if field.contains(&b';') {
            return "; fields are parted by commas, not by ;";
        }
        if field.contains(&b'\t') {
            return "; fields are parted by commas, not by TABs";
        }
    }
    ""
}

/// A row ends before a field that has to be there.
fn ends_early(
    alloc: Global,
    bad: BadRow,
    found: &FoundRow,
    bytes: &[u8],
) -> Result<String, NoMemory> {
    let name = file_name(bad.table);
    let row = bad.row;
    let count = found.fields.len();
    let columns = found.header.len();
    let line = list_of_fields(alloc, found)?;
    let quote = if ends_in_quote(found, bytes) {
        "; a quote is not closed"
    } else {
        ""
    };
    Ok(format!(in alloc;
        "octimap: {name}, row {row}: it has {count} of {columns} fields: {line}{quote}\n"
    )?)
}

/// Whether a row ends inside a quote: it has lines in its last field, and the quotes of the file are odd in number.
fn ends_in_quote(found: &FoundRow, bytes: &[u8]) -> bool {
    match found.fields.last() {
        Some(field) => field.contains(&b'\n') && count_of(bytes, b'"') % 2 == 1,
        None => false,
    }
}

/// How often a byte stands among others.
fn count_of(bytes: &[u8], byte: u8) -> usize {
    bytes.iter().filter(|other| **other == byte).count()
}

/// The fields of a row, each between quotes.
fn list_of_fields(alloc: Global, found: &FoundRow) -> Result<String, NoMemory> {
    let mut line = String::new(alloc);
    for (place, field) in found.fields.iter().enumerate() {
        if place == TOLD {
            line.push_str(" ..")?;
            break;
        }
        if place > 0 {
            line.push_str(", ")?;
        }
        let field = quoted(alloc, field.as_slice())?;
        line.push_str(field.as_str())?;
    }
    Ok(line)
}

/// A field of a row is not UTF-8.
fn not_utf8(alloc: Global, bad: BadRow, found: &FoundRow) -> Result<String, NoMemory> {
    let name = file_name(bad.table);
    let row = bad.row;
    for field in &found.fields {
        if str::from_utf8(field.as_slice()).is_err() {
            let field = quoted(alloc, field.as_slice())?;
            return Ok(format!(in alloc;
                "octimap: {name}, row {row}: a field is {field}, which is not UTF-8; write the file as UTF-8\n"
            )?);
        }
    }
    Ok(String::new(alloc))
}

/// A field of a row is bad: its column, its value, what is said of that, and what is due.
fn bad_field(
    alloc: Global,
    bad: BadRow,
    found: &FoundRow,
    said: &str,
    due: &str,
) -> Result<String, NoMemory> {
    let name = file_name(bad.table);
    let row = bad.row;
    let Some(column) = column_of(bad.table, bad.why) else {
        return Ok(String::new(alloc));
    };
    let value = quoted(alloc, found.field(column))?;
    let whose = whose(alloc, bad.table, found, column)?;
    let more = more_fields(alloc, found)?;
    Ok(format!(in alloc;
        "octimap: {name}, row {row}{whose}: {column} is {value}{said}; {due}{more}\n"
    )?)
}

/// What is said of a row that has more fields than the header, or a field of several lines; empty where it has neither.
fn more_fields(alloc: Global, found: &FoundRow) -> Result<String, NoMemory> {
    let count = found.fields.len();
    let columns = found.header.len();
    if found.fields.iter().any(|field| field.contains(&b'\n')) {
        return Ok(String::from_str(
            alloc,
            "; a field of the row goes on over several lines: is a quote not closed?",
        )?);
    }
    if count <= columns {
        return Ok(String::new(alloc));
    }
    Ok(format!(in alloc;
        "; the row has {count} fields and the header {columns}: is there a comma in a field without quotes?"
    )?)
}

/// The id that a row has or names, where it isn't the field that is told anyway.
fn whose(alloc: Global, table: Table, found: &FoundRow, column: &str) -> Result<String, NoMemory> {
    let id = id_column(table).unwrap_or("trip_id");
    let value = found.field(id);
    if id == column || value.is_empty() {
        return Ok(String::new(alloc));
    }
    let value = quoted(alloc, value)?;
    Ok(format!(in alloc; " ({id} {value})")?)
}

/// What a row has is in an earlier row too.
fn repeated(
    alloc: Global,
    bad: BadRow,
    found: &FoundRow,
    bytes: &[u8],
) -> Result<String, NoMemory> {
    let earlier = match sought_in(bad.table, bad.why, found) {
        Some(sought) => earlier_row(alloc, bytes, &sought, bad.row)?,
        None => None,
    };
    let said = match earlier {
        Some(number) => format!(in alloc; ", as in row {number}")?,
        None => String::new(alloc),
    };
    bad_field(alloc, bad, found, said.as_str(), due_in(bad.table, bad.why))
}

/// A row names what another table, or another row, doesn't have.
#[inline(never)]
fn unknown<R: Files + AllocGlobal>(
    rt: &R,
    feed: &str,
    bad: BadRow,
    found: &FoundRow,
) -> Result<String, NoMemory> {
    let alloc = rt.alloc();
    let Some(column) = column_of(bad.table, bad.why) else {
        return Ok(String::new(alloc));
    };
    let value = found.field(column);
    let kind = match bad.why {
        Why::UnknownRoute | Why::UnknownTrip => None,
        _ => type_of_stop(rt, feed, value)?,
    };
    if let Some(kind) = kind {
        let due = other_kind(alloc, bad.why, kind.as_slice())?;
        return bad_field(alloc, bad, found, "", due.as_str());
    }
    let mut text = around(rt, feed, bad.why, value)?;
    let due = no_such(rt, feed, bad, value)?;
    let line = bad_field(alloc, bad, found, "", due.as_str())?;
    text.push_str(line.as_str())?;
    Ok(text)
}

/// The table and the column in which an id has to stand that a row names.
fn home_of(why: Why) -> (&'static str, &'static str) {
    match why {
        Why::UnknownRoute => ("routes.txt", "route_id"),
        Why::UnknownTrip => ("trips.txt", "trip_id"),
        _ => ("stops.txt", "stop_id"),
    }
}

/// What is said of an id that no row of its table has, and which one may be meant.
#[inline(never)]
fn no_such<R: Files + AllocGlobal>(
    rt: &R,
    feed: &str,
    bad: BadRow,
    value: &[u8],
) -> Result<String, NoMemory> {
    let alloc = rt.alloc();
    let (table, column) = home_of(bad.why);
    let path = format!(in alloc; "{feed}/{table}")?;
    let ids = ids_at(rt, path.as_str(), column)?;
    let near = question(alloc, value, ids.as_slice())?;
    let due = due_in(bad.table, bad.why);
    Ok(format!(in alloc; "{due}{near}")?)
}

/// The line for the row of its table in which an id stands inside a field of several lines, as it does behind a quote
/// that was not closed; empty where there is no such row.
#[inline(never)]
fn around<R: Files + AllocGlobal>(
    rt: &R,
    feed: &str,
    why: Why,
    value: &[u8],
) -> Result<String, NoMemory> {
    let alloc = rt.alloc();
    let (table, column) = home_of(why);
    let path = format!(in alloc; "{feed}/{table}")?;
    let Some(bytes) = bytes_at(rt, path.as_str())? else {
        return Ok(String::new(alloc));
    };
    let Some((row, field)) = row_around(alloc, bytes.as_slice(), value)? else {
        return Ok(String::new(alloc));
    };
    let value = quoted(alloc, value)?;
    let lines = count_of(field.as_slice(), b'\n').saturating_add(1);
    let field = quoted(alloc, field.as_slice())?;
    Ok(format!(in alloc;
        "octimap: {table}, row {row}: a field has {lines} lines, and {column} {value} stands in it: {field}; is a quote \
        not closed there?\n"
    )?)
}

/// What is said of an id that a row of stops.txt has whose type doesn't do.
fn other_kind(alloc: Global, why: Why, kind: &[u8]) -> Result<String, NoMemory> {
    let kind = quoted(alloc, kind)?;
    let due = match why {
        Why::UnknownParent => due_in(Table::Stops, why),
        _ => "a trip calls at a stop or a station",
    };
    Ok(format!(in alloc; "the row of stops.txt with this stop_id has location_type {kind}; {due}")?)
}

/// The location type, as it is written, of the row of stops.txt with this id; none where there is no such row.
#[inline(never)]
fn type_of_stop<R: Files + AllocGlobal>(
    rt: &R,
    feed: &str,
    id: &[u8],
) -> Result<Option<Vec<u8>>, NoMemory> {
    let alloc = rt.alloc();
    let path = format!(in alloc; "{feed}/stops.txt")?;
    match bytes_at(rt, path.as_str())? {
        Some(bytes) => type_in(alloc, bytes.as_slice(), id),
        None => Ok(None),
    }
}

/// The same of the bytes of stops.txt.
fn type_in(alloc: Global, bytes: &[u8], id: &[u8]) -> Result<Option<Vec<u8>>, NoMemory> {
    let Some(header) = row_at(alloc, bytes, 1)? else {
        return Ok(None);
    };
    let Some(id_column) = header.column("stop_id") else {
        return Ok(None);
    };
    let sought = Sought {
        id_column,
        id,
        number_column: None,
        number: None,
    };
    let Some(row) = earlier_row(alloc, bytes, &sought, u64::MAX)? else {
        return Ok(None);
    };
    match row_at(alloc, bytes, row)? {
        Some(found) => Ok(Some(found.field("location_type").to_vec(alloc)?)),
        None => Ok(None),
    }
}
