//! The records of a table's bytes, as `csv` reads them.

ghost use Rattle.std.specs.Prelude.{◌≡◌, OnOk, IfOk};
ghost use Rattle.csv.specs.Records.{fields_of};
ghost use Rattle.gtfs_fields.specs.Records.{records_of};
ghost use Rattle.gtfs_fields.specs.RowsLeft.{IsPlain, Takes, rows_left};

use csv::{ByteRecord, ErrorKind, Reader, ReaderBuilder};
use map_base::NoMemory;
use std::alloc::Global;

/// A reader of the records of these bytes, after one byte order mark. None is taken for a header.
#[inline(never)]
fn new_reader<'a>(alloc: Global, bytes: &'a [u8]) -> Reader<&'a [u8]>
    ensures plain { IsPlain result }
    ensures left { rows_left result ≡ records_of bytes.now }
{
    ReaderBuilder::new()
        .has_headers(false)
        .flexible(true)
        .from_reader(alloc, bytes)
}

/// A reader of the records of these bytes on the heap, as it holds 16 KB. What a reader takes of the stack before it is
/// there is let go before a row is read.
#[inline(never)]
pub(crate) fn reader_of<'a>(
    alloc: Global,
    bytes: &'a [u8],
) -> Result<Box<Reader<&'a [u8]>>, NoMemory>
    ensures plain { IfOk result (λ reader. IsPlain reader.value) }
    ensures left { IfOk result (λ reader. rows_left reader.value ≡ records_of bytes.now) }
{
    Ok(Box::new(alloc, new_reader(alloc, bytes))?)
}

/// Reads the next record, and says whether there was one. Records may differ in width and need not be text, so
/// that nothing but a failure of the reader underneath or want of memory comes in its place.
pub(crate) fn read_next(reader: &mut Reader<&[u8]>, row: &mut ByteRecord) -> Result<bool, NoMemory>
    requires { IsPlain reader.old }
    ensures plain { OnOk result (IsPlain reader.new) }
    ensures takes { IfOk result (λ found. Takes (rows_left reader.old) found (fields_of row.new) (rows_left reader.new)) }
{
    match reader.read_byte_record(row) {
        Ok(found) => Ok(found),
        Err(error) => match error.kind() {
            ErrorKind::Io(_) | ErrorKind::OutOfMemory => Err(NoMemory),
            _ => unreachable!(),
        },
    }
}
