//! What the bytes of a field, and of a file, are read as.

ghost use Rattle.std.specs.Prelude.{◌≡◌, IfOk};
ghost use Rattle.gtfs_fields.specs.RowByRow.{IsReading, rows_to_come};
ghost use Rattle.table_rows.specs.Values.{rows_of, bare, number_of, degrees_of, colour_of};

use gtfs_fields::{RowReader, Rows, colour, micro_degrees, read_rows, trim_spaces, whole};
use map_base::NoMemory;
use std::alloc::Global;

/// The rows of a file.
#[tactic(auto, unfolding(crate::specs::Values::rows_of))]
pub fn rows_of(alloc: Global, bytes: &[u8]) -> Result<Rows, NoMemory>
    ensures { IfOk result (λ rows. rows ≡ rows_of bytes.now) }
{
    read_rows(alloc, bytes)
}

/// A reader of the rows of a file, one at a time.
#[tactic(auto, unfolding(crate::specs::Values::rows_of))]
pub fn row_reader_of<'a>(alloc: Global, bytes: &'a [u8]) -> Result<RowReader<'a>, NoMemory>
    ensures reading { IfOk result IsReading }
    ensures all { IfOk result (λ reader. rows_to_come reader ≡ rows_of bytes.now) }
{
    RowReader::new(alloc, bytes)
}

/// A field without the spaces at both its ends.
#[tactic(auto, unfolding(crate::specs::Values::bare))]
pub fn bare(field: &[u8]) -> &[u8]
    ensures { result.now ≡ bare field.now }
{
    trim_spaces(field)
}

/// The whole number that a field spells.
#[tactic(auto, unfolding(crate::specs::Values::number_of))]
pub fn number_of(field: &[u8]) -> Option<u32>
    ensures { result ≡ number_of field.now }
{
    whole(field)
}

/// The whole microdegrees that a field spells.
#[tactic(auto, unfolding(crate::specs::Values::degrees_of))]
pub fn degrees_of(field: &[u8]) -> Option<i64>
    ensures { result ≡ degrees_of field.now }
{
    micro_degrees(field)
}

/// The red, green and blue that a field spells.
#[tactic(auto, unfolding(crate::specs::Values::colour_of))]
pub fn colour_of(field: &[u8]) -> Option<[u8; 3]>
    ensures { result ≡ colour_of field.now }
{
    colour(field)
}
