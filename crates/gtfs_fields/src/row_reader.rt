//! The rows of a table, read one at a time.

ghost use Rattle.std.specs.Prelude.{◌≡◌, OnOk, IfOk};
ghost use Rattle.gtfs_fields.specs.Records.{records_of};
ghost use Rattle.gtfs_fields.specs.RowByRow.{IsReading, Reads, row_read, rows_to_come};

use crate::records::{read_next, reader_of};
use crate::row::Row;
use csv::{ByteRecord, Reader};
use map_base::NoMemory;
use std::alloc::Global;

/// Reads the rows of a table one at a time, the header first, and keeps the one that it read last.
#[derive(Drop)]
pub struct RowReader<'a> {
    reader: Box<Reader<&'a [u8]>>,
    row: ByteRecord,
}

impl<'a> RowReader<'a> {
    /// A reader of all rows of these bytes, which are those that `read_rows` gives.
    #[tactic(auto, unfolding(crate::specs::RowByRow::IsReading, crate::specs::RowByRow::rows_to_come))]
    pub fn new(alloc: Global, bytes: &'a [u8]) -> Result<RowReader<'a>, NoMemory>
        ensures reading { IfOk result IsReading }
        ensures all { IfOk result (λ reader. rows_to_come reader ≡ records_of bytes.now) }
    {
        let reader = reader_of(alloc, bytes)?;
        let row = ByteRecord::new(alloc);
        Ok(RowReader { reader, row })
    }

    /// Reads the next row, and says whether there was one. Where memory is wanting, no more can be read.
    #[tactic(auto, unfolding(crate::specs::RowByRow::IsReading, crate::specs::RowByRow::rows_to_come, crate::specs::RowByRow::row_read))]
    pub fn next(&mut self) -> Result<bool, NoMemory>
        requires { IsReading self.old }
        ensures reading { OnOk result (IsReading self.new) }
        ensures reads { IfOk result (λ found. Reads self.old found self.new) }
    {
        read_next(&mut *self.reader, &mut self.row)
    }

    /// The row that was read last.
    #[tactic(auto, unfolding(crate::specs::RowByRow::row_read))]
    pub fn row(&self) -> Row<'_>
        ensures { result ≡ row_read self.now }
    {
        Row::of(&self.row)
    }
}
