//! The file of one table of a folder.

ghost use Rattle.std.specs.Prelude.{◌≡◌, ◌≤◌, ◌^◌, length, option_map, IfOk};
ghost use Rattle.table_rows.specs.Folder.{file_outcome};
ghost use Rattle.table_rows.specs.Outcome.{Answers, rose_at};
ghost use Rattle.gtfs_tables.specs.Feed.{table_outcome};
ghost use Rattle.gtfs_tables.specs.Steps.{OfFile};

use files_door::Files;
use gtfs_fields::Rows;
use std::alloc::Global;
use table_rows::{FeedFault, Table, bytes_of, required_rows};

/// All bytes of a table's file, if it is there.
pub(crate) fn file_in<F: Files>(
    alloc: Global,
    files: &mut F,
    folder: &str,
    table: Table,
) -> Result<Option<Vec<u8>>, FeedFault>
    ensures read { OfFile (F.told files.old) folder.now table (λ file. Answers (rose_at table (F.faults files.old) (F.faults files.new)) (option_map (λ v. v.items)) result (file_outcome file)) }
    ensures kept { F.told files.new ≡ F.told files.old }
    ensures later { F.faults files.old ≤ F.faults files.new }
{
    bytes_of(alloc, files, folder, table)
}

/// The rows of a table that has to be there.
pub(crate) fn rows_in<F: Files>(
    alloc: Global,
    files: &mut F,
    folder: &str,
    table: Table,
) -> Result<Rows, FeedFault>
    ensures read { OfFile (F.told files.old) folder.now table (λ file. Answers (rose_at table (F.faults files.old) (F.faults files.new)) (λ rows. rows) result (table_outcome table file)) }
    ensures few { IfOk result (λ rows. length rows ≤ 2 ^ 32) }
    ensures kept { F.told files.new ≡ F.told files.old }
    ensures later { F.faults files.old ≤ F.faults files.new }
{
    let bytes = file_in(alloc, files, folder, table)?;
    required_rows(alloc, table, bytes)
}
