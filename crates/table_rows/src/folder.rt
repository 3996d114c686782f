//! The files of a feed's folder.

ghost use Rattle.std.specs.Prelude.{◌≡◌, ◌≤◌, ◌∷◌, ◌++◌, ℕ, List, Option, None, Some, length, Ok, Err, string_bytes, vec_len, IfOk, IfErr, IfSome};
ghost use Rattle.table_rows.specs.Folder.{file_name, path_in, table_file, file_outcome, required_rows};
ghost use Rattle.table_rows.specs.Outcome.{Answers, rose_at, never};
ghost use Rattle.table_rows.specs.NotRead.{not_read};
ghost use Rattle.std.specs.Prelude.{option_map};

use crate::fault::{FeedFault, missing_file};
use crate::values::rows_of;
use crate::why::Table;
use files_door::{DoorFault, Files, read_all};
use gtfs_fields::Rows;
use map_base::NoMemory;
use std::alloc::Global;

/// The most bytes that a file may have.
const FILE_LIMIT: u64 = 536_870_912;

/// What a fault of the door is for a table: its file may be absent.
fn not_read(table: Table, fault: DoorFault) -> Result<Option<Vec<u8>>, FeedFault>
    ensures { result ≡ not_read table fault }
{
    match fault {
        DoorFault::Absent => Ok(None),
        DoorFault::ReadFault => Err(FeedFault::ReadFault { table }),
        DoorFault::TooLong(limit) => Err(FeedFault::Limit(limit)),
        DoorFault::NoMemory => Err(FeedFault::NoMemory),
    }
}

/// The name of a table's file.
fn file_name(table: Table) -> &'static str
    ensures { result.now ≡ file_name table }
{
    match table {
        Table::Routes => "routes.txt",
        Table::Stops => "stops.txt",
        Table::Trips => "trips.txt",
        Table::Shapes => "shapes.txt",
        Table::StopTimes => "stop_times.txt",
    }
}

/// The path of a table's file.
fn path_in(alloc: Global, folder: &str, table: Table) -> Result<String, NoMemory>
    ensures { IfOk result (λ path. string_bytes path ≡ path_in folder.now table) }
{
    let mut path = String::from_str(alloc, folder)?;
    path.push('/')?;
    path.push_str(file_name(table))?;
    Ok(path)
}

/// All bytes of a table's file, if it is there.
pub fn bytes_of<F: Files>(
    alloc: Global,
    files: &mut F,
    folder: &str,
    table: Table,
) -> Result<Option<Vec<u8>>, FeedFault>
    ensures told { IfSome (F.told files.old) (λ all. Answers (rose_at table (F.faults files.old) (F.faults files.new)) (option_map (λ v. v.items)) result (file_outcome (table_file all folder.now table))) }
    ensures untold { (file : Option (List ℕ)) × Answers (rose_at table (F.faults files.old) (F.faults files.new)) (option_map (λ v. v.items)) result (file_outcome file) }
    ensures kept { F.told files.new ≡ F.told files.old }
    ensures later { F.faults files.old ≤ F.faults files.new }
{
    let path = path_in(alloc, folder, table)?;
    match read_all(alloc, files, path.as_str(), FILE_LIMIT) {
        Ok(bytes) => Ok(Some(bytes)),
        Err(fault) => not_read(table, fault),
    }
}

/// The rows of a table that has to be there.
pub fn required_rows(alloc: Global, table: Table, bytes: Option<Vec<u8>>) -> Result<Rows, FeedFault>
    ensures { Answers never (λ rows. rows) result (required_rows table (option_map (λ v. v.items) bytes)) }
{
    match bytes {
        None => Err(missing_file(table)),
        Some(bytes) => Ok(rows_of(alloc, &bytes)?),
    }
}
