//! The lines that name how a run ended.

ghost use Rattle.std.specs.Prelude.{◌≡◌, IfOk, IfSome, string_bytes};
ghost use Rattle.table_rows.specs.Folder.{file_name};
ghost use Rattle.run_status.specs.Lines.{reason_text, settings_text, status_line};

use crate::graph_why::graph_why_text;
use crate::status::Status;
use map_base::NoMemory;
use map_settings::SettingsWhy;
use std::alloc::Global;
use table_rows::{Table, Why};

/// The line that standard output gets for a status, empty where there is none.
pub fn line_of(alloc: Global, status: &Status) -> Result<String, NoMemory>
    ensures { IfOk result (λ line. IfSome (status_line status.now) (λ defined. string_bytes line ≡ defined)) }
{
    match status {
        Status::Done => Ok(String::new(alloc)),
        Status::Refuted(item) => {
            let item = item.text(alloc)?;
            Ok(format!(in alloc; "refuted: {item}\n")?)
        }
        Status::Usage => Ok(String::new(alloc)),
        Status::BadRow { table, row, why } => {
            let name = file_name(*table);
            let reason = reason_text(*why);
            Ok(format!(in alloc; "bad row: {name} {row} {reason}\n")?)
        }
        Status::NoRoute { seg } => {
            let number = seg.0;
            Ok(format!(in alloc; "no route: {number}\n")?)
        }
        Status::Spent {
            component,
            branches,
        } => { Ok(format!(in alloc; "spent: {component} {branches}\n")?) }
        Status::Limit(limit) => {
            let kind = limit.what.name();
            let found = limit.found;
            let most = limit.most;
            Ok(format!(in alloc; "limit: {kind} {found} {most}\n")?)
        }
        Status::Missing { path } => {
            let path = path.as_str();
            Ok(format!(in alloc; "missing: {path}\n")?)
        }
        Status::ReadFault { path } => {
            let path = path.as_str();
            Ok(format!(in alloc; "read fault: {path}\n")?)
        }
        Status::WriteFault => Ok(String::new(alloc)),
        Status::NoMemory => Ok(String::from_str(alloc, "no memory\n")?),
        Status::BadSettings(why) => {
            let why = settings_text(why);
            Ok(format!(in alloc; "bad settings: {why}\n")?)
        }
        Status::BadGraph(why) => {
            let why = graph_why_text(alloc, *why)?;
            Ok(format!(in alloc; "bad graph: {why}\n")?)
        }
        Status::BadEdit { line } => Ok(format!(in alloc; "bad edit: {line}\n")?),
    }
}

/// The name of a table's file.
pub fn file_name(table: Table) -> &'static str
    ensures { result.now ≡ file_name table }
{
    match table {
        Table::Routes => "routes.txt",
        Table::Stops => "stops.txt",
        Table::Trips => "trips.txt",
        Table::Shapes => "shapes.txt",
        Table::StopTimes => "stop_times.txt",
    }
}

/// Why a file of settings gives none, in words; a bad key as it is written.
fn settings_text(why: &SettingsWhy) -> &str
    ensures { result.now ≡ settings_text why.now }
{
    match why {
        SettingsWhy::Missing => "missing",
        SettingsWhy::NotToml => "not toml",
        SettingsWhy::Key(key) => key.as_str(),
    }
}

/// A reason in words.
fn reason_text(why: Why) -> &'static str
    ensures { result.now ≡ reason_text why }
{
    match why {
        Why::MissingFile => "missing file",
        Why::MissingColumn => "missing column",
        Why::WrongFields => "wrong number of fields",
        Why::NotUtf8 => "not UTF-8",
        Why::EmptyId => "empty id",
        Why::RepeatedId => "repeated id",
        Why::BadLatitude => "bad latitude",
        Why::BadLongitude => "bad longitude",
        Why::BadType => "bad type",
        Why::BadColour => "bad colour",
        Why::BadWhole => "bad whole number",
        Why::UnknownParent => "unknown parent",
        Why::UnknownRoute => "unknown route",
        Why::UnknownTrip => "unknown trip",
        Why::UnknownStop => "unknown stop",
        Why::RepeatedSequence => "repeated sequence",
    }
}
