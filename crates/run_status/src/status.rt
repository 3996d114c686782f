//! How a run ended.

ghost use Rattle.std.specs.Prelude.{◌≡◌};

use crate::graph_why::GraphWhy;
use crate::item::Item;
use map_base::{Limit, SegId, Text};
use map_settings::SettingsWhy;
use table_rows::{Table, Why};

/// How a run of the program ended.
#[derive(Debug, Drop)]
pub enum Status {
    /// The work is done.
    Done,
    /// This is the first item of a map and its certificate that is refused.
    Refuted(Item),
    /// The words of the command line are not read.
    Usage,
    /// This is the feed's first bad row, with its least reason. The header is row 1; a file that is missing
    /// has row 0.
    BadRow { table: Table, row: u64, why: Why },
    /// No fineness of the grid gives each segment a walk; at the last one this is the first segment without one.
    NoRoute { seg: SegId },
    /// The search of this part, counted from 0, meets more branch nodes than the budget; `branches` is the budget
    /// plus 1.
    Spent { component: u32, branches: u32 },
    /// This is the first counted quantity above its greatest allowed number.
    Limit(Limit),
    /// The file at this path, which is needed, is not there.
    Missing { path: Text },
    /// The file at this path could not be read.
    ReadFault { path: Text },
    /// The output could not be written.
    WriteFault,
    /// The allocator had no room.
    NoMemory,
    /// The file of settings gives none, for this reason.
    BadSettings(SettingsWhy),
    /// This line of the file of edits, counted from 1, is no edit, names no line or station, or undoes with nothing
    /// left; 0 where there is no such file.
    BadEdit { line: u64 },
    /// The graph file gives no graph, for this reason.
    BadGraph(GraphWhy),
}

impl Status {
    ghost use Rattle.run_status.specs.Lines.{status_number};

    /// The number that the process ends with.
    pub fn number(&self) -> u8
        ensures { result ≡ status_number self.now }
    {
        match self {
            Status::Done => 0,
            Status::Refuted(_) => 1,
            Status::Usage => 2,
            Status::BadRow { .. } => 3,
            Status::NoRoute { .. } => 4,
            Status::Spent { .. } => 5,
            Status::Limit(_) => 6,
            Status::ReadFault { .. } => 7,
            Status::WriteFault => 8,
            Status::NoMemory => 9,
            Status::BadSettings(_) => 10,
            Status::BadEdit { .. } => 11,
            Status::BadGraph(_) => 12,
            Status::Missing { .. } => 13,
        }
    }
}
