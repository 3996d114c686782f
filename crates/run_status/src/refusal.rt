//! Why a command came to no result.

ghost use Rattle.std.specs.Prelude.{◌≡◌};
ghost use Rattle.run_status.specs.declared.refusal.Refusal.TheVariants as refused;
ghost use Rattle.run_status.specs.Refusals.{of_check, of_edits, of_feed, of_graph, of_limit, of_make, of_settings};

use crate::graph_why::GraphWhy;
use crate::input::Input;
use crate::item::Item;
use graph_json::JsonFault;
use map_base::{Limit, LimitFault, NoMemory, SegId};
use map_edits::EditsFault;
use map_faults::{CheckFault, MakeFault};
use map_settings::{SettingsFault, SettingsWhy};
use table_rows::{FeedFault, Table, Why};

/// Why a command came to no result.
#[derive(Debug, Drop)]
pub enum Refusal {
    /// This is the feed's first bad row, with its least reason. The header is row 1; a file that is missing
    /// has row 0.
    BadRow { table: Table, row: u64, why: Why },
    /// No fineness of the grid gives each segment a walk; at the last one this is the first segment without one.
    NoRoute { seg: SegId },
    /// The search of this part, counted from 0, meets more branch nodes than the budget; `branches` is the budget
    /// plus 1.
    Spent { component: u32, branches: u32 },
    /// This is the first counted quantity above its greatest allowed number.
    Limit(Limit),
    /// This is the first item of a map and its certificate that is refused.
    Refuted(Item),
    /// The file of settings gives none, for this reason.
    BadSettings(SettingsWhy),
    /// This line of the file of edits, counted from 1, is no edit, names no line or station, or undoes with nothing
    /// left; 0 where there is no such file.
    BadEdit { line: u64 },
    /// The graph file gives no graph, for this reason.
    BadGraph(GraphWhy),
    /// This input, which is needed, is not there.
    Missing { input: Input },
    /// This input could not be read.
    ReadFault { input: Input },
    /// The allocator had no room.
    NoMemory,
}

impl From<NoMemory> for Refusal {
    ghost from_gives = { λ _ refusal. refusal ≡ refused.NoMemory };

    fn from(_refused: NoMemory) -> Refusal {
        Refusal::NoMemory
    }
}

impl From<FeedFault> for Refusal {
    ghost from_gives = { λ fault refusal. refusal ≡ of_feed fault };

    fn from(fault: FeedFault) -> Refusal {
        match fault {
            FeedFault::BadRow { table, row, why } => Refusal::BadRow { table, row, why },
            FeedFault::Limit(limit) => Refusal::Limit(limit),
            FeedFault::ReadFault { table } => Refusal::ReadFault {
                input: Input::Table(table),
            },
            FeedFault::NoMemory => Refusal::NoMemory,
        }
    }
}

impl From<SettingsFault> for Refusal {
    ghost from_gives = { λ fault refusal. refusal ≡ of_settings fault };

    fn from(fault: SettingsFault) -> Refusal {
        match fault {
            SettingsFault::Bad(why) => Refusal::BadSettings(why),
            SettingsFault::NoMemory => Refusal::NoMemory,
        }
    }
}

impl From<EditsFault> for Refusal {
    ghost from_gives = { λ fault refusal. refusal ≡ of_edits fault };

    fn from(fault: EditsFault) -> Refusal {
        match fault {
            EditsFault::BadEdit { line } => Refusal::BadEdit { line },
            EditsFault::NoMemory => Refusal::NoMemory,
        }
    }
}

impl From<JsonFault> for Refusal {
    ghost from_gives = { λ fault refusal. refusal ≡ of_graph fault };

    fn from(fault: JsonFault) -> Refusal {
        match fault {
            JsonFault::Json => Refusal::BadGraph(GraphWhy::Json),
            JsonFault::Whole => Refusal::BadGraph(GraphWhy::Whole),
            JsonFault::Line { index } => Refusal::BadGraph(GraphWhy::Line { index }),
            JsonFault::Feature { index } => Refusal::BadGraph(GraphWhy::Feature { index }),
            JsonFault::Limit(limit) => Refusal::Limit(limit),
            JsonFault::NoMemory => Refusal::NoMemory,
        }
    }
}

impl From<LimitFault> for Refusal {
    ghost from_gives = { λ fault refusal. refusal ≡ of_limit fault };

    fn from(fault: LimitFault) -> Refusal {
        match fault {
            LimitFault::Limit(limit) => Refusal::Limit(limit),
            LimitFault::NoMemory => Refusal::NoMemory,
        }
    }
}

impl From<MakeFault> for Refusal {
    ghost from_gives = { λ fault refusal. refusal ≡ of_make fault };

    fn from(fault: MakeFault) -> Refusal {
        match fault {
            MakeFault::NoRoute { seg } => Refusal::NoRoute { seg },
            MakeFault::Spent {
                component,
                branches,
            } => Refusal::Spent {
                component,
                branches,
            },
            MakeFault::Limit(limit) => Refusal::Limit(limit),
            MakeFault::NoMemory => Refusal::NoMemory,
        }
    }
}

impl From<CheckFault> for Refusal {
    ghost from_gives = { λ fault refusal. refusal ≡ of_check fault };

    fn from(fault: CheckFault) -> Refusal {
        match fault {
            CheckFault::Refuted(item) => Refusal::Refuted(Item::Found(item)),
            CheckFault::Limit(limit) => Refusal::Limit(limit),
            CheckFault::NoMemory => Refusal::NoMemory,
        }
    }
}
