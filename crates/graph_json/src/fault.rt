//! Why a graph file makes no graph.

ghost use Rattle.std.specs.Prelude.{◌≡◌};
ghost use Rattle.graph_json.specs.declared.fault.JsonFault.TheVariants.{NoMemory as OutOfMemory};

use map_base::{Limit, NoMemory};
use std::alloc::{AllocError, AllocFailed};

/// Why a graph file is refused. Entries are counted from 0.
#[derive(Clone, Copy, Debug, PartialEq, Eq)]
pub enum JsonFault {
    /// The bytes are no JSON (RFC 8259) in UTF-8, or nest deeper than 127 levels, or have a number that is no float.
    Json,
    /// The value is no feature collection with its features and its lines.
    Whole,
    /// This entry of the lines has not the form of a line.
    Line {
        /// Its place among the lines.
        index: u64,
    },
    /// This entry of the features has not the form of a node or a segment, or refers to what is not there.
    Feature {
        /// Its place among the features.
        index: u64,
    },
    /// The graph has more of something than is worked on.
    Limit(Limit),
    /// The allocator had no room, or there are 2^32 lines or more, which is more than the numbers for them.
    NoMemory,
}

impl From<NoMemory> for JsonFault {
    ghost from_gives = { λ _ fault. fault ≡ OutOfMemory };

    fn from(_refused: NoMemory) -> JsonFault {
        JsonFault::NoMemory
    }
}

impl From<AllocError> for JsonFault {
    ghost from_gives = { λ _ fault. fault ≡ OutOfMemory };

    fn from(_refused: AllocError) -> JsonFault {
        JsonFault::NoMemory
    }
}

impl<T: Drop> From<AllocFailed<T>> for JsonFault {
    ghost from_gives = { λ _ fault. fault ≡ OutOfMemory };

    fn from(_refused: AllocFailed<T>) -> JsonFault {
        JsonFault::NoMemory
    }
}
