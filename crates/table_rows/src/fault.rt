//! Why no tables came of a feed.

ghost use Rattle.std.specs.Prelude.{◌≡◌, ◌<◌, ◌+◌, ◌^◌};
ghost use Rattle.table_rows.specs.declared.fault.FeedFault.TheVariants as fault;

use crate::why::{Table, Why};
use map_base::{Limit, NoMemory};

/// Why a feed was refused.
#[derive(Clone, Copy, Debug, PartialEq, Eq)]
pub enum FeedFault {
    /// This is the first bad row of the feed, with its least reason. The header is row 1; a file that is
    /// missing has row 0.
    BadRow { table: Table, row: u64, why: Why },
    /// A file has more bytes than are read.
    Limit(Limit),
    /// A table's file could not be read.
    ReadFault { table: Table },
    /// The allocator had no room.
    NoMemory,
}

impl From<NoMemory> for FeedFault {
    ghost from_gives = { λ _ e. e ≡ fault.NoMemory };

    fn from(_refused: NoMemory) -> FeedFault {
        FeedFault::NoMemory
    }
}

/// The fault of a bad row, told the row's place: the header stands at place 0.
pub fn bad_row(table: Table, place: usize, why: Why) -> FeedFault
    requires { place + 1 < 2 ^ 64 }
    ensures { result ≡ FeedFault.BadRow table (place + 1) why }
{
    FeedFault::BadRow {
        table,
        row: place as u64 + 1,
        why,
    }
}

/// The fault of a file that has to be there and is missing.
pub fn missing_file(table: Table) -> FeedFault
    ensures { result ≡ FeedFault.BadRow table 0 Why.MissingFile }
{
    FeedFault::BadRow {
        table,
        row: 0,
        why: Why::MissingFile,
    }
}
