//! Entries with a key and a sequence number, put in order by sorts of their runs and of themselves.
//!
//! Tables of ordered rows, such as the points of shapes or the stops of trips, name for each row a thing (the
//! key) and the row's place in it (the sequence number), in any order. `OrderedEntries` finds the first entry
//! that comes again, and the entries of each key by rising sequence numbers.
#![tactic(auto)]

mod entry;
mod order;
mod ordered;
mod placed;
mod ranks;
mod repeats;
mod runs;

pub use entry::Entry;
pub use ordered::OrderedEntries;
