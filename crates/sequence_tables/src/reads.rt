//! What the rows of a table say, one after another, where each that is read in full gives an entry and a value.

ghost use Rattle.std.specs.Prelude.{◌≡◌, ◌++◌, [], option_to_list, option_map, OnOk};

use crate::places::Places;
use map_base::{NoMemory, Sequence};
use ordered_entries::Entry;
use std::alloc::Global;
use table_rows::Why;

/// What a row says that is read in full.
#[derive(Clone, Copy)]
pub(crate) struct Read<T> {
    /// The place of its shape, or of its trip, and its sequence.
    pub(crate) entry: Entry,
    /// The latitude and longitude of a point of a shape, or the station at which a trip stops.
    pub(crate) value: T,
}

/// What was read of rows, up to one of them.
#[derive(Drop)]
pub(crate) struct Reads<T> {
    /// The place of that row.
    pub(crate) upto: usize,
    /// What is wrong with it, if something is; else it stands behind the last one.
    pub(crate) stopped: Option<Why>,
    /// The entry of each row that is read in full.
    pub(crate) entries: Sequence<Entry>,
    /// The value of each such row.
    pub(crate) values: Sequence<T>,
    /// The place of each such row.
    pub(crate) places: Places,
}

/// What was read of the rows so far: of each that is read in full its entry, its value and its place.
#[derive(Drop)]
pub(crate) struct ReadsSoFar<T> {
    pub(crate) entries: Vec<Entry>,
    pub(crate) values: Vec<T>,
    pub(crate) places: Places,
}

impl<T: Copy> ReadsSoFar<T> {
    /// Nothing.
    pub(crate) fn new(alloc: Global) -> ReadsSoFar<T>
        ensures entries { result.entries.items ≡ [] }
        ensures values { result.values.items ≡ [] }
        ensures places { result.places ≡ [] }
    {
        ReadsSoFar {
            entries: Vec::new(alloc),
            values: Vec::new(alloc),
            places: Places::new(alloc),
        }
    }

    /// Notes what the row at a place says, where it is read in full.
    pub(crate) fn note(&mut self, place: u32, read: Option<Read<T>>) -> Result<(), NoMemory>
        ensures entries { OnOk result (self.new.entries.items ≡ self.old.entries.items ++ option_to_list (option_map (λ r. r.entry) read)) }
        ensures values { OnOk result (self.new.values.items ≡ self.old.values.items ++ option_to_list (option_map (λ r. r.value) read)) }
        ensures places { OnOk result (self.new.places ≡ self.old.places ++ option_to_list (option_map (λ _. place) read)) }
    {
        if let Some(read) = read {
            self.entries.push(read.entry)?;
            self.values.push(read.value)?;
            self.places.push(place)?;
        }
        Ok(())
    }

    /// All of it, up to the row at a place, which may be bad.
    pub(crate) fn up_to(self, upto: usize, stopped: Option<Why>) -> Reads<T>
        ensures upto { result.upto ≡ upto }
        ensures stopped { result.stopped ≡ stopped }
        ensures entries { result.entries ≡ self.entries.items }
        ensures values { result.values ≡ self.values.items }
        ensures places { result.places ≡ self.places }
    {
        Reads {
            upto,
            stopped,
            entries: Sequence::of(self.entries),
            values: Sequence::of(self.values),
            places: self.places,
        }
    }
}
