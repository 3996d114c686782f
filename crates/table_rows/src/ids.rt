//! A set of ids that a table spells, each found at once.

ghost use Rattle.std.specs.Prelude.{◌≡◌, not, [], IfOk, OnOk, OnErr, bytes_eq, ◌||◌, ◌<◌, List, ℕ, length, IfSome};
ghost use Rattle.table_rows.specs.Ids.{is_among, noted, place_among};

use indexmap::IndexSet;
use map_base::NoMemory;
use std::alloc::Global;
use std::marker::Model;

/// Ids in order of first sight, as slices of the table that spells them.
#[derive(Drop)]
pub struct Ids<'a> {
    held: IndexSet<&'a [u8]>,
}

impl<'a> Model for Ids<'a> {
    ghost use Rattle.std.specs.Prelude.{List, ℕ, map};

    ghost Value = { List (List ℕ) };

    ghost view = { λ s. map (λ id. id.now) s.held.keys };
}

impl<'a> Ids<'a> {
    /// No ids.
    pub fn new(alloc: Global) -> Ids<'a>
        ensures { result ≡ [] }
    {
        Ids {
            held: IndexSet::new(alloc),
        }
    }

    /// Notes an id, and says whether it is new.
    pub fn note(&mut self, id: &'a [u8]) -> Result<bool, NoMemory>
        ensures new { IfOk result (λ is_new. is_new ≡ not (is_among id.now self.old)) }
        ensures noted { OnOk result (self.new ≡ noted self.old id.now) }
        ensures among { OnOk result ((other : List ℕ) → is_among other self.new ≡ (is_among other self.old || bytes_eq other id.now)) }
        ensures err { OnErr result (self.new ≡ self.old) }
    {
        Ok(self.held.insert(id)?)
    }

    /// Whether an id was noted.
    pub fn contains(&self, id: &[u8]) -> bool
        ensures { result ≡ is_among id.now self.now }
    {
        self.held.contains(id)
    }

    /// The place of an id among those that were noted.
    pub fn place_of(&self, id: &[u8]) -> Option<usize>
        ensures place { result ≡ place_among self.now id.now }
        ensures within { IfSome result (λ place. place < length self.now) }
    {
        self.held.get_index_of(id)
    }
}
