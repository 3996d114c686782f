//! Fields of a table, one after another.

ghost use Rattle.std.specs.Prelude.{◌≡◌, ◌<◌, ◌∷◌, ◌++◌, [], length, OnOk};
ghost use Rattle.std.specs.List.{slice_index_or};

use map_base::NoMemory;
use std::alloc::Global;
use std::marker::Model;

/// Fields, seen as the list of their bytes.
#[derive(Drop)]
pub struct Slices<'a> {
    held: Vec<&'a [u8]>,
}

impl<'a> Model for Slices<'a> {
    ghost use Rattle.std.specs.Prelude.{List, ℕ, map};

    ghost Value = { List (List ℕ) };

    ghost view = { λ s. map (λ field. field.now) s.held.items };
}

impl<'a> Slices<'a> {
    /// No field.
    pub fn new(alloc: Global) -> Slices<'a>
        ensures { result ≡ [] }
    {
        Slices {
            held: Vec::new(alloc),
        }
    }

    /// Adds a field at the end.
    pub fn push(&mut self, field: &'a [u8]) -> Result<(), NoMemory>
        ensures { OnOk result (self.new ≡ self.old ++ field.now ∷ []) }
    {
        self.held.push(field)?;
        Ok(())
    }

    /// How many there are.
    pub fn len(&self) -> usize
        ensures { result ≡ length self.now }
    {
        self.held.len()
    }

    /// The field at a place.
    pub fn at(&self, place: usize) -> &'a [u8]
        requires { place < length self.now }
        ensures { result.now ≡ slice_index_or self.now place [] }
    {
        self.held[place]
    }
}
