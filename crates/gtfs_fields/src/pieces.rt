//! Texts kept end to end in one buffer.

ghost use Rattle.std.specs.Prelude.{◌≡◌, ℕ, ◌+◌, ◌<◌, [], ◌∷◌, ◌++◌, ◌≤◌, List, length, OnOk, OnErr, IfOk, slice_index, slice_index_or, true};
ghost use Rattle.std.specs.Str.{IsAscii};

use map_base::NoMemory;
use std::alloc::Global;
use std::marker::Model;

/// Texts of any bytes, seen as the list of them. Their bytes stand in one buffer, with a number of four bytes for
/// each text: so they are fewer than 4 GiB in all.
#[derive(Debug, Drop)]
pub struct Pieces {
    bytes: Vec<u8>,
    ends: Vec<u32>,
}

impl Model for Pieces {
    ghost use Rattle.std.specs.Prelude.{ℕ, List, length};
    ghost use Rattle.gtfs_fields.specs.Pieces.{cut, Covers};

    ghost Value = { List (List ℕ) };

    ghost view = { λ p. cut 0 p.ends.items p.bytes.items };

    ghost invariant = { λ p. Covers 0 p.ends.items (length p.bytes.items) };
}

impl Pieces {
    /// No text, with room for so many bytes.
    pub fn with_room(alloc: Global, room: usize) -> Result<Pieces, NoMemory>
        ensures { IfOk result (λ p. p ≡ []) }
    {
        Ok(Pieces {
            bytes: Vec::with_capacity(alloc, room)?,
            ends: Vec::new(alloc),
        })
    }

    /// No text.
    pub fn new(alloc: Global) -> Pieces
        ensures { result ≡ [] }
    {
        Pieces {
            bytes: Vec::new(alloc),
            ends: Vec::new(alloc),
        }
    }

    /// Takes all texts away, and keeps the room.
    pub fn clear(&mut self)
        ensures { self.new ≡ [] }
    {
        self.bytes.clear();
        self.ends.clear();
    }

    /// How many texts there are.
    pub fn len(&self) -> usize
        ensures { result ≡ length self.now }
    {
        self.ends.len()
    }

    /// Adds a text at the end. Past 4 GiB want of memory is answered.
    pub fn push(&mut self, text: &[u8]) -> Result<(), NoMemory>
        ensures ok { OnOk result (self.new ≡ self.old ++ text.now ∷ []) }
        ensures err { OnErr result (self.new ≡ self.old) }
    {
        let start = self.bytes.len();
        let end = end_after(start, text)?;
        self.bytes.extend_from_slice(text)?;
        if self.ends.push(end).is_err() {
            self.bytes.truncate(start);
            return Err(NoMemory);
        }
        Ok(())
    }

    /// The text at a place.
    pub fn at(&self, place: usize) -> &[u8]
        requires { place < length self.now }
        ensures { result.now ≡ slice_index_or self.now place [] }
    {
        let (start, end) = bounds_of(&self.ends, place);
        &self.bytes[start..end]
    }

    /// Whether the texts from one place up to another are all ASCII. They stand side by side, so this is one look
    /// at their bytes.
    pub fn are_ascii(&self, from: usize, to: usize) -> bool
        requires from { from < to }
        requires to { to ≤ length self.now }
        ensures { result ≡ true → (place : ℕ) → from ≤ place → place < to → IsAscii (slice_index_or self.now place []) }
    {
        let (start, _) = bounds_of(&self.ends, from);
        let (_, end) = bounds_of(&self.ends, to - 1);
        self.bytes[start..end].is_ascii()
    }
}

// Where a text ends that starts here, if four bytes hold that.
fn end_after(start: usize, text: &[u8]) -> Result<u32, NoMemory>
    ensures { IfOk result (λ end. end ≡ start + length text.now) }
{
    const MOST: usize = u32::MAX as usize;
    if start > MOST || text.len() > MOST - start {
        return Err(NoMemory);
    }
    Ok((start + text.len()) as u32)
}

/// Where the piece at a place starts and ends, in a list of the places where the pieces end.
pub fn bounds_of(ends: &[u32], place: usize) -> (usize, usize)
    requires { place < length ends.now }
    ensures start { result.0 ≡ slice_index (0 ∷ ends.now) place }
    ensures end { result.1 ≡ slice_index ends.now place }
{
    let start = if place == 0 { 0 } else { ends[place - 1] };
    (start as usize, ends[place] as usize)
}
