//! Flags, one bit each.

ghost use Rattle.std.specs.Prelude.{◌≡◌, ◌<◌, IfOk, true, false, length, replicate, slice_index_or, slice_set};

use map_base::NoMemory;
use std::alloc::Global;
use std::marker::Model;

/// Flags, one bit each, seen as their list.
#[derive(Debug, Drop)]
pub struct Flags {
    words: Vec<u64>,
    count: usize,
}

impl Model for Flags {
    ghost use Rattle.std.specs.Prelude.{◌*◌, ◌≤◌, Bool, List, length};
    ghost use Rattle.bit_flags.specs.Bits.{flags_in};

    ghost Value = { List Bool };

    ghost view = { λ f. flags_in f.words.items f.count };

    ghost invariant = { λ f. f.count ≤ 64 * length f.words.items };
}

impl Flags {
    /// So many flags, none of them raised.
    pub fn none(alloc: Global, count: usize) -> Result<Flags, NoMemory>
        ensures { IfOk result (λ flags. flags ≡ replicate count false) }
    {
        let words = vec![in alloc; 0u64; count.div_ceil(64)]?;
        Ok(Flags { words, count })
    }

    /// How many flags there are.
    pub fn len(&self) -> usize
        ensures { result ≡ length self.now }
    {
        self.count
    }

    /// Whether the flag at a place is raised.
    pub fn is_raised(&self, place: usize) -> bool
        requires { place < length self.now }
        ensures { result ≡ slice_index_or self.now place false }
    {
        (self.words[place / 64] >> (place % 64)) & 1 == 1
    }

    /// Raises the flag at a place.
    pub fn raise(&mut self, place: usize)
        requires { place < length self.old }
        ensures { self.new ≡ slice_set self.old place true }
    {
        self.words[place / 64] |= 1 << (place % 64);
    }

    /// Lowers the flag at a place.
    pub fn lower(&mut self, place: usize)
        requires { place < length self.old }
        ensures { self.new ≡ slice_set self.old place false }
    {
        self.words[place / 64] &= !(1 << (place % 64));
    }

    /// Raises or lowers the flag at a place.
    pub fn put(&mut self, place: usize, flag: bool)
        requires { place < length self.old }
        ensures { self.new ≡ slice_set self.old place flag }
    {
        if flag {
            self.raise(place);
        } else {
            self.lower(place);
        }
    }
}
