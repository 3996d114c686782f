//! Sets of doubled points.

ghost use Rattle.std.specs.Prelude.{◌≡◌, ◌≤◌, ◌<◌, ℕ, [], not, cond, true, false, length, slice_index_or, slice_set, IfOk, OnOk, unsigned_abs};
ghost use Rattle.octi_grid.specs.Ways.{are_one, IsDoubled};
ghost use Rattle.octi_grid.specs.PointSets.{flag_of, holds, is_raised, offset, tile_of};

use crate::point::GridPoint;
use bit_flags::Flags;
use map_base::NoMemory;
use std::alloc::Global;
use std::marker::Model;

/// How many points lie side by side in a tile, and above one another.
const SIDE: u32 = 256;

/// How many tiles lie side by side, and above one another.
const ACROSS: u32 = 157;

/// How many tiles there are.
const TILES: usize = 24649;

/// How many points a tile has.
const POINTS: usize = 65536;

/// A set of doubled points. The square in which they lie is cut into tiles, which have a flag for each of their points. A
/// tile is made when the first of its points comes, and has no flags before; so a set takes memory where its points lie,
/// and 200 MB where they lie everywhere.
#[derive(Drop)]
pub(crate) struct PointSet {
    /// The tiles, column by column.
    tiles: Vec<Flags>,
}

impl Model for PointSet {
    ghost use Rattle.octi_grid.specs.PointSets.{AreTiles, PointFlags};

    ghost Value = { PointFlags };

    ghost view = { λ s. s.tiles.items };

    ghost invariant = { λ s. AreTiles s.tiles.items };
}

impl PointSet {
    /// The set without points.
    pub(crate) fn none(alloc: Global) -> Result<PointSet, NoMemory>
        ensures { IfOk result (λ set. (p : GridPoint) → holds set p ≡ false) }
    {
        let mut tiles = Vec::with_capacity(alloc, TILES)?;
        for _ in 0..TILES {
            tiles.push(Flags::none(alloc, 0)?)?;
        }
        Ok(PointSet { tiles })
    }

    /// Puts a point into the set. Whether it was not there yet.
    pub(crate) fn insert(&mut self, p: GridPoint) -> Result<bool, NoMemory>
        requires { IsDoubled p }
        ensures added { IfOk result (λ added. added ≡ not (holds self.old p)) }
        ensures holds { OnOk result ((q : GridPoint) → holds self.new q ≡ cond (are_one p q) true (holds self.old q)) }
    {
        let tile = tile_of(p);
        self.make(tile)?;
        Ok(self.raise(tile, flag_of(p)))
    }

    /// Makes a tile, where it is not made yet.
    fn make(&mut self, tile: usize) -> Result<(), NoMemory>
        requires { tile < 24649 }
        ensures same { OnOk result ((t f : ℕ) → is_raised self.new t f ≡ is_raised self.old t f) }
        ensures made { OnOk result (length (slice_index_or self.new tile []) ≡ 65536) }
    {
        if self.tiles[tile].len() > 0 {
            return Ok(());
        }
        let alloc = *self.tiles.allocator();
        self.tiles[tile] = Flags::none(alloc, POINTS)?;
        Ok(())
    }

    /// Raises a flag of a tile that is made. Whether it was not raised yet.
    fn raise(&mut self, tile: usize, flag: usize) -> bool
        requires tile { tile < 24649 }
        requires made { length (slice_index_or self.old tile []) ≡ 65536 }
        requires flag { flag < 65536 }
        ensures added { result ≡ not (is_raised self.old tile flag) }
        ensures raised { self.new ≡ slice_set self.old tile (slice_set (slice_index_or self.old tile []) flag true) }
    {
        let added = !self.tiles[tile].is_raised(flag);
        self.tiles[tile].raise(flag);
        added
    }
}

/// How far a coordinate lies above the least one.
fn offset(z: i32) -> u32
    requires { unsigned_abs z ≤ 20000 }
    ensures value { result ≡ offset z }
    ensures within { result ≤ 40000 }
{
    (z + 20000) as u32
}

/// The number of a point's tile.
fn tile_of(p: GridPoint) -> usize
    requires { IsDoubled p }
    ensures value { result ≡ tile_of p }
    ensures within { result < 24649 }
{
    (offset(p.x) / SIDE * ACROSS + offset(p.y) / SIDE) as usize
}

/// The number of a point in its tile.
fn flag_of(p: GridPoint) -> usize
    requires { IsDoubled p }
    ensures value { result ≡ flag_of p }
    ensures within { result < 65536 }
{
    (offset(p.x) % SIDE * SIDE + offset(p.y) % SIDE) as usize
}
