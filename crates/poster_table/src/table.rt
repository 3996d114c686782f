//! A table of things, which finds those that a thing clashes with by the cells of a coarse grid.

ghost use Rattle.std.specs.Prelude.{◌≡◌, ◌<◌, ◌++◌, ◌∷◌, [], ℕ, length, OnOk, IfOk};
ghost use Rattle.std.specs.List.{list_any};
ghost use Rattle.poster_table.specs.Cells.{bucket_of, buckets_of, cells_of, row_buckets};
ghost use Rattle.poster_plan.specs.Things.{clash};
ghost use Rattle.poster_table.specs.Tables.{bucket_at, hits_by_cells, hits_in, hits_some, AreBelow, IsShortThing, IsTable, PutsIn};

use crate::cells::{Cells, bucket_of, cells_of, count_of};
use crate::things::clash;
use map_base::NoMemory;
use poster_plan::Thing;
use std::alloc::Global;

/// In how many cells a thing may be put. One that reaches into more of them is looked at by each search.
const MOST_CELLS: u64 = 64;

/// Things, by the cells that they reach into.
#[derive(Drop)]
pub struct Table {
    /// The things, in the order in which they were put.
    pub things: Vec<Thing>,
    /// For each bucket of cells the numbers of the things that reach into one of them.
    pub buckets: Vec<Vec<u32>>,
    /// The numbers of the things that reach into too many.
    pub wide: Vec<u32>,
}

impl Table {
    /// A table of nothing, for some `count` things.
    pub fn none(alloc: Global, count: usize) -> Result<Table, NoMemory>
        ensures table { IfOk result IsTable }
        ensures none { IfOk result (λ t. t.things.items ≡ []) }
    {
        Ok(Table {
            things: Vec::new(alloc),
            buckets: empty_buckets(alloc, 2 * count.min(1 << 20) + 61)?,
            wide: Vec::new(alloc),
        })
    }

    /// Puts a thing.
    pub fn put(&mut self, thing: Thing) -> Result<(), NoMemory>
        requires table { IsTable self.old }
        requires thing { IsShortThing thing }
        ensures table { OnOk result (IsTable self.new) }
        ensures things { OnOk result (self.new.things.items ≡ self.old.things.items ++ thing ∷ []) }
    {
        if self.things.len() >= 1 << 31 {
            return Err(NoMemory);
        }
        let number = self.things.len() as u32;
        let cells = cells_of(thing.shape);
        if count_of(cells) > MOST_CELLS {
            return self.put_wide(thing, number);
        }
        self.put_in(thing, number, cells)
    }

    /// Puts a thing that each search looks at.
    fn put_wide(&mut self, thing: Thing, number: u32) -> Result<(), NoMemory>
        requires table { IsTable self.old }
        requires thing { IsShortThing thing }
        requires number { number ≡ length self.old.things.items }
        ensures table { OnOk result (IsTable self.new) }
        ensures things { OnOk result (self.new.things.items ≡ self.old.things.items ++ thing ∷ []) }
    {
        self.wide.push(number)?;
        self.things.push(thing)?;
        Ok(())
    }

    /// Puts a thing into its cells.
    fn put_in(&mut self, thing: Thing, number: u32, cells: Cells) -> Result<(), NoMemory>
        requires table { IsTable self.old }
        requires thing { IsShortThing thing }
        requires number { number ≡ length self.old.things.items }
        requires cells { cells ≡ cells_of thing.shape }
        requires right { cells.right < 1099511627776 }
        requires bottom { cells.bottom < 1099511627776 }
        ensures table { OnOk result (IsTable self.new) }
        ensures things { OnOk result (self.new.things.items ≡ self.old.things.items ++ thing ∷ []) }
    {
        put_cells(&mut self.buckets, number, cells)?;
        self.things.push(thing)?;
        Ok(())
    }

    /// Whether a thing clashes with one of the table.
    pub fn clashes(&self, thing: Thing) -> bool
        requires table { IsTable self.now }
        requires thing { IsShortThing thing }
        ensures { result ≡ list_any (clash thing) self.now.things.items }
    {
        let cells = cells_of(thing.shape);
        if count_of(cells) > self.things.len() as u64 {
            return clashes_with_some(thing, self.things.as_slice());
        }
        self.clashes_by_cells(thing, cells)
    }

    /// Whether it clashes with one that reaches into too many cells, or into one of these.
    fn clashes_by_cells(&self, thing: Thing, cells: Cells) -> bool
        requires table { IsTable self.now }
        requires right { cells.right < 1099511627776 }
        requires bottom { cells.bottom < 1099511627776 }
        ensures { result ≡ hits_by_cells self.now thing cells }
    {
        if self.clashes_in(thing, self.wide.as_slice()) {
            return true;
        }
        for row in cells.top..cells.bottom + 1 {
            if self.clashes_in_row(thing, cells, row) {
                return true;
            }
        }
        false
    }

    /// Whether it clashes with one that reaches into a cell of a row.
    fn clashes_in_row(&self, thing: Thing, cells: Cells, row: u64) -> bool
        requires table { IsTable self.now }
        requires right { cells.right < 1099511627776 }
        requires row { row < 1099511627776 }
        ensures { result ≡ list_any (hits_in self.now thing) (row_buckets (length self.now.buckets.items) cells row) }
    {
        for column in cells.left..cells.right + 1 {
            if self.clashes_at(thing, column, row) {
                return true;
            }
        }
        false
    }

    /// Whether it clashes with one that reaches into a cell.
    fn clashes_at(&self, thing: Thing, column: u64, row: u64) -> bool
        requires table { IsTable self.now }
        requires column { column < 1099511627776 }
        requires row { row < 1099511627776 }
        ensures { result ≡ hits_in self.now thing (bucket_of column row (length self.now.buckets.items)) }
    {
        let bucket = bucket_of(column, row, self.buckets.len());
        self.clashes_in(thing, self.numbers_in(bucket))
    }

    /// The numbers in a bucket.
    fn numbers_in(&self, bucket: usize) -> &[u32]
        requires { bucket < length self.now.buckets.items }
        ensures { result.now ≡ bucket_at self.now.buckets.items bucket }
    {
        self.buckets[bucket].as_slice()
    }

    /// Whether it clashes with one of these numbers.
    fn clashes_in(&self, thing: Thing, numbers: &[u32]) -> bool
        requires { AreBelow (length self.now.things.items) numbers.now }
        ensures { result ≡ hits_some self.now.things.items thing numbers.now }
    {
        for number in numbers {
            if clash(thing, self.things[*number as usize]) {
                return true;
            }
        }
        false
    }
}

/// So many buckets of nothing.
fn empty_buckets(alloc: Global, count: usize) -> Result<Vec<Vec<u32>>, NoMemory>
    ensures count { IfOk result (λ buckets. length buckets.items ≡ count) }
    ensures none { IfOk result (λ buckets. (b : ℕ) → bucket_at buckets.items b ≡ []) }
{
    let mut buckets = Vec::new(alloc);
    for _ in 0..count {
        buckets.push(Vec::new(alloc))?;
    }
    Ok(buckets)
}

/// Puts the number of a thing into these cells.
fn put_cells(buckets: &mut Vec<Vec<u32>>, number: u32, cells: Cells) -> Result<(), NoMemory>
    requires some { 0 < length buckets.old.items }
    requires right { cells.right < 1099511627776 }
    requires bottom { cells.bottom < 1099511627776 }
    ensures { OnOk result (PutsIn buckets.old.items buckets.new.items (buckets_of (length buckets.old.items) cells) number) }
{
    for row in cells.top..cells.bottom + 1 {
        put_row(buckets, number, cells, row)?;
    }
    Ok(())
}

/// Puts it into the cells of a row.
fn put_row(buckets: &mut Vec<Vec<u32>>, number: u32, cells: Cells, row: u64) -> Result<(), NoMemory>
    requires some { 0 < length buckets.old.items }
    requires right { cells.right < 1099511627776 }
    requires row { row < 1099511627776 }
    ensures { OnOk result (PutsIn buckets.old.items buckets.new.items (row_buckets (length buckets.old.items) cells row) number) }
{
    for column in cells.left..cells.right + 1 {
        put_at(buckets, number, column, row)?;
    }
    Ok(())
}

/// Puts it into a cell.
fn put_at(buckets: &mut Vec<Vec<u32>>, number: u32, column: u64, row: u64) -> Result<(), NoMemory>
    requires some { 0 < length buckets.old.items }
    requires column { column < 1099511627776 }
    requires row { row < 1099511627776 }
    ensures { OnOk result (PutsIn buckets.old.items buckets.new.items (bucket_of column row (length buckets.old.items) ∷ []) number) }
{
    let bucket = bucket_of(column, row, buckets.len());
    put_number(buckets, number, bucket)?;
    Ok(())
}

/// Puts it into a bucket.
fn put_number(buckets: &mut Vec<Vec<u32>>, number: u32, bucket: usize) -> Result<(), NoMemory>
    requires { bucket < length buckets.old.items }
    ensures { OnOk result (PutsIn buckets.old.items buckets.new.items (bucket ∷ []) number) }
{
    let numbers = &mut buckets[bucket];
    numbers.push(number)?;
    Ok(())
}

/// Whether a thing clashes with one of these.
fn clashes_with_some(thing: Thing, things: &[Thing]) -> bool
    ensures { result ≡ list_any (clash thing) things.now }
{
    for other in things {
        if clash(thing, *other) {
            return true;
        }
    }
    false
}
