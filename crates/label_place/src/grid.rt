//! A table of what names keep clear of, by the cells of a coarse grid.

ghost use Rattle.std.specs.Prelude.{◌≡◌, ◌<◌, ◌≤◌, ◌∷◌, [], false, length, IfOk, OnOk};
ghost use Rattle.std.specs.List.{list_any};
ghost use Rattle.label_place.specs.Grids.{cells_along, row_cells, cells_in, cells_of, put_in, meets_at, meets_some, Adds, Grows, IsBox, IsLinked, IsThing};

use crate::cells::{Cell, Cells, cells_of};
use crate::things::{Thing, meets, reach};
use map_base::NoMemory;
use std::alloc::Global;
use std::collections::HashMap;
use svg_writer::Bounds;

/// A thing at a cell.
#[derive(Clone, Copy, Debug)]
pub(crate) struct Entry {
    pub cell: Cell,
    pub thing: Thing,
    /// The entry before it of the same cell.
    pub earlier: Option<usize>,
}

/// A table of things by the cells that they reach into.
#[derive(Drop)]
pub(crate) struct Grid {
    /// The side of a cell.
    pub side: u64,
    /// The last entry of each cell.
    pub heads: HashMap<Cell, usize>,
    pub entries: Vec<Entry>,
}

impl Grid {
    /// A table of nothing, with cells of this side.
    pub(crate) fn none(alloc: Global, side: u64) -> Grid
        requires { 0 < side }
        ensures linked { IsLinked result }
        ensures side { result.side ≡ side }
        ensures none { result.entries.items ≡ [] }
    {
        Grid {
            side,
            heads: HashMap::new(alloc),
            entries: Vec::new(alloc),
        }
    }

    /// Puts a thing into each cell that it reaches into.
    pub(crate) fn put(&mut self, thing: Thing) -> Result<(), NoMemory>
        requires linked { IsLinked self.old }
        requires thing { IsThing thing }
        ensures { OnOk result (Adds self.old self.new (thing ∷ [])) }
    {
        let cells = cells_of(self.side, reach(thing));
        for row in cells.top..cells.bottom + 1 {
            self.put_row(thing, cells, row)?;
        }
        Ok(())
    }

    /// Puts a thing into the cells of a row.
    fn put_row(&mut self, thing: Thing, cells: Cells, row: u64) -> Result<(), NoMemory>
        requires linked { IsLinked self.old }
        requires thing { IsThing thing }
        requires right { cells.right < 4398046511104 }
        ensures { OnOk result (Grows self.old self.new (put_in (row_cells cells row) thing)) }
    {
        for column in cells.left..cells.right + 1 {
            self.put_at(thing, Cell { column, row })?;
        }
        Ok(())
    }

    /// Puts a thing into a cell.
    fn put_at(&mut self, thing: Thing, cell: Cell) -> Result<(), NoMemory>
        requires linked { IsLinked self.old }
        requires thing { IsThing thing }
        ensures { OnOk result (Grows self.old self.new (put_in (cell ∷ []) thing)) }
    {
        let earlier = self.heads.get(&cell).copied();
        let place = self.entries.len();
        self.entries.push(Entry {
            cell,
            thing,
            earlier,
        })?;
        self.heads.insert(cell, place)?;
        Ok(())
    }

    /// Whether the box of a name meets a thing.
    pub(crate) fn meets(&self, bounds: Bounds) -> bool
        requires linked { IsLinked self.now }
        requires bounds { IsBox bounds }
        ensures { result ≡ meets_some self.now bounds }
    {
        let cells = cells_of(self.side, bounds);
        for row in cells.top..cells.bottom + 1 {
            if self.meets_in_row(bounds, cells, row) {
                return true;
            }
        }
        false
    }

    /// Whether it meets a thing of a cell of a row.
    fn meets_in_row(&self, bounds: Bounds, cells: Cells, row: u64) -> bool
        requires linked { IsLinked self.now }
        requires bounds { IsBox bounds }
        requires right { cells.right < 4398046511104 }
        ensures { result ≡ list_any (meets_at self.now bounds) (row_cells cells row) }
    {
        for column in cells.left..cells.right + 1 {
            if self.meets_at(bounds, Cell { column, row }) {
                return true;
            }
        }
        false
    }

    /// Whether it meets a thing of a cell.
    fn meets_at(&self, bounds: Bounds, cell: Cell) -> bool
        requires linked { IsLinked self.now }
        requires bounds { IsBox bounds }
        ensures { result ≡ meets_at self.now bounds cell }
    {
        let mut at = self.heads.get(&cell).copied();
        while let Some(i) = at {
            let entry = self.entries[i];
            if meets(bounds, entry.thing) {
                return true;
            }
            at = entry.earlier;
        }
        false
    }
}
