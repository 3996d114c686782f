//! Boards.

ghost use Rattle.std.specs.Prelude.{◌≡◌, ◌≤ℤ◌, IfOk, OnOk, true, false};
ghost use Rattle.std.specs.List.{list_all};
ghost use Rattle.octi_grid.specs.Ways.{doubled};
ghost use Rattle.octi_grid.specs.Walks.{points_of};
ghost use Rattle.octi_grid.specs.Legal.{is_even};
ghost use Rattle.grid_board.specs.Boards.{contains, doubled_bounds, empty_board, is_inside, parts_of, with_node, with_node_moved, with_walk, without_node, without_walk, AreBounds, IsBoard, IsBound};

use crate::bounds::Bounds;
use crate::taking::{flag_walk, keep_point};
use bit_flags::Flags;
use map_base::NoMemory;
use octi_grid::{GridPoint, Walk, end_of};
use std::alloc::Global;
use std::marker::Model;

/// A part of the grid with the points of nodes, which are even, and the doubled points that walks have taken.
#[derive(Debug, Drop)]
pub struct Board {
    bounds: Bounds,
    nodes: Vec<bool>,
    taken: Flags,
}

impl Model for Board {
    ghost use Rattle.grid_board.specs.Boards.{BoardFlags, IsKept};

    ghost Value = { BoardFlags };

    ghost view = { λ b. record { bounds = b.bounds; nodes = b.nodes.items; taken = b.taken } };

    ghost invariant = { λ b. IsKept (record { bounds = b.bounds; nodes = b.nodes.items; taken = b.taken }) };
}

impl Board {
    /// A board without nodes and walks, with its bounds in grid steps.
    pub fn new(
        alloc: Global,
        left: i32,
        right: i32,
        bottom: i32,
        top: i32,
    ) -> Result<Board, NoMemory>
        requires left { IsBound left }
        requires right { IsBound right }
        requires bottom { IsBound bottom }
        requires top { IsBound top }
        requires across { left ≤ℤ right }
        requires upwards { bottom ≤ℤ top }
        ensures { IfOk result (λ board. parts_of board ≡ empty_board (record { left = left; right = right; bottom = bottom; top = top })) }
    {
        let bounds = Bounds {
            left,
            right,
            bottom,
            top,
        };
        Board::within(alloc, bounds)
    }

    /// A board within bounds that nothing was put on.
    fn within(alloc: Global, bounds: Bounds) -> Result<Board, NoMemory>
        requires { AreBounds bounds }
        ensures { IfOk result (λ board. parts_of board ≡ empty_board bounds) }
    {
        let nodes = vec![in alloc; false; bounds.cells() as usize]?;
        let taken = Flags::none(alloc, bounds.doubled().cells() as usize)?;
        Ok(Board {
            bounds,
            nodes,
            taken,
        })
    }

    /// Puts a node on a point.
    pub fn add_node(&mut self, at: GridPoint)
        requires inside { is_inside (parts_of self.old) at ≡ true }
        requires even { is_even at ≡ true }
        ensures { parts_of self.new ≡ with_node (parts_of self.old) at }
    {
        let cell = self.bounds.cell_of(at) as usize;
        self.nodes[cell] = true;
    }

    /// Moves a node from one point to another.
    pub fn move_node(&mut self, from: GridPoint, to: GridPoint)
        requires from_inside { is_inside (parts_of self.old) from ≡ true }
        requires to_inside { is_inside (parts_of self.old) to ≡ true }
        requires even { is_even to ≡ true }
        ensures { parts_of self.new ≡ with_node_moved (parts_of self.old) from to }
    {
        let old = self.bounds.cell_of(from) as usize;
        self.nodes[old] = false;
        let new = self.bounds.cell_of(to) as usize;
        self.nodes[new] = true;
    }

    /// Takes the doubled points of a walk.
    pub fn add_walk(&mut self, walk: &Walk)
        requires { list_all (is_inside (parts_of self.old)) (points_of walk.now) ≡ true }
        ensures { parts_of self.new ≡ with_walk (parts_of self.old) walk.now }
    {
        flag_walk(&mut self.taken, self.bounds, walk, true);
    }

    /// Takes the node off the board that stands at a point.
    pub fn remove_node(&mut self, at: GridPoint)
        requires { is_inside (parts_of self.old) at ≡ true }
        ensures { parts_of self.new ≡ without_node (parts_of self.old) at }
    {
        let cell = self.bounds.cell_of(at) as usize;
        self.nodes[cell] = false;
    }

    /// Frees the doubled points of a walk, but for those of its ends that other walks keep taken.
    pub fn remove_walk(&mut self, walk: &Walk, keeps_start: bool, keeps_end: bool)
        requires inside { list_all (is_inside (parts_of self.old)) (points_of walk.now) ≡ true }
        requires board { IsBoard (without_walk (parts_of self.old) walk.now keeps_start keeps_end) }
        ensures { parts_of self.new ≡ without_walk (parts_of self.old) walk.now keeps_start keeps_end }
    {
        flag_walk(&mut self.taken, self.bounds, walk, false);
        keep_point(&mut self.taken, self.bounds, walk.start(), keeps_start);
        keep_point(&mut self.taken, self.bounds, end_of(walk), keeps_end);
    }

    /// The bounds of the board.
    pub fn bounds(&self) -> Bounds
        ensures value { result ≡ (parts_of self.now).bounds }
        ensures in_range { AreBounds result }
        ensures kept { IsBoard (parts_of self.now) }
    {
        self.bounds
    }

    /// Whether a point is that of a node.
    pub fn is_node(&self, at: GridPoint) -> bool
        requires { is_inside (parts_of self.now) at ≡ true }
        ensures { result ≡ (parts_of self.now).is_node at }
    {
        self.nodes[self.bounds.cell_of(at) as usize]
    }

    /// Whether a doubled point is that of a walk.
    pub fn is_taken(&self, at: GridPoint) -> bool
        requires { contains (doubled_bounds (parts_of self.now).bounds) at ≡ true }
        ensures { result ≡ (parts_of self.now).is_taken at }
    {
        let cell = self.bounds.doubled().cell_of(at) as usize;
        self.taken.is_raised(cell)
    }
}
