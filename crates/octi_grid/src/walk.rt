//! Walks over the grid.

ghost use Rattle.std.specs.Prelude.{◌≡◌, ◌<◌, ◌++◌, ◌∷◌, [], length, Some, IfOk, OnOk, OnErr, IsTrue};
ghost use Rattle.octi_grid.specs.Ways.{step_from, IsWithin};

use crate::dir::Dir;
use crate::point::GridPoint;
use crate::runs::{are_runs, push_step, stay_within};
use map_base::NoMemory;
use std::alloc::Global;
use std::marker::Model;

/// Steps in one direction, one at least.
#[derive(Clone, Copy, Debug, PartialEq, Eq)]
pub struct Run {
    pub dir: Dir,
    pub count: u32,
}

/// A walk: its start and at least one step, each point within 10,000 either way. It is kept as runs, so a long straight
/// walk takes little room, and seen as its start and the list of its steps.
#[derive(Debug, Drop)]
pub struct Walk {
    start: GridPoint,
    held: Vec<Run>,
}

impl Model for Walk {
    ghost use Rattle.std.specs.Prelude.{IsTrue};
    ghost use Rattle.octi_grid.specs.Walks.{PlainWalk, IsWalk, walk_of};
    ghost use Rattle.octi_grid.specs.Runs.{are_runs};

    ghost Value = { PlainWalk };

    ghost view = { λ w. walk_of w.start w.held.items };

    ghost invariant = { λ w. IsTrue (are_runs w.held.items) × IsWalk (walk_of w.start w.held.items) };
}

impl Walk {
    ghost use Rattle.octi_grid.specs.Runs.{are_runs, steps_of};
    ghost use Rattle.octi_grid.specs.Walks.{IsWalk, end_point, start_port, end_port, walk_by};

    /// The walk of one step.
    pub fn of_step(alloc: Global, start: GridPoint, dir: Dir) -> Result<Walk, NoMemory>
        requires start { IsWithin start }
        requires end { IsWithin (step_from start dir) }
        ensures { IfOk result (λ w. w ≡ record { start = start; steps = dir ∷ [] }) }
    {
        let mut held = Vec::new(alloc);
        held.push(Run { dir, count: 1 })?;
        Ok(Walk { start, held })
    }

    /// The walk of these runs, where there is one at least, none is without steps, neighbours go different ways, and each
    /// point lies within 10,000 either way.
    pub fn of_runs(start: GridPoint, runs: Vec<Run>) -> Option<Walk>
        ensures { result ≡ walk_by start runs.items }
    {
        if runs.is_empty() || !are_runs(&runs) || !stay_within(start, &runs) {
            return None;
        }
        Some(Walk { start, held: runs })
    }

    /// Takes one step more.
    pub fn push(&mut self, dir: Dir) -> Result<(), NoMemory>
        requires { IsWithin (step_from (end_point self.old) dir) }
        ensures ok { OnOk result (self.new ≡ record { start = self.old.start; steps = self.old.steps ++ dir ∷ [] }) }
        ensures err { OnErr result (self.new ≡ self.old) }
    {
        push_step(&mut self.held, dir)?;
        Ok(())
    }

    /// Where it starts.
    pub fn start(&self) -> GridPoint
        ensures { result ≡ self.now.start }
    {
        self.start
    }

    /// Its steps as runs.
    pub fn runs(&self) -> &[Run]
        ensures steps { steps_of result.now ≡ self.now.steps }
        ensures runs { IsTrue (are_runs result.now) }
        ensures walk { IsWalk self.now }
    {
        self.held.as_slice()
    }

    /// Its port at the start: the first direction.
    pub fn start_port(&self) -> Dir
        ensures { start_port self.now ≡ Some result }
    {
        self.held[0].dir
    }

    /// Its port at the end: the reverse of the last direction.
    pub fn end_port(&self) -> Dir
        ensures { end_port self.now ≡ Some result }
    {
        self.held[self.held.len() - 1].dir.reverse()
    }
}
