//! Places of rows, most of them neighbours.

ghost use Rattle.std.specs.Prelude.{◌≡◌, ◌<◌, ◌^◌, ◌++◌, ◌∷◌, [], length, slice_index, IfSome, OnOk};
ghost use Rattle.sequence_tables.specs.PlaceRuns.{places_of_run, places_of_runs};

use crate::place_run::PlaceRun;
use map_base::NoMemory;
use std::alloc::Global;
use std::marker::Model;

/// Places of rows, seen as the list of them. Places that follow each other stand as one run, which takes eight bytes.
#[derive(Drop)]
pub(crate) struct Places {
    /// All runs but the last.
    runs: Vec<PlaceRun>,
    /// The last run.
    last: PlaceRun,
}

impl Model for Places {
    ghost use Rattle.std.specs.Prelude.{ℕ, List};
    ghost use Rattle.sequence_tables.specs.PlaceRuns.{places_of_runs};

    ghost Value = { List ℕ };

    ghost view = { λ p. places_of_runs p.runs.items p.last };
}

/// The run with one place more, where that place stands right behind it.
fn longer(run: PlaceRun, place: u32) -> Option<PlaceRun>
    ensures { IfSome result (λ long. places_of_run long ≡ places_of_run run ++ place ∷ []) }
{
    let behind = run.first as usize + run.count as usize;
    if behind != place as usize || run.count == u32::MAX {
        return None;
    }
    Some(PlaceRun {
        first: run.first,
        count: run.count + 1,
    })
}

/// The place at an index, told all runs but the last, and the last.
fn place_in(runs: &[PlaceRun], last: PlaceRun, index: usize) -> usize
    requires { index < length (places_of_runs runs.now last) }
    ensures place { result ≡ slice_index (places_of_runs runs.now last) index }
    ensures low { result < 2 ^ 33 }
{
    let mut left = index;
    for k in 0..runs.len() {
        let run = runs[k];
        if left < run.count as usize {
            return run.first as usize + left;
        }
        left -= run.count as usize;
    }
    last.first as usize + left
}

impl Places {
    /// No place. Rows behind the header begin at place 1.
    pub(crate) fn new(alloc: Global) -> Places
        ensures { result ≡ [] }
    {
        Places {
            runs: Vec::new(alloc),
            last: PlaceRun { first: 1, count: 0 },
        }
    }

    /// Adds a place at the end.
    pub(crate) fn push(&mut self, place: u32) -> Result<(), NoMemory>
        ensures { OnOk result (self.new ≡ self.old ++ place ∷ []) }
    {
        if let Some(long) = longer(self.last, place) {
            self.last = long;
            return Ok(());
        }
        self.runs.push(self.last)?;
        self.last = PlaceRun {
            first: place,
            count: 1,
        };
        Ok(())
    }

    /// The place at an index.
    pub(crate) fn at(&self, index: usize) -> usize
        requires { index < length self.now }
        ensures place { result ≡ slice_index self.now index }
        ensures low { result < 2 ^ 33 }
    {
        place_in(&self.runs, self.last, index)
    }
}
