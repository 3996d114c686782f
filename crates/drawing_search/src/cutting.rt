//! Walks that are cut at even points of their own.

ghost use Rattle.std.specs.Prelude.{◌≡◌, ◌<◌, ◌≤◌, ◌+◌, ◌-◌, ◌*◌, ◌/◌, ◌^◌, ◌++◌, ◌∷◌, [], if◌then◌else◌, length, map, option_map, replicate, slice_index, true, vec_items, IfOk, OnOk};
ghost use Rattle.std.specs.List.{range_with_len};
ghost use Rattle.octi_grid.specs.Walks.{points_of};
ghost use Rattle.octi_grid.specs.Legal.{is_even};
ghost use Rattle.run_laying.specs.Pieces.{cuts_at, even_places, point_at, reversed_walk};
ghost use Rattle.drawing_search.specs.Tracks.{piece_along, IsTrack};

use drawing_weights::push_points;
use map_base::NoMemory;
use octi_grid::{Dir, GridPoint, Run, Walk};
use std::alloc::Global;

/// A walk step by step: its points, one more than its steps.
#[derive(Drop)]
pub(crate) struct Track {
    pub(crate) points: Vec<GridPoint>,
    pub(crate) steps: Vec<Dir>,
}

impl Track {
    /// The steps of a walk.
    pub(crate) fn of(alloc: Global, walk: &Walk) -> Result<Track, NoMemory>
        ensures points { IfOk result (λ t. t.points.items ≡ points_of walk.now) }
        ensures steps { IfOk result (λ t. t.steps.items ≡ walk.now.steps) }
        ensures track { IfOk result (λ t. IsTrack t.points.items t.steps.items) }
    {
        let _runs = walk.runs();
        let mut points = Vec::new(alloc);
        push_points(&mut points, walk)?;
        let steps = steps_of(alloc, walk)?;
        Ok(Track { points, steps })
    }

    /// The places at which the walk is cut into so many pieces, from its start to its end: among its points with both
    /// coordinates even, as evenly as whole numbers allow. None where there are too few of them.
    pub(crate) fn cuts(&self, alloc: Global, pieces: usize) -> Result<Option<Vec<usize>>, NoMemory>
        requires pieces { 0 < pieces }
        requires some { 0 < length self.now.points.items }
        requires few { length self.now.points.items < 2 ^ 31 }
        requires few_pieces { pieces < 2 ^ 31 }
        requires even { is_even (point_at self.now.points.items 0) ≡ true }
        ensures { IfOk result (λ cuts. option_map vec_items cuts ≡ cuts_at self.now.points.items pieces) }
    {
        let places = self.even_places(alloc)?;
        let steps = places.len() - 1;
        if steps < pieces {
            return Ok(None);
        }
        Ok(Some(cuts_among(alloc, &places, pieces)?))
    }

    /// The places of points with both coordinates even.
    fn even_places(&self, alloc: Global) -> Result<Vec<usize>, NoMemory>
        ensures { IfOk result (λ places. places.items ≡ even_places self.now.points.items) }
    {
        let mut places = Vec::new(alloc);
        for i in 0..self.points.len() {
            push_if_even(&mut places, i, self.points[i])?;
        }
        Ok(places)
    }

    /// The walk between two places, from the earlier one to the later one, or back.
    pub(crate) fn piece_by(
        &self,
        alloc: Global,
        from: usize,
        to: usize,
        is_forward: bool,
    ) -> Result<Walk, NoMemory>
        requires track { IsTrack self.now.points.items self.now.steps.items }
        requires order { from < to }
        requires within { to ≤ length self.now.steps.items }
        ensures { IfOk result (λ walk. walk ≡ (if is_forward then piece_along self.now.points.items self.now.steps.items from to else reversed_walk (piece_along self.now.points.items self.now.steps.items from to))) }
    {
        if is_forward {
            self.piece(alloc, from, to)
        } else {
            self.piece_back(alloc, from, to)
        }
    }

    /// The walk from one place to a later one.
    fn piece(&self, alloc: Global, from: usize, to: usize) -> Result<Walk, NoMemory>
        requires track { IsTrack self.now.points.items self.now.steps.items }
        requires order { from < to }
        requires within { to ≤ length self.now.steps.items }
        ensures { IfOk result (λ walk. walk ≡ piece_along self.now.points.items self.now.steps.items from to) }
    {
        let mut walk = Walk::of_step(alloc, self.points[from], self.steps[from])?;
        for i in from + 1..to {
            walk.push(self.steps[i])?;
        }
        Ok(walk)
    }

    /// The same from the later place to the earlier one.
    fn piece_back(&self, alloc: Global, from: usize, to: usize) -> Result<Walk, NoMemory>
        requires track { IsTrack self.now.points.items self.now.steps.items }
        requires order { from < to }
        requires within { to ≤ length self.now.steps.items }
        ensures { IfOk result (λ walk. walk ≡ reversed_walk (piece_along self.now.points.items self.now.steps.items from to)) }
    {
        let mut walk = Walk::of_step(alloc, self.points[to], self.steps[to - 1].reverse())?;
        for i in 1..to - from {
            walk.push(self.steps[to - 1 - i].reverse())?;
        }
        Ok(walk)
    }
}

/// The steps of a walk.
fn steps_of(alloc: Global, walk: &Walk) -> Result<Vec<Dir>, NoMemory>
    ensures { IfOk result (λ steps. steps.items ≡ walk.now.steps) }
{
    let runs = walk.runs();
    let mut steps = Vec::new(alloc);
    for run in runs {
        push_steps(&mut steps, *run)?;
    }
    Ok(steps)
}

/// Lists the steps of a run.
fn push_steps(steps: &mut Vec<Dir>, run: Run) -> Result<(), NoMemory>
    ensures { OnOk result (steps.new.items ≡ steps.old.items ++ replicate run.count run.dir) }
{
    for _ in 0..run.count {
        steps.push(run.dir)?;
    }
    Ok(())
}

/// Cuts into so many pieces among places: every so many of them, as evenly as whole numbers allow.
fn cuts_among(alloc: Global, places: &[usize], pieces: usize) -> Result<Vec<usize>, NoMemory>
    requires pieces { 0 < pieces }
    requires enough { pieces < length places.now }
    requires few { length places.now < 2 ^ 31 }
    ensures { IfOk result (λ cuts. cuts.items ≡ map (λ i. slice_index places.now (i * (length places.now - 1) / pieces)) (range_with_len 0 (pieces + 1))) }
{
    let steps = places.len() - 1;
    let mut cuts = Vec::with_capacity(alloc, pieces + 1)?;
    for i in 0..pieces + 1 {
        cuts.push(places[i * steps / pieces])?;
    }
    Ok(cuts)
}

/// Lists a place, if the point there has both coordinates even.
fn push_if_even(places: &mut Vec<usize>, place: usize, p: GridPoint) -> Result<(), NoMemory>
    ensures { OnOk result (places.new.items ≡ (if is_even p then places.old.items ++ place ∷ [] else places.old.items)) }
{
    if is_even(p) {
        places.push(place)?;
    }
    Ok(())
}

/// Whether both coordinates are even.
fn is_even(p: GridPoint) -> bool
    ensures { result ≡ is_even p }
{
    if p.x % 2 != 0 {
        return false;
    }
    p.y % 2 == 0
}
