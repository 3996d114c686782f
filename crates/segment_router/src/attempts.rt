//! The attempts at a drawing: grids, finer and finer, and on each of them how far nodes are spread.

ghost use Rattle.std.specs.Prelude.{◌≡◌, ◌++◌, ◌∷◌, [], filter, IfOk, OnOk, if◌then◌else◌};
ghost use Rattle.std.specs.List.{flat_map};
ghost use Rattle.segment_router.specs.Routing.{attempts_of, attempts_on, grids_between, is_between, percents_of};

use map_base::NoMemory;
use map_method::{DrawingPlan, Spread};
use std::alloc::Global;

/// An attempt at a drawing: how fine the grid is, from 1 to 16, and how many percent of the way to their even places
/// nodes are put.
#[derive(Clone, Copy, Debug, PartialEq, Eq)]
pub(crate) struct Attempt {
    pub(crate) fineness: u32,
    pub(crate) percent: u32,
}

/// All attempts from the coarsest grid to the finest, each spread on a grid before the next grid.
pub(crate) fn attempts_of(alloc: Global, plan: DrawingPlan) -> Result<Vec<Attempt>, NoMemory>
    ensures { IfOk result (λ attempts. attempts.items ≡ attempts_of plan) }
{
    let percents = percents_of(alloc, plan.spread)?;
    let grids = grids_between(alloc, plan.coarsest, plan.finest)?;
    attempts_on_each(alloc, &percents, &grids)
}

/// The attempts on each of some grids.
fn attempts_on_each(
    alloc: Global,
    percents: &[u32],
    grids: &[u32],
) -> Result<Vec<Attempt>, NoMemory>
    ensures { IfOk result (λ attempts. attempts.items ≡ flat_map (attempts_on percents.now) grids.now) }
{
    let mut attempts = Vec::new(alloc);
    for fineness in grids {
        push_attempts(&mut attempts, percents, *fineness)?;
    }
    Ok(attempts)
}

/// Lists the attempts on a grid.
fn push_attempts(
    attempts: &mut Vec<Attempt>,
    percents: &[u32],
    fineness: u32,
) -> Result<(), NoMemory>
    ensures { OnOk result (attempts.new.items ≡ attempts.old.items ++ attempts_on percents.now fineness) }
{
    for percent in percents {
        attempts.push(Attempt {
            fineness,
            percent: *percent,
        })?;
    }
    Ok(())
}

/// How many percent of the way nodes are put, one after another on each grid.
fn percents_of(alloc: Global, spread: Spread) -> Result<Vec<u32>, NoMemory>
    ensures { IfOk result (λ percents. percents.items ≡ percents_of spread) }
{
    match spread {
        Spread::Percent(percent) => Ok(vec![in alloc; percent]?),
        Spread::Auto => Ok(vec![in alloc; 0, 10, 20, 30, 40, 50, 60, 70, 80, 90, 100]?),
    }
}

/// How fine the grids are, from the coarsest to the finest.
fn grids_between(alloc: Global, coarsest: u32, finest: u32) -> Result<Vec<u32>, NoMemory>
    ensures { IfOk result (λ grids. grids.items ≡ grids_between coarsest finest) }
{
    let mut grids = Vec::new(alloc);
    push_between(&mut grids, &[1, 2, 4, 8, 16], coarsest, finest)?;
    Ok(grids)
}

/// Lists those of grids that are between the coarsest and the finest.
fn push_between(
    grids: &mut Vec<u32>,
    all: &[u32],
    coarsest: u32,
    finest: u32,
) -> Result<(), NoMemory>
    ensures { OnOk result (grids.new.items ≡ grids.old.items ++ filter (is_between coarsest finest) all.now) }
{
    for fineness in all {
        push_if(grids, *fineness, is_between(coarsest, finest, *fineness))?;
    }
    Ok(())
}

/// Whether a grid is between the coarsest and the finest, or one of them.
fn is_between(coarsest: u32, finest: u32, fineness: u32) -> bool
    ensures { result ≡ is_between coarsest finest fineness }
{
    if coarsest <= fineness {
        return fineness <= finest;
    }
    false
}

/// Lists a grid, if it is one of them.
fn push_if(grids: &mut Vec<u32>, fineness: u32, is_one: bool) -> Result<(), NoMemory>
    ensures { OnOk result (grids.new.items ≡ grids.old.items ++ (if is_one then fineness ∷ [] else [])) }
{
    if is_one {
        grids.push(fineness)?;
    }
    Ok(())
}
