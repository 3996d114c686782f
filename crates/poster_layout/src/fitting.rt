//! The pitch, and the names at it.

ghost use Rattle.std.specs.Prelude.{◌≡◌, ◌<◌, ◌≤◌, ◌*◌, ◌==◌, ◌&&◌, ◌||◌, nat_le, nat_lt, IfOk, MatchOption, IsTrue, ◌⊎◌, true, false, length};
ghost use Rattle.poster_plan.specs.declared.plan.Plan.{Plan};
ghost use Rattle.poster_plan.specs.Placing.{named, printed_names};
ghost use Rattle.poster_plan.specs.Pitches.{better_of, first_pitch, fits, is_better, pitch_of, suits};
ghost use Rattle.poster_layout.specs.Fits.{best_of, IsLaid, IsPitch};

use crate::extent::{frame_with, is_small};
use crate::laying::{Laid, lay_out, named};
use crate::roomy::is_roomy;
use map_base::{NoMemory, Sequence};
use poster_plan::{Plan, Printed};
use std::alloc::Global;

/// The pitch of a poster, and the names that are printed at it, in the order in which they were placed.
#[derive(Debug, Drop)]
pub struct Layout {
    pub pitch: u32,
    pub printed: Sequence<Printed>,
}

/// The pitch of a plan, and the names at it.
pub fn layout_of(alloc: Global, plan: &Plan) -> Result<Layout, NoMemory>
    ensures pitch { IfOk result (λ layout. layout.pitch ≡ pitch_of plan.now) }
    ensures small { IfOk result (λ layout. layout.pitch ≤ 200) }
    ensures printed { IfOk result (λ layout. layout.printed ≡ printed_names (pitch_of plan.now) plan.now) }
{
    let first = first_suiting(alloc, plan)?;
    let best = best_or_first(alloc, plan, first)?;
    Ok(Layout {
        pitch: best.pitch,
        printed: Sequence::of(best.printed),
    })
}

/// The names at the first pitch that suits, where the whole is large there, else at the best from it on.
fn best_or_first(alloc: Global, plan: &Plan, first: Laid) -> Result<Laid, NoMemory>
    requires laid { IsLaid plan.now first }
    requires first { first.pitch ≡ first_pitch plan.now }
    ensures laid { IfOk result (IsLaid plan.now) }
    ensures pitch { IfOk result (λ laid. laid.pitch ≡ pitch_of plan.now) }
{
    if !fits(plan, &first) {
        return Ok(first);
    }
    let best = best_from(alloc, plan, first)?;
    Ok(best)
}

/// The names at the first pitch that suits, or at the greatest.
fn first_suiting(alloc: Global, plan: &Plan) -> Result<Laid, NoMemory>
    ensures laid { IfOk result (IsLaid plan.now) }
    ensures pitch { IfOk result (λ laid. laid.pitch ≡ first_pitch plan.now) }
{
    let numbers = named(alloc, plan.marks.as_slice())?;
    let names = numbers.len();
    for i in 0..45 {
        let found = suiting_at(alloc, 20 + 4 * i, plan, names)?;
        match found {
            Some(laid) => return Ok(laid),
            None => {}
        }
    }
    let laid = lay_out(alloc, 200, plan)?;
    Ok(laid)
}

/// The names at a pitch, where it suits so many names.
fn suiting_at(
    alloc: Global,
    pitch: u32,
    plan: &Plan,
    names: usize,
) -> Result<Option<Laid>, NoMemory>
    requires pitch { pitch ≤ 200 }
    requires names { names ≡ length (named plan.now.marks) }
    ensures { IfOk result (λ found. MatchOption found (suits plan.now pitch ≡ false) (λ laid. IsLaid plan.now laid × (laid.pitch ≡ pitch) × IsTrue (suits plan.now pitch))) }
{
    let roomy = is_roomy(alloc, pitch, plan)?;
    if !roomy {
        return Ok(None);
    }
    let laid = lay_out(alloc, pitch, plan)?;
    if !suits(&laid, names) {
        return Ok(None);
    }
    Ok(Some(laid))
}

/// Whether of so many names at most a tenth is not in full size, and at most a thirtieth not beside lines.
fn suits(laid: &Laid, names: usize) -> bool
    ensures { result ≡ (nat_le (10 * laid.now.full_left) names && nat_le (30 * laid.now.small_left) names) }
{
    if !is_share(laid.full_left, names, 10) {
        return false;
    }
    is_share(laid.small_left, names, 30)
}

/// Whether so many are at most one of so many equal parts of all.
fn is_share(few: usize, all: usize, parts: usize) -> bool
    requires { 0 < parts }
    ensures { result ≡ nat_le (parts * few) all }
{
    few <= all / parts
}

/// Whether the names at a pitch and all grid points of walks fit into 4200 units.
fn fits(plan: &Plan, laid: &Laid) -> bool
    requires { IsLaid plan.now laid.now }
    ensures { result ≡ fits plan.now laid.now.pitch }
{
    is_small(frame_with(laid.pitch, plan, laid.printed.as_slice()))
}

/// Whether fewer names are over lines or left out than at another pitch, or as many, and fewer are not in full size.
fn is_better(laid: &Laid, best: &Laid) -> bool
    ensures { (plan : Plan) → IsLaid plan laid.now → IsLaid plan best.now → result ≡ is_better plan laid.now.pitch best.now.pitch }
{
    is_before(
        (laid.small_left, laid.full_left),
        (best.small_left, best.full_left),
    )
}

/// Whether the first number of a pair is less, or as great and the second one is less.
fn is_before(a: (usize, usize), b: (usize, usize)) -> bool
    ensures { result ≡ (nat_lt a.0 b.0 || (a.0 == b.0) && nat_lt a.1 b.1) }
{
    if a.0 == b.0 {
        return a.1 < b.1;
    }
    a.0 < b.0
}

/// The best of the pitches from one that fits on, as long as all fits, and no further than the first at which each name is
/// in full size.
fn best_from(alloc: Global, plan: &Plan, first: Laid) -> Result<Laid, NoMemory>
    requires laid { IsLaid plan.now first }
    requires pitch { IsPitch first.pitch }
    ensures laid { IfOk result (IsLaid plan.now) }
    ensures pitch { IfOk result (λ laid. laid.pitch ≡ best_of plan.now first.pitch first.full_left first.pitch) }
{
    let mut best = first;
    let mut left = best.full_left;
    let mut pitch = best.pitch;
    while goes_on(left, pitch) {
        pitch += 4;
        let laid = lay_out(alloc, pitch, plan)?;
        if !fits(plan, &laid) {
            return Ok(best);
        }
        left = laid.full_left;
        best = better_of(plan, best, laid);
    }
    Ok(best)
}

/// Whether a greater pitch is tried: some names are not in full size, and there is one.
fn goes_on(left: usize, pitch: u32) -> bool
    ensures on { result ≡ true → (0 < left) × (pitch < 200) }
    ensures off { result ≡ false → (left ≡ 0) ⊎ (200 ≤ pitch) }
{
    if left == 0 {
        return false;
    }
    pitch < 200
}

/// The better of two, the first where neither is.
fn better_of(plan: &Plan, best: Laid, laid: Laid) -> Laid
    requires best { IsLaid plan.now best }
    requires laid { IsLaid plan.now laid }
    ensures laid { IsLaid plan.now result }
    ensures pitch { result.pitch ≡ better_of plan.now best.pitch laid.pitch }
{
    if is_better(&laid, &best) {
        return laid;
    }
    best
}
