//! The segments of a part where a pair of lines is open.

ghost use Rattle.std.specs.Prelude.{◌≡◌, ◌<◌, ◌≤◌, ◌+◌, ◌++◌, ◌∷◌, [], length, filter, All};
ghost use Rattle.std.specs.Vec.{vec_len, vec_capacity};
ghost use Rattle.map_base.specs.declared.ids.SegId.{SegId};
ghost use Rattle.order_model.specs.Prefixes.{IsPrefixOf};
ghost use Rattle.order_bound.specs.Pairs.{is_open_on, open_segments};
ghost use Rattle.pair_bounds.specs.Slots.{slots_of};

use crate::slots::Slot;
use map_base::SegId;
use order_bound::Pair;
use order_model::{Prefix, Problem};

/// Whether both lines of a pair stand on a segment, and neither is placed there.
#[tactic(auto, using(crate::proofs::Opened::left_both))]
fn is_open_on(problem: &Problem, prefix: &Prefix, pair: Pair, seg: SegId) -> bool
    requires fits { IsPrefixOf problem.now.segs prefix.now }
    requires known { seg.0 < length problem.now.segs }
    ensures { result ≡ is_open_on problem.now.segs prefix.now.placed pair seg }
{
    if !prefix.is_left(problem, seg, pair.lesser) {
        return false;
    }
    prefix.is_left(problem, seg, pair.greater)
}

/// The slots of a pair, at no cost yet, each segment a class of its own.
pub(crate) fn open_slots(
    problem: &Problem,
    prefix: &Prefix,
    part: &[SegId],
    pair: Pair,
    slots: &mut Vec<Slot>,
)
    requires fits { IsPrefixOf problem.now.segs prefix.now }
    requires part { All (λ (s : SegId). s.0 < length problem.now.segs) part.now }
    requires room { length part.now ≤ vec_capacity slots.old }
    ensures slots { slots.new.items ≡ slots_of (λ s. s) (λ s x. 0) (open_segments problem.now.segs prefix.now.placed part.now pair) }
    ensures room { vec_capacity slots.old ≤ vec_capacity slots.new }
{
    slots.clear();
    for seg in part {
        open_slot(problem, prefix, *seg, pair, slots);
    }
}

/// The slot of a segment, if the pair is open there.
fn open_slot(problem: &Problem, prefix: &Prefix, seg: SegId, pair: Pair, slots: &mut Vec<Slot>)
    requires fits { IsPrefixOf problem.now.segs prefix.now }
    requires known { seg.0 < length problem.now.segs }
    requires room { vec_len slots.old < vec_capacity slots.old }
    ensures slots { slots.new.items ≡ slots.old.items ++ slots_of (λ s. s) (λ s x. 0) (filter (is_open_on problem.now.segs prefix.now.placed pair) (seg ∷ [])) }
    ensures room { vec_capacity slots.old ≤ vec_capacity slots.new }
    ensures few { vec_len slots.new ≤ vec_len slots.old + 1 }
{
    if is_open_on(problem, prefix, pair, seg) {
        let _ = slots.push(Slot {
            seg,
            label: seg.0,
            lesser_first: 0,
            greater_first: 0,
        });
    }
}
