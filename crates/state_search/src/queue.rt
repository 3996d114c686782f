//! States that wait with an estimate, the least estimate first.

ghost use Rattle.std.specs.Prelude.{◌≡◌, ℕ, ◌+◌, ◌<◌, ◌≤◌, ◌^◌, ◌⊎◌, ◌↔◌, true, false, IsTrue, IfSome, IfNone, OnOk, IsPermutation, [], length, ◌∷◌};
ghost use Rattle.std.specs.BinaryHeap.{IsHeap, IsHeap-prop, heap_items};
ghost use Rattle.least_path.specs.Orders.{AtMost};
ghost use Rattle.state_search.specs.Searching.{HasBelow, IsBeyond, IsLowered, Waits, entry, queue_cmp};
ghost use Rattle.state_search.specs.Rows.{IsRowLowered};

use crate::known::Known;
use crate::row::{Place, Row};
use map_base::NoMemory;
use std::alloc::Global;
use std::cmp::Reverse;
use std::collections::BinaryHeap;
use std::marker::Model;

/// States that wait, each with an estimate of a whole walk on which it lies, seen as the list of them. Those of one
/// estimate, the level, are kept apart from the heap of the others: where a bound is tight most of what is met waits with
/// the estimate that was taken last.
#[derive(Drop)]
pub struct Queue {
    level: u64,
    here: Vec<u32>,
    apart: BinaryHeap<Reverse<(u64, u32)>>,
    ghost order: { IsHeap queue_cmp (heap_items apart) } by { IsHeap-prop queue_cmp (heap_items apart) },
}

impl Model for Queue {
    ghost use Rattle.std.specs.Prelude.{List, ℕ};
    ghost use Rattle.std.specs.declared.cmp.Reverse.{Reverse};
    ghost use Rattle.std.specs.BinaryHeap.{heap_items};
    ghost use Rattle.state_search.specs.Searching.{all_waiting};

    ghost Value = { List (Reverse (ℕ × ℕ)) };

    ghost view = { λ q. all_waiting q.level q.here.items (heap_items q.apart) };
}

impl Queue {
    /// Nothing waits.
    pub fn new(alloc: Global) -> Queue
        ensures { result ≡ [] }
    {
        Queue {
            level: 0,
            here: Vec::new(alloc),
            apart: BinaryHeap::new(alloc),
        }
    }

    /// Takes a least estimate that waits, with its state, where it is within a limit; none where nothing waits or all that
    /// waits is beyond the limit, and then all of it goes on waiting.
    pub fn next(&mut self, limit: Option<u64>) -> Option<(u64, u32)>
        ensures taken { IfSome result (λ w. IsPermutation self.old (entry w.0 w.1 ∷ self.new)) }
        ensures least { IfSome result (λ w. (s k : ℕ) → Waits self.old s k → w.0 ≤ k) }
        ensures within { IfSome result (λ w. IsBeyond limit w.0 → ⊥) }
        ensures none { IfNone result ((s k : ℕ) → Waits self.old s k → IsBeyond limit k) }
        ensures kept { IfNone result (self.new ≡ self.old) }
    {
        if is_least(self.level, &self.here, &self.apart) {
            if is_beyond(limit, self.level) {
                return None;
            }
            let Some(at) = self.here.pop() else {
                return None;
            };
            return Some((self.level, at));
        }
        let Some(least) = take_least(&mut self.apart, limit) else {
            return None;
        };
        if self.here.is_empty() {
            self.level = least.0;
        }
        Some(least)
    }

    /// Lets a state wait with an estimate.
    pub fn push(&mut self, estimate: u64, at: u32) -> Result<(), NoMemory>
        ensures { OnOk result (IsPermutation (entry estimate at ∷ self.old) self.new) }
    {
        if estimate == self.level {
            self.here.push(at)?;
        } else {
            self.apart.push(Reverse((estimate, at)))?;
        }
        Ok(())
    }
}

/// Whether some state waits at a level, and none apart from it with a lesser estimate.
fn is_least(level: u64, here: &[u32], apart: &BinaryHeap<Reverse<(u64, u32)>>) -> bool
    requires order { IsHeap queue_cmp (heap_items apart.now) }
    ensures yes { result ≡ true → (0 < length here.now) × ((s k : ℕ) → Waits (heap_items apart.now) s k → level ≤ k) }
    ensures no { result ≡ false → (here.now ≡ []) ⊎ HasBelow level (heap_items apart.now) }
{
    if here.is_empty() {
        return false;
    }
    match apart.peek() {
        None => true,
        Some(least) => level <= least.0.0,
    }
}

/// Takes the least entry of a heap, if it is within a limit; else the heap keeps what it has.
fn take_least(apart: &mut BinaryHeap<Reverse<(u64, u32)>>, limit: Option<u64>) -> Option<(u64, u32)>
    requires order { IsHeap queue_cmp (heap_items apart.old) }
    ensures order { IsHeap queue_cmp (heap_items apart.new) }
    ensures taken { IfSome result (λ w. IsPermutation (heap_items apart.old) (entry w.0 w.1 ∷ heap_items apart.new)) }
    ensures least { IfSome result (λ w. (s k : ℕ) → Waits (heap_items apart.old) s k → w.0 ≤ k) }
    ensures within { IfSome result (λ w. IsBeyond limit w.0 → ⊥) }
    ensures none { IfNone result ((s k : ℕ) → Waits (heap_items apart.old) s k → IsBeyond limit k) }
    ensures kept { IfNone result (heap_items apart.new ≡ heap_items apart.old) }
{
    if is_beyond(limit, apart.peek()?.0.0) {
        return None;
    }
    let Reverse(least) = apart.pop()?;
    Some(least)
}

/// Whether there is a limit, and an estimate is above it.
fn is_beyond(limit: Option<u64>, estimate: u64) -> bool
    ensures { IsTrue result ↔ IsBeyond limit estimate }
{
    match limit {
        None => false,
        Some(most) => most < estimate,
    }
}

/// Notes a cost of a state where none as low is known, and lets the state wait with what it costs at least to come to it
/// added.
pub fn lower(
    known: &mut Known,
    queue: &mut Queue,
    at: u32,
    cost: u64,
    ahead: u64,
) -> Result<(), NoMemory>
    requires in_range { at < length known.old }
    requires cost { cost < 2 ^ 40 }
    requires ahead { ahead < 2 ^ 40 }
    ensures lowered { OnOk result (IsLowered ahead known.old known.new queue.old queue.new at cost) }
{
    if is_as_low(known.of(at), cost) {
        return Ok(());
    }
    known.note(at, cost)?;
    queue.push(cost + ahead, at)
}

/// Notes a cost of a spot in the row of its place where none as low is known, and lets the spot wait with what it costs
/// at least to come to its place added.
pub fn lower_in(
    row: &mut Row,
    queue: &mut Queue,
    place: Place,
    arrival: u8,
    cost: u64,
) -> Result<(), NoMemory>
    requires whole { length row.old.costs ≡ 9 }
    requires place { place.number < 2 ^ 28 }
    requires arrival { arrival < 9 }
    requires cost { cost < 2 ^ 40 }
    requires ahead { place.ahead < 2 ^ 40 }
    ensures whole { OnOk result (length row.new.costs ≡ 9) }
    ensures lowered { OnOk result (IsRowLowered place.number place.ahead row.old.costs row.new.costs queue.old queue.new arrival cost) }
{
    if is_as_low(row.of(arrival), cost) {
        return Ok(());
    }
    row.note(arrival, cost);
    let number = place.number * 9 + u32::from(arrival);
    queue.push(cost + place.ahead, number)
}

/// Whether a known cost is at most another.
fn is_as_low(known: Option<u64>, cost: u64) -> bool
    ensures { IsTrue result ↔ AtMost known cost }
{
    match known {
        None => false,
        Some(least) => least <= cost,
    }
}
