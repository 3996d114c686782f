//! The bound of one pair of lines.

ghost use Rattle.std.specs.Prelude.{◌≡◌, true, ◌<◌, ◌≤◌, ◌+◌, ◌*◌, ◌^◌, ℕ, length, map, reverse, All, IfOk, pos};
ghost use Rattle.std.specs.Vec.{vec_len, vec_capacity};
ghost use Rattle.map_base.specs.declared.ids.SegId.{SegId};
ghost use Rattle.order_model.specs.declared.term.Term.{Term};
ghost use Rattle.order_model.specs.Problems.{IsTerm};
ghost use Rattle.order_model.specs.PartTerms.{is_of};
ghost use Rattle.order_model.specs.Prefixes.{IsPrefixOf};
ghost use Rattle.pair_bounds.specs.declared.slots.Slot.{Slot};
ghost use Rattle.order_bound.specs.Pairs.{pair_in, open_segments, kept_links};
ghost use Rattle.order_bound.specs.Bounds.{pair_bound};
ghost use Rattle.order_bound.specs.Pairs.{AreApartSegments};
ghost use Rattle.whole_sums.specs.Sums.{int_sum};
ghost use Rattle.order_bound.specs.CanonicalPrices.{children_of, pair_prices};
ghost use Rattle.order_bound.specs.declared.pairs.ChildLink.{ChildLink};
ghost use Rattle.pair_bounds.specs.Slots.{slot_least, IsSmall, IsCollected, HasRoom, KeepsRoom};
ghost use Rattle.pair_bounds.specs.PriceNotes.{price_noted, price_over};
ghost use Rattle.pair_bounds.specs.Counted.{counted_sum};

use crate::child_prices::{least_sum, price_children};
use crate::collecting::collect;
use crate::noted_prices::NotedPrices;
use crate::slots::Slot;
use crate::walking::walk;
use map_base::{NoMemory, SegId};
use order_bound::{ChildLink, OpenLink, Pair};
use order_model::{Prefix, Problem, Term};
use std::alloc::Global;

/// Room to work out the bounds of pairs.
#[derive(Drop)]
pub struct Room {
    pub slots: Vec<Slot>,
    pub links: Vec<OpenLink>,
    pub waiting: Vec<SegId>,
    pub children: Vec<ChildLink>,
}

impl Room {
    /// Room for pairs that are open on at most so many segments and have at most so many terms.
    pub fn with_capacity(alloc: Global, segments: usize, terms: usize) -> Result<Room, NoMemory>
        requires { segments + terms < 2 ^ 64 }
        ensures { IfOk result (HasRoom segments terms) }
    {
        Ok(Room {
            slots: Vec::with_capacity(alloc, segments)?,
            links: Vec::with_capacity(alloc, terms)?,
            waiting: Vec::with_capacity(alloc, segments + terms)?,
            children: Vec::with_capacity(alloc, terms)?,
        })
    }
}

/// Lets all slots' segments wait, the first of them last.
fn push_slots(slots: &[Slot], waiting: &mut Vec<SegId>)
    requires room { length slots.now ≤ vec_capacity waiting.old }
    ensures items { waiting.new.items ≡ reverse (map (λ (s : Slot). s.seg) slots.now) }
    ensures room { vec_capacity waiting.old ≤ vec_capacity waiting.new }
{
    waiting.clear();
    let mut left = slots.len();
    while left > 0 {
        left -= 1;
        let _ = waiting.push(slots[left].seg);
    }
}

/// Gathers a pair of lines on a part: its slots, and the trees of its kept Links, each child after its parent. Answers
/// what its decided terms cost.
fn plan_pair(
    problem: &Problem,
    prefix: &Prefix,
    part: &[SegId],
    pair: Pair,
    terms: &[(u32, Term)],
    room: &mut Room,
) -> u64
    requires fits { IsPrefixOf problem.now.segs prefix.now }
    requires part { All (λ (s : SegId). s.0 < length problem.now.segs) part.now }
    requires known { All (λ (t : ℕ × Term). IsTerm problem.now.segs t.1) terms.now }
    requires inside { All (λ (t : ℕ × Term). is_of part.now t.1 ≡ true) terms.now }
    requires mine { All (λ (t : ℕ × Term). pair ≡ pair_in t.1) terms.now }
    requires few { length terms.now ≤ 4000000 }
    requires room { HasRoom (length part.now) (length terms.now) room.old }
    ensures collected { IsCollected problem.now.segs prefix.now.placed pair (open_segments problem.now.segs prefix.now.placed part.now pair) terms.now result room.new.slots.items (kept_links prefix.now.placed pair terms.now) }
    ensures children { room.new.children.items ≡ children_of (open_segments problem.now.segs prefix.now.placed part.now pair) (kept_links prefix.now.placed pair terms.now) }
    ensures small { All (IsSmall (2 ^ 41)) room.new.slots.items }
    ensures light { All (λ (c : ChildLink). c.link.weight ≤ 256000) room.new.children.items }
    ensures few { vec_len room.new.children ≤ 4000000 }
    ensures room { KeepsRoom room.old room.new }
{
    let decided = collect(
        problem,
        prefix,
        part,
        pair,
        terms,
        &mut room.slots,
        &mut room.links,
    );
    push_slots(room.slots.as_slice(), &mut room.waiting);
    room.children.clear();
    walk(&mut room.waiting, &mut room.links, &mut room.children);
    decided
}

/// Works out a pair of lines on a part: its slots with the shares of the canonical prices of its kept Links, which are
/// noted. Answers what its decided terms cost.
fn price_pair(
    problem: &Problem,
    prefix: &Prefix,
    part: &[SegId],
    pair: Pair,
    terms: &[(u32, Term)],
    room: &mut Room,
    noted: &mut NotedPrices,
) -> u64
    requires fits { IsPrefixOf problem.now.segs prefix.now }
    requires part { All (λ (s : SegId). s.0 < length problem.now.segs) part.now }
    requires apart { AreApartSegments part.now }
    requires known { All (λ (t : ℕ × Term). IsTerm problem.now.segs t.1) terms.now }
    requires inside { All (λ (t : ℕ × Term). is_of part.now t.1 ≡ true) terms.now }
    requires mine { All (λ (t : ℕ × Term). pair ≡ pair_in t.1) terms.now }
    requires few { length terms.now ≤ 4000000 }
    requires room { HasRoom (length part.now) (length terms.now) room.old }
    ensures decided { result ≡ counted_sum problem.now.segs prefix.now.placed terms.now }
    ensures least { int_sum slot_least room.new.slots.items ≡ pos (pair_bound problem.now.segs prefix.now.placed part.now terms.now pair) }
    ensures small { All (IsSmall (2 ^ 43)) room.new.slots.items }
    ensures each { length noted.new.prices.items ≡ length noted.old.prices.items }
    ensures noted { (k : ℕ) → k < length noted.old.prices.items → price_noted noted.new.prices.items k
        ≡ price_over (pair_prices problem.now.segs prefix.now.placed part.now terms.now pair) (price_noted noted.old.prices.items k) k }
    ensures room { KeepsRoom room.old room.new }
{
    let decided = plan_pair(problem, prefix, part, pair, terms, room);
    price_children(room.slots.as_mut_slice(), &mut room.children, noted);
    decided
}

/// The bound of a pair of lines on a part, and what its decided terms cost, together. Its canonical prices are noted.
#[tactic(auto, using(crate::proofs::PairCosts::share_small))]
pub fn bound_of_pair(
    problem: &Problem,
    prefix: &Prefix,
    part: &[SegId],
    pair: Pair,
    terms: &[(u32, Term)],
    room: &mut Room,
    noted: &mut NotedPrices,
) -> u64
    requires fits { IsPrefixOf problem.now.segs prefix.now }
    requires part { All (λ (s : SegId). s.0 < length problem.now.segs) part.now }
    requires apart { AreApartSegments part.now }
    requires known { All (λ (t : ℕ × Term). IsTerm problem.now.segs t.1) terms.now }
    requires inside { All (λ (t : ℕ × Term). is_of part.now t.1 ≡ true) terms.now }
    requires mine { All (λ (t : ℕ × Term). pair ≡ pair_in t.1) terms.now }
    requires few { length terms.now ≤ 4000000 }
    requires room { HasRoom (length part.now) (length terms.now) room.old }
    ensures bound { result ≡ counted_sum problem.now.segs prefix.now.placed terms.now + pair_bound problem.now.segs prefix.now.placed part.now terms.now pair }
    ensures small { result ≤ 1024000 * length terms.now }
    ensures each { length noted.new.prices.items ≡ length noted.old.prices.items }
    ensures noted { (k : ℕ) → k < length noted.old.prices.items → price_noted noted.new.prices.items k
        ≡ price_over (pair_prices problem.now.segs prefix.now.placed part.now terms.now pair) (price_noted noted.old.prices.items k) k }
    ensures room { KeepsRoom room.old room.new }
{
    let decided = price_pair(problem, prefix, part, pair, terms, room, noted);
    let least = least_sum(room.slots.as_slice());
    decided + least as u64
}
