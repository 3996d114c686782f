//! What is kept of each pair of a part: its share of the bound, and its canonical prices.

ghost use Rattle.std.specs.Prelude.{◌≡◌, ℕ, ◌<◌, ◌≤◌, ◌*◌, length, true, false, All, IfOk, sum_by, slice_index_or};
ghost use Rattle.map_base.specs.declared.ids.SegId.{SegId};
ghost use Rattle.order_model.specs.declared.term.Term.{Term};
ghost use Rattle.order_model.specs.Prefixes.{IsPrefixOf};
ghost use Rattle.order_bound.specs.Pairs.{AreApartSegments};
ghost use Rattle.order_bound.specs.CanonicalPrices.{pair_prices};
ghost use Rattle.pair_bounds.specs.PriceNotes.{price_noted, price_over};
ghost use Rattle.pair_bounds.specs.Slots.{HasRoom, KeepsRoom};
ghost use Rattle.part_bounds.specs.PairGroups.{KnowsOwn, no_group, group_in, groups_in, terms_in, share_of, IsGroup};
ghost use Rattle.part_bounds.specs.Kept.{cleared, is_changed_pair, AreMarked, AreLeft, HasRoomFor, ArePairsOf, AreKept};

use crate::changes::{Change, is_changed};
use crate::pair_terms::PairTerms;
use map_base::{NoMemory, SegId};
use order_model::{Prefix, Problem, Term};
use pair_bounds::{NotedPrices, Room, bound_of_pair};
use std::alloc::Global;

/// What is kept of the pairs of a part.
#[derive(Drop)]
pub struct KeptPairs {
    /// What each pair adds to the bound beside its Aparts.
    pub shares: Vec<u64>,
    /// The prices of the pairs' Links.
    pub noted: NotedPrices,
    /// For each pair whether it is stale: its share and its prices are not yet those of the placed lines.
    pub stale: Vec<bool>,
}

impl KeptPairs {
    /// So many pairs of a problem with so many terms, all of them stale.
    pub(crate) fn all_stale(
        alloc: Global,
        pairs: usize,
        terms: usize,
    ) -> Result<KeptPairs, NoMemory>
        ensures each { IfOk result (λ kept. length kept.stale.items ≡ pairs) }
        ensures shares { IfOk result (λ kept. length kept.shares.items ≡ pairs) }
        ensures enough { IfOk result (λ kept. length kept.noted.prices.items ≡ terms) }
        ensures stale { IfOk result (λ kept. (k : ℕ) → slice_index_or kept.stale.items k true ≡ true) }
    {
        Ok(KeptPairs {
            shares: vec![in alloc; 0_u64; pairs]?,
            noted: NotedPrices::none(alloc, terms)?,
            stale: vec![in alloc; true; pairs]?,
        })
    }
}

/// Marks a pair as stale at its place, if a placing changes it.
fn mark_at(change: &Change, entry: &PairTerms, stale: &mut Vec<bool>, place: usize)
    requires { place < length stale.old.items }
    ensures each { length stale.new.items ≡ length stale.old.items }
    ensures still { (k : ℕ) → slice_index_or stale.new.items k true ≡ false → slice_index_or stale.old.items k true ≡ false }
    ensures marked { slice_index_or stale.new.items place true ≡ false → is_changed_pair change.now entry.now ≡ false }
{
    if is_changed(change, entry) {
        stale[place] = true;
    }
}

/// Marks those pairs as stale that a placing changes, once it is done or taken back.
pub(crate) fn mark_changed(change: &Change, pairs: &[PairTerms], stale: &mut Vec<bool>)
    requires { length stale.old.items ≡ length pairs.now }
    ensures { AreMarked change.now pairs.now (length pairs.now) stale.old.items stale.new.items }
{
    for place in 0..pairs.len() {
        mark_at(change, &pairs[place], stale, place);
    }
}

/// Takes away the prices of these terms.
fn clear_prices(terms: &[(u32, Term)], noted: &mut NotedPrices)
    ensures each { length noted.new.prices.items ≡ length noted.old.prices.items }
    ensures cleared { (k : ℕ) → k < length noted.old.prices.items → price_noted noted.new.prices.items k ≡ cleared terms.now (price_noted noted.old.prices.items) k }
{
    for (number, _) in terms {
        noted.note(*number, 0);
    }
}

/// What a pair adds to the bound: its decided terms, and the least that it costs where it is open. Its canonical prices
/// are noted over others.
fn price_entry(
    problem: &Problem,
    prefix: &Prefix,
    part: &[SegId],
    entry: &PairTerms,
    room: &mut Room,
    noted: &mut NotedPrices,
) -> u64
    requires fits { IsPrefixOf problem.now.segs prefix.now }
    requires part { All (λ (s : SegId). s.0 < length problem.now.segs) part.now }
    requires apart { AreApartSegments part.now }
    requires group { IsGroup problem.now.segs part.now (group_in entry.now) }
    requires own { KnowsOwn part.now entry.now }
    requires room { HasRoom (length part.now) (terms_in (group_in entry.now)) room.old }
    ensures share { result ≡ share_of problem.now.segs part.now prefix.now.placed (group_in entry.now) }
    ensures each { length noted.new.prices.items ≡ length noted.old.prices.items }
    ensures noted { (k : ℕ) → k < length noted.old.prices.items → price_noted noted.new.prices.items k
        ≡ price_over (pair_prices problem.now.segs prefix.now.placed part.now entry.now.terms.items entry.now.pair) (price_noted noted.old.prices.items k) k }
    ensures room { KeepsRoom room.old room.new }
{
    bound_of_pair(
        problem,
        prefix,
        entry.segs.as_slice(),
        entry.pair,
        entry.terms.as_slice(),
        room,
        noted,
    )
}

/// What a pair adds to the bound. Its canonical prices are noted in place of those that it had.
fn price_anew(
    problem: &Problem,
    prefix: &Prefix,
    part: &[SegId],
    entry: &PairTerms,
    room: &mut Room,
    noted: &mut NotedPrices,
) -> u64
    requires fits { IsPrefixOf problem.now.segs prefix.now }
    requires part { All (λ (s : SegId). s.0 < length problem.now.segs) part.now }
    requires apart { AreApartSegments part.now }
    requires group { IsGroup problem.now.segs part.now (group_in entry.now) }
    requires own { KnowsOwn part.now entry.now }
    requires room { HasRoom (length part.now) (terms_in (group_in entry.now)) room.old }
    ensures share { result ≡ share_of problem.now.segs part.now prefix.now.placed (group_in entry.now) }
    ensures each { length noted.new.prices.items ≡ length noted.old.prices.items }
    ensures noted { (k : ℕ) → k < length noted.old.prices.items → price_noted noted.new.prices.items k
        ≡ price_over (pair_prices problem.now.segs prefix.now.placed part.now entry.now.terms.items entry.now.pair)
        (cleared entry.now.terms.items (price_noted noted.old.prices.items) k) k }
    ensures room { KeepsRoom room.old room.new }
{
    clear_prices(entry.terms.as_slice(), noted);
    price_entry(problem, prefix, part, entry, room, noted)
}

/// Works out the pair at a place anew, if it is stale. Answers what it adds to the bound.
fn renew_at(
    problem: &Problem,
    prefix: &Prefix,
    part: &[SegId],
    pairs: &[PairTerms],
    place: usize,
    kept: &mut KeptPairs,
    room: &mut Room,
) -> u64
    requires fits { IsPrefixOf problem.now.segs prefix.now }
    requires table { ArePairsOf problem.now part.now pairs.now }
    requires room { HasRoomFor part.now (groups_in pairs.now) room.old }
    requires kept { AreKept problem.now part.now prefix.now.placed pairs.now kept.old }
    requires within { place < length pairs.now }
    ensures share { result ≡ share_of problem.now.segs part.now prefix.now.placed (slice_index_or (groups_in pairs.now) place no_group) }
    ensures kept { AreKept problem.now part.now prefix.now.placed pairs.now kept.new }
    ensures here { slice_index_or kept.new.stale.items place true ≡ false }
    ensures still { (k : ℕ) → slice_index_or kept.old.stale.items k true ≡ false → slice_index_or kept.new.stale.items k true ≡ false }
    ensures room { KeepsRoom room.old room.new }
{
    if !kept.stale[place] {
        return kept.shares[place];
    }
    let entry = &pairs[place];
    let share = price_anew(problem, prefix, part, entry, room, &mut kept.noted);
    kept.shares[place] = share;
    kept.stale[place] = false;
    share
}

/// Works out all stale pairs anew. Answers what the pairs add to the bound.
pub(crate) fn renew_pairs(
    problem: &Problem,
    prefix: &Prefix,
    part: &[SegId],
    pairs: &[PairTerms],
    kept: &mut KeptPairs,
    room: &mut Room,
) -> u64
    requires fits { IsPrefixOf problem.now.segs prefix.now }
    requires table { ArePairsOf problem.now part.now pairs.now }
    requires room { HasRoomFor part.now (groups_in pairs.now) room.old }
    requires kept { AreKept problem.now part.now prefix.now.placed pairs.now kept.old }
    ensures total { result ≡ sum_by (share_of problem.now.segs part.now prefix.now.placed) (groups_in pairs.now) }
    ensures kept { AreKept problem.now part.now prefix.now.placed pairs.now kept.new }
    ensures all { (k : ℕ) → k < length pairs.now → slice_index_or kept.new.stale.items k true ≡ false }
    ensures room { KeepsRoom room.old room.new }
{
    let mut total: u64 = 0;
    for place in 0..pairs.len() {
        total += renew_at(problem, prefix, part, pairs, place, kept, room);
    }
    total
}

/// What the pair at a place adds to the bound once a placing is done: its share from before, unless the placing changes it.
fn share_with(
    problem: &Problem,
    prefix: &Prefix,
    part: &[SegId],
    change: &Change,
    pairs: &[PairTerms],
    place: usize,
    shares: &[u64],
    room: &mut Room,
    spare: &mut NotedPrices,
) -> u64
    requires fits { IsPrefixOf problem.now.segs prefix.now }
    requires table { ArePairsOf problem.now part.now pairs.now }
    requires room { HasRoomFor part.now (groups_in pairs.now) room.old }
    requires each { length shares.now ≡ length pairs.now }
    requires left { AreLeft change.now problem.now.segs prefix.now.placed part.now shares.now (groups_in pairs.now) }
    requires within { place < length pairs.now }
    ensures share { result ≡ share_of problem.now.segs part.now prefix.now.placed (slice_index_or (groups_in pairs.now) place no_group) }
    ensures room { KeepsRoom room.old room.new }
{
    let entry = &pairs[place];
    if !is_changed(change, entry) {
        return shares[place];
    }
    price_entry(problem, prefix, part, entry, room, spare)
}

/// What the pairs add to the bound once a placing is done, by their shares from before. Prices are noted in `spare`.
pub(crate) fn sum_with(
    problem: &Problem,
    prefix: &Prefix,
    part: &[SegId],
    change: &Change,
    pairs: &[PairTerms],
    shares: &[u64],
    room: &mut Room,
    spare: &mut NotedPrices,
) -> u64
    requires fits { IsPrefixOf problem.now.segs prefix.now }
    requires table { ArePairsOf problem.now part.now pairs.now }
    requires room { HasRoomFor part.now (groups_in pairs.now) room.old }
    requires each { length shares.now ≡ length pairs.now }
    requires left { AreLeft change.now problem.now.segs prefix.now.placed part.now shares.now (groups_in pairs.now) }
    ensures total { result ≡ sum_by (share_of problem.now.segs part.now prefix.now.placed) (groups_in pairs.now) }
    ensures room { KeepsRoom room.old room.new }
{
    let mut total: u64 = 0;
    for place in 0..pairs.len() {
        total += share_with(
            problem, prefix, part, change, pairs, place, shares, room, spare,
        );
    }
    total
}
