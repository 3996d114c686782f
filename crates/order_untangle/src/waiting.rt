//! The rules that are still to be looked at.

ghost use Rattle.std.specs.Prelude.{◌≡◌, ℕ, [], All, None, OnOk, IfOk, IfSome, Some, drop, ◌||◌, ◌==◌, slice_get};
ghost use Rattle.order_untangle.specs.Waits.{has_merge, has_divide, is_merge, IsLeastMerge, IsLeastDivide, StillWait, LinkWaits, PairWaits};

use map_base::{NoMemory, SegId};
use order_model::Term;
use std::alloc::Global;
use std::collections::BTreeSet;

/// Merges and divisions that may apply, the least first.
#[derive(Drop)]
pub(crate) struct Waiting {
    /// The two segments of each merge that may apply.
    pub(crate) merges: BTreeSet<(u32, u32)>,
    /// The segments that may be divided.
    pub(crate) divides: BTreeSet<u32>,
}

impl Waiting {
    /// None.
    pub(crate) fn none(alloc: Global) -> Waiting {
        Waiting {
            merges: BTreeSet::new(alloc),
            divides: BTreeSet::new(alloc),
        }
    }

    /// Adds what may be done at a segment: its division, and the merges either way of the two segments of each Link among
    /// its terms.
    pub(crate) fn look_again(&mut self, seg: SegId, terms: &[Term]) -> Result<(), NoMemory>
        ensures merges_kept { OnOk result (StillWait self.old.merges.keys self.new.merges.keys) }
        ensures links { OnOk result (All (LinkWaits self.new.merges.keys) terms.now) }
        ensures divides { OnOk result ((e : ℕ) → has_divide self.new.divides.keys e ≡ (seg.0 == e || has_divide self.old.divides.keys e)) }
    {
        add_divide(&mut self.divides, seg)?;
        add_links(&mut self.merges, terms)?;
        Ok(())
    }

    /// The least merge that waits.
    pub(crate) fn first_merge(&self) -> Option<(SegId, SegId)>
        ensures least { IfSome result (λ m. IsLeastMerge self.now.merges.keys m.0.0 m.1.0) }
        ensures first { IfSome result (λ m. slice_get self.now.merges.keys 0 ≡ Some (m.0.0, m.1.0)) }
        ensures none { result ≡ None → self.now.merges.keys ≡ [] }
    {
        let (into, from) = *self.merges.first()?;
        Some((SegId(into), SegId(from)))
    }

    /// The least segment that waits.
    pub(crate) fn first_divide(&self) -> Option<SegId>
        ensures least { IfSome result (λ s. IsLeastDivide self.now.divides.keys s.0) }
        ensures first { IfSome result (λ s. slice_get self.now.divides.keys 0 ≡ Some s.0) }
        ensures none { result ≡ None → self.now.divides.keys ≡ [] }
    {
        let seg = *self.divides.first()?;
        Some(SegId(seg))
    }

    /// Drops the least merge.
    pub(crate) fn drop_merge(&mut self)
        ensures merges { self.new.merges.keys ≡ drop 1 self.old.merges.keys }
        ensures divides { self.new.divides.keys ≡ self.old.divides.keys }
    {
        let _ = self.merges.pop_first();
    }

    /// Drops the least segment.
    pub(crate) fn drop_divide(&mut self)
        ensures divides { self.new.divides.keys ≡ drop 1 self.old.divides.keys }
        ensures merges { self.new.merges.keys ≡ self.old.merges.keys }
    {
        let _ = self.divides.pop_first();
    }
}

/// Adds a segment.
fn add_divide(divides: &mut BTreeSet<u32>, seg: SegId) -> Result<(), NoMemory>
    ensures { OnOk result ((e : ℕ) → has_divide divides.new.keys e ≡ (seg.0 == e || has_divide divides.old.keys e)) }
{
    divides.insert(seg.0)?;
    Ok(())
}

/// Adds the merges either way of the two segments of each Link. Links of the same two segments mostly follow each other.
fn add_links(merges: &mut BTreeSet<(u32, u32)>, terms: &[Term]) -> Result<(), NoMemory>
    ensures kept { OnOk result (StillWait merges.old.keys merges.new.keys) }
    ensures links { OnOk result (All (LinkWaits merges.new.keys) terms.now) }
{
    let mut last = None;
    for term in terms {
        last = add_link(merges, last, *term)?;
    }
    Ok(())
}

/// Adds the merges either way of the two segments of a Link, and none for another term. The segments that were added last
/// come in, and those that were then added last go out.
fn add_link(
    merges: &mut BTreeSet<(u32, u32)>,
    last: Option<(SegId, SegId)>,
    term: Term,
) -> Result<Option<(SegId, SegId)>, NoMemory>
    requires waits { IfSome last (PairWaits merges.old.keys) }
    ensures waits { IfOk result (λ last. IfSome last (PairWaits merges.new.keys)) }
    ensures kept { OnOk result (StillWait merges.old.keys merges.new.keys) }
    ensures link { OnOk result (LinkWaits merges.new.keys term) }
{
    match term {
        Term::Link { seg, other, .. } => add_pair(merges, last, seg, other),
        Term::Side { .. } | Term::Apart { .. } => Ok(last),
    }
}

/// Adds the merges either way of two segments, which may have been added last.
fn add_pair(
    merges: &mut BTreeSet<(u32, u32)>,
    last: Option<(SegId, SegId)>,
    seg: SegId,
    other: SegId,
) -> Result<Option<(SegId, SegId)>, NoMemory>
    requires waits { IfSome last (PairWaits merges.old.keys) }
    ensures waits { IfOk result (λ last. IfSome last (PairWaits merges.new.keys)) }
    ensures kept { OnOk result (StillWait merges.old.keys merges.new.keys) }
    ensures pair { OnOk result (PairWaits merges.new.keys (seg, other)) }
{
    if let Some((a, b)) = last {
        if a == seg && b == other {
            return Ok(last);
        }
    }
    add_merge(merges, seg, other)?;
    add_merge(merges, other, seg)?;
    Ok(Some((seg, other)))
}

/// Adds a merge.
fn add_merge(merges: &mut BTreeSet<(u32, u32)>, into: SegId, from: SegId) -> Result<(), NoMemory>
    ensures { OnOk result ((e f : ℕ) → has_merge merges.new.keys e f ≡ (is_merge e f (into.0, from.0) || has_merge merges.old.keys e f)) }
{
    merges.insert((into.0, from.0))?;
    Ok(())
}
