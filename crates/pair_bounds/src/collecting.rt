//! The terms of a pair gathered: what they cost where they are decided, what the pair costs on each segment where it is
//! open, and its kept Links.

ghost use Rattle.std.specs.Prelude.{◌≡◌, true, ◌<◌, ◌≤◌, ◌+◌, ◌*◌, ◌^◌, ℕ, length, map, All, sum_by};
ghost use Rattle.std.specs.Vec.{vec_len, vec_capacity};
ghost use Rattle.order_model.specs.declared.term.Term.{Term};
ghost use Rattle.map_base.specs.declared.ids.SegId.{SegId};
ghost use Rattle.pair_bounds.specs.TermLooks.{look_decided};
ghost use Rattle.pair_bounds.specs.Slots.{slots_after, links_after, IsSmall, IsCollected};
ghost use Rattle.order_bound.specs.Pairs.{pair_in, open_segments};
ghost use Rattle.order_model.specs.PartTerms.{is_of};
ghost use Rattle.order_model.specs.Prefixes.{IsPrefixOf};
ghost use Rattle.order_model.specs.Problems.{IsTerm};
ghost use Rattle.pair_bounds.specs.declared.term_look.TermLook.TheVariants.{Between};

use crate::opening::open_slots;
use crate::slots::{Slot, add_cost, label_in, relabel};
use crate::term_look::{TermLook, look_at};
use map_base::SegId;
use order_bound::{OpenLink, Pair};
use order_model::{Prefix, Problem, Term};

/// Adds a term to what is gathered: answers what it costs where it is decided.
pub(crate) fn gather(look: TermLook, slots: &mut [Slot], links: &mut Vec<OpenLink>) -> u32
    requires small { All (IsSmall (2 ^ 60)) slots.old }
    requires room { vec_len links.old < vec_capacity links.old }
    ensures cost { result ≡ look_decided look }
    ensures slots { slots.new ≡ slots_after look slots.old }
    ensures links { links.new.items ≡ links_after look slots.old links.old.items }
    ensures room { vec_capacity links.old ≤ vec_capacity links.new }
    ensures few { vec_len links.new ≤ vec_len links.old + 1 }
{
    match look {
        TermLook::Decided(cost) => cost,
        TermLook::OnSegment {
            seg,
            lesser_first,
            greater_first,
        } => {
            add_cost(slots, seg, lesser_first, greater_first);
            0
        }
        TermLook::Between(link) => {
            keep(link, slots, links);
            0
        }
    }
}

/// Keeps a Link, if it closes no cycle of segments with those kept before it.
fn keep(link: OpenLink, slots: &mut [Slot], links: &mut Vec<OpenLink>)
    requires room { vec_len links.old < vec_capacity links.old }
    ensures slots { slots.new ≡ slots_after (Between link) slots.old }
    ensures links { links.new.items ≡ links_after (Between link) slots.old links.old.items }
    ensures room { vec_capacity links.old ≤ vec_capacity links.new }
    ensures few { vec_len links.new ≤ vec_len links.old + 1 }
{
    let here = label_in(slots, link.seg);
    let there = label_in(slots, link.other);
    if here != there {
        let _ = links.push(link);
        relabel(slots, here, there);
    }
}

/// Gathers the terms of a pair: its slots on the segments of a part where it is open, and its kept Links. Answers what
/// its decided terms cost.
pub(crate) fn collect(
    problem: &Problem,
    prefix: &Prefix,
    part: &[SegId],
    pair: Pair,
    terms: &[(u32, Term)],
    slots: &mut Vec<Slot>,
    links: &mut Vec<OpenLink>,
) -> u64
    requires fits { IsPrefixOf problem.now.segs prefix.now }
    requires part { All (λ (s : SegId). s.0 < length problem.now.segs) part.now }
    requires known { All (λ (t : ℕ × Term). IsTerm problem.now.segs t.1) terms.now }
    requires inside { All (λ (t : ℕ × Term). is_of part.now t.1 ≡ true) terms.now }
    requires mine { All (λ (t : ℕ × Term). pair ≡ pair_in t.1) terms.now }
    requires few { length terms.now ≤ 4000000 }
    requires slots_room { length part.now ≤ vec_capacity slots.old }
    requires links_room { length terms.now ≤ vec_capacity links.old }
    ensures collected { IsCollected problem.now.segs prefix.now.placed pair (open_segments problem.now.segs prefix.now.placed part.now pair) terms.now result slots.new.items links.new.items }
    ensures small { result ≤ 4294967296 * length terms.now }
    ensures slots_room { vec_capacity slots.old ≤ vec_capacity slots.new }
    ensures links_room { vec_capacity links.old ≤ vec_capacity links.new }
{
    open_slots(problem, prefix, part, pair, slots);
    links.clear();
    let mut base: u64 = 0;
    for (number, term) in terms {
        let look = look_at(problem, prefix, *number, *term);
        base += u64::from(gather(look, slots.as_mut_slice(), links));
    }
    base
}
