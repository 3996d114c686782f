//! The terms of a part with the slots at their ends.

ghost use Rattle.std.specs.Prelude.{◌≡◌, ◌<◌, ◌≤◌, ◌*◌, length, All, IfOk, OnOk};
ghost use Rattle.order_model.specs.Problems.{IsProblem};
ghost use Rattle.order_model.specs.PartTerms.{terms_by_number};
ghost use Rattle.order_check.specs.Slots.{slot_on, slot_of, noted, with_slots, plain_term, StandsAt, HasEnds};
ghost use Rattle.order_check.specs.Spots.{term_lists, IsSpotTable};
ghost use Rattle.order_check.specs.PartTables.{IsPartTable};
ghost use Rattle.order_bound.specs.Pairs.{pair_of};

use crate::slot::{PartTerm, Slot};
use crate::spot::{SpotTable, list_term, no_spots};
use indexmap::IndexSet;
use map_base::{LineId, NoMemory, SegId};
use order_model::{Problem, Term};
use std::alloc::Global;

/// The terms of a part, in their order, and the slots at their ends, in the order of first sight.
#[derive(Drop)]
pub(crate) struct PartTable {
    /// The terms.
    pub(crate) terms: Vec<PartTerm>,
    /// The slots.
    pub(crate) slots: IndexSet<Slot>,
    /// The terms by segment, kind and line.
    pub(crate) spots: SpotTable,
}

/// The table of the terms that have these numbers in the problem.
pub(crate) fn part_table(
    alloc: Global,
    problem: &Problem,
    numbers: &[u32],
) -> Result<PartTable, NoMemory>
    requires problem { IsProblem problem.now }
    requires known { All (λ n. n < length problem.now.terms) numbers.now }
    requires few { length numbers.now ≤ 4000000 }
    ensures table { IfOk result (λ t. IsPartTable (terms_by_number problem.now.terms numbers.now) t.terms.items t.slots.keys) }
    ensures spots { IfOk result (λ t. IsSpotTable t.terms.items t.spots.spots.keys (term_lists t.spots.lists.items)) }
{
    let terms = problem.terms();
    let mut entries = Vec::with_capacity(alloc, numbers.len())?;
    let mut slots = IndexSet::new(alloc);
    let mut spots = no_spots(alloc);
    for n in numbers {
        let entry = part_term(&mut slots, *n, terms[*n as usize])?;
        let place = next_place(entries.as_slice());
        list_term(alloc, &mut spots, place, entry.term)?;
        entries.push(entry)?;
    }
    Ok(PartTable {
        terms: entries,
        slots,
        spots,
    })
}

/// The place behind these terms.
fn next_place(terms: &[PartTerm]) -> u32
    requires { length terms.now ≤ 4000000 }
    ensures { result ≡ length terms.now }
{
    terms.len() as u32
}

/// A term with the slots at its ends, which are noted.
fn part_term(slots: &mut IndexSet<Slot>, number: u32, term: Term) -> Result<PartTerm, NoMemory>
    requires few { length slots.old.keys ≤ 8000000 }
    ensures plain { IfOk result (λ t. plain_term t ≡ (number, term)) }
    ensures slots { OnOk result (slots.new.keys ≡ with_slots slots.old.keys term) }
    ensures ends { IfOk result (λ t. HasEnds slots.new.keys t.term t.here t.there) }
{
    let (here, there) = match term {
        Term::Side {
            seg,
            first,
            second,
            ..
        } => {
            let place = note(slots, slot_of(seg, first, second))?;
            (place, place)
        }
        Term::Link {
            seg,
            other,
            a,
            b,
            ..
        } => note_both(slots, slot_of(seg, a, b), slot_of(other, a, b))?,
        Term::Apart { .. } => (0, 0),
    };
    Ok(PartTerm {
        number,
        term,
        here,
        there,
    })
}

/// The places of two slots, which are noted.
fn note_both(slots: &mut IndexSet<Slot>, here: Slot, there: Slot) -> Result<(u32, u32), NoMemory>
    requires few { length slots.old.keys ≤ 8000000 }
    ensures slots { OnOk result (slots.new.keys ≡ noted (noted slots.old.keys here) there) }
    ensures here { IfOk result (λ p. StandsAt slots.new.keys p.0 here) }
    ensures there { IfOk result (λ p. StandsAt slots.new.keys p.1 there) }
{
    let first = note(slots, here)?;
    let second = note(slots, there)?;
    Ok((first, second))
}

/// The place of a slot, which is noted.
fn note(slots: &mut IndexSet<Slot>, slot: Slot) -> Result<u32, NoMemory>
    requires few { length slots.old.keys ≤ 8000001 }
    ensures slots { OnOk result (slots.new.keys ≡ noted slots.old.keys slot) }
    ensures place { IfOk result (λ p. StandsAt slots.new.keys p slot) }
{
    let (place, _) = slots.insert_full(slot)?;
    Ok(place as u32)
}

/// The slot of two lines on a segment.
fn slot_of(seg: SegId, a: LineId, b: LineId) -> Slot
    ensures { result ≡ slot_of seg a b }
{
    if a.0 < b.0 {
        Slot {
            lesser: a,
            greater: b,
            seg,
        }
    } else {
        Slot {
            lesser: b,
            greater: a,
            seg,
        }
    }
}
