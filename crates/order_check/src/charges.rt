//! What one term adds: to the sum of the decided terms, or to the slots at its ends.

ghost use Rattle.std.specs.Prelude.{◌≡◌, ◌≢◌, ◌<◌, ◌≤◌, pos, length, unsigned_abs};
ghost use Rattle.order_model.specs.declared.term.Term.TheVariants.{Side};
ghost use Rattle.order_model.specs.Problems.{IsOn, IsSide, IsTerm};
ghost use Rattle.order_model.specs.Prefixes.{IsPrefixOf};
ghost use Rattle.order_bound.specs.Decided.{apart_cost};
ghost use Rattle.order_check.specs.Charges.{no_charge, decided_charges, one_charge, open_charges, looked, link_charges, charges_by, price_charges};

use crate::slot::{Charge, Charges, PartTerm};
use map_base::{LineId, SegId};
use order_model::{Prefix, Problem, Term};

/// What a term of the problem adds for a prefix, under its price.
pub(crate) fn charges(problem: &Problem, prefix: &Prefix, t: PartTerm, price: i64) -> Charges
    requires fits { IsPrefixOf problem.now.segs prefix.now }
    requires term { IsTerm problem.now.segs t.term }
    requires price { unsigned_abs price ≤ 256000 }
    ensures { result ≡ charges_by problem.now.segs prefix.now.placed t.term t.here t.there price }
{
    match t.term {
        Term::Side {
            seg,
            first,
            second,
            w,
        } => side_charges(problem, prefix, t.here, seg, first, second, w),
        Term::Link {
            seg,
            other,
            flip,
            a,
            b,
            w,
        } => {
            let here = looked(problem, prefix, seg, a, b);
            let there = looked(problem, prefix, other, a, b);
            link_charges(t, here, there, flip, w, price)
        }
        Term::Apart {
            seg,
            other,
            a,
            b,
            w,
        } => {
            let here = prefix.neighbours(problem, seg, a, b);
            let there = prefix.neighbours(problem, other, a, b);
            decided_charges(apart_cost(w, here, there))
        }
    }
}

/// What a Side adds.
fn side_charges(
    problem: &Problem,
    prefix: &Prefix,
    slot: u32,
    seg: SegId,
    first: LineId,
    second: LineId,
    w: u32,
) -> Charges
    requires fits { IsPrefixOf problem.now.segs prefix.now }
    requires term { IsSide problem.now.segs seg first second w }
    ensures { result ≡ charges_by problem.now.segs prefix.now.placed (Side seg first second w) slot slot (pos 0) }
{
    if !prefix.is_decided(problem, seg, first, second) {
        return one_charge(slot, second.0 < first.0, i64::from(w));
    }
    if prefix.comes_before(problem, seg, second, first) {
        decided_charges(w)
    } else {
        decided_charges(0)
    }
}

/// Which of two lines of a segment stands first there, where that is known: whether it is the first.
fn looked(problem: &Problem, prefix: &Prefix, seg: SegId, a: LineId, b: LineId) -> Option<bool>
    requires fits { IsPrefixOf problem.now.segs prefix.now }
    requires known { seg.0 < length problem.now.segs }
    requires a_on { IsOn problem.now.segs seg a }
    requires b_on { IsOn problem.now.segs seg b }
    requires differ { a.0 ≢ b.0 }
    ensures { result ≡ looked prefix.now.placed seg a b }
{
    if prefix.is_decided(problem, seg, a, b) {
        Some(prefix.comes_before(problem, seg, a, b))
    } else {
        None
    }
}

/// What a Link adds, by what is known of its lines at its ends.
fn link_charges(
    t: PartTerm,
    here: Option<bool>,
    there: Option<bool>,
    flip: bool,
    w: u32,
    price: i64,
) -> Charges
    requires price { unsigned_abs price ≤ 256000 }
    ensures { result ≡ link_charges t.here t.there here there flip w price }
{
    match (here, there) {
        (Some(first), Some(first_too)) => {
            if flip == (first == first_too) {
                decided_charges(w)
            } else {
                decided_charges(0)
            }
        }
        (Some(first), None) => one_charge(t.there, flip == first, i64::from(w)),
        (None, Some(first_too)) => one_charge(t.here, flip == first_too, i64::from(w)),
        (None, None) => open_charges(t.here, t.there, flip, price),
    }
}

/// What an open Link adds under its price.
pub(crate) fn price_charges(t: PartTerm, price: i64) -> Charges
    requires { unsigned_abs price ≤ 256000 }
    ensures { result ≡ price_charges t.term t.here t.there price }
{
    match t.term {
        Term::Link { flip, .. } => open_charges(t.here, t.there, flip, price),
        Term::Side { .. } | Term::Apart { .. } => decided_charges(0),
    }
}

/// What an Apart costs where it is settled on both segments whether its lines are neighbours.
fn apart_cost(w: u32, here: Option<bool>, there: Option<bool>) -> u32
    ensures { result ≡ apart_cost w here there }
{
    match (here, there) {
        (Some(beside), Some(beside_too)) => { if beside == beside_too { 0 } else { w } }
        _ => 0,
    }
}

/// A decided term that costs so much.
fn decided_charges(cost: u32) -> Charges
    ensures { result ≡ decided_charges cost }
{
    Charges {
        decided: u64::from(cost),
        here: no_charge(),
        there: no_charge(),
    }
}

/// An addition at one slot, by one order of its lines.
fn one_charge(slot: u32, lesser_first: bool, amount: i64) -> Charges
    ensures { result ≡ one_charge slot lesser_first amount }
{
    Charges {
        decided: 0,
        here: Charge {
            slot,
            lesser_first,
            amount,
        },
        there: no_charge(),
    }
}

/// The price of an open Link at its two slots.
fn open_charges(here: u32, there: u32, flip: bool, price: i64) -> Charges
    requires { unsigned_abs price ≤ 256000 }
    ensures { result ≡ open_charges here there flip price }
{
    Charges {
        decided: 0,
        here: Charge {
            slot: here,
            lesser_first: false,
            amount: 0 - price,
        },
        there: Charge {
            slot: there,
            lesser_first: flip,
            amount: price,
        },
    }
}

/// Nothing is added.
fn no_charge() -> Charge
    ensures { result ≡ no_charge }
{
    Charge {
        slot: 0,
        lesser_first: true,
        amount: 0,
    }
}
