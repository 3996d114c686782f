//! The terms that a placing may change, picked from those of its lines.

ghost use Rattle.std.specs.Prelude.{◌≡◌, ◌<◌, ◌++◌, [], ◌∷◌, length, filter, All, IfOk, OnOk, if◌then◌else◌};
ghost use Rattle.order_model.specs.Problems.{lines_on};
ghost use Rattle.order_model.specs.Prefixes.{IsPrefixOf};
ghost use Rattle.order_check.specs.declared.slot.PartTerm.{PartTerm};
ghost use Rattle.order_check.specs.declared.spot.SpotTerm.{SpotTerm};
ghost use Rattle.order_check.specs.Asking.{IsAsked};
ghost use Rattle.order_check.specs.Spots.{is_of_line};
ghost use Rattle.order_check.specs.Placings.{is_of_any, is_picked_at, is_picked_of, picked_of, term_of, own_pick, last_pick, left_pick, changed_terms};

use crate::asked::Asked;
use crate::placing::Placing;
use crate::slot::PartTerm;
use crate::spot::{Spot, SpotTerm, place_of};
use map_base::{LineId, NoMemory};
use order_model::{Prefix, Problem, Term};
use std::alloc::Global;

/// Which terms are picked of those at a spot: those whose other line is left; but none of a line whose terms were picked
/// before.
#[derive(Clone, Copy, Debug)]
pub(crate) struct Pick {
    /// The spot.
    pub(crate) spot: Spot,
    /// The line whose terms are not picked, if there is one.
    pub(crate) but: Option<LineId>,
}

/// The terms that a placing may change. Which of two lines stands first is decided by it where one of them is its own line,
/// and the other one is left. Whether two lines are neighbours is settled by it where one is the line that is placed last
/// before it, and the other one is left; and where just two lines are left once it is placed, for these two.
#[inline(never)]
pub(crate) fn changed_terms(
    alloc: Global,
    asked: &Asked,
    prefix: &Prefix,
    placing: Placing,
) -> Result<Vec<PartTerm>, NoMemory>
    requires asked { IsAsked asked.now }
    requires fits { IsPrefixOf asked.now.problem.now.segs prefix.now }
    requires seg { placing.seg.0 < length asked.now.problem.now.segs }
    ensures { IfOk result (λ v. v.items ≡ changed_terms placing (lines_on asked.now.problem.now.segs placing.seg)
        (lines_on prefix.now.placed placing.seg) asked.now.table.now.terms.items) }
{
    let mut list = Vec::new(alloc);
    add_terms(asked, prefix, own_pick(placing), &mut list)?;
    add_terms(asked, prefix, last_pick(placing), &mut list)?;
    if placing.left.0 == placing.last.0 {
        return Ok(list);
    }
    add_terms(asked, prefix, left_pick(placing), &mut list)?;
    Ok(list)
}

/// Of the terms of the line that is placed those by which it stands before another.
fn own_pick(placing: Placing) -> Pick
    ensures { result ≡ own_pick placing }
{
    Pick {
        spot: Spot {
            seg: placing.seg,
            apart: false,
            line: placing.line,
        },
        but: None,
    }
}

/// The Aparts of the line that is placed last before it.
fn last_pick(placing: Placing) -> Pick
    ensures { result ≡ last_pick placing }
{
    Pick {
        spot: Spot {
            seg: placing.seg,
            apart: true,
            line: placing.last,
        },
        but: None,
    }
}

/// The Aparts of another line that is left, but for those of the line that is placed last.
fn left_pick(placing: Placing) -> Pick
    ensures { result ≡ left_pick placing }
{
    Pick {
        spot: Spot {
            seg: placing.seg,
            apart: true,
            line: placing.left,
        },
        but: Some(placing.last),
    }
}

/// Adds the terms of a pick to a list.
fn add_terms(
    asked: &Asked,
    prefix: &Prefix,
    pick: Pick,
    list: &mut Vec<PartTerm>,
) -> Result<(), NoMemory>
    requires asked { IsAsked asked.now }
    requires fits { IsPrefixOf asked.now.problem.now.segs prefix.now }
    requires seg { pick.spot.seg.0 < length asked.now.problem.now.segs }
    ensures { OnOk result (list.new.items ≡ list.old.items ++ filter (λ (t : PartTerm). is_picked_at pick
        (lines_on asked.now.problem.now.segs pick.spot.seg) (lines_on prefix.now.placed pick.spot.seg) t.term) asked.now.table.now.terms.items) }
{
    let table = &asked.table.spots;
    let terms = asked.table.terms.as_slice();
    match place_of(table, pick.spot) {
        None => Ok(()),
        Some(k) => {
            let some = table.lists[k].as_slice();
            add_picked(asked.problem, prefix, pick, terms, some, list)?;
            Ok(())
        }
    }
}

/// Adds those of the terms at its spot that a pick picks.
fn add_picked(
    problem: &Problem,
    prefix: &Prefix,
    pick: Pick,
    terms: &[PartTerm],
    some: &[SpotTerm],
    list: &mut Vec<PartTerm>,
) -> Result<(), NoMemory>
    requires fits { IsPrefixOf problem.now.segs prefix.now }
    requires seg { pick.spot.seg.0 < length problem.now.segs }
    requires within { All (λ (t : SpotTerm). t.place < length terms.now) some.now }
    ensures { OnOk result (list.new.items ≡ list.old.items ++ picked_of pick (lines_on problem.now.segs pick.spot.seg)
        (lines_on prefix.now.placed pick.spot.seg) terms.now some.now) }
{
    for i in 0..some.len() {
        add_if_picked(problem, prefix, pick, terms, some[i], list)?;
    }
    Ok(())
}

/// Adds a term at its spot if it is picked.
fn add_if_picked(
    problem: &Problem,
    prefix: &Prefix,
    pick: Pick,
    terms: &[PartTerm],
    t: SpotTerm,
    list: &mut Vec<PartTerm>,
) -> Result<(), NoMemory>
    requires fits { IsPrefixOf problem.now.segs prefix.now }
    requires seg { pick.spot.seg.0 < length problem.now.segs }
    requires within { t.place < length terms.now }
    ensures { OnOk result (list.new.items ≡ list.old.items ++ (if is_picked_of pick (lines_on problem.now.segs pick.spot.seg)
        (lines_on prefix.now.placed pick.spot.seg) terms.now t then term_of terms.now t ∷ [] else [])) }
{
    if is_picked(problem, prefix, pick, terms, t) {
        list.push(terms[t.place as usize])?;
    }
    Ok(())
}

/// Whether a term at its spot is picked.
fn is_picked(
    problem: &Problem,
    prefix: &Prefix,
    pick: Pick,
    terms: &[PartTerm],
    t: SpotTerm,
) -> bool
    requires fits { IsPrefixOf problem.now.segs prefix.now }
    requires seg { pick.spot.seg.0 < length problem.now.segs }
    requires within { t.place < length terms.now }
    ensures { result ≡ is_picked_of pick (lines_on problem.now.segs pick.spot.seg) (lines_on prefix.now.placed pick.spot.seg) terms.now t }
{
    if !prefix.is_left(problem, pick.spot.seg, t.other) {
        return false;
    }
    !is_of_any(pick.but, terms[t.place as usize].term)
}

/// Whether a term has a line, if there is one.
fn is_of_any(line: Option<LineId>, term: Term) -> bool
    ensures { result ≡ is_of_any line term }
{
    match line {
        None => false,
        Some(line) => is_of_line(line, term),
    }
}

/// Whether a term has a line.
fn is_of_line(line: LineId, term: Term) -> bool
    ensures { result ≡ is_of_line line term }
{
    match term {
        Term::Side { first, second, .. } => first.0 == line.0 || second.0 == line.0,
        Term::Link { a, b, .. } | Term::Apart { a, b, .. } => a.0 == line.0 || b.0 == line.0,
    }
}
