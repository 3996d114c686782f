//! When two segments can share one order, and what then becomes of terms.

ghost use Rattle.std.specs.Prelude.{◌≡◌, ◌≤◌, ◌<◌, ◌+◌, ◌^◌, ◌&&◌, ◌||◌, not, nat_le, length};
ghost use Rattle.std.specs.List.{list_all, list_any};
ghost use Rattle.order_rules.specs.PairWeights.{all_pairs};
ghost use Rattle.order_rules.specs.Merging.{merge_applies, same_lines, is_link_between, has_flip, have_flip, outweighs, moved};
ghost use Rattle.order_rules.specs.MergeWeights.{HaveWeights, with_term, with_of};

use crate::terms::{is_apart, is_between, is_of_lines, is_on, lines_on, renamed, turned};
use map_base::{LineId, SegId};
use order_model::{Problem, Term, weight_of};

/// Whether `from` can take its order from `into`, or with `flip` the reverse, at no cost: they are two segments of
/// equal lines with a Link between them, all these Links have this flip, and for each two lines what lies between the
/// two outweighs the rest on `from`.
pub fn merge_applies(problem: &Problem, into: SegId, from: SegId, flip: bool) -> bool
    ensures { result ≡ merge_applies problem.now into from flip }
{
    let lines = lines_on(problem.segs(), from);
    if into == from || !same_lines(lines_on(problem.segs(), into), lines) {
        return false;
    }
    if !have_flip(problem.terms(), into, from, flip) {
        return false;
    }
    all_outweigh(problem.terms(), into, from, lines)
}

/// Whether two lists of lines are equal.
#[tactic(auto, using(crate::proofs::LineLists::lines_more, crate::proofs::LineLists::lines_done, crate::proofs::LineLists::lengths_differ))]
pub fn same_lines(lines: &[LineId], others: &[LineId]) -> bool
    ensures { result ≡ same_lines lines.now others.now }
{
    if lines.len() != others.len() {
        return false;
    }
    for (i, line) in lines.iter().enumerate() {
        if *line != others[i] {
            return false;
        }
    }
    true
}

/// Whether a Link lies between the two segments, and all these Links have this flip.
pub fn have_flip(terms: &[Term], into: SegId, from: SegId, flip: bool) -> bool
    ensures { result ≡ have_flip into from flip terms.now }
{
    if !has_link(terms, into, from) {
        return false;
    }
    all_have_flip(terms, into, from, flip)
}

/// Whether a Link lies between the two segments.
fn has_link(terms: &[Term], into: SegId, from: SegId) -> bool
    ensures { result ≡ list_any (is_link_between into from) terms.now }
{
    terms.iter().any(|t| is_link_between(*t, into, from))
}

/// Whether all Links between the two segments have this flip.
fn all_have_flip(terms: &[Term], into: SegId, from: SegId, flip: bool) -> bool
    ensures { result ≡ list_all (λ t. not (is_link_between into from t) || has_flip flip t) terms.now }
{
    terms
        .iter()
        .all(|t| is_other_or_has_flip(*t, into, from, flip))
}

/// Whether the term is a Link between the two segments.
pub(crate) fn is_link_between(term: Term, into: SegId, from: SegId) -> bool
    ensures { result ≡ is_link_between into from term }
{
    match term {
        Term::Link { .. } => is_between(term, into, from),
        Term::Side { .. } | Term::Apart { .. } => false,
    }
}

/// Whether the term, if it is a Link between the two segments, has this flip.
fn is_other_or_has_flip(term: Term, into: SegId, from: SegId, flip: bool) -> bool
    ensures { result ≡ (not (is_link_between into from term) || has_flip flip term) }
{
    if !is_link_between(term, into, from) {
        return true;
    }
    match term {
        Term::Link { flip: turns, .. } => turns == flip,
        Term::Side { .. } | Term::Apart { .. } => false,
    }
}

/// Whether for each two of these lines what lies between the two segments outweighs the rest on `from`.
fn all_outweigh(terms: &[Term], into: SegId, from: SegId, lines: &[LineId]) -> bool
    requires { length terms.now ≤ 4000000 }
    ensures { result ≡ all_pairs (outweighs into from terms.now) lines.now }
{
    let mut rest = lines;
    while let Some((line, others)) = rest.split_first() {
        if !outweigh_with(terms, into, from, *line, others) {
            return false;
        }
        rest = others;
    }
    true
}

/// Whether for one line with each of these others what lies between the two segments outweighs the rest on `from`.
pub fn outweigh_with(
    terms: &[Term],
    into: SegId,
    from: SegId,
    line: LineId,
    others: &[LineId],
) -> bool
    requires { length terms.now ≤ 4000000 }
    ensures { result ≡ list_all (outweighs into from terms.now line) others.now }
{
    others
        .iter()
        .all(|other| outweighs(terms, into, from, line, *other))
}

/// Whether for two lines what lies between the two segments outweighs the rest on `from`.
fn outweighs(terms: &[Term], into: SegId, from: SegId, a: LineId, b: LineId) -> bool
    requires { length terms.now ≤ 4000000 }
    ensures { result ≡ outweighs into from terms.now a b }
{
    let weights = weights_of(terms, into, from, a, b);
    weights.outweigh()
}

/// What the terms of two lines weigh: between two segments `into` and `from`, and else on `from`.
#[derive(Clone, Copy, Debug)]
pub struct MergeWeights {
    /// The Links between the two segments.
    pub links: u64,
    /// The Aparts between the two segments.
    pub aparts: u64,
    /// The other Sides and Links on `from`.
    pub beside: u64,
    /// The other Aparts on `from`.
    pub aparts_beside: u64,
}

impl MergeWeights {
    /// What no terms weigh.
    pub const NONE: MergeWeights = MergeWeights {
        links: 0,
        aparts: 0,
        beside: 0,
        aparts_beside: 0,
    };

    /// These and the weight of one more term of the two lines.
    pub fn with(mut self, into: SegId, from: SegId, term: Term) -> MergeWeights
        requires { (self.links < 2 ^ 63) × (self.aparts < 2 ^ 63) × (self.beside < 2 ^ 63) × (self.aparts_beside < 2 ^ 63) }
        ensures sum { result ≡ with_term self into from term }
        ensures small { (result.links < self.links + 2 ^ 32) × (result.aparts < self.aparts + 2 ^ 32) × (result.beside < self.beside + 2 ^ 32) × (result.aparts_beside < self.aparts_beside + 2 ^ 32) }
    {
        let w = u64::from(weight_of(term));
        if is_between(term, into, from) {
            if is_apart(term) {
                self.aparts += w;
            } else {
                self.links += w;
            }
        } else if is_on(term, from) {
            if is_apart(term) {
                self.aparts_beside += w;
            } else {
                self.beside += w;
            }
        }
        self
    }

    /// These and the weight of one more term, if it is of the two lines.
    fn with_of(self, into: SegId, from: SegId, a: LineId, b: LineId, term: Term) -> MergeWeights
        requires { (self.links < 2 ^ 63) × (self.aparts < 2 ^ 63) × (self.beside < 2 ^ 63) × (self.aparts_beside < 2 ^ 63) }
        ensures sum { result ≡ with_of self into from a b term }
        ensures small { (result.links < self.links + 2 ^ 32) × (result.aparts < self.aparts + 2 ^ 32) × (result.beside < self.beside + 2 ^ 32) × (result.aparts_beside < self.aparts_beside + 2 ^ 32) }
    {
        if !is_of_lines(term, a, b) {
            return self;
        }
        self.with(into, from, term)
    }

    /// Whether what lies between the two segments outweighs the rest.
    pub fn outweigh(&self) -> bool
        ensures { result ≡ (nat_le self.now.beside self.now.links && nat_le self.now.aparts_beside self.now.aparts) }
    {
        self.beside <= self.links && self.aparts_beside <= self.aparts
    }
}

/// What the terms of two lines weigh between two segments and else on `from`.
fn weights_of(terms: &[Term], into: SegId, from: SegId, a: LineId, b: LineId) -> MergeWeights
    requires { length terms.now ≤ 4000000 }
    ensures { HaveWeights into from terms.now a b result }
{
    let mut weights = MergeWeights::NONE;
    for term in terms {
        weights = weights.with_of(into, from, a, b, *term);
    }
    weights
}

/// What becomes of a term that does not lie between the two segments where `from` takes its order from `into`.
pub fn moved(into: SegId, from: SegId, flip: bool, term: Term) -> Term
    ensures { result ≡ moved into from flip term }
{
    match term {
        Term::Side {
            seg,
            first,
            second,
            w,
        } => {
            let turns = flip && seg == from;
            let (first, second) = if turns {
                (second, first)
            } else {
                (first, second)
            };
            let seg = renamed(into, from, seg);
            Term::Side {
                seg,
                first,
                second,
                w,
            }
        }
        Term::Link {
            seg,
            other,
            flip: turns,
            a,
            b,
            w,
        } => {
            let reversed = flip && (seg == from || other == from);
            turned(Term::Link {
                seg: renamed(into, from, seg),
                other: renamed(into, from, other),
                flip: turns != reversed,
                a,
                b,
                w,
            })
        }
        Term::Apart {
            seg,
            other,
            a,
            b,
            w,
        } => turned(Term::Apart {
            seg: renamed(into, from, seg),
            other: renamed(into, from, other),
            a,
            b,
            w,
        }),
    }
}
