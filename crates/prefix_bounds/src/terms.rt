//! The terms of a problem, one by one.

ghost use Rattle.std.specs.Prelude.{◌≡◌, ◌<◌, ◌≤◌, length, slice_index_or};
ghost use Rattle.order_model.specs.Problems.{IsProblem, IsTerm};
ghost use Rattle.order_model.specs.PartTerms.{no_term, is_in, is_of};

use map_base::SegId;
use order_model::{Problem, Term, ends_of};

/// How many terms a problem has.
pub(crate) fn term_count(problem: &Problem) -> usize
    ensures count { result ≡ length problem.now.terms }
    ensures few { result ≤ 4000000 }
    ensures fits { IsProblem problem.now }
{
    problem.terms().len()
}

/// The term of a number.
pub(crate) fn term_at(problem: &Problem, number: usize) -> Term
    requires { number < length problem.now.terms }
    ensures term { result ≡ slice_index_or problem.now.terms number no_term }
    ensures fits { IsTerm problem.now.segs result }
    ensures few { number < 4000000 }
{
    problem.terms()[number]
}

/// Whether a segment is one of these.
fn is_in(part: &[SegId], seg: SegId) -> bool
    ensures { result ≡ is_in part.now seg }
{
    part.iter().any(|own| own.0 == seg.0)
}

/// Whether the segments of a term are of the part.
pub(crate) fn is_of(part: &[SegId], term: Term) -> bool
    ensures { result ≡ is_of part.now term }
{
    let (seg, other) = ends_of(term);
    if !is_in(part, seg) {
        return false;
    }
    is_in(part, other)
}
