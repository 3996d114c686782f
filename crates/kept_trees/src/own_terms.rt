//! Terms of a part with segments numbered from 0 within the part.

ghost use Rattle.std.specs.Prelude.{◌≡◌, ◌<◌, ◌^◌, true, length, map, IfOk};
ghost use Rattle.order_model.specs.Parts.{IsRisingPart};
ghost use Rattle.order_model.specs.PartTerms.{is_in, is_of, part_terms, part_numbers, plain_terms};
ghost use Rattle.order_search.specs.ByItself.{term_in, seg_in};

use map_base::{NoMemory, SegId};
use order_model::Term;
use std::alloc::Global;

/// The terms of the part, told their numbers in the problem.
pub(crate) fn own_terms(
    alloc: Global,
    terms: &[Term],
    part: &[SegId],
    numbers: &[u32],
) -> Result<Vec<Term>, NoMemory>
    requires rising { IsRisingPart part.now }
    requires few { length part.now < 2 ^ 32 }
    requires numbers { numbers.now ≡ part_numbers terms.now part.now }
    ensures { IfOk result (λ own. own.items ≡ map (term_in part.now) (plain_terms (part_terms terms.now part.now))) }
{
    let mut own = Vec::with_capacity(alloc, numbers.len())?;
    for n in numbers {
        own.push(term_in(part, terms[*n as usize]))?;
    }
    Ok(own)
}

/// A term of the part.
fn term_in(part: &[SegId], term: Term) -> Term
    requires rising { IsRisingPart part.now }
    requires few { length part.now < 2 ^ 32 }
    requires of { is_of part.now term ≡ true }
    ensures { result ≡ term_in part.now term }
{
    match term {
        Term::Side {
            seg,
            first,
            second,
            w,
        } => Term::Side {
            seg: seg_in(part, seg),
            first,
            second,
            w,
        },
        Term::Link {
            seg,
            other,
            flip,
            a,
            b,
            w,
        } => Term::Link {
            seg: seg_in(part, seg),
            other: seg_in(part, other),
            flip,
            a,
            b,
            w,
        },
        Term::Apart {
            seg,
            other,
            a,
            b,
            w,
        } => Term::Apart {
            seg: seg_in(part, seg),
            other: seg_in(part, other),
            a,
            b,
            w,
        },
    }
}

/// The place of a segment in the part.
fn seg_in(part: &[SegId], seg: SegId) -> SegId
    requires rising { IsRisingPart part.now }
    requires few { length part.now < 2 ^ 32 }
    requires among { is_in part.now seg ≡ true }
    ensures { result ≡ seg_in part.now seg }
{
    match part.binary_search(&seg) {
        Ok(place) => SegId(place as u32),
        Err(_) => unreachable!(),
    }
}
