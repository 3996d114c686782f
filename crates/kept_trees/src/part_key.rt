//! What tells a part by itself, and how it is searched, from others.

ghost use Rattle.std.specs.Prelude.{◌≡◌, ◌<◌, length, map, All, IfOk, None};
ghost use Rattle.map_base.specs.declared.ids.SegId.{SegId as Seg};
ghost use Rattle.order_model.specs.Problems.{lines_on, IsProblem};
ghost use Rattle.order_model.specs.Parts.{IsRisingPart};
ghost use Rattle.order_model.specs.PartTerms.{part_numbers};
ghost use Rattle.order_search.specs.ByItself.{by_itself};
ghost use Rattle.kept_trees.specs.OwnTrees.{part_of_key};

use crate::own_terms::own_terms;
use map_base::{LineId, NoMemory, SegId, Sequence};
use map_method::Search;
use order_model::{Problem, ProblemParts, Term};
use std::alloc::Global;

/// A part by itself, and how it is searched: two of them are equal where the search, its budget, the lists of lines and
/// the terms are. The lists of lines alone tell nearly all parts of a problem apart, so a hash is made of them.
#[derive(PartialEq, Eq, Drop)]
#[derive_where(Hash)]
pub struct PartKey {
    /// How the part is searched.
    #[derive_where(skip(Hash))]
    pub(crate) how: Search,
    /// The budget within which the search was not complete; none where it was.
    #[derive_where(skip(Hash))]
    pub(crate) spent: Option<u32>,
    /// The lines of each segment, rising.
    pub(crate) lists: Vec<Vec<LineId>>,
    /// The terms in their order, with segments numbered from 0.
    #[derive_where(skip(Hash))]
    pub(crate) terms: Vec<Term>,
}

/// The part by itself, searched to the end, told the numbers of its terms in the problem.
pub(crate) fn part_key(
    alloc: Global,
    problem: &Problem,
    part: &[SegId],
    numbers: &[u32],
    how: Search,
) -> Result<PartKey, NoMemory>
    requires known { All (λ (s : Seg). s.0 < length problem.now.segs) part.now }
    requires rising { IsRisingPart part.now }
    requires numbers { numbers.now ≡ part_numbers problem.now.terms part.now }
    ensures part { IfOk result (λ key. part_of_key key ≡ by_itself problem.now part.now) }
    ensures how { IfOk result (λ key. key.how ≡ how) }
    ensures complete { IfOk result (λ key. key.spent ≡ None) }
    ensures fits { IsProblem problem.now }
{
    let terms = problem.terms();
    let lists = own_lists(alloc, problem.segs(), part)?;
    let terms = own_terms(alloc, terms, part, numbers)?;
    Ok(PartKey {
        how,
        spent: None,
        lists,
        terms,
    })
}

/// The lines of each segment of the part.
fn own_lists(
    alloc: Global,
    segs: &[Sequence<LineId>],
    part: &[SegId],
) -> Result<Vec<Vec<LineId>>, NoMemory>
    requires { All (λ (s : Seg). s.0 < length segs.now) part.now }
    ensures { IfOk result (λ lists. map (λ lines. lines.items) lists.items ≡ map (lines_on segs.now) part.now) }
{
    let mut lists = Vec::with_capacity(alloc, part.len())?;
    for s in part {
        let lines = Vec::from_slice(alloc, segs[s.0 as usize].as_slice())?;
        lists.push(lines)?;
    }
    Ok(lists)
}

/// The problem of a part by itself.
pub(crate) fn own_problem(alloc: Global, key: &PartKey) -> Result<Problem, NoMemory>
    requires { IsProblem (part_of_key key.now) }
    ensures { IfOk result (λ problem. problem ≡ part_of_key key.now) }
{
    let segs = own_segs(alloc, key.lists.as_slice())?;
    let terms = Vec::from_slice(alloc, key.terms.as_slice())?;
    Ok(Problem::new(ProblemParts {
        segs: Sequence::of(segs),
        terms: Sequence::of(terms),
    }))
}

/// The lines of each segment of a part, as a problem has them.
fn own_segs(alloc: Global, lists: &[Vec<LineId>]) -> Result<Vec<Sequence<LineId>>, NoMemory>
    ensures { IfOk result (λ segs. segs.items ≡ map (λ lines. lines.items) lists.now) }
{
    let mut segs = Vec::with_capacity(alloc, lists.len())?;
    for lines in lists {
        segs.push(Sequence::of(Vec::from_slice(alloc, lines.as_slice())?))?;
    }
    Ok(segs)
}
