//! What a term of a pair of lines is where a prefix stands.

ghost use Rattle.std.specs.Prelude.{◌≡◌, ◌<◌};
ghost use Rattle.order_model.specs.Problems.{IsTerm, IsSide, IsPair};
ghost use Rattle.order_model.specs.Prefixes.{IsPrefixOf};
ghost use Rattle.pair_bounds.specs.TermLooks.{link_by, side_look, link_look, look_of};

use map_base::{LineId, SegId};
use order_bound::OpenLink;
use order_model::{Prefix, Problem, Term};

/// What a term is for its pair of lines.
#[derive(Clone, Copy)]
pub enum TermLook {
    /// It costs this much, as the prefix decides; 0 where it is not counted yet.
    Decided(u32),
    /// It is open on one segment, and costs this much where the pair's lesser line stands first there, or the greater.
    OnSegment {
        seg: SegId,
        lesser_first: u32,
        greater_first: u32,
    },
    /// It is a Link that is decided on neither of its segments.
    Between(OpenLink),
}

/// What a term of a problem is for its pair of lines. An Apart is none of its pair's, as others than its lines settle it.
pub(crate) fn look_at(problem: &Problem, prefix: &Prefix, number: u32, term: Term) -> TermLook
    requires fits { IsPrefixOf problem.now.segs prefix.now }
    requires term { IsTerm problem.now.segs term }
    ensures { result ≡ look_of problem.now.segs prefix.now.placed number term }
{
    match term {
        Term::Side {
            seg,
            first,
            second,
            w,
        } => side_look(problem, prefix, seg, first, second, w),
        Term::Link {
            seg,
            other,
            flip,
            a,
            b,
            w,
        } => {
            let link = OpenLink {
                number,
                seg,
                other,
                flip,
                weight: w,
            };
            link_look(problem, prefix, link, a, b)
        }
        Term::Apart { .. } => TermLook::Decided(0),
    }
}

/// What a Side is.
fn side_look(
    problem: &Problem,
    prefix: &Prefix,
    seg: SegId,
    first: LineId,
    second: LineId,
    w: u32,
) -> TermLook
    requires fits { IsPrefixOf problem.now.segs prefix.now }
    requires side { IsSide problem.now.segs seg first second w }
    ensures { result ≡ side_look prefix.now.placed seg first second w }
{
    match prefix.stands_first(problem, seg, second, first) {
        Some(turned) => TermLook::Decided(if turned { w } else { 0 }),
        None => {
            if first.0 < second.0 {
                TermLook::OnSegment {
                    seg,
                    lesser_first: 0,
                    greater_first: w,
                }
            } else {
                TermLook::OnSegment {
                    seg,
                    lesser_first: w,
                    greater_first: 0,
                }
            }
        }
    }
}

/// What a Link costs by whether its first line stands first on each of its segments.
fn link_by(link: OpenLink, here: bool, there: bool) -> u32
    ensures { result ≡ link_by link.flip link.weight here there }
{
    if link.flip == (here == there) {
        link.weight
    } else {
        0
    }
}

/// What a Link is.
fn link_look(problem: &Problem, prefix: &Prefix, link: OpenLink, a: LineId, b: LineId) -> TermLook
    requires fits { IsPrefixOf problem.now.segs prefix.now }
    requires link { IsPair problem.now.segs link.seg link.other a b link.weight }
    ensures { result ≡ link_look prefix.now.placed link a b }
{
    let there = prefix.stands_first(problem, link.other, a, b);
    match prefix.stands_first(problem, link.seg, a, b) {
        Some(here) => match there {
            Some(there) => TermLook::Decided(link_by(link, here, there)),
            None => TermLook::OnSegment {
                seg: link.other,
                lesser_first: link_by(link, here, true),
                greater_first: link_by(link, here, false),
            },
        },
        None => match there {
            Some(there) => TermLook::OnSegment {
                seg: link.seg,
                lesser_first: link_by(link, true, there),
                greater_first: link_by(link, false, there),
            },
            None => TermLook::Between(link),
        },
    }
}
