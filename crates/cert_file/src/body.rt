//! Reading what stands between the counts and the proof.

ghost use Rattle.std.specs.Prelude.{IfOk};
ghost use Rattle.decimal_text.specs.Reading.{reading};
ghost use Rattle.decimal_text.specs.Readers.{Follows};
ghost use Rattle.cert_file.specs.Reading.{after, importance_due, walks_due, orders_due, rest_due};
ghost use Rattle.cert_file.specs.Readers.{AreImportanceOf, AreWalksOf, AreOrdersOf, IsBodyOf, IsVersion};

use crate::reading::{read_cost, read_importance, read_order, read_walk};
use decimal_text::Stop;
use map_base::{LineId, Sequence};
use octi_grid::Walk;
use std::alloc::Global;

/// The importance of lines, where the version has it.
fn importance_of<'a>(
    alloc: Global,
    version: u64,
    text: &'a [u8],
    numbers: &mut Vec<i64>,
) -> Result<(Vec<(LineId, u32)>, &'a [u8]), Stop>
    requires { IsVersion version }
    ensures follows { Follows (λ x. x.1.now) result (reading after (importance_due version) text.now) }
    ensures importance { IfOk result (λ x. AreImportanceOf version x.0.items text.now x.1.now) }
{
    if version != 2 {
        return Ok((Vec::new(alloc), text));
    }
    let (importance, rest) = read_importance(alloc, text, numbers)?;
    Ok((importance, rest))
}

/// The walks of so many segments.
fn walks_of<'a>(alloc: Global, segs: u32, text: &'a [u8]) -> Result<(Vec<Walk>, &'a [u8]), Stop>
    ensures follows { Follows (λ x. x.1.now) result (reading after (walks_due 0 segs) text.now) }
    ensures walks { IfOk result (λ x. AreWalksOf segs x.0.items text.now x.1.now) }
{
    let mut walks = Vec::new(alloc);
    let mut rest = text;
    for s in 0..segs {
        let (walk, behind) = read_walk(alloc, s, rest)?;
        walks.push(walk)?;
        rest = behind;
    }
    Ok((walks, rest))
}

/// The orders of so many segments.
fn orders_of<'a>(
    alloc: Global,
    segs: u32,
    text: &'a [u8],
    numbers: &mut Vec<i64>,
) -> Result<(Vec<Sequence<LineId>>, &'a [u8]), Stop>
    ensures follows { Follows (λ x. x.1.now) result (reading after (orders_due 0 segs) text.now) }
    ensures orders { IfOk result (λ x. AreOrdersOf segs x.0.items text.now x.1.now) }
{
    let mut orders = Vec::new(alloc);
    let mut rest = text;
    for s in 0..segs {
        let (order, behind) = read_order(alloc, s, rest, numbers)?;
        orders.push(Sequence::of(order))?;
        rest = behind;
    }
    Ok((orders, rest))
}

/// What stands between the counts and the proof.
#[derive(Drop)]
pub(crate) struct Body {
    /// The lines on segments whose importance is above 1.
    pub importance: Vec<(LineId, u32)>,
    /// The walk of each segment.
    pub walks: Vec<Walk>,
    /// The order of each segment.
    pub orders: Vec<Sequence<LineId>>,
    /// What the orders cost.
    pub cost: u64,
}

/// What stands between the counts and the proof, for so many segments.
pub(crate) fn read_body<'a>(
    alloc: Global,
    version: u64,
    segs: u32,
    text: &'a [u8],
    numbers: &mut Vec<i64>,
) -> Result<(Body, &'a [u8]), Stop>
    requires { IsVersion version }
    ensures follows { Follows (λ x. x.1.now) result (reading after (rest_due version segs) text.now) }
    ensures body { IfOk result (λ x. IsBodyOf version segs x.0.importance.items x.0.walks.items x.0.orders.items x.0.cost text.now x.1.now) }
{
    let (importance, rest) = importance_of(alloc, version, text, numbers)?;
    let (walks, rest) = walks_of(alloc, segs, rest)?;
    let (orders, rest) = orders_of(alloc, segs, rest, numbers)?;
    let (cost, rest) = read_cost(rest, numbers)?;
    Ok((
        Body {
            importance,
            walks,
            orders,
            cost,
        },
        rest,
    ))
}
