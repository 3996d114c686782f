//! Points that are kept one by one, without repeats, up to a greatest number.

ghost use Rattle.std.specs.Prelude.{◌≡◌, ℕ, ◌<◌, ◌≤◌, [], IfOk, IfErr, OnOk};
ghost use Rattle.fixed_plane.specs.Plane.{IsInPlane};
ghost use Rattle.shape_track.specs.Faults.{HasCause};
ghost use Rattle.shape_track.specs.Samples.{is_point, is_repeat, piece_points};

use crate::piece::{part, parts};
use fixed_plane::dist2;
use map_base::{Limit, LimitFault, LimitKind, NoMemory, Point};
use std::alloc::Global;

/// Samples that are kept, and how many were counted of the greatest allowed number.
#[derive(Drop)]
pub(crate) struct Sampler {
    pub(crate) kept: Vec<Point>,
    /// The point that came last.
    pub(crate) before: Option<Point>,
    pub(crate) count: u64,
    pub(crate) most: u64,
}

impl Sampler {
    ghost use Rattle.std.specs.Prelude.{◌+◌, ◌++◌, ◌∷◌};
    ghost use Rattle.shape_track.specs.Sampling.{kept_by, with_point, with_points};

    /// Nothing is kept, with room for so many samples, and `count` samples were counted elsewhere.
    pub(crate) fn new(
        alloc: Global,
        room: usize,
        count: u64,
        most: u64,
    ) -> Result<Sampler, NoMemory>
        ensures kept { IfOk result (λ sampler. kept_by sampler ≡ record { points = []; before = None; count = count }) }
        ensures most { IfOk result (λ sampler. sampler.most ≡ most) }
    {
        Ok(Sampler {
            kept: Vec::with_capacity(alloc, room)?,
            before: None,
            count,
            most,
        })
    }

    /// Keeps a point, unless it equals the one before it.
    pub(crate) fn keep(&mut self, point: Point) -> Result<(), LimitFault>
        requires counted { self.old.count ≤ self.old.most }
        ensures kept { OnOk result (kept_by self.new ≡ with_point (kept_by self.old) point) }
        ensures counted { OnOk result (self.new.count ≤ self.old.most) }
        ensures most { OnOk result (self.new.most ≡ self.old.most) }
        ensures cause { IfErr result (λ fault. HasCause self.old.most (with_point (kept_by self.old) point).count fault) }
    {
        let repeated = repeats(self.before, point);
        self.before = Some(point);
        if repeated { Ok(()) } else { self.store(point) }
    }

    fn store(&mut self, point: Point) -> Result<(), LimitFault>
        requires counted { self.old.count ≤ self.old.most }
        ensures kept { OnOk result (self.new.kept.items ≡ self.old.kept.items ++ point ∷ []) }
        ensures before { OnOk result (self.new.before ≡ self.old.before) }
        ensures count { OnOk result (self.new.count ≡ self.old.count + 1) }
        ensures counted { OnOk result (self.new.count ≤ self.old.most) }
        ensures most { OnOk result (self.new.most ≡ self.old.most) }
        ensures cause { IfErr result (λ fault. HasCause self.old.most (self.old.count + 1) fault) }
    {
        if self.count == self.most {
            return Err(above(self.most));
        }
        self.kept.push(point)?;
        self.count += 1;
        Ok(())
    }

    /// Keeps where the parts of the way from `a` to `b` begin.
    pub(crate) fn keep_piece(&mut self, a: Point, b: Point, near: u32) -> Result<(), LimitFault>
        requires a_in_plane { IsInPlane a }
        requires b_in_plane { IsInPlane b }
        requires near_low { 20 ≤ near }
        requires counted { self.old.count ≤ self.old.most }
        ensures kept { OnOk result (kept_by self.new ≡ with_points (kept_by self.old) (piece_points near a b)) }
        ensures counted { OnOk result (self.new.count ≤ self.old.most) }
        ensures most { OnOk result (self.new.most ≡ self.old.most) }
        ensures cause { IfErr result (λ fault. HasCause self.old.most (with_points (kept_by self.old) (piece_points near a b)).count fault) }
    {
        let count = parts(dist2(a, b), near);
        for index in 0..count {
            self.keep(part(a, b, count, index))?;
        }
        Ok(())
    }
}

/// What is reported of more samples than the greatest allowed number.
fn above(most: u64) -> LimitFault
    ensures { (count : ℕ) → most < count → HasCause most count result }
{
    LimitFault::Limit(Limit {
        what: LimitKind::Samples,
        found: most.saturating_add(1),
        most,
    })
}

/// Whether a point equals the one before it.
fn repeats(before: Option<Point>, point: Point) -> bool
    ensures { result ≡ is_repeat before point }
{
    match before {
        None => false,
        Some(other) => same(other, point),
    }
}

fn same(a: Point, b: Point) -> bool
    ensures { result ≡ is_point a b }
{
    if a.x != b.x {
        return false;
    }
    a.y == b.y
}
