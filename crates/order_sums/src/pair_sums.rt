//! What the terms of two lines on a segment weigh together.

ghost use Rattle.std.specs.Prelude.{◌≡◌, ◌+◌, ◌<◌, ◌^◌, ◌&&◌, ◌||◌};
ghost use Rattle.order_model.specs.Costs.{are_these};
ghost use Rattle.order_rules.specs.PairWeights.{is_apart, is_link, is_side};
ghost use Rattle.order_rules.specs.Dividing.{is_against};
ghost use Rattle.order_sums.specs.PairSums.{IsSmall, no_sums, with_sum, weight_if, sums_outweigh, sums_part};

use map_base::{LineId, SegId};
use order_model::{Term, weight_of};
use order_rules::{is_between, is_on};

/// What the terms of two lines, the one and the other, weigh on a segment, and between it and another segment.
#[derive(Clone, Copy, Debug)]
pub struct PairSums {
    /// The Links between the two segments.
    pub links: u64,
    /// The Aparts between the two segments.
    pub aparts: u64,
    /// The other Sides and Links on the segment.
    pub beside: u64,
    /// The other Aparts on the segment.
    pub aparts_beside: u64,
    /// The Sides on the segment.
    pub sides: u64,
    /// All Aparts on the segment.
    pub all_aparts: u64,
    /// Whether a term speaks against the one before the other.
    pub against: bool,
    /// Whether a term speaks against the other before the one.
    pub against_turned: bool,
}

impl PairSums {
    /// The sums of no terms.
    pub fn none() -> PairSums
        ensures { result ≡ no_sums }
    {
        PairSums {
            links: 0,
            aparts: 0,
            beside: 0,
            aparts_beside: 0,
            sides: 0,
            all_aparts: 0,
            against: false,
            against_turned: false,
        }
    }

    /// These with one more term of lines a and b.
    pub fn with(self, into: SegId, from: SegId, a: LineId, b: LineId, term: Term) -> PairSums
        requires { IsSmall self }
        ensures { result ≡ with_sum self into from a b term }
    {
        let between = is_between(term, into, from);
        let on = is_on(term, from);
        let beside = both(on, !between);
        let apart = is_apart(term);
        let links = added(self.links, is_link(term), between, term);
        let aparts = added(self.aparts, apart, between, term);
        let other = added(self.beside, !apart, beside, term);
        let aparts_beside = added(self.aparts_beside, apart, beside, term);
        let sides = added(self.sides, is_side(term), on, term);
        let all_aparts = added(self.all_aparts, apart, on, term);
        PairSums {
            links,
            aparts,
            beside: other,
            aparts_beside,
            sides,
            all_aparts,
            against: either(self.against, is_against(term, from, a, b)),
            against_turned: either(self.against_turned, is_against(term, from, b, a)),
        }
    }

    /// Whether what lies between the two segments outweighs the rest.
    pub fn outweigh(&self) -> bool
        ensures { result ≡ sums_outweigh self.now }
    {
        self.beside <= self.links && self.aparts_beside <= self.aparts
    }

    /// Whether the one can stand before the other, where Aparts of two lines weigh so much at most.
    pub fn part(&self, most: u64) -> bool
        requires { most < 2 ^ 63 }
        ensures { result ≡ sums_part most self.now.against self.now.sides }
    {
        !self.against && 2 * most <= self.sides
    }

    /// Whether the other can stand before the one, where Aparts of two lines weigh so much at most.
    pub fn part_turned(&self, most: u64) -> bool
        requires { most < 2 ^ 63 }
        ensures { result ≡ sums_part most self.now.against_turned self.now.sides }
    {
        !self.against_turned && 2 * most <= self.sides
    }
}

/// The sum and the weight of the term, if it passes both tests.
fn added(sum: u64, first: bool, second: bool, term: Term) -> u64
    requires { sum < 2 ^ 63 }
    ensures { result ≡ sum + weight_if (first && second) term }
{
    if both(first, second) {
        sum + u64::from(weight_of(term))
    } else {
        sum
    }
}

/// Whether both hold.
fn both(first: bool, second: bool) -> bool
    ensures { result ≡ (first && second) }
{
    first && second
}

/// Whether one of the two holds.
fn either(first: bool, second: bool) -> bool
    ensures { result ≡ (first || second) }
{
    first || second
}

/// Whether the term is a Side.
fn is_side(term: Term) -> bool
    ensures { result ≡ is_side term }
{
    match term {
        Term::Side { .. } => true,
        Term::Link { .. } | Term::Apart { .. } => false,
    }
}

/// Whether the term is a Link.
fn is_link(term: Term) -> bool
    ensures { result ≡ is_link term }
{
    match term {
        Term::Link { .. } => true,
        Term::Side { .. } | Term::Apart { .. } => false,
    }
}

/// Whether the term is an Apart.
fn is_apart(term: Term) -> bool
    ensures { result ≡ is_apart term }
{
    match term {
        Term::Apart { .. } => true,
        Term::Side { .. } | Term::Link { .. } => false,
    }
}

/// Whether a term speaks against line a before line b on the segment.
fn is_against(term: Term, seg: SegId, a: LineId, b: LineId) -> bool
    ensures { result ≡ is_against seg a b term }
{
    match term {
        Term::Side {
            seg: at,
            first,
            second,
            ..
        } => at == seg && first == b && second == a,
        Term::Link { a: x, b: y, .. } | Term::Apart { a: x, b: y, .. } => {
            is_on(term, seg) && are_these(x, y, a, b)
        }
    }
}

/// Whether two lines are these two, in either order.
fn are_these(x: LineId, y: LineId, a: LineId, b: LineId) -> bool
    ensures { result ≡ are_these x y a b }
{
    if x == a && y == b {
        return true;
    }
    x == b && y == a
}
