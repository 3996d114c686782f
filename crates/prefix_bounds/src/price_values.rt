//! The value of prices.

ghost use Rattle.std.specs.Prelude.{◌≡◌, ℤ, ◌<◌, ◌≤◌, ◌≤ℤ◌, pos, List, length, All, IfSome};
ghost use Rattle.map_base.specs.declared.ids.SegId.{SegId};
ghost use Rattle.order_model.specs.Parts.{IsRisingPart};
ghost use Rattle.order_model.specs.PartTerms.{part_terms};
ghost use Rattle.order_model.specs.Prefixes.{IsPrefixOf};
ghost use Rattle.order_bound.specs.Values.{value};
ghost use Rattle.prefix_bounds.specs.Completed.{CostsAtLeast};

use crate::allowed::are_allowed;
use crate::decided::decided_sum;
use crate::slots::{least_sum, sum};
use map_base::SegId;
use order_model::{Prefix, Problem};
use order_values::Prices;

/// The value of prices on the open Links of a prefix, which no completion of the prefix undercuts on the part; none exactly
/// where a price is not allowed: it is on no Link of the part, or on one that is decided on one of its segments, or above
/// the Link's weight. It takes no memory, and looks through the problem's terms for each two lines of a term on a segment.
pub fn value(problem: &Problem, part: &[SegId], prefix: &Prefix, prices: &Prices) -> Option<i64>
    requires rising { IsRisingPart part.now }
    requires fits { IsPrefixOf problem.now.segs prefix.now }
    ensures value { result ≡ value problem.now.segs part.now (part_terms problem.now.terms part.now) prefix.now.placed prices.now }
    ensures shown { IfSome result (CostsAtLeast problem.now part.now prefix.now.placed) }
{
    let list = prices.as_slice();
    if !are_allowed(problem, part, prefix, list) {
        return None;
    }
    let decided = decided_sum(problem, part, prefix);
    let least = least_sum(problem, part, prefix, list);
    Some(sum(least, decided as i64))
}
