//! How much work the stops of a tree are.

ghost use Rattle.std.specs.Prelude.{◌≡◌, ◌+◌, ◌*◌, ◌/◌, ◌^◌, ◌<◌, ◌≤◌, min, [], length, sum_by, All};
ghost use Rattle.map_base.specs.declared.ids.SegId.{SegId};
ghost use Rattle.order_values.specs.DualTrees.{plain_dual, stops_of};
ghost use Rattle.order_model.specs.Problems.{lines_on};
ghost use Rattle.order_model.specs.Questions.{question};
ghost use Rattle.dual_bound.specs.Accepting.{steps_on, is_light};

use map_base::SegId;
use order_model::Problem;
use order_values::DualTree;

/// From here on steps are not counted: so many are too many for one stop.
const MOST_STEPS: u64 = 1_000_000_000_000;

/// From here on stops are not counted.
const MOST_STOPS: u64 = 1_000_000;

/// How many steps the least share of so many lines takes.
fn steps_of(lines: usize) -> u64
    ensures { result ≡ min (lines * lines * 2 ^ lines) 1000000000000 }
{
    if lines > 30 {
        return MOST_STEPS;
    }
    (lines * lines) as u64 * (1 << lines)
}

/// How many steps the least shares of all these segments take.
fn steps_on(problem: &Problem, part: &[SegId]) -> u64
    requires { All (λ (s : SegId). s.0 < length problem.now.segs) part.now }
    ensures { result ≡ min (sum_by (steps_on problem.now.segs) part.now) 1000000000000 }
{
    let segs = problem.segs();
    let mut total: u64 = 0;
    for s in part {
        let more = steps_of(segs[s.0 as usize].as_slice().len());
        total = (total + more).min(MOST_STEPS);
    }
    total
}

/// How many stops a tree has.
fn stops_of(tree: &DualTree) -> u64
    ensures { result ≡ min (stops_of (plain_dual tree.now)) 1000000 }
{
    match tree {
        DualTree::Stop { .. } => 1,
        DualTree::Fork { first, second, .. } => (stops_of(first) + stops_of(second)).min(
            MOST_STOPS,
        ),
    }
}

/// Whether a tree has few enough stops for the load of a part.
pub(crate) fn is_light(problem: &Problem, part: &[SegId], tree: &DualTree) -> bool
    requires { All (λ (s : SegId). s.0 < length problem.now.segs) part.now }
    ensures { result ≡ is_light (question problem.now.segs part.now [] 0) (plain_dual tree.now) }
{
    let load = steps_on(problem, part).div_ceil(1_000_000);
    stops_of(tree) * load <= 100_000
}
