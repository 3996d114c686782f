//! Uses of edges by lines.

ghost use Rattle.std.specs.Prelude.{◌≡◌, ◌++◌, ◌∷◌, [], OnOk, IfOk, List};
ghost use Rattle.way_network.specs.declared.way.Way.{Way};
ghost use Rattle.way_network.specs.Uses.{uses_along, uses_of, AreUsesOf};

use crate::way::Way;
use map_base::NoMemory;
use std::alloc::Global;

/// A line runs over an edge, seen from one of its points. The fields stand in the order by which they are compared.
#[derive(Clone, Copy, PartialEq, Eq, PartialOrd, Ord)]
pub(crate) struct EdgeUse {
    pub(crate) from: u32,
    pub(crate) to: u32,
    pub(crate) line: u32,
}

fn push_both(uses: &mut Vec<EdgeUse>, a: u32, b: u32, line: u32) -> Result<(), NoMemory>
    ensures { OnOk result (uses.new.items ≡ uses.old.items ++ uses_along line (a ∷ b ∷ [])) }
{
    uses.push(EdgeUse {
        from: a,
        to: b,
        line,
    })?;
    uses.push(EdgeUse {
        from: b,
        to: a,
        line,
    })?;
    Ok(())
}

fn push_along(uses: &mut Vec<EdgeUse>, line: u32, points: &[u32]) -> Result<(), NoMemory>
    ensures { OnOk result (uses.new.items ≡ uses.old.items ++ uses_along line points.now) }
{
    for k in 1..points.len() {
        push_both(uses, points[k - 1], points[k], line)?;
    }
    Ok(())
}

fn uses_of(alloc: Global, ways: &[Way]) -> Result<Vec<EdgeUse>, NoMemory>
    ensures { IfOk result (λ uses. uses.items ≡ uses_of ways.now) }
{
    let mut uses = Vec::new(alloc);
    for way in ways {
        push_along(&mut uses, way.line.0, way.points.as_slice())?;
    }
    Ok(uses)
}

/// The uses of edges by all ways, from both points of each edge, in order.
pub(crate) fn uses_in_order(alloc: Global, ways: &[Way]) -> Result<Vec<EdgeUse>, NoMemory>
    ensures { IfOk result (λ uses. AreUsesOf ways.now uses.items) }
{
    let mut uses = uses_of(alloc, ways)?;
    uses.sort_unstable();
    Ok(uses)
}
