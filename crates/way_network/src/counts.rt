//! Counts that have limits.

ghost use Rattle.std.specs.Prelude.{◌≡◌, ◌≤◌, IfErr, OnOk};
ghost use Rattle.map_base.specs.Limits.{limit_most};
ghost use Rattle.way_network.specs.Faults.{IsAbove};

use map_base::{Limit, LimitFault, LimitKind};

/// Refuses a count above its limit.
pub(crate) fn check_count(kind: LimitKind, count: usize) -> Result<(), LimitFault>
    ensures within { OnOk result (count ≤ limit_most kind) }
    ensures cause { IfErr result (λ fault. IsAbove kind count fault) }
{
    if count as u64 > kind.most() {
        return Err(LimitFault::Limit(Limit::above(kind)));
    }
    Ok(())
}
