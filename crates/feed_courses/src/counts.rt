//! Counts that have limits.

ghost use Rattle.std.specs.Prelude.{◌≡◌, ◌≤◌, IfErr, OnOk};
ghost use Rattle.map_base.specs.Limits.{limit_most};
ghost use Rattle.feed_courses.specs.Faults.{IsAbove, fault_of};

use map_base::{Limit, LimitFault, LimitKind};

/// Refuses a count above its limit.
pub(crate) fn check_count(kind: LimitKind, count: usize) -> Result<(), LimitFault>
    ensures within { OnOk result (count ≤ limit_most kind) }
    ensures cause { IfErr result (λ fault. IsAbove kind (limit_most kind) count fault) }
{
    if count as u64 > kind.most() {
        return Err(LimitFault::Limit(Limit::above(kind)));
    }
    Ok(())
}

/// A fault of sampling one course, as a fault of all courses: its limit is that of the samples of all.
pub(crate) fn as_fault_of_all_courses(fault: LimitFault) -> LimitFault
    ensures { result ≡ fault_of fault }
{
    match fault {
        LimitFault::Limit(_) => LimitFault::Limit(Limit::above(LimitKind::Samples)),
        LimitFault::NoMemory => LimitFault::NoMemory,
    }
}
