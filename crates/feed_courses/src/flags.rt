//! Numbers that are flagged.

ghost use Rattle.std.specs.Prelude.{◌≡◌, ℕ, ◌<◌, ◌^◌, ◌||◌, ◌==◌, IfOk, length};
ghost use Rattle.feed_courses.specs.Flags.{flag_at, flagged};

use map_base::NoMemory;
use std::alloc::Global;

/// Flags a number.
pub(crate) fn flag(flags: &mut [bool], number: u32)
    requires in_range { number < length flags.old }
    ensures count { length flags.new ≡ length flags.old }
    ensures flagged { (k : ℕ) → flag_at flags.new k ≡ (flag_at flags.old k || number == k) }
{
    flags[number as usize] = true;
}

/// The numbers that are flagged, rising.
#[tactic(auto, using(crate::proofs::Lists::number_kept, crate::proofs::Lists::number_left))]
pub(crate) fn flagged(alloc: Global, flags: &[bool]) -> Result<Vec<u32>, NoMemory>
    requires few { length flags.now < 2 ^ 32 }
    ensures { IfOk result (λ numbers. numbers.items ≡ flagged flags.now) }
{
    let mut numbers = Vec::new(alloc);
    for number in 0..flags.len() {
        if flags[number] {
            numbers.push(number as u32)?;
        }
    }
    Ok(numbers)
}
