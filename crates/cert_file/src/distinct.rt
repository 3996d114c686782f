//! Whether lines are distinct.

ghost use Rattle.std.specs.Prelude.{◌≡◌, ◌↔◌, IsTrue, IfOk, map};
ghost use Rattle.std.specs.List.Sorted.{IsNonDecreasing, IsStrictlyIncreasing};
ghost use Rattle.cert_file.specs.Forms.{are_distinct, numbers_of_lines};

use map_base::{LineId, NoMemory};
use std::alloc::Global;

/// Whether no line stands twice. The lines are sorted for it.
pub(crate) fn are_distinct(alloc: Global, lines: &[LineId]) -> Result<bool, NoMemory>
    ensures { IfOk result (λ b. b ≡ are_distinct lines.now) }
{
    let mut numbers = numbers_of(alloc, lines)?;
    numbers.sort_unstable();
    Ok(rise(numbers.as_slice()))
}

/// The numbers of lines.
fn numbers_of(alloc: Global, lines: &[LineId]) -> Result<Vec<u32>, NoMemory>
    ensures { IfOk result (λ v. v.items ≡ numbers_of_lines lines.now) }
{
    let mut numbers = Vec::with_capacity(alloc, lines.len())?;
    for line in lines {
        numbers.push(line.0)?;
    }
    Ok(numbers)
}

/// Whether numbers rise strictly.
fn rise(numbers: &[u32]) -> bool
    ensures { IsTrue result ↔ IsStrictlyIncreasing numbers.now }
{
    for i in 1..numbers.len() {
        if numbers[i - 1] >= numbers[i] {
            return false;
        }
    }
    true
}
