//! The part of each segment, by number.

ghost use Rattle.std.specs.Prelude.{◌≡◌, ◌<◌, length, All, IfOk, slice_set};
ghost use Rattle.map_base.specs.declared.ids.SegId.{SegId};
ghost use Rattle.order_model.specs.Parts.{AreParts};
ghost use Rattle.order_model.specs.Gathering.{part_lists};
ghost use Rattle.order_model.specs.Numbers.{AreNumbers, AreGiven};

use crate::problem::Problem;
use map_base::{NoMemory, SegId};
use std::alloc::Global;

/// For each segment of a problem the number of its part, from 0; where it is of none, the count of parts.
pub fn numbers_of(
    alloc: Global,
    problem: &Problem,
    parts: &[Vec<SegId>],
) -> Result<Vec<u32>, NoMemory>
    requires parts { AreParts problem.now.segs problem.now.terms (part_lists parts.now) }
    ensures { IfOk result (λ numbers. AreNumbers (part_lists parts.now) (length problem.now.segs) numbers.items) }
{
    let count = problem.segs().len();
    let absent = parts.len() as u32;
    let mut numbers = vec![in alloc; absent; count]?;
    for k in 0..parts.len() {
        set_numbers(numbers.as_mut_slice(), parts[k].as_slice(), k as u32);
    }
    Ok(numbers)
}

/// Gives each of these segments this number.
fn set_numbers(numbers: &mut [u32], part: &[SegId], k: u32)
    requires { All (λ (s : SegId). s.0 < length numbers.old) part.now }
    ensures { AreGiven part.now k numbers.old numbers.new }
{
    for s in part {
        set_number(numbers, *s, k);
    }
}

/// Gives a segment this number.
fn set_number(numbers: &mut [u32], s: SegId, k: u32)
    requires { s.0 < length numbers.old }
    ensures { numbers.new ≡ slice_set numbers.old s.0 k }
{
    numbers[s.0 as usize] = k;
}
