//! Lists of numbers.

ghost use Rattle.std.specs.Prelude.{◌≡◌, ◌<◌, ◌++◌, ◌∷◌, [], length, slice_index_or, slice_set, IfOk, OnOk};
ghost use Rattle.line_calls.specs.Tables.{lists_in, AreEmpty};

use map_base::NoMemory;
use std::alloc::Global;

/// So many lists without a number.
pub(crate) fn empty_lists(alloc: Global, count: usize) -> Result<Vec<Vec<u32>>, NoMemory>
    ensures { IfOk result (λ lists. AreEmpty count (lists_in lists.items)) }
{
    let mut lists = Vec::with_capacity(alloc, count)?;
    for _ in 0..count {
        lists.push(Vec::new(alloc))?;
    }
    Ok(lists)
}

/// Appends a number to one of the lists.
pub(crate) fn push_at(lists: &mut Vec<Vec<u32>>, place: usize, number: u32) -> Result<(), NoMemory>
    requires { place < length lists.old.items }
    ensures { OnOk result (lists_in lists.new.items ≡ slice_set (lists_in lists.old.items) place (slice_index_or (lists_in lists.old.items) place [] ++ number ∷ [])) }
{
    let list = &mut lists[place];
    list.push(number)?;
    Ok(())
}
