//! The first bad row of a table whose rows may repeat each other.

ghost use Rattle.std.specs.Prelude.{◌≡◌, ◌<◌, ◌≤◌, ◌^◌, length, slice_index, option_map, IfSome};
ghost use Rattle.sequence_tables.specs.Reads.{first_refused};

use crate::places::Places;
use table_rows::Why;

/// The first bad row, told the first of the rows read that repeats an earlier one, if one does, the place of each row
/// that was read, and what is wrong with the row at which reading stopped.
pub(crate) fn first_refused(
    repeat: Option<usize>,
    places: &Places,
    upto: usize,
    stopped: Option<Why>,
) -> Option<(usize, Why)>
    requires within { IfSome repeat (λ read. read < length places.now) }
    requires few { upto ≤ 2 ^ 32 }
    ensures first { result ≡ first_refused (option_map (slice_index places.now) repeat) (option_map (λ why. (upto, why)) stopped) }
    ensures low { IfSome result (λ bad. bad.0 < 2 ^ 33) }
{
    if let Some(read) = repeat {
        return Some((places.at(read), Why::RepeatedSequence));
    }
    match stopped {
        None => None,
        Some(why) => Some((upto, why)),
    }
}
