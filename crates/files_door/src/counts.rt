//! Counts that stay at the greatest number.

ghost use Rattle.std.specs.Prelude.{◌≡◌};
ghost use Rattle.files_door.specs.Counts.{next_count};

/// One more, unless the count stands at the greatest number.
pub fn next(count: u64) -> u64
    ensures { result ≡ next_count count }
{
    if count == u64::MAX { count } else { count + 1 }
}
