//! Digits before and behind a point, as a whole number of millionths.

ghost use Rattle.std.specs.Prelude.{◌≡◌, ℕ, ◌*◌, ◌/◌, ◌<◌, ◌≤◌, ◌^◌, ◌++◌, length, true, IfSome};
ghost use Rattle.std.specs.Str.{all_ascii_digits};
ghost use Rattle.std.specs.Str.Parse.{digits_value};
ghost use Rattle.gtfs_fields.specs.Digits.{up_to};
ghost use Rattle.gtfs_fields.specs.DegreeText.{microdegrees_of, most_microdegrees};

use crate::digits::{digits_after, zeros_after};

// The greatest number of microdegrees.
const MOST: u64 = 1_000_000_000_000;

// The number of the digits without as many of the last ones as given.
fn number_without_last(units: &[u8], cut: usize) -> Option<u64>
    requires { all_ascii_digits units.now ≡ true }
    ensures value { result ≡ up_to most_microdegrees (digits_value 10 units.now / 10 ^ cut) }
    ensures bound { IfSome result (λ n. n ≤ most_microdegrees) }
{
    let kept = units.len().saturating_sub(cut);
    digits_after(0, &units[..kept], MOST)
}

// The number of the digits before a point and as many behind it as given, zeros where they end.
fn number_with_places(units: &[u8], decimals: &[u8], places: usize) -> Option<u64>
    requires units { all_ascii_digits units.now ≡ true }
    requires decimals { all_ascii_digits decimals.now ≡ true }
    ensures value { result ≡ up_to most_microdegrees (digits_value 10 (units.now ++ decimals.now) * 10 ^ places / 10 ^ length decimals.now) }
    ensures bound { IfSome result (λ n. n ≤ most_microdegrees) }
{
    let taken = places.min(decimals.len());
    let number = digits_after(0, units, MOST)?;
    let number = digits_after(number, &decimals[..taken], MOST)?;
    zeros_after(number, places - taken, MOST)
}

/// The microdegrees of digits before a point and behind it, times tens.
pub fn microdegrees(units: &[u8], decimals: &[u8], up: usize, down: usize) -> Option<u64>
    requires units { all_ascii_digits units.now ≡ true }
    requires decimals { all_ascii_digits decimals.now ≡ true }
    requires up { up < 2 ^ 60 }
    ensures value { result ≡ up_to most_microdegrees (microdegrees_of units.now decimals.now (up, down)) }
    ensures bound { IfSome result (λ n. n ≤ most_microdegrees) }
{
    let up = 6 + up;
    if down > up {
        number_without_last(units, down - up)
    } else {
        number_with_places(units, decimals, up - down)
    }
}
