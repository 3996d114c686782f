//! Degrees of a place, as a field spells them.

ghost use Rattle.std.specs.Prelude.{◌≡◌};
ghost use Rattle.table_rows.specs.Values.{degrees_of};
ghost use Rattle.table_rows.specs.Degrees.{within, latitude_of, longitude_of};

use crate::values::degrees_of;

/// The microdegrees that a field spells, where they are at most `most` either way.
fn degrees(field: &[u8], most: u64) -> Option<i64>
    ensures { result ≡ within most (degrees_of field.now) }
{
    match degrees_of(field) {
        None => None,
        Some(value) => {
            if value.unsigned_abs() <= most {
                Some(value)
            } else {
                None
            }
        }
    }
}

/// The latitude that a field spells.
pub fn latitude_of(field: &[u8]) -> Option<i64>
    ensures { result ≡ latitude_of field.now }
{
    degrees(field, 90_000_000)
}

/// The longitude that a field spells.
pub fn longitude_of(field: &[u8]) -> Option<i64>
    ensures { result ≡ longitude_of field.now }
{
    degrees(field, 180_000_000)
}
