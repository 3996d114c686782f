//! Whole numbers of 32 bits.

ghost use Rattle.std.specs.Prelude.{◌≡◌};
ghost use Rattle.gtfs_fields.specs.WholeNumber.{whole_value};

use crate::digits::digits_after;
use crate::spaces::trim_spaces;

/// The number that one or more decimal digits spell, spaces (U+0020) at both ends passed over and leading
/// zeros allowed. There is none where the text is anything else, or where the number is above 4294967295.
pub fn whole(text: &[u8]) -> Option<u32>
    ensures { result ≡ whole_value text.now }
{
    let digits = trim_spaces(text);
    if digits.is_empty() {
        return None;
    }
    let number = digits_after(0, digits, u64::from(u32::MAX))?;
    Some(number as u32)
}
