//! Numbers by their decimal digits.

ghost use Rattle.std.specs.Prelude.{◌≡◌, ℕ, ◌+◌, ◌*◌, ◌<◌, ◌≤◌, ◌^◌, ◌++◌, IfSome};
ghost use Rattle.std.specs.Char.{is_ascii_digit};
ghost use Rattle.std.specs.List.{list_all};
ghost use Rattle.gtfs_fields.specs.Digits.{are_digits, up_to, with_digit, with_digits};

/// The number that a byte makes of a number, as one more digit. There is none where it is no digit, or where the
/// number gets above `most`.
pub fn digit_after(number: u64, byte: u8, most: u64) -> Option<u64>
    requires number { number ≤ most }
    requires most { most < 2 ^ 60 }
    ensures value { result ≡ with_digit most number byte }
    ensures bound { IfSome result (λ n. n ≤ most) }
{
    if !byte.is_ascii_digit() {
        return None;
    }
    let longer = number * 10 + u64::from(byte - b'0');
    if longer > most { None } else { Some(longer) }
}

/// The number that a text makes of a number, its bytes as further digits. There is none where a byte is no digit,
/// or where the number gets above `most`.
pub fn digits_after(number: u64, text: &[u8], most: u64) -> Option<u64>
    requires number { number ≤ most }
    requires most { most < 2 ^ 60 }
    ensures value { result ≡ with_digits most number text.now }
    ensures bound { IfSome result (λ n. n ≤ most) }
{
    let mut longer = number;
    for byte in text {
        longer = digit_after(longer, *byte, most)?;
    }
    Some(longer)
}

/// A number with zeros behind it. There is none where it gets above `most`.
pub fn zeros_after(number: u64, zeros: usize, most: u64) -> Option<u64>
    requires number { number ≤ most }
    requires most { most < 2 ^ 60 }
    ensures value { result ≡ up_to most (number * 10 ^ zeros) }
    ensures bound { IfSome result (λ n. n ≤ most) }
{
    let mut longer = number;
    for _ in 0..zeros {
        longer = digit_after(longer, b'0', most)?;
    }
    Some(longer)
}

fn digits_alone(text: &[u8]) -> bool
    ensures { result ≡ list_all is_ascii_digit text.now }
{
    text.iter().all(|byte| byte.is_ascii_digit())
}

/// Whether both texts are digits alone, and one of them is not empty.
pub fn are_digits(units: &[u8], decimals: &[u8]) -> bool
    ensures { result ≡ are_digits (units.now ++ decimals.now) }
{
    if units.is_empty() && decimals.is_empty() {
        return false;
    }
    if !digits_alone(units) {
        return false;
    }
    digits_alone(decimals)
}
