//! Whole numbers as they stand in a text.

ghost use Rattle.std.specs.Prelude.{◌≡◌, ◌≤◌, ◌^◌, OnOk, IfSome};
ghost use Rattle.decimal_text.specs.Numbers.{with_digit, with_digits, natural_of, negated, number_of, most_number, natural_within, from_to};

/// The greatest number that stands in a text, either way.
const MOST: u64 = 1_000_000_000_000_000;

/// The number that a byte makes of a number, as one more digit. There is none where it is no digit, or where the
/// number gets above the greatest.
fn digit_after(number: u64, byte: u8) -> Option<u64>
    requires number { number ≤ most_number }
    ensures value { result ≡ with_digit most_number number byte }
    ensures bound { IfSome result (λ n. n ≤ most_number) }
{
    if !byte.is_ascii_digit() {
        return None;
    }
    let longer = number * 10 + u64::from(byte - b'0');
    if longer > MOST { None } else { Some(longer) }
}

/// The number that a text makes of 0, its bytes as digits. There is none where a byte is no digit, or where the
/// number gets above the greatest.
fn digits_of(text: &[u8]) -> Option<u64>
    ensures value { result ≡ with_digits most_number 0 text.now }
    ensures bound { IfSome result (λ n. n ≤ most_number) }
{
    let mut number = 0;
    for byte in text {
        number = digit_after(number, *byte)?;
    }
    Some(number)
}

/// The number that a numeral writes. There is none where a text is no numeral, has leading zeros, or writes a
/// number above the greatest.
fn natural_of(text: &[u8]) -> Option<u64>
    ensures value { result ≡ natural_of text.now }
    ensures bound { IfSome result (λ n. n ≤ most_number) }
{
    if text.is_empty() || (text[0] == b'0' && text.len() > 1) {
        return None;
    }
    digits_of(text)
}

/// A number above 0, negated.
fn negated(number: u64) -> Option<i64>
    requires { number ≤ most_number }
    ensures { result ≡ negated number }
{
    if number == 0 {
        return None;
    }
    Some(-(number as i64))
}

/// The number that a word writes, from minus to plus the greatest, in its one spelling.
pub fn number_of(word: &[u8]) -> Option<i64>
    ensures { result ≡ number_of word.now }
{
    match word {
        [b'-', digits @ ..] => negated(natural_of(digits)?),
        _ => {
            let number = natural_of(word)?;
            Some(number as i64)
        }
    }
}

/// A number that is not negative and at most `most`.
pub fn natural_within(most: u64, number: i64) -> Option<u64>
    ensures { result ≡ natural_within most number }
{
    if number < 0 {
        return None;
    }
    let number = number as u64;
    if number > most { None } else { Some(number) }
}

/// A number of at least `least` and at most `most`.
pub fn from_to(least: u64, most: u64, number: i64) -> Option<u64>
    ensures { result ≡ from_to least most number }
{
    if number < 0 {
        return None;
    }
    let number = number as u64;
    if number < least || number > most {
        return None;
    }
    Some(number)
}
