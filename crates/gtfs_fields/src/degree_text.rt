//! Degree texts, read as whole microdegrees.

ghost use Rattle.std.specs.Prelude.{◌≡◌, ℕ, ◌+◌, ◌≤◌, length, take, drop, IfSome};
ghost use Rattle.std.specs.List.{position_or_len};
ghost use Rattle.gtfs_fields.specs.DegreeText.{degree_value, exponent_value, is_exponent_mark, is_negative, is_point, most_microdegrees, tens_of, unsigned_value, without_sign};

use crate::digits::{are_digits, digits_after};
use crate::scaling::microdegrees;
use crate::spaces::trim_spaces;

// How many digits an exponent has at most.
const EXPONENT_DIGITS: usize = 2;

/// The microdegrees that a degree text spells, cut towards zero. A degree text is an optional sign, digits with
/// at most one point and at least one digit in all, and an optional `e` or `E` with an optional sign and one or
/// two digits; spaces (U+0020) at both ends are passed over. There are none where the text is anything else, or
/// where the cut value is past 10^12 either way.
pub fn micro_degrees(text: &[u8]) -> Option<i64>
    ensures { result ≡ degree_value text.now }
{
    let (negative, unsigned) = split_sign(trim_spaces(text));
    let size = unsigned_micro_degrees(unsigned)? as i64;
    Some(if negative { -size } else { size })
}

// The microdegrees of a degree text without spaces and sign.
fn unsigned_micro_degrees(text: &[u8]) -> Option<u64>
    ensures value { result ≡ unsigned_value text.now }
    ensures bound { IfSome result (λ n. n ≤ most_microdegrees) }
{
    let mark = mark_place(text);
    let (up, down) = tens_at(text, mark)?;
    let mantissa = &text[..mark];
    let (units, decimals) = split_around(mantissa, point_place(mantissa));
    if !are_digits(units, decimals) {
        return None;
    }
    microdegrees(units, decimals, up, down)
}

// Whether a minus stands at the front, and the text without a sign there.
fn split_sign(text: &[u8]) -> (bool, &[u8])
    ensures negative { result.0 ≡ is_negative text.now }
    ensures rest { result.1.now ≡ without_sign text.now }
{
    match text {
        [b'-', rest @ ..] => (true, rest),
        [b'+', rest @ ..] => (false, rest),
        _ => (false, text),
    }
}

// The place of the first point, or the length.
fn point_place(text: &[u8]) -> usize
    ensures { result ≡ position_or_len is_point text.now }
{
    for (place, byte) in text.iter().enumerate() {
        if *byte == b'.' {
            return place;
        }
    }
    text.len()
}

fn is_mark(byte: u8) -> bool
    ensures { result ≡ is_exponent_mark byte }
{
    byte == b'e' || byte == b'E'
}

// The place of the first mark of an exponent, or the length.
fn mark_place(text: &[u8]) -> usize
    ensures { result ≡ position_or_len is_exponent_mark text.now }
{
    for (place, byte) in text.iter().enumerate() {
        if is_mark(*byte) {
            return place;
        }
    }
    text.len()
}

// The text before a place, and the text after the byte there.
fn split_around(text: &[u8], place: usize) -> (&[u8], &[u8])
    requires { place ≤ length text.now }
    ensures before { result.0.now ≡ take place text.now }
    ensures after { result.1.now ≡ drop (place + 1) text.now }
{
    let (before, after) = text.split_at(place);
    match after {
        [] => (before, after),
        [_, after @ ..] => (before, after),
    }
}

// How many tens an exponent multiplies by, and how many it divides by.
fn exponent_tens(text: &[u8]) -> Option<(usize, usize)>
    ensures value { result ≡ exponent_value text.now }
    ensures bound { IfSome result (λ t. t.0 ≤ 99) }
{
    let (negative, digits) = split_sign(text);
    if digits.is_empty() || digits.len() > EXPONENT_DIGITS {
        return None;
    }
    let tens = digits_after(0, digits, 99)? as usize;
    Some(if negative { (0, tens) } else { (tens, 0) })
}

// The tens of a text's exponent, where it has one.
fn tens_at(text: &[u8], mark: usize) -> Option<(usize, usize)>
    requires { mark ≡ position_or_len is_exponent_mark text.now }
    ensures value { result ≡ tens_of text.now }
    ensures bound { IfSome result (λ t. t.0 ≤ 99) }
{
    if mark == text.len() {
        return Some((0, 0));
    }
    exponent_tens(&text[mark + 1..])
}
