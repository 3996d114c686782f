//! How wide texts are.

ghost use Rattle.std.specs.Prelude.{◌≡◌, ◌≤◌, ◌<◌, ◌*◌, IfOk, IfErr};
ghost use Rattle.name_widths.specs.Widths.{char_width, is_capital, is_one_of, narrow, text_width, wide};

use map_base::NoMemory;

/// How wide a text is, in tenths of the size of its type. A text that is too long to reckon with has no room.
pub fn text_width(text: &str) -> Result<u64, NoMemory>
    ensures value { IfOk result (λ w. w ≡ text_width text.now) }
    ensures small { IfOk result (λ w. w ≤ 1152921504606846986) }
    ensures room { IfErr result (λ _. 1152921504606846976 < text_width text.now) }
{
    let mut width: u64 = 0;
    for c in text.chars() {
        if width > 1_152_921_504_606_846_976 {
            return Err(NoMemory);
        }
        width += char_width(c);
    }
    Ok(width)
}

/// How wide a character is.
fn char_width(c: char) -> u64
    ensures value { result ≡ char_width c }
    ensures small { result ≤ 10 }
{
    let code = c as u32;
    if is_narrow(code) {
        3
    } else if is_capital(code) || is_wide(code) {
        8
    } else if code >= 0x2e80 {
        10
    } else {
        6
    }
}

/// Whether a character is a capital of the letters A to Z.
fn is_capital(code: u32) -> bool
    ensures { result ≡ is_capital code }
{
    65 <= code && code <= 90
}

/// Whether a character is narrow.
fn is_narrow(code: u32) -> bool
    ensures { result ≡ is_one_of narrow code }
{
    is_one_of(b" !'(),-./:;I[]fijlrt|", code)
}

/// Whether a character is wide, and no capital.
fn is_wide(code: u32) -> bool
    ensures { result ≡ is_one_of wide code }
{
    is_one_of(b"mw&%@", code)
}

/// Whether a character is one of these.
fn is_one_of(list: &[u8], code: u32) -> bool
    ensures { result ≡ is_one_of list.now code }
{
    for known in list {
        if u32::from(*known) == code {
            return true;
        }
    }
    false
}
