//! The line at the front of a text.

ghost use Rattle.std.specs.Prelude.{◌≡◌, option_map, IfOk};
ghost use Rattle.decimal_text.specs.Readers.{IsRead};
ghost use Rattle.order_proof.specs.FrontLine.{word_of, front_line, begins_dual};

use crate::line_word::LineWord;
use decimal_text::Stop;
use map_base::NoMemory;

/// The word with this text.
fn word_of(text: &[u8]) -> Option<LineWord>
    ensures { result ≡ word_of text.now }
{
    if text == LineWord::Rules.text() {
        Some(LineWord::Rules)
    } else if text == LineWord::Merge.text() {
        Some(LineWord::Merge)
    } else if text == LineWord::Divide.text() {
        Some(LineWord::Divide)
    } else if text == LineWord::Parts.text() {
        Some(LineWord::Parts)
    } else if text == LineWord::Part.text() {
        Some(LineWord::Part)
    } else if text == LineWord::Split.text() {
        Some(LineWord::Split)
    } else if text == LineWord::Take.text() {
        Some(LineWord::Take)
    } else if text == LineWord::Close.text() {
        Some(LineWord::Close)
    } else if text == LineWord::Fork.text() {
        Some(LineWord::Fork)
    } else if text == LineWord::Stop.text() {
        Some(LineWord::Stop)
    } else {
        None
    }
}

/// The word of the line at the front, and what stands behind the line. Its numbers replace those in `numbers`.
pub(crate) fn front_line<'a>(
    text: &'a [u8],
    numbers: &mut Vec<i64>,
) -> Result<Option<(LineWord, &'a [u8])>, NoMemory>
    ensures { IfOk result (λ found. option_map (λ x. (record { word = x.0; numbers = numbers.new.items }, x.1.now)) found ≡ front_line text.now) }
{
    let Some((word, rest)) = decimal_text::front_line(text, numbers)? else {
        return Ok(None);
    };
    match word_of(word) {
        Some(word) => Ok(Some((word, rest))),
        None => Ok(None),
    }
}

/// The word of the line at the front. Its numbers replace those in `numbers`.
pub(crate) fn read_line<'a>(
    text: &'a [u8],
    numbers: &mut Vec<i64>,
) -> Result<(LineWord, &'a [u8]), Stop>
    ensures { IsRead (λ x. (record { word = x.0; numbers = numbers.new.items }, x.1.now)) result text.now (front_line text.now) }
{
    match front_line(text, numbers)? {
        Some(found) => Ok(found),
        None => Err(Stop::Wrong(text.len())),
    }
}

/// Whether a text begins with a word of the lines of dual trees.
pub(crate) fn begins_dual(text: &[u8]) -> bool
    ensures { result ≡ begins_dual text.now }
{
    if text.starts_with(LineWord::Fork.text()) {
        return true;
    }
    text.starts_with(LineWord::Stop.text())
}
