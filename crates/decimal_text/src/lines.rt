//! The line at the front of a text, and its words.

ghost use Rattle.std.specs.Prelude.{◌≡◌, ◌==◌, ◌∷◌, ◌<◌, ◌≤◌, ℕ, length, option_map, Some, None, if◌then◌else◌, IfOk, IfSome};
ghost use Rattle.std.specs.List.{position_or_len};
ghost use Rattle.decimal_text.specs.Lines.{words, words_behind, cut, first_line, numbers_behind, numbered, front};

use crate::numbers::number_of;
use map_base::NoMemory;

/// The place of the first byte of this kind, or the length of a text that has none.
fn place_of(text: &[u8], byte: u8) -> usize
    ensures place { result ≡ position_or_len (λ (b : ℕ). b == byte) text.now }
    ensures within { result ≤ length text.now }
{
    for (place, b) in text.iter().enumerate() {
        if *b == byte {
            return place;
        }
    }
    text.len()
}

/// The line at the front of a text, without its end, and what stands behind it. There is none where no line ends.
pub fn first_line(text: &[u8]) -> Option<(&[u8], &[u8])>
    ensures { option_map (λ x. (x.0.now, x.1.now)) result ≡ first_line text.now }
{
    let end = place_of(text, b'\n');
    if end == text.len() {
        return None;
    }
    let (line, behind) = text.split_at(end);
    Some((line, behind.split_at(1).1))
}

/// The first word of a line, and what stands behind it: nothing, or a space and further words.
pub fn first_word(line: &[u8]) -> (&[u8], &[u8])
    ensures words { words line.now ≡ result.0.now ∷ words_behind result.1.now }
    ensures shorter { length result.1.now ≤ length line.now }
{
    line.split_at(place_of(line, b' '))
}

/// The next of words with a space before each, and what stands behind it. There is none where no word is left.
pub fn next_word(words: &[u8]) -> Option<(&[u8], &[u8])>
    ensures words { words_behind words.now ≡ cut (option_map (λ x. (x.0.now, x.1.now)) result) }
    ensures shorter { IfSome result (λ x. length x.1.now < length words.now) }
{
    if words.is_empty() {
        return None;
    }
    Some(first_word(words.split_at(1).1))
}

/// Adds the numbers that words write, each with one space before it, if each of them writes one.
fn push_numbers(numbers: &mut Vec<i64>, words: &[u8]) -> Result<bool, NoMemory>
    ensures { IfOk result (λ all. numbers_behind numbers.old.items (words_behind words.now) ≡ (if all then Some numbers.new.items else None)) }
{
    let mut rest = words;
    while let Some((word, left)) = next_word(rest) {
        let Some(number) = number_of(word) else {
            return Ok(false);
        };
        numbers.push(number)?;
        rest = left;
    }
    Ok(true)
}

/// The first word of a line without its end. The numbers behind it replace those in `numbers`.
fn line_of<'a>(line: &'a [u8], numbers: &mut Vec<i64>) -> Result<Option<&'a [u8]>, NoMemory>
    ensures { IfOk result (λ word. option_map (λ w. record { word = w.now; numbers = numbers.new.items }) word ≡ numbered (words line.now)) }
{
    let (word, rest) = first_word(line);
    numbers.clear();
    if push_numbers(numbers, rest)? {
        Ok(Some(word))
    } else {
        Ok(None)
    }
}

/// The first word of the line at the front, and what stands behind the line, where all other words write numbers.
/// These replace those in `numbers`.
#[tactic(auto, unfolding(crate::specs::Lines::front))]
pub fn front_line<'a>(
    text: &'a [u8],
    numbers: &mut Vec<i64>,
) -> Result<Option<(&'a [u8], &'a [u8])>, NoMemory>
    ensures { IfOk result (λ found. option_map (λ x. (record { word = x.0.now; numbers = numbers.new.items }, x.1.now)) found ≡ front numbered text.now) }
{
    let Some((line, rest)) = first_line(text) else {
        return Ok(None);
    };
    match line_of(line, numbers)? {
        Some(word) => Ok(Some((word, rest))),
        None => Ok(None),
    }
}
