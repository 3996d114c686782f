//! The words of a line.

ghost use Rattle.std.specs.Prelude.{◌≡◌, ◌==◌, ◌∷◌, ◌<◌, ◌≤◌, ℕ, length, option_map};
ghost use Rattle.std.specs.List.{position_or_len};
ghost use Rattle.map_edits.specs.Words.{words, words_behind, cut, only_word, two_words, three_words};

/// The place of the first byte of this kind, or the length of a text that has none.
pub(crate) fn place_of(text: &[u8], byte: u8) -> usize
    ensures place { result ≡ position_or_len (λ (b : ℕ). b == byte) text.now }
    ensures within { result ≤ length text.now }
{
    for (place, b) in text.iter().enumerate() {
        if *b == byte {
            return place;
        }
    }
    text.len()
}

/// The first word of a line, and what stands behind it: nothing, or a TAB and further words.
pub(crate) fn first_word(line: &[u8]) -> (&[u8], &[u8])
    ensures { words line.now ≡ result.0.now ∷ words_behind result.1.now }
{
    line.split_at(place_of(line, b'\t'))
}

/// The next of words with a TAB before each, and what stands behind it. There is none where no word is left.
pub(crate) fn next_word(words: &[u8]) -> Option<(&[u8], &[u8])>
    ensures { words_behind words.now ≡ cut (option_map (λ x. (x.0.now, x.1.now)) result) }
{
    if words.is_empty() {
        return None;
    }
    Some(first_word(words.split_at(1).1))
}

/// The only one of words with a TAB before each.
#[tactic(auto, using(crate::proofs::WordLemmas::only_taken, crate::proofs::WordLemmas::only_refused, crate::proofs::WordLemmas::only_none))]
pub(crate) fn only_word(words: &[u8]) -> Option<&[u8]>
    ensures { option_map (λ x. x.now) result ≡ only_word (words_behind words.now) }
{
    let (word, rest) = next_word(words)?;
    if rest.is_empty() { Some(word) } else { None }
}

/// Two words with a TAB before each, where there are no more.
pub(crate) fn two_words(words: &[u8]) -> Option<(&[u8], &[u8])>
    ensures { option_map (λ x. (x.0.now, x.1.now)) result ≡ two_words (words_behind words.now) }
{
    let (first, rest) = next_word(words)?;
    let second = only_word(rest)?;
    Some((first, second))
}

/// Three words with a TAB before each, where there are no more.
pub(crate) fn three_words(words: &[u8]) -> Option<(&[u8], &[u8], &[u8])>
    ensures { option_map (λ x. (x.0.now, x.1.now, x.2.now)) result ≡ three_words (words_behind words.now) }
{
    let (first, rest) = next_word(words)?;
    let (second, third) = two_words(rest)?;
    Some((first, second, third))
}
