//! The word with which more than half of many names begin.

ghost use Rattle.std.specs.Prelude.{◌≡◌, ◌≤◌, ◌<◌, ◌+◌, ◌*◌, ◌++◌, ◌∷◌, [], List, ℕ, length, false, bytes_eq, None};
ghost use Rattle.name_widths.specs.Words.{begins_with, count_with, is_common, parts, rest_of};
ghost use Rattle.name_widths.specs.Votes.{is_that, texts_of, IsVote};

use crate::words::parts;

/// The word with which more than half of these names begin and go on behind it, if there is one.
pub fn common_word<'a>(names: &[&'a str]) -> Option<&'a str>
    ensures { (word : List ℕ) → is_common (texts_of names.now) word ≡ is_that word result }
{
    let word = leading_word(names);
    if names.len() / 2 < count_with(names, word) {
        Some(word)
    } else {
        None
    }
}

/// How many of these names begin with a word.
fn count_with(names: &[&str], word: &str) -> usize
    ensures { result ≡ count_with (texts_of names.now) word.now }
{
    let mut count = 0;
    for name in names {
        if begins_with(*name, word) {
            count += 1;
        }
    }
    count
}

/// Whether a name begins with a word, and goes on behind it.
fn begins_with(name: &str, word: &str) -> bool
    ensures { result ≡ begins_with word.now name.now }
{
    match parts(name) {
        None => false,
        Some((first, _)) => first == word,
    }
}

/// A word that leads a vote, and by how much.
#[derive(Clone, Copy)]
struct Vote<'a> {
    word: &'a str,
    lead: usize,
}

/// The word that leads a vote over names. No other one is that of more than half of them.
fn leading_word<'a>(names: &[&'a str]) -> &'a str
    ensures { (other : List ℕ) → bytes_eq result.now other ≡ false → 2 * count_with (texts_of names.now) other ≤ length names.now }
{
    let mut vote = Vote { word: "", lead: 0 };
    for name in names {
        vote = with_vote(vote, *name);
    }
    vote.word
}

/// A vote after one name more.
fn with_vote<'a>(vote: Vote<'a>, name: &'a str) -> Vote<'a>
    requires { vote.lead < usize.MAX }
    ensures vote { (names : List (List ℕ)) → IsVote names vote.entry.word.now vote.entry.lead → IsVote (names ++ name.now ∷ []) result.word.now result.lead }
    ensures lead { result.lead ≤ vote.entry.lead + 1 }
{
    match parts(name) {
        None => Vote {
            word: vote.word,
            lead: vote.lead.saturating_sub(1),
        },
        Some((word, _)) => {
            if vote.lead == 0 {
                Vote { word, lead: 1 }
            } else if word == vote.word {
                Vote {
                    word: vote.word,
                    lead: vote.lead + 1,
                }
            } else {
                Vote {
                    word: vote.word,
                    lead: vote.lead - 1,
                }
            }
        }
    }
}

/// What is left of a name without its first word and the space behind it, where that is the word with which more than
/// half of some names begin, as `common_word` finds it.
pub fn rest_of<'a>(common: Option<&str>, name: &'a str) -> &'a str
    ensures { (names : List (List ℕ)) → ((word : List ℕ) → is_common names word ≡ is_that word common.entry) → result.now ≡ rest_of names name.now }
{
    match parts(name) {
        None => name,
        Some((word, rest)) => { if is_that(word, common) { rest } else { name } }
    }
}

/// Whether a word is this one, if there is one.
fn is_that(word: &str, common: Option<&str>) -> bool
    ensures { result ≡ is_that word.now common.entry }
{
    match common {
        None => false,
        Some(other) => other == word,
    }
}
