//! Which of the known words was meant.

ghost use Rattle.std.specs.Prelude.{◌≡◌, length, IfOk};
ghost use Rattle.message_texts.specs.Meant.{IsMeant, IsNearestBelow, distance, near_enough, nearer};

use map_base::{NoMemory, Text};
use std::alloc::Global;
use strsim::levenshtein;

/// The place of the known word that was meant by `word`: one of the nearest, if it is near enough. Near enough is one
/// that is made of `word` by putting in, taking out or changing at most (n + 1) / 3 characters, where it has n bytes.
#[tactic(auto, using(crate::proofs::MeantLemmas::nearest_is_meant))]
pub fn meant(alloc: Global, word: &str, known: &[Text]) -> Result<Option<usize>, NoMemory>
    ensures { IfOk result (IsMeant word.now known.now) }
{
    let nearest = nearest(alloc, word, known)?;
    Ok(near_enough(word, nearest))
}

/// The place of one of the nearest known words, and how far it is; none where no word is known.
#[tactic(auto, using(crate::proofs::MeantLemmas::next_is_nearest))]
fn nearest(alloc: Global, word: &str, known: &[Text]) -> Result<Option<(usize, usize)>, NoMemory>
    ensures { IfOk result (IsNearestBelow word.now known.now (length known.now)) }
{
    let mut best = None;
    for place in 0..known.len() {
        let distance = distance(alloc, word, &known[place])?;
        best = nearer(best, place, distance);
    }
    Ok(best)
}

/// How many characters are put in, taken out or changed between a word and a known one.
fn distance(alloc: Global, word: &str, known: &Text) -> Result<usize, NoMemory>
    ensures { IfOk result (λ count. count ≡ distance word.now known.now) }
{
    Ok(levenshtein(alloc, word, known.as_str())?)
}

/// The best so far, or the next one where it is nearer.
fn nearer(best: Option<(usize, usize)>, place: usize, distance: usize) -> Option<(usize, usize)>
    ensures { result ≡ nearer best place distance }
{
    match best {
        Some((_, least)) if least <= distance => best,
        _ => Some((place, distance)),
    }
}

/// The place of the nearest word, if that is near enough to be meant.
fn near_enough(word: &str, nearest: Option<(usize, usize)>) -> Option<usize>
    ensures { result ≡ near_enough word.now nearest }
{
    let (place, distance) = nearest?;
    if distance <= (word.len() + 1) / 3 {
        Some(place)
    } else {
        None
    }
}
