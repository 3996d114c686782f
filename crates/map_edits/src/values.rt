//! What the words of an edit say.

ghost use Rattle.std.specs.Prelude.{◌≡◌, ◌≤◌, ◌⊎◌, IfSome, IfOk, option_map};
ghost use Rattle.map_base.specs.Settings.{AreLight};
ghost use Rattle.map_edits.specs.Answers.{Gives};
ghost use Rattle.map_edits.specs.Values.{name_in, id_in, number_in, number_within, cell_in, weights_in};

use crate::fault::EditStop;
use map_base::{Text, Weights};
use std::alloc::Global;
use table_rows::number_of;

/// A name: any text, which may be empty.
#[tactic(auto, using(crate::proofs::ValueLemmas::name_of, crate::proofs::ValueLemmas::no_name))]
pub(crate) fn name_in(alloc: Global, word: &[u8]) -> Result<Text, EditStop>
    ensures { Gives result (name_in word.now) }
{
    match str::from_utf8(word) {
        Ok(text) => Ok(Text::of(alloc, text)?),
        Err(_) => Err(EditStop::BadEdit),
    }
}

/// An id: a text that is not empty.
pub(crate) fn id_in(alloc: Global, word: &[u8]) -> Result<Text, EditStop>
    ensures { Gives result (id_in word.now) }
{
    if word.is_empty() {
        return Err(EditStop::BadEdit);
    }
    name_in(alloc, word)
}

/// A whole number, without spaces.
fn number_in(word: &[u8]) -> Option<u32>
    ensures { result ≡ number_in word.now }
{
    if word.contains(&b' ') {
        return None;
    }
    number_of(word)
}

/// A whole number from `least` to `most`.
pub(crate) fn number_within(least: u32, most: u32, word: &[u8]) -> Option<u32>
    ensures value { result ≡ number_within least most word.now }
    ensures range { IfSome result (λ n. (least ≤ n) × (n ≤ most)) }
{
    let number = number_in(word)?;
    if least <= number && number <= most {
        Some(number)
    } else {
        None
    }
}

/// The side of a cell: 0, or 10 to 1,000,000 decimetres.
pub(crate) fn cell_in(word: &[u8]) -> Option<u32>
    ensures value { result ≡ cell_in word.now }
    ensures range { IfSome result (λ cell. (cell ≡ 0) ⊎ ((10 ≤ cell) × (cell ≤ 1000000))) }
{
    let cell = number_within(0, 1_000_000, word)?;
    if cell == 0 || cell >= 10 {
        Some(cell)
    } else {
        None
    }
}

/// The weights of a crossing, a split and a separation, each 0 to 1,000.
pub(crate) fn weights_in(link: &[u8], split: &[u8], sep: &[u8]) -> Option<Weights>
    ensures value { result ≡ weights_in (link.now, split.now, sep.now) }
    ensures range { IfSome result AreLight }
{
    let link = number_within(0, 1_000, link)?;
    let split = number_within(0, 1_000, split)?;
    let sep = number_within(0, 1_000, sep)?;
    Some(Weights { link, split, sep })
}
