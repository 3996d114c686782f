//! Runs of steps as words: a direction and how many steps go that way, as `NE12`.

ghost use Rattle.std.specs.Prelude.{◌≡◌, ◌≤◌, length, option_map, IfOk};
ghost use Rattle.std.specs.Option.{option_and_then};
ghost use Rattle.decimal_text.specs.Lines.{words_behind};
ghost use Rattle.decimal_text.specs.Numbers.{from_to, number_of};
ghost use Rattle.cert_file.specs.RunWords.{dir_text, dir_of, name_end, run_of, run_with, runs_in, most_steps};

use decimal_text::{from_to, next_word, number_of};
use map_base::NoMemory;
use octi_grid::{Dir, Run};
use std::alloc::Global;

/// The name of a direction.
pub(crate) fn dir_text(dir: Dir) -> &'static [u8]
    ensures { result.now ≡ dir_text dir }
{
    match dir {
        Dir::N => b"N",
        Dir::NE => b"NE",
        Dir::E => b"E",
        Dir::SE => b"SE",
        Dir::S => b"S",
        Dir::SW => b"SW",
        Dir::W => b"W",
        Dir::NW => b"NW",
    }
}

/// The direction with this name.
fn dir_of(text: &[u8]) -> Option<Dir>
    ensures { result ≡ dir_of text.now }
{
    if text == dir_text(Dir::N) {
        Some(Dir::N)
    } else if text == dir_text(Dir::NE) {
        Some(Dir::NE)
    } else if text == dir_text(Dir::E) {
        Some(Dir::E)
    } else if text == dir_text(Dir::SE) {
        Some(Dir::SE)
    } else if text == dir_text(Dir::S) {
        Some(Dir::S)
    } else if text == dir_text(Dir::SW) {
        Some(Dir::SW)
    } else if text == dir_text(Dir::W) {
        Some(Dir::W)
    } else if text == dir_text(Dir::NW) {
        Some(Dir::NW)
    } else {
        None
    }
}

/// Where the name of the direction ends: at the first digit.
fn name_end(word: &[u8]) -> usize
    ensures place { result ≡ name_end word.now }
    ensures within { result ≤ length word.now }
{
    for (place, byte) in word.iter().enumerate() {
        if byte.is_ascii_digit() {
            return place;
        }
    }
    word.len()
}

/// The run that a word writes: a direction and at least one step.
fn run_of(word: &[u8]) -> Option<Run>
    ensures { result ≡ run_of word.now }
{
    let (name, count) = word.split_at(name_end(word));
    run_with(dir_of(name), count_of(count))
}

/// How many steps a word counts: at least one, and at most as many as the grid is wide.
fn count_of(word: &[u8]) -> Option<u32>
    ensures { result ≡ option_and_then (from_to 1 most_steps) (number_of word.now) }
{
    let count = number_of(word)?;
    let count = from_to(1, 20_000, count)?;
    Some(count as u32)
}

/// A run of a direction and a number of steps, where both are there.
fn run_with(dir: Option<Dir>, count: Option<u32>) -> Option<Run>
    ensures { result ≡ run_with dir count }
{
    match (dir, count) {
        (Some(dir), Some(count)) => Some(Run { dir, count }),
        _ => None,
    }
}

/// The runs that words write, each with one space before it, where each of them writes one.
pub(crate) fn runs_in(alloc: Global, words: &[u8]) -> Result<Option<Vec<Run>>, NoMemory>
    ensures { IfOk result (λ runs. option_map (λ v. v.items) runs ≡ runs_in (words_behind words.now)) }
{
    let mut runs = Vec::new(alloc);
    let mut rest = words;
    while let Some((word, left)) = next_word(rest) {
        let Some(run) = run_of(word) else {
            return Ok(None);
        };
        runs.push(run)?;
        rest = left;
    }
    Ok(Some(runs))
}
