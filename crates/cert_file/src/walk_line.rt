//! The line of a walk.

ghost use Rattle.std.specs.Prelude.{◌≡◌, Some, IfOk};
ghost use Rattle.decimal_text.specs.Lines.{words, words_behind};
ghost use Rattle.octi_grid.specs.Walks.{walk_by};
ghost use Rattle.cert_file.specs.Forms.{walk_with, walk_of, walk_in};

use crate::forms::is_number;
use crate::run_words::runs_in;
use decimal_text::{first_word, next_word, number_of};
use map_base::NoMemory;
use octi_grid::{GridPoint, Run, Walk};
use std::alloc::Global;

/// `walk S X Y RUN ..` of segment s: the start, and at least one run.
pub(crate) fn walk_in(alloc: Global, s: u32, line: &[u8]) -> Result<Option<Walk>, NoMemory>
    ensures { IfOk result (λ walk. walk ≡ walk_in s (words line.now)) }
{
    let (word, behind) = first_word(line);
    if word != b"walk".as_slice() {
        return Ok(None);
    }
    walk_of(alloc, s, behind)
}

/// What the words behind `walk` say.
fn walk_of(alloc: Global, s: u32, words: &[u8]) -> Result<Option<Walk>, NoMemory>
    ensures { IfOk result (λ walk. walk ≡ walk_of s (words_behind words.now)) }
{
    let Some((n, rest)) = next_word(words) else {
        return Ok(None);
    };
    let Some((x, rest)) = next_word(rest) else {
        return Ok(None);
    };
    let Some((y, rest)) = next_word(rest) else {
        return Ok(None);
    };
    let Some(runs) = runs_in(alloc, rest)? else {
        return Ok(None);
    };
    Ok(walk_with(s, number_of(n), number_of(x), number_of(y), runs))
}

/// The walk of segment s, where a word names this segment.
fn walk_with(s: u32, n: Option<i64>, x: Option<i64>, y: Option<i64>, runs: Vec<Run>) -> Option<Walk>
    ensures { result ≡ walk_with s n x y (Some runs.items) }
{
    let n = n?;
    let x = x?;
    let y = y?;
    if !is_number(s, n) {
        return None;
    }
    walk_from(x, y, runs)
}

/// The walk of these runs from a point.
fn walk_from(x: i64, y: i64, runs: Vec<Run>) -> Option<Walk>
    ensures { result ≡ walk_by (record { x = x; y = y }) runs.items }
{
    if x.unsigned_abs() > 10_000 {
        return None;
    }
    if y.unsigned_abs() > 10_000 {
        return None;
    }
    let start = GridPoint {
        x: x as i32,
        y: y as i32,
    };
    Walk::of_runs(start, runs)
}
