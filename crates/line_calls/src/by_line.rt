//! The patterns of each line.

ghost use Rattle.std.specs.Prelude.{◌≡◌, ◌<◌, ◌+◌, ◌^◌, All, IfOk, OnOk, length};
ghost use Rattle.feed_courses.specs.Shown.{is_shown};
ghost use Rattle.transit_feed.specs.declared.pattern.Pattern.{Pattern};
ghost use Rattle.line_calls.specs.Tables.{lists_in, AreByLine};

use crate::lists::{empty_lists, push_at};
use map_base::NoMemory;
use std::alloc::Global;
use transit_feed::{Line, Pattern};

/// For each line the numbers of its patterns in the order of the feed, none where it is hidden.
pub(crate) fn numbers_by_line(
    alloc: Global,
    lines: &[Line],
    patterns: &[Pattern],
) -> Result<Vec<Vec<u32>>, NoMemory>
    requires few { length patterns.now < 2 ^ 32 }
    requires known { All (λ (p : Pattern). p.line.0 < length lines.now) patterns.now }
    ensures { IfOk result (λ lists. AreByLine lines.now patterns.now (length patterns.now) (lists_in lists.items)) }
{
    let mut lists = empty_lists(alloc, lines.len())?;
    for k in 0..patterns.len() {
        put_pattern(&mut lists, lines, patterns, k)?;
    }
    Ok(lists)
}

/// Puts the number of a pattern behind those of its line, where that is not hidden.
fn put_pattern(
    lists: &mut Vec<Vec<u32>>,
    lines: &[Line],
    patterns: &[Pattern],
    k: usize,
) -> Result<(), NoMemory>
    requires few { length patterns.now < 2 ^ 32 }
    requires place { k < length patterns.now }
    requires known { All (λ (p : Pattern). p.line.0 < length lines.now) patterns.now }
    requires before { AreByLine lines.now patterns.now k (lists_in lists.old.items) }
    ensures { OnOk result (AreByLine lines.now patterns.now (k + 1) (lists_in lists.new.items)) }
{
    let pattern = &patterns[k];
    if !is_shown(lines, pattern) {
        return Ok(());
    }
    push_at(lists, pattern.line.0 as usize, k as u32)?;
    Ok(())
}

/// Whether the line of a pattern is not hidden.
fn is_shown(lines: &[Line], pattern: &Pattern) -> bool
    requires { pattern.now.line.0 < length lines.now }
    ensures { result ≡ is_shown lines.now pattern.now }
{
    !lines[pattern.line.0 as usize].hidden
}
