//! The command `session` over files in memory, with little room for its draws.

use crate::command_tests::{run_on, words_of};
use crate::map_tests::{SMALLEST_CERTIFICATE, SMALLEST_MAP, at, put_file, smallest_feed};
use files_door::{MemorySinks, SteadyFiles, Target};
use std::alloc::Global;
use std::test::Fail;

/// The status of `session` with a script over the smallest feed and with so much room, what it says, and its output.
fn played(alloc: Global, script: &str, room: u64) -> Result<(u8, Vec<u8>, Vec<u8>), Fail> {
    let words = words_of(alloc, "session feed script out")?;
    let mut files = smallest_feed(alloc)?;
    put_file(alloc, &mut files, "script", script)?;
    let mut files = SteadyFiles::with(files);
    let mut sinks = MemorySinks::with_room(alloc, room);
    let status = run_on(alloc, &words, &mut files, &mut sinks);
    let said = sinks.written(&Target::Said).unwrap_or(b"");
    let drawn = sinks
        .written(&at(alloc, "out")?)
        .unwrap_or(b"nothing is begun");
    Ok((status, said.to_vec(alloc)?, drawn.to_vec(alloc)?))
}

/// The draw of the smallest feed with this number.
fn drawn(alloc: Global, number: u32) -> Result<String, Fail> {
    let length = SMALLEST_MAP.len();
    Ok(format!(in alloc; "draw {number} {length} 70\n{SMALLEST_MAP}{SMALLEST_CERTIFICATE}")?)
}

/// A draw takes 540 bytes. Where writing fails within a draw, what stands is a beginning.
#[test]
fn draws_are_written_as_they_are_made(rt: HostRuntime) -> Result<(), Fail> {
    let alloc = rt.alloc();
    let (first, second) = (drawn(alloc, 1)?, drawn(alloc, 2)?);
    let (first, second) = (first.as_str(), second.as_str());
    let both = format!(in alloc; "{first}{second}")?;
    for (script, room, status, said, length) in [
        ("draw\ndraw\n", 540, 8, "", 540),
        ("draw\ndraw\n", 700, 8, "", 700),
        ("draw\nnone\n", 543, 11, "bad", 540),
    ] {
        let (ended, answer, text) = played(alloc, script, room)?;
        assert_eq!(rt; ended, status);
        assert_eq!(rt; answer.as_slice(), said.as_bytes());
        assert_eq!(rt; text.len(), length);
        assert!(rt; both.as_str().as_bytes().starts_with(text.as_slice()));
    }
    Ok(())
}
