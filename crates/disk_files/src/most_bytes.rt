//! How long a file may get.

ghost use Rattle.std.specs.Prelude.{◌≤◌, length, IfOk};

use crate::retries::read_once;
use std::fs::{File, Metadata};
use std::{io, rt};

/// Where the system tells, in lines of ASCII, what limits it sets to this process.
const LIMITS: &str = "/proc/self/limits";

/// How the line of a file's greatest length begins. Its next word is the number of bytes, or says that there is no
/// limit.
const FILE_SIZE: &str = "Max file size";

/// The length that the system lets this process give a file, in bytes: a write behind it would end the process by a
/// signal. The greatest number where there is no limit, or the system tells of none.
pub fn most_bytes<R: rt::Files>(rt: &R) -> u64 {
    let mut lines = [0u8; 1_024];
    match read_limits(rt, &mut lines) {
        Ok(count) => limit_in(&lines[..count]).unwrap_or(u64::MAX),
        Err(_) => u64::MAX,
    }
}

/// Reads the beginning of what the system tells of limits; answers its length.
fn read_limits<R: rt::Files>(rt: &R, into: &mut [u8]) -> io::Result<usize>
    ensures bound { IfOk result (λ count. count ≤ length into.new) }
{
    let mut file = File::open(rt, LIMITS)?;
    read_once(&mut file, into)
}

/// The greatest length of a file by these lines, if they tell one.
fn limit_in(lines: &[u8]) -> Option<u64> {
    let lines = str::from_utf8(lines).ok()?;
    let rest = lines.lines().find_map(|line| line.strip_prefix(FILE_SIZE))?;
    rest.split_whitespace().next()?.parse().ok()
}

/// Whether an open file is a file of a disk, and as long as it may be.
pub fn is_full(found: &Metadata, most: u64) -> bool {
    found.is_file() && found.len() >= most
}
