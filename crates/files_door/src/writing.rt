//! Writing all bytes to the current target.

ghost use Rattle.std.specs.Prelude.{◌≡◌, ◌≤◌, ◌<◌, length, take, IsSome, IfOk, IfErr, OnOk, OnErr};
ghost use Rattle.files_door.specs.Acts.{Does, puts};
ghost use Rattle.files_door.specs.Writing.{WriteCause, stopped, written_before};

use crate::sinks::Sinks;
use crate::stop::Stop;
use thiserror::Error;

/// Why not all bytes were written.
#[derive(Clone, Copy, Debug, PartialEq, Eq, Error)]
pub enum WriteStop {
    /// Writing failed after this many bytes.
    #[error("writing failed after {written} bytes")]
    Fault { written: u64 },
    /// The allocator had no room after this many bytes.
    #[error("out of memory after {written} bytes")]
    NoMemory { written: u64 },
}

/// Appends all the bytes to the current target.
///
/// After a refusal exactly the first bytes were appended, as many as it says and fewer than all.
pub fn write_all<S: Sinks>(sinks: &mut S, bytes: &[u8]) -> Result<(), WriteStop>
    requires { IsSome (S.current sinks.old) }
    ensures all { OnOk result (Does (puts (S.current sinks.old) bytes.now) (S.written sinks.old) (S.written sinks.new)) }
    ensures front { IfErr result (λ stop. Does (puts (S.current sinks.old) (take (written_before stop) bytes.now)) (S.written sinks.old) (S.written sinks.new)) }
    ensures fewer { IfErr result (λ stop. written_before stop < length bytes.now) }
    ensures cause { IfErr result (WriteCause (S.faults sinks.old) (S.faults sinks.new)) }
    ensures later { S.faults sinks.old ≤ S.faults sinks.new }
    ensures current { S.current sinks.new ≡ S.current sinks.old }
{
    let mut done = 0;
    while done < bytes.len() {
        let count = write_some(sinks, &bytes[done..], done as u64)?;
        done += count;
    }
    Ok(())
}

// One write of bytes that are left, `done` bytes after the first. To take none of them is a fault.
fn write_some<S: Sinks>(sinks: &mut S, left: &[u8], done: u64) -> Result<usize, WriteStop>
    requires target { IsSome (S.current sinks.old) }
    requires some { 0 < length left.now }
    ensures taken { IfOk result (λ count. (0 < count) × (count ≤ length left.now)) }
    ensures appended { IfOk result (λ count. Does (puts (S.current sinks.old) (take count left.now)) (S.written sinks.old) (S.written sinks.new)) }
    ensures nothing { OnErr result (S.written sinks.new ≡ S.written sinks.old) }
    ensures done { IfErr result (λ stop. written_before stop ≡ done) }
    ensures cause { IfErr result (WriteCause (S.faults sinks.old) (S.faults sinks.new)) }
    ensures later { S.faults sinks.old ≤ S.faults sinks.new }
    ensures current { S.current sinks.new ≡ S.current sinks.old }
{
    match sinks.write(left) {
        Ok(count) => {
            if count == 0 {
                return Err(WriteStop::Fault { written: done });
            }
            Ok(count)
        }
        Err(stop) => Err(stopped(stop, done)),
    }
}

// A refused write stops the writing after so many bytes.
fn stopped(stop: Stop, written: u64) -> WriteStop
    ensures { result ≡ stopped stop written }
{
    match stop {
        Stop::Failed => WriteStop::Fault { written },
        Stop::NoMemory => WriteStop::NoMemory { written },
    }
}
