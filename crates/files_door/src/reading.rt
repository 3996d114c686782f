//! Reading a whole file.

ghost use Rattle.std.specs.Prelude.{◌≡◌, ◌≤◌, ◌<◌, ◌-◌, ◌^◌, ◌++◌, Some, vec_len, IfSome, IfOk, IfErr, OnOk};
ghost use Rattle.files_door.specs.Files.{file_at};
ghost use Rattle.files_door.specs.Reading.{IsFull, IsWhole, ReadCause, file_limit, whole_file};
ghost use Rattle.files_door.specs.declared.reading.DoorFault.TheVariants.{TooLong};

use crate::files::Files;
use crate::stop::Stop;
use map_base::{Limit, LimitKind};
use std::alloc::{AllocError, Global};
use thiserror::Error;

/// Why a file was not read whole.
#[derive(Clone, Copy, Debug, PartialEq, Eq, Error)]
pub enum DoorFault {
    /// There is no such file.
    #[error("there is no such file")]
    Absent,
    /// Reading failed.
    #[error("reading failed")]
    ReadFault,
    /// The file is longer than allowed.
    #[error("the file is longer than allowed")]
    TooLong(Limit),
    /// The allocator had no room.
    #[error("out of memory")]
    NoMemory,
}

impl From<Stop> for DoorFault {
    ghost use Rattle.files_door.specs.Reading.{fault_of};

    ghost from_gives = { λ stop fault. fault ≡ fault_of stop };

    fn from(stop: Stop) -> DoorFault {
        match stop {
            Stop::Failed => DoorFault::ReadFault,
            Stop::NoMemory => DoorFault::NoMemory,
        }
    }
}

impl From<AllocError> for DoorFault {
    ghost use Rattle.files_door.specs.declared.reading.DoorFault.TheVariants.{NoMemory};

    ghost from_gives = { λ _ fault. fault ≡ NoMemory };

    fn from(_refused: AllocError) -> DoorFault {
        DoorFault::NoMemory
    }
}

/// How many bytes are read at once.
const PIECE: usize = 1 << 16;

/// The whole file of this path, of at most `most` bytes.
///
/// `Absent` comes exactly where there is no such file, and `TooLong` exactly where it is longer than
/// `most`; no more than that and one piece is ever held.
pub fn read_all<F: Files>(
    alloc: Global,
    files: &mut F,
    path: &str,
    most: u64,
) -> Result<Vec<u8>, DoorFault>
    ensures whole { IfSome (F.told files.old) (λ told. IsWhole (whole_file (file_at told path.now) most) result) }
    ensures within { IfOk result (λ bytes. vec_len bytes ≤ most) }
    ensures cause { IfErr result (ReadCause most (F.faults files.old) (F.faults files.new)) }
    ensures later { F.faults files.old ≤ F.faults files.new }
    ensures told { F.told files.new ≡ F.told files.old }
{
    if !files.begin(path)? {
        return Err(DoorFault::Absent);
    }
    read_rest(alloc, files, most)
}

// What is unread of the begun file.
fn read_rest<F: Files>(alloc: Global, files: &mut F, most: u64) -> Result<Vec<u8>, DoorFault>
    ensures whole { IfSome (F.rest files.old) (λ rest. IsWhole (whole_file (Some rest) most) result) }
    ensures within { IfOk result (λ bytes. vec_len bytes ≤ most) }
    ensures cause { IfErr result (ReadCause most (F.faults files.old) (F.faults files.new)) }
    ensures later { F.faults files.old ≤ F.faults files.new }
    ensures told { F.told files.new ≡ F.told files.old }
{
    let mut piece = zeros(alloc, PIECE)?;
    let mut bytes = Vec::new(alloc);
    loop {
        let count = files.read(&mut piece)?;
        if count == 0 {
            return Ok(bytes);
        }
        append(&mut bytes, &piece[..count], most)?;
    }
}

// This many bytes to read into.
fn zeros(alloc: Global, count: usize) -> Result<Vec<u8>, AllocError>
    ensures { IfOk result (λ bytes. vec_len bytes ≡ count) }
{
    vec![in alloc; 0; count]
}

// Appends a piece, where there are then no more than `most` bytes.
fn append(bytes: &mut Vec<u8>, piece: &[u8], most: u64) -> Result<(), DoorFault>
    requires { vec_len bytes.old ≤ most }
    ensures within { OnOk result (vec_len bytes.new ≤ most) }
    ensures appended { OnOk result (bytes.new.items ≡ bytes.old.items ++ piece.now) }
    ensures full { IfErr result (IsFull most (bytes.old.items ++ piece.now)) }
{
    if most - (bytes.len() as u64) < piece.len() as u64 {
        return Err(too_long(most));
    }
    bytes.extend_from_slice(piece)?;
    Ok(())
}

// A file has more than `most` bytes.
fn too_long(most: u64) -> DoorFault
    requires { most < 2 ^ 64 - 1 }
    ensures { result ≡ TooLong (file_limit most) }
{
    DoorFault::TooLong(Limit {
        what: LimitKind::File,
        found: most + 1,
        most,
    })
}
