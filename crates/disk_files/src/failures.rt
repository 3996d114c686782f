//! Errors of the system, counted.

ghost use Rattle.std.specs.Prelude.{◌≡◌, ◌≤◌, ◌↔◌, ◌⊎◌, false, Ok, IsTrue, IsErrOf};
ghost use Rattle.std.specs.IoError.{error_kind};
ghost use Rattle.files_door.specs.Fault.{HasCause, Rose};

use files_door::Stop;
use std::io;
use std::io::ErrorKind;

/// What an error of the system is answered as: want of memory exactly where it is that. Any other is a failure, and
/// the count rises.
pub fn stop_of(failures: &mut u64, error: &io::Error) -> Stop
    ensures memory { (result ≡ Stop.NoMemory) ↔ (error_kind error.now ≡ ErrorKind.OutOfMemory) }
    ensures failed { result ≡ Stop.Failed → Rose failures.old failures.new }
    ensures later { failures.old ≤ failures.new }
{
    match error.kind() {
        ErrorKind::OutOfMemory => Stop::NoMemory,
        _ => {
            *failures = failures.saturating_add(1);
            Stop::Failed
        }
    }
}

/// What a file that can't be opened is answered as: false exactly where there is no such file, or else why.
pub fn unopened(failures: &mut u64, error: &io::Error) -> Result<bool, Stop>
    ensures absent { (result ≡ Ok false) ↔ ((error_kind error.now ≡ ErrorKind.NotFound) ⊎ (error_kind error.now ≡ ErrorKind.NotADirectory)) }
    ensures memory { IsErrOf result Stop.NoMemory ↔ (error_kind error.now ≡ ErrorKind.OutOfMemory) }
    ensures cause { HasCause failures.old failures.new result }
{
    if is_absent(error) {
        return Ok(false);
    }
    Err(stop_of(failures, error))
}

/// Whether an error says that there is no such file: none at its path, or a part of the path is no folder.
fn is_absent(error: &io::Error) -> bool
    ensures { IsTrue result ↔ ((error_kind error.now ≡ ErrorKind.NotFound) ⊎ (error_kind error.now ≡ ErrorKind.NotADirectory)) }
{
    match error.kind() {
        ErrorKind::NotFound => true,
        ErrorKind::NotADirectory => true,
        _ => false,
    }
}
