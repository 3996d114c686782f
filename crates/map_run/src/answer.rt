//! What a run is to do.

ghost use Rattle.std.specs.Prelude.{◌≡◌};
ghost use Rattle.map_run.specs.Answers.{alone, status_at};

use command_run::Output;
use map_base::Sequence;
use run_status::Status;
use std::alloc::Global;

/// A status, and the outputs in the order in which their targets are begun.
#[derive(Debug, Drop)]
pub struct Answer {
    pub status: Status,
    pub outputs: Sequence<Output>,
}

/// An answer with the line of its status.
#[derive(Debug, Drop)]
pub struct Reply {
    pub answer: Answer,
    pub line: String,
}

/// The status by the bad line at which a script stopped, if it met one.
pub fn status_at(bad_line: Option<u64>) -> Status
    ensures { result ≡ status_at bad_line }
{
    match bad_line {
        None => Status::Done,
        Some(line) => Status::BadEdit { line },
    }
}

/// A status with nothing but its line.
pub fn end_with(alloc: Global, status: Status) -> Answer
    ensures { result ≡ alone status }
{
    Answer {
        status,
        outputs: Sequence::of(Vec::new(alloc)),
    }
}
