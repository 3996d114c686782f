//! Writing outputs to their targets.

ghost use Rattle.std.specs.Prelude.{◌≡◌, ℕ, ◌≤◌, take};
ghost use Rattle.files_door.specs.Fault.{HasCause, Rose};
ghost use Rattle.files_door.specs.Acts.{Does};
ghost use Rattle.command_run.specs.Writing.{DoesSome};
ghost use Rattle.command_run.specs.Delivered.{IsDelivered, IsSaid, line_acts, no_memory_line, output_acts, outputs_acts, target_acts};

use crate::output::Output;
use files_door::{Sinks, Stop, Target, WriteStop, write_all};

/// How a delivery ended.
#[derive(Clone, Copy, Debug, PartialEq, Eq)]
pub enum Ending {
    /// All outputs are whole.
    Whole,
    /// Writing failed, and the outputs are cut short.
    CutShort,
    /// Memory ran out.
    OutOfMemory,
}

/// The line for want of memory, which takes none.
const NO_MEMORY: &str = "no memory\n";

/// Writes outputs, one after another, and then a line to standard output. A fault of writing cuts the outputs
/// short; it may cut the line short too, and then they are whole all the same.
pub fn deliver<S: Sinks>(outputs: &[Output], line: &str, sinks: &mut S) -> Ending
    ensures delivered { IsDelivered outputs.now line.now (Rose (S.faults sinks.old) (S.faults sinks.new))
        (S.written sinks.old) (S.written sinks.new) result }
    ensures later { S.faults sinks.old ≤ S.faults sinks.new }
{
    match write_outputs(sinks, outputs) {
        Ok(()) => finish(line, sinks),
        Err(Stop::Failed) => Ending::CutShort,
        Err(Stop::NoMemory) => out_of_memory(sinks),
    }
}

/// Ends with a line.
fn finish<S: Sinks>(line: &str, sinks: &mut S) -> Ending
    ensures said { IsSaid line.now (Rose (S.faults sinks.old) (S.faults sinks.new))
        (S.written sinks.old) (S.written sinks.new) result }
    ensures later { S.faults sinks.old ≤ S.faults sinks.new }
{
    match say(sinks, line) {
        Ok(()) => Ending::Whole,
        Err(Stop::Failed) => Ending::Whole,
        Err(Stop::NoMemory) => out_of_memory(sinks),
    }
}

/// Ends for want of memory. Its line takes none; where it can't be written whole, a beginning stands.
pub fn out_of_memory<S: Sinks>(sinks: &mut S) -> Ending
    ensures ending { result ≡ Ending.OutOfMemory }
    ensures line { (n : ℕ) × Does (take n (line_acts no_memory_line)) (S.written sinks.old) (S.written sinks.new) }
    ensures later { S.faults sinks.old ≤ S.faults sinks.new }
{
    let _cut_short = say(sinks, NO_MEMORY);
    Ending::OutOfMemory
}

/// Writes outputs, one after another.
fn write_outputs<S: Sinks>(sinks: &mut S, outputs: &[Output]) -> Result<(), Stop>
    ensures done { DoesSome (outputs_acts outputs.now) (S.written sinks.old) (S.written sinks.new) result }
    ensures cause { HasCause (S.faults sinks.old) (S.faults sinks.new) result }
{
    for output in outputs {
        write_output(sinks, output)?;
    }
    Ok(())
}

/// Writes a line to standard output, nothing where it is empty.
fn say<S: Sinks>(sinks: &mut S, line: &str) -> Result<(), Stop>
    ensures done { DoesSome (line_acts line.now) (S.written sinks.old) (S.written sinks.new) result }
    ensures cause { HasCause (S.faults sinks.old) (S.faults sinks.new) result }
{
    if line.is_empty() {
        return Ok(());
    }
    write_to(sinks, &Target::Said, line.as_bytes())
}

/// Writes one output.
fn write_output<S: Sinks>(sinks: &mut S, output: &Output) -> Result<(), Stop>
    ensures done { DoesSome (output_acts output.now) (S.written sinks.old) (S.written sinks.new) result }
    ensures cause { HasCause (S.faults sinks.old) (S.faults sinks.new) result }
{
    write_to(sinks, &output.to, output.bytes.as_slice())
}

/// Begins a target and writes bytes to it.
fn write_to<S: Sinks>(sinks: &mut S, to: &Target, bytes: &[u8]) -> Result<(), Stop>
    ensures done { DoesSome (target_acts to.now bytes.now) (S.written sinks.old) (S.written sinks.new) result }
    ensures cause { HasCause (S.faults sinks.old) (S.faults sinks.new) result }
{
    sinks.begin(to)?;
    match write_all(sinks, bytes) {
        Ok(()) => Ok(()),
        Err(WriteStop::Fault { .. }) => Err(Stop::Failed),
        Err(WriteStop::NoMemory { .. }) => Err(Stop::NoMemory),
    }
}
