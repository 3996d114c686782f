//! The program octimap: it reads an unpacked GTFS Schedule feed and prints what a command asks for. `run` of map_run
//! does all that the program does, over any files and sinks; `main` hands it the disk and standard output.
#![tactic(auto)]

ghost use Rattle.std.specs.Prelude.{◌≡◌, ◌<◌, ◌⊎◌, true, false, IsErrOf, OnOk};
ghost use Rattle.files_door.specs.Fault.{Rose};
ghost use Rattle.command_words.specs.Words.{asked_in};
ghost use Rattle.map_run.specs.Promise.{IsPromised};
ghost use Rattle.map_cli.specs.Ends.{IsEndFor};
ghost use Rattle.map_cli.specs.Sessions.{asks_session};

use command_words::{VERSION, asks_version, command_of, is_quiet};
use disk_files::{DiskFiles, DiskLeads, DiskSinks, Stream, WriteError};
use files_door::{Files, Sinks, Stop};
use map_base::{NoMemory, Progress, Stage, Steps};
use map_run::run;
use output_guard::{Clash, clash_of};
use run_status::Status;
use std::alloc::Global;
use std::io::{IsTerminal, Stderr, Stdout, Write};
use std::marker::Brand;
use std::process::ExitCode;
use std::sync::Arc;
use std::sync::ledger::{Blank, Ledger};
use std::{env, io, rt};
use user_messages::message;

fn main(rt: HostRuntime) -> ExitCode {
    let status = match words_of(&rt) {
        Ok(words) => run_words(&rt, &words),
        Err(error) => unread_words(&rt, &error),
    };
    ExitCode::from(status.number())
}

/// Tells the version where the words ask for it, and else runs.
fn run_words(rt: &HostRuntime, words: &[String]) -> Status {
    if asks_version(words) {
        return tell_version(rt);
    }
    run_counted::<Brand>(rt, words, Blank::new(1))
}

/// Prints the version of the program.
fn tell_version(rt: &HostRuntime) -> Status {
    match writeln!(output(rt), "octimap {VERSION}") {
        Ok(()) => Status::Done,
        Err(_) => Status::WriteFault,
    }
}

/// The words after the program's name.
#[inline(never)]
fn words_of(rt: &HostRuntime) -> io::Result<Vec<String>> {
    let mut words = Vec::new(rt.alloc());
    for word in env::args(rt)?.skip(1) {
        words.push(word)?;
    }
    Ok(words)
}

/// Runs over the disk and standard output, with a counter of steps at 0, unless the run would write over what it reads.
fn run_counted<L: Ledger>(rt: &HostRuntime, words: &[String], blank: Blank) -> Status
    requires name { blank.name ≡ L.name }
    requires parts { blank.parts ≡ L.parts }
    requires some_part { 0 < blank.parts }
    ensures { IsEndFor (asked_in words.now) result ⊎ (result ≡ Status.Usage) }
{
    match clash_in(rt, words) {
        Ok(None) => run_on_disk::<L>(rt, words, blank),
        Ok(Some(clash)) => refuse_clash(rt, &clash),
        Err(NoMemory) => {
            let _not_shown = writeln!(output(rt), "no memory");
            Status::NoMemory
        }
    }
}

/// Runs over the disk and standard output, with a counter of steps at 0, and puts what it wrote in its place.
fn run_on_disk<L: Ledger>(rt: &HostRuntime, words: &[String], blank: Blank) -> Status
    requires name { blank.name ≡ L.name }
    requires parts { blank.parts ≡ L.parts }
    requires some_part { 0 < blank.parts }
    ensures { IsEndFor (asked_in words.now) result }
{
    let progress = progress_of(rt, words);
    let mut files = DiskFiles::watched(rt, again(&progress));
    let mut sinks = DiskSinks::watched(rt, rt.alloc(), again(&progress));
    let mut steps = Steps::<L>::watched(blank, again(&progress));
    let status = run_whole(rt.alloc(), words, &mut files, &mut sinks, &mut steps);
    if let Some(progress) = &progress {
        progress.hide();
    }
    let ended = end(status, words, &mut sinks);
    if !is_quiet(words) {
        say_more(rt, words, &ended, sinks.last_error());
        say_stage(rt, &ended, &progress);
    }
    ended
}

/// The run, which lets go what it takes of the stack before more is said.
#[inline(never)]
fn run_whole<F: Files, S: Sinks, L: Ledger>(
    alloc: Global,
    words: &[String],
    files: &mut F,
    sinks: &mut S,
    steps: &mut Steps<L>,
) -> Status
    ensures { IsPromised words.now (F.told files.old)
        (Rose (F.faults files.old) (F.faults files.new)) (Rose (S.faults sinks.old) (S.faults sinks.new))
        (S.written sinks.old) (S.written sinks.new) steps.old steps.new result }
{
    run(alloc, words, files, sinks, steps)
}

/// What tells how far a run on these words is: on the terminal, where standard error is one and may be written to.
fn progress_of(rt: &HostRuntime, words: &[String]) -> Option<Arc<Progress, Global>> {
    let is_told = !is_quiet(words) && rt.stderr().is_terminal();
    let terminal = if is_told { Some(*rt) } else { None };
    Arc::new(rt.alloc(), Progress::new(terminal)).ok()
}

/// The same, for a part of the run.
fn again(progress: &Option<Arc<Progress, Global>>) -> Option<Arc<Progress, Global>> {
    match progress {
        Some(progress) => Arc::try_clone(progress).ok(),
        None => None,
    }
}

/// Puts what a run wrote in its place, or forgets it; the status that the program ends with.
#[inline(never)]
fn end<R: rt::Files + Print>(status: Status, words: &[String], sinks: &mut DiskSinks<R>) -> Status
    ensures { (result ≡ status) ⊎ ((result ≡ Status.WriteFault) ⊎ (result ≡ Status.NoMemory)) }
{
    if is_put_in_place(&status, words, sinks) {
        return status_after(status, sinks.put_in_place());
    }
    sinks.discard();
    status
}

/// Whether what a run wrote is put in its place. Where writing failed or memory ran out, a map and its certificate are
/// not whole, and what stood there stays. A session keeps each map that it drew, however it ends, where it drew any.
fn is_put_in_place<R: rt::Files + Print>(
    status: &Status,
    words: &[String],
    sinks: &DiskSinks<R>,
) -> bool
    ensures well { result ≡ false → (status.now ≡ Status.WriteFault) ⊎ (status.now ≡ Status.NoMemory) }
    ensures cut { (status.now ≡ Status.WriteFault) ⊎ (status.now ≡ Status.NoMemory) → result ≡ true
        → asks_session words.now ≡ true }
{
    match status {
        Status::WriteFault | Status::NoMemory => is_session(words) && sinks.holds_bytes(),
        _ => true,
    }
}

/// Whether the words ask for a session.
fn is_session(words: &[String]) -> bool
    ensures { result ≡ asks_session words.now }
{
    match words.first() {
        Some(word) => word.as_str() == "session",
        None => false,
    }
}

/// The status of a run whose outputs were put in their places, or could not be.
fn status_after(status: Status, placed: Result<(), Stop>) -> Status
    ensures placed { OnOk placed (result ≡ status) }
    ensures failed { IsErrOf placed Stop.Failed → result ≡ Status.WriteFault }
    ensures memory { IsErrOf placed Stop.NoMemory → result ≡ Status.NoMemory }
{
    match placed {
        Ok(()) => status,
        Err(Stop::Failed) => Status::WriteFault,
        Err(Stop::NoMemory) => Status::NoMemory,
    }
}

/// An output of what the words ask for that is one file with an input, or with another output. Words that are not
/// read are told by the run.
#[inline(never)]
fn clash_in(rt: &HostRuntime, words: &[String]) -> Result<Option<Clash>, NoMemory> {
    match command_of(rt.alloc(), words) {
        Ok(command) => clash_of(rt.alloc(), &command, &DiskLeads::new(rt, rt.alloc())),
        Err(_) => Ok(None),
    }
}

/// Says that an output is a file that the command reads, or another output.
#[inline(never)]
fn refuse_clash(rt: &HostRuntime, clash: &Clash) -> Status
    ensures { result ≡ Status.Usage }
{
    let _not_shown = tell_clash(rt, clash.output.as_str(), clash.other.as_str());
    Status::Usage
}

/// Names an output, and what is one file with it where that has another text.
fn tell_clash(rt: &HostRuntime, written: &str, other: &str) -> io::Result<()> {
    if written == other {
        return writeln!(
            output(rt),
            "error: the output {written} is a file that the command reads, or another output\n\n\
            For more information, try '--help'."
        );
    }
    writeln!(
        output(rt),
        "error: the output {written} is one file with {other}\n\nFor more information, try '--help'."
    )
}

/// Says on standard error what a status means for the user, if there is anything to say and memory for it.
#[inline(never)]
fn say_more(rt: &HostRuntime, words: &[String], status: &Status, fault: Option<WriteError<'_>>) {
    if let Ok(lines) = message(rt, words, status, fault) {
        let _not_shown = write!(errors(rt), "{lines}");
    }
}

/// Says on standard error what a run was at when memory ended.
#[inline(never)]
fn say_stage(rt: &HostRuntime, status: &Status, progress: &Option<Arc<Progress, Global>>) {
    if let Status::NoMemory = status {
        if let Some(progress) = progress {
            let _not_shown = tell_stage(rt, progress);
        }
    }
}

/// Says what a run is at, if it tells.
fn tell_stage(rt: &HostRuntime, progress: &Progress) -> io::Result<()> {
    let stage = match progress.stage() {
        Stage::Reading => "files were read",
        Stage::LineGraph => "the line graph was made",
        Stage::Drawing => "the line graph was drawn",
        Stage::Orders => return tell_part(rt, progress),
        Stage::Working | Stage::Ended => return Ok(()),
    };
    writeln!(errors(rt), "octimap: memory ended while {stage}")
}

/// Says which part of the line orders is searched.
fn tell_part(rt: &HostRuntime, progress: &Progress) -> io::Result<()> {
    let (part, parts) = progress.part();
    let shown = part.saturating_add(1);
    let branches = progress.branches();
    writeln!(
        errors(rt),
        "octimap: memory ended in part {shown} of {parts} of the line orders, at branch node {branches}"
    )
}

/// The words are no text, or there is no memory for them.
fn unread_words(rt: &HostRuntime, error: &io::Error) -> Status {
    if error.kind() == io::ErrorKind::OutOfMemory {
        return Status::NoMemory;
    }
    let _not_shown = writeln!(
        output(rt),
        "octimap: a word of the command line is not UTF-8"
    );
    Status::Usage
}

/// Standard output.
fn output(rt: &HostRuntime) -> Stream<'_, HostRuntime, Stdout> {
    Stream::output(rt, rt.stdout())
}

/// Standard error.
fn errors(rt: &HostRuntime) -> Stream<'_, HostRuntime, Stderr> {
    Stream::errors(rt, rt.stderr())
}
