//! All that the program does, over any files and sinks.

ghost use Rattle.std.specs.Prelude.{◌≡◌, ◌≢◌, ◌≤◌, ◌⊎◌, None, Some, Err, IfOk, IfSome, string_bytes};
ghost use Rattle.files_door.specs.Fault.{Rose};
ghost use Rattle.command_words.specs.Asked.{asked_by};
ghost use Rattle.command_words.specs.Words.{asked_in};
ghost use Rattle.asked_inputs.specs.Inputs.{input_path};
ghost use Rattle.map_run.specs.Answers.{alone, answer_by, whole_by};
ghost use Rattle.run_status.specs.Statuses.{status_of};
ghost use Rattle.map_run.specs.Promises.{TakesSteps};
ghost use Rattle.map_run.specs.Ending.{Ends, IsCaused, IsEndWritten, IsLineOf, IsOutOfMemory, IsReplyWith, IsScriptEnded, IsStatusSaid, IsWritten, status_after};
ghost use Rattle.map_run.specs.Headline.{MeansDone};

use crate::answer::{Answer, Reply, end_with, status_at};
use asked_inputs::{inputs_of, path_for};
use command_run::{Ending, Output, deliver, out_of_memory};
use command_words::{Command, WordsFault, command_of};
use edit_session::{ScriptStop, play_script};
use export_command::export_graph;
use files_door::{Files, Sinks};
use map_base::{NoMemory, Sequence, Steps};
use map_commands::{check_map, import_graph, improve_map, make_map};
use page_command::show_map;
use picture_command::draw_picture;
use run_status::{Refusal, Status, line_of};
use std::alloc::Global;
use std::sync::ledger::Ledger;
use table_commands::{print_line_graph, print_stations};
use trial_command::print_trial;

/// Does what the words after the program's name ask for, and answers how that ended. `steps` counts the
/// branch nodes of searches for line orders.
///
/// The outcome is a function of the words and of the files that they name: a status, and the bytes of each
/// target. Where no count of faults rises and memory is there, the run ends with exactly that. Where reading
/// fails, the line of standard output names the path. Where writing fails, each target holds a beginning of
/// its bytes.
///
/// Where `make` or `improve` ends with status 0, the map that is written shows exactly the feed's line graph, in which
/// no line is lost: a legal drawing, in which no line orders cost less than its certificate proves: their own cost,
/// where best orders are claimed. Where `check` ends with status 0, the map at its path is such a map, whoever made it
/// and its certificate; where `labels` ends with it, such a map is written with names at free places, where `geo` does,
/// its line orders along the ways that lines take on the ground, and where `poster` does, such a map to print. Each
/// draw of a `session` has the bytes of a fresh map with the edits that stand there, and is written as soon as it is
/// made; a bad line of its script ends it, and the draws before it stay. Where a file of edits is named, the feed is as
/// these make it. `page` writes the bytes of the page's head, of the map and of the page's tail.
/// `export` writes the line graph of the feed as a graph file. Where `import` ends with status 0, the map that is written
/// shows exactly the line graph of such a file, with a certificate as that of `make`.
/// `trial` reads and writes no file.
pub fn run<F: Files, S: Sinks, L: Ledger>(
    alloc: Global,
    words: &[String],
    files: &mut F,
    sinks: &mut S,
    steps: &mut Steps<L>,
) -> Status
    // An answer to the words is written: by the files or, where they are not told, by what each one gave as it
    // was read.
    ensures ends { Ends (asked_in words.now) (F.told files.old)
        (Rose (F.faults files.old) (F.faults files.new))
        (Rose (S.faults sinks.old) (S.faults sinks.new))
        (S.written sinks.old) (S.written sinks.new) result }

    // Each status has its cause.
    ensures cause { IsCaused (asked_in words.now) (F.told files.old)
        (Rose (F.faults files.old) (F.faults files.new))
        (Rose (S.faults sinks.old) (S.faults sinks.new)) result }
    ensures usage { asked_in words.now ≡ None → (result ≡ Status.Usage) ⊎ (result ≡ Status.NoMemory) }

    // The headline: what status 0 means of the map that is written or checked.
    ensures map { result ≡ Status.Done → IfSome (asked_in words.now) (λ asked. IfSome (S.written sinks.old) (λ old.
        IfSome (S.written sinks.new) (λ new. MeansDone (F.told files.old) asked old new))) }

    // The search for line orders takes at most a step for each branch node, and nothing else takes one.
    ensures steps { TakesSteps (F.told files.old) (asked_in words.now) steps.old steps.new }
{
    ended_run(alloc, words, files, sinks, steps)
}

/// The run itself. Answers are made in memory and then written; a script's draws are written as they are made.
fn ended_run<F: Files, S: Sinks, L: Ledger>(
    alloc: Global,
    words: &[String],
    files: &mut F,
    sinks: &mut S,
    steps: &mut Steps<L>,
) -> Status
    ensures ends { Ends (asked_in words.now) (F.told files.old)
        (Rose (F.faults files.old) (F.faults files.new))
        (Rose (S.faults sinks.old) (S.faults sinks.new))
        (S.written sinks.old) (S.written sinks.new) result }
    ensures steps { TakesSteps (F.told files.old) (asked_in words.now) steps.old steps.new }
{
    match command_of(alloc, words) {
        Ok(command) => run_command(alloc, &command, files, sinks, steps),
        Err(fault) => end_unread(alloc, fault, sinks),
    }
}

/// Does the work of a command, to its end or to the bad line of a script, and writes what it comes to.
fn run_command<F: Files, S: Sinks, L: Ledger>(
    alloc: Global,
    command: &Command<'_>,
    files: &mut F,
    sinks: &mut S,
    steps: &mut Steps<L>,
) -> Status
    ensures ends { Ends (Some (asked_by command.now)) (F.told files.old)
        (Rose (F.faults files.old) (F.faults files.new))
        (Rose (S.faults sinks.old) (S.faults sinks.new))
        (S.written sinks.old) (S.written sinks.new) result }
    ensures steps { TakesSteps (F.told files.old) (Some (asked_by command.now)) steps.old steps.new }
{
    let inputs = inputs_of(command);
    match command {
        Command::Stations { .. } => {
            let outcome = print_stations(alloc, &inputs, files);
            write_outcome(alloc, command, outcome, sinks)
        }
        Command::Graph { .. } => {
            let outcome = print_line_graph(alloc, &inputs, files);
            write_outcome(alloc, command, outcome, sinks)
        }
        Command::Export { out, .. } => {
            let outcome = export_graph(alloc, &inputs, out, files);
            write_outcome(alloc, command, outcome, sinks)
        }
        Command::Import {
            files: map_files,
            ..
        } => {
            let outcome = import_graph(alloc, &inputs, map_files, files, steps);
            write_outcome(alloc, command, outcome, sinks)
        }
        Command::Make {
            files: new_files,
            ..
        } => {
            let outcome = make_map(alloc, &inputs, new_files, files, steps);
            write_outcome(alloc, command, outcome, sinks)
        }
        Command::Improve {
            files: map_files,
            moves,
            ..
        } => {
            let outcome = improve_map(alloc, &inputs, map_files, *moves, files, steps);
            write_outcome(alloc, command, outcome, sinks)
        }
        Command::Check { .. } => {
            let outcome = check_map(alloc, &inputs, files);
            write_outcome(alloc, command, outcome, sinks)
        }
        Command::Depict { kind, out, .. } => {
            let outcome = draw_picture(alloc, &inputs, *kind, out, files);
            write_outcome(alloc, command, outcome, sinks)
        }
        Command::Session { out, .. } => {
            let outcome = play_script(alloc, &inputs, out, files, sinks, steps);
            end_script(alloc, command, outcome, sinks)
        }
        Command::Trial { number } => {
            let outcome = print_trial(alloc, *number, steps);
            write_outcome(alloc, command, outcome, sinks)
        }
        Command::Page { page, .. } => {
            let outcome = show_map(alloc, &inputs, page, files);
            write_outcome(alloc, command, outcome, sinks)
        }
    }
}

/// Writes what a command without a script came to: its outputs, or the line of its refusal.
fn write_outcome<S: Sinks>(
    alloc: Global,
    command: &Command<'_>,
    outcome: Result<Sequence<Output>, Refusal>,
    sinks: &mut S,
) -> Status
    ensures written { IsEndWritten (asked_by command.now) (whole_by outcome) (Rose (S.faults sinks.old) (S.faults sinks.new))
        (S.written sinks.old) (S.written sinks.new) result }
    ensures later { S.faults sinks.old ≤ S.faults sinks.new }
{
    match reply_to(alloc, command, outcome) {
        Ok(reply) => write_reply(reply, sinks),
        Err(NoMemory) => end_without_memory(sinks),
    }
}

/// Ends a script whose draws were written as they were made: behind them comes the line of the status.
fn end_script<S: Sinks>(
    alloc: Global,
    command: &Command<'_>,
    outcome: Result<Option<u64>, ScriptStop>,
    sinks: &mut S,
) -> Status
    ensures ended { IsScriptEnded (asked_by command.now) outcome (Rose (S.faults sinks.old) (S.faults sinks.new))
        (S.written sinks.old) (S.written sinks.new) result }
    ensures later { S.faults sinks.old ≤ S.faults sinks.new }
{
    match outcome {
        Ok(bad_line) => say_status(alloc, status_at(bad_line), sinks),
        Err(ScriptStop::Refused(refusal)) => { write_outcome(alloc, command, Err(refusal), sinks) }
        Err(ScriptStop::WriteFault) => Status::WriteFault,
        Err(ScriptStop::NoMemory) => end_without_memory(sinks),
    }
}

/// Ends with the line of a status, behind outputs that are whole.
fn say_status<S: Sinks>(alloc: Global, status: Status, sinks: &mut S) -> Status
    ensures said { IsStatusSaid status (Rose (S.faults sinks.old) (S.faults sinks.new)) (S.written sinks.old) (S.written sinks.new) result
        ⊎ IsOutOfMemory (S.written sinks.old) (S.written sinks.new) result }
    ensures later { S.faults sinks.old ≤ S.faults sinks.new }
{
    match line_of(alloc, &status) {
        Ok(line) => status_after(status, deliver(&[], line.as_str(), sinks)),
        Err(NoMemory) => end_without_memory(sinks),
    }
}

/// Writes an answer, and the line of its status.
fn write_reply<S: Sinks>(reply: Reply, sinks: &mut S) -> Status
    requires line { IsLineOf reply.answer.status (string_bytes reply.line) }
    ensures written { IsWritten reply.answer (Rose (S.faults sinks.old) (S.faults sinks.new))
        (S.written sinks.old) (S.written sinks.new) result }
    ensures later { S.faults sinks.old ≤ S.faults sinks.new }
{
    let Reply { answer, line } = reply;
    let Answer { status, outputs } = answer;
    status_after(status, deliver(outputs.as_slice(), line.as_str(), sinks))
}

/// The status of a run by that of its answer, and by how the writing ended.
fn status_after(status: Status, ending: Ending) -> Status
    ensures { result ≡ status_after status ending }
{
    match ending {
        Ending::Whole => status,
        Ending::CutShort => Status::WriteFault,
        Ending::OutOfMemory => Status::NoMemory,
    }
}

/// Memory ran out, and nothing more is to be written but its line.
fn end_without_memory<S: Sinks>(sinks: &mut S) -> Status
    ensures memory { IsOutOfMemory (S.written sinks.old) (S.written sinks.new) result }
    ensures later { S.faults sinks.old ≤ S.faults sinks.new }
{
    let _ending = out_of_memory(sinks);
    Status::NoMemory
}

/// The words are not read: the text for the user is written.
fn end_unread<S: Sinks>(alloc: Global, fault: WordsFault, sinks: &mut S) -> Status
    ensures { ((fault ≢ WordsFault.NoMemory) × IsWritten (alone Status.Usage) (Rose (S.faults sinks.old) (S.faults sinks.new))
        (S.written sinks.old) (S.written sinks.new) result) ⊎ IsOutOfMemory (S.written sinks.old) (S.written sinks.new) result }
{
    match fault {
        WordsFault::Usage(line) => {
            let answer = end_with(alloc, Status::Usage);
            write_reply(Reply { answer, line }, sinks)
        }
        WordsFault::NoMemory => end_without_memory(sinks),
    }
}

/// What a command without a script came to, with the line of its status.
fn reply_to(
    alloc: Global,
    command: &Command<'_>,
    outcome: Result<Sequence<Output>, Refusal>,
) -> Result<Reply, NoMemory>
    ensures reply { IfOk result (IsReplyWith (answer_by (input_path (asked_by command.now)) (whole_by outcome))) }
    ensures memory { IfOk result (λ _. whole_by outcome ≢ Err Refusal.NoMemory) }
{
    let answer = answer_to(alloc, command, outcome)?;
    let line = line_of(alloc, &answer.status)?;
    Ok(Reply { answer, line })
}

/// The answer by what a command without a script came to.
fn answer_to(
    alloc: Global,
    command: &Command<'_>,
    outcome: Result<Sequence<Output>, Refusal>,
) -> Result<Answer, NoMemory>
    ensures answer { IfOk result (λ answer. answer ≡ answer_by (input_path (asked_by command.now)) (whole_by outcome)) }
    ensures memory { IfOk result (λ _. whole_by outcome ≢ Err Refusal.NoMemory) }
{
    match outcome {
        Ok(outputs) => Ok(Answer {
            status: Status::Done,
            outputs,
        }),
        Err(refusal) => refuse(alloc, command, refusal),
    }
}

/// A command is refused.
fn refuse(alloc: Global, command: &Command<'_>, refusal: Refusal) -> Result<Answer, NoMemory>
    ensures answer { IfOk result (λ answer. answer ≡ alone (status_of (input_path (asked_by command.now)) refusal)) }
    ensures memory { IfOk result (λ _. refusal ≢ Refusal.NoMemory) }
{
    let status = match refusal {
        Refusal::BadRow { table, row, why } => Status::BadRow { table, row, why },
        Refusal::NoRoute { seg } => Status::NoRoute { seg },
        Refusal::Spent {
            component,
            branches,
        } => Status::Spent {
            component,
            branches,
        },
        Refusal::Limit(limit) => Status::Limit(limit),
        Refusal::Refuted(item) => Status::Refuted(item),
        Refusal::BadSettings(why) => Status::BadSettings(why),
        Refusal::BadEdit { line } => Status::BadEdit { line },
        Refusal::BadGraph(why) => Status::BadGraph(why),
        Refusal::Missing { input } => Status::Missing {
            path: path_for(alloc, command, input)?,
        },
        Refusal::ReadFault { input } => Status::ReadFault {
            path: path_for(alloc, command, input)?,
        },
        Refusal::NoMemory => return Err(NoMemory),
    };
    Ok(end_with(alloc, status))
}
