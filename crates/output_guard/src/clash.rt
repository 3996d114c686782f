//! Which output of a command is a file that it reads, or another of its outputs.

ghost use Rattle.std.specs.Prelude.{◌≡◌, [], ◌∷◌, Contains, IfOk, IfSome, OnOk, option_map};
ghost use Rattle.std.specs.List.{find};
ghost use Rattle.command_paths.specs.Paths.{new_paths_by};
ghost use Rattle.command_words.specs.Asked.{asked_by};
ghost use Rattle.output_guard.specs.Guarded.{IsAmong, clash_with, files_of, first_clash, has_feed, has_certificate, has_picture, has_script, is_read, outputs_of, page_file, paths_read, with_read, with_tables, has_graph};

use crate::outputs::{Outputs, outputs_of};
use asked_inputs::{inputs_of, path_for};
use command_paths::NewFiles;
use command_words::Command;
use disk_files::Leads;
use map_base::{NoMemory, Text};
use run_status::Input;
use std::alloc::Global;
use table_rows::Table;

/// Two paths of a command that lead to one file.
#[derive(Debug, Drop)]
pub struct Clash {
    /// A path that is written.
    pub output: Text,
    /// A path that is read, or that is written as well.
    pub other: Text,
}

/// The first output of a command that is one file with something that the command may read, or with an output before it,
/// and the first such file; none where there is no such output.
pub fn clash_of<D: Leads>(
    alloc: Global,
    command: &Command<'_>,
    disk: &D,
) -> Result<Option<Clash>, NoMemory>
    ensures first { IfOk result (λ found. IfSome (D.same disk.now) (λ same.
        found ≡ first_clash same (outputs_of (asked_by command.now)) (paths_read (asked_by command.now)))) }
    // Whatever the disk tells, the paths of a clash are the command's.
    ensures among { IfOk result (λ found. IfSome found (IsAmong (outputs_of (asked_by command.now)) (paths_read (asked_by command.now)))) }
{
    match outputs_of(command) {
        Outputs::Nothing => Ok(None),
        Outputs::File(output) => {
            let read = input_paths(alloc, command)?;
            clash_among(alloc, disk, output, &read)
        }
        Outputs::Map(files) => {
            let read = input_paths(alloc, command)?;
            clash_of_map(alloc, disk, files, read)
        }
    }
}

/// The first of the files of a map that is one file with some paths that are read, or with a file of the map before it.
fn clash_of_map<D: Leads>(
    alloc: Global,
    disk: &D,
    files: NewFiles<'_>,
    read: Vec<Text>,
) -> Result<Option<Clash>, NoMemory>
    ensures first { IfOk result (λ found. IfSome (D.same disk.now) (λ same.
        found ≡ first_clash same (files_of (new_paths_by files.entry)) read.items)) }
    ensures among { IfOk result (λ found. IfSome found (IsAmong (files_of (new_paths_by files.entry)) read.items)) }
{
    let mut others = read;
    if let Some(clash) = clash_among(alloc, disk, files.map.picture, &others)? {
        return Ok(Some(clash));
    }
    others.push(Text::of(alloc, files.map.picture)?)?;
    if let Some(clash) = clash_among(alloc, disk, files.map.certificate, &others)? {
        return Ok(Some(clash));
    }
    others.push(Text::of(alloc, files.map.certificate)?)?;
    clash_of_page(alloc, disk, files.page, &others)
}

/// A page, if there is one, and the first of some paths that is one file with it, if any.
fn clash_of_page<D: Leads>(
    alloc: Global,
    disk: &D,
    page: Option<&str>,
    others: &[Text],
) -> Result<Option<Clash>, NoMemory>
    ensures first { IfOk result (λ found. IfSome (D.same disk.now) (λ same.
        found ≡ first_clash same (page_file (option_map (λ path. path.now) page.entry)) others.now)) }
    ensures output { IfOk result (λ found. IfSome found (λ clash. Contains (page_file (option_map (λ path. path.now) page.entry)) clash.output)) }
    ensures other { IfOk result (λ found. IfSome found (λ clash. Contains others.now clash.other)) }
{
    match page {
        None => Ok(None),
        Some(path) => clash_among(alloc, disk, path, others),
    }
}

/// An output, and the first of some paths that is one file with it, if any.
fn clash_among<D: Leads>(
    alloc: Global,
    disk: &D,
    output: &str,
    others: &[Text],
) -> Result<Option<Clash>, NoMemory>
    ensures first { IfOk result (λ found. IfSome (D.same disk.now) (λ same. found ≡ clash_with same output.now others.now)) }
    ensures output { IfOk result (λ found. IfSome found (λ clash. clash.output ≡ output.now)) }
    ensures other { IfOk result (λ found. IfSome found (λ clash. Contains others.now clash.other)) }
{
    match first_same(disk, output, others)? {
        None => Ok(None),
        Some(other) => Ok(Some(Clash {
            output: Text::of(alloc, output)?,
            other: Text::of(alloc, other)?,
        })),
    }
}

/// The first of some paths that is one file with an output, if any.
#[tactic(auto, using(std::proofs::lemmas::List::at_drop_more))]
fn first_same<'a, D: Leads>(
    disk: &D,
    output: &str,
    others: &'a [Text],
) -> Result<Option<&'a str>, NoMemory>
    ensures first { IfOk result (λ found. IfSome (D.same disk.now) (λ same. option_map (λ path. path.now) found ≡ find (same output.now) others.now)) }
    ensures other { IfOk result (λ found. IfSome found (λ path. Contains others.now path.now)) }
{
    for other in others {
        if disk.are_one(output, other.as_str())? {
            return Ok(Some(other.as_str()));
        }
    }
    Ok(None)
}

/// The paths of all that a command may read.
fn input_paths(alloc: Global, command: &Command<'_>) -> Result<Vec<Text>, NoMemory>
    ensures { IfOk result (λ paths. paths.items ≡ paths_read (asked_by command.now)) }
{
    let mut paths = Vec::new(alloc);
    push_read(alloc, command, Input::Settings, &mut paths)?;
    push_read(alloc, command, Input::Edits, &mut paths)?;
    push_tables(alloc, command, &mut paths)?;
    push_read(alloc, command, Input::Graph, &mut paths)?;
    push_read(alloc, command, Input::Script, &mut paths)?;
    push_read(alloc, command, Input::Certificate, &mut paths)?;
    push_read(alloc, command, Input::Picture, &mut paths)?;
    Ok(paths)
}

/// Appends the paths of the tables, where a command reads a feed.
fn push_tables(alloc: Global, command: &Command<'_>, paths: &mut Vec<Text>) -> Result<(), NoMemory>
    ensures { OnOk result (paths.new.items ≡ with_tables (asked_by command.now) paths.old.items) }
{
    push_read(alloc, command, Input::Table(Table::Routes), paths)?;
    push_read(alloc, command, Input::Table(Table::Stops), paths)?;
    push_read(alloc, command, Input::Table(Table::Trips), paths)?;
    push_read(alloc, command, Input::Table(Table::Shapes), paths)?;
    push_read(alloc, command, Input::Table(Table::StopTimes), paths)?;
    Ok(())
}

/// Appends the path of an input, where a command may read it.
fn push_read(
    alloc: Global,
    command: &Command<'_>,
    input: Input,
    paths: &mut Vec<Text>,
) -> Result<(), NoMemory>
    ensures { OnOk result (paths.new.items ≡ with_read (asked_by command.now) paths.old.items input) }
{
    if is_read(command, input) {
        paths.push(path_for(alloc, command, input)?)?;
    }
    Ok(())
}

/// Whether a command may read an input.
fn is_read(command: &Command<'_>, input: Input) -> bool
    ensures { result ≡ is_read (asked_by command.now) input }
{
    match input {
        Input::Settings => inputs_of(command).options.settings.is_some(),
        Input::Edits => inputs_of(command).options.edits.is_some(),
        Input::Table(_) => has_feed(command),
        Input::Graph => has_graph(command),
        Input::Script => has_script(command),
        Input::Certificate => has_certificate(command),
        Input::Picture => has_picture(command),
    }
}

/// Whether a command reads a feed.
fn has_feed(command: &Command<'_>) -> bool
    ensures { result ≡ has_feed (asked_by command.now) }
{
    match command {
        Command::Import { .. } => false,
        Command::Trial { .. } => false,
        Command::Page { .. } => false,
        _ => true,
    }
}

/// Whether a command reads a graph file.
fn has_graph(command: &Command<'_>) -> bool
    ensures { result ≡ has_graph (asked_by command.now) }
{
    match command {
        Command::Import { .. } => true,
        _ => false,
    }
}

/// Whether a command follows a script.
fn has_script(command: &Command<'_>) -> bool
    ensures { result ≡ has_script (asked_by command.now) }
{
    match command {
        Command::Session { .. } => true,
        _ => false,
    }
}

/// Whether a command reads a certificate.
fn has_certificate(command: &Command<'_>) -> bool
    ensures { result ≡ has_certificate (asked_by command.now) }
{
    match command {
        Command::Check { .. } => true,
        Command::Depict { .. } => true,
        _ => false,
    }
}

/// Whether a command reads a map.
fn has_picture(command: &Command<'_>) -> bool
    ensures { result ≡ has_picture (asked_by command.now) }
{
    match command {
        Command::Check { .. } => true,
        Command::Page { .. } => true,
        _ => false,
    }
}
