//! The command `check`.

ghost use Rattle.std.specs.Prelude.{◌≡◌, ◌≤◌, ℕ, List, option_map, IfOk, IfSome, Ok, Some};
ghost use Rattle.files_door.specs.Fault.{Rose};
ghost use Rattle.files_door.specs.Files.{file_at};
ghost use Rattle.line_graph.specs.Outcome.{graph_outcome};
ghost use Rattle.line_graph.specs.Rides.{KeepsLines};
ghost use Rattle.graph_maps.specs.Checking.{checked_bytes};
ghost use Rattle.map_engine.specs.Promises.{IsCertified};
ghost use Rattle.command_inputs.specs.Inputs.{input_at, inputs_by};
ghost use Rattle.run_status.specs.Outputs.{said};
ghost use Rattle.map_commands.specs.MapWorks.{proved_line, printed, built, certificate_checked, certificate_work, check_work, picture_checked, picture_work};
ghost use Rattle.run_status.specs.Following.{Follows, Gives};
ghost use Rattle.map_commands.specs.Promises.{AreOfYes, IsAccepted};

use command_inputs::{Inputs, Loaded, load, read_file};
use command_run::Output;
use files_door::Files;
use graph_core::LineGraph;
use line_graph::build;
use map_base::{NoMemory, Sequence};
use map_engine::{CheckItem, Checked, Proved, check_on_graph, first_difference};
use run_status::{Input, Item, Refusal, say};
use std::alloc::Global;

/// Checks a map and its certificate against a command's feed. The line graph is built first, then the certificate is
/// read, and last the map.
#[inline(never)]
pub fn check_map<F: Files>(
    alloc: Global,
    inputs: &Inputs<'_>,
    files: &mut F,
) -> Result<Sequence<Output>, Refusal>
    ensures follows { Follows (F.told files.old) (input_at (inputs_by inputs.now))
        (Rose (F.faults files.old) (F.faults files.new)) (λ outputs. outputs) (check_work (inputs_by inputs.now).chosen) result }
    ensures keeps { IfOk result (AreOfYes (F.told files.old) (inputs_by inputs.now)) }
{
    let loaded = load(alloc, inputs, files)?;
    let graph = build_graph(alloc, &loaded)?;
    let checked = read_certificate(alloc, inputs, &loaded, &graph, files)?;
    read_picture(alloc, inputs, &checked, files)
}

/// The line graph of what is loaded, or the limit that is met first.
fn build_graph(alloc: Global, loaded: &Loaded) -> Result<LineGraph, Refusal>
    ensures given { Gives (λ graph. graph) result (built (graph_outcome loaded.now.settings.near loaded.now.tables)) }
    ensures graph { IfOk result (λ graph. graph_outcome loaded.now.settings.near loaded.now.tables ≡ Ok graph) }
    ensures kept { IfOk result (λ graph. KeepsLines loaded.now.settings.near loaded.now.tables graph) }
{
    Ok(build(alloc, &loaded.tables, &loaded.settings)?)
}

/// Reads the certificate, and checks all of it but the picture by the line graph.
fn read_certificate<F: Files>(
    alloc: Global,
    inputs: &Inputs<'_>,
    loaded: &Loaded,
    graph: &LineGraph,
    files: &mut F,
) -> Result<Checked, Refusal>
    requires graph { graph_outcome loaded.now.settings.near loaded.now.tables ≡ Ok graph.now }
    requires kept { KeepsLines loaded.now.settings.near loaded.now.tables graph.now }
    ensures follows { Follows (F.told files.old) (input_at (inputs_by inputs.now))
        (Rose (F.faults files.old) (F.faults files.new)) checked_bytes (certificate_work loaded.now graph.now) result }
    ensures certified { IfOk result (λ checked. IsAccepted (F.told files.old) (inputs_by inputs.now) loaded.now checked.svg.items checked.proved) }
    ensures kept { F.told files.new ≡ F.told files.old }
    ensures later { F.faults files.old ≤ F.faults files.new }
{
    let bytes = read_file(alloc, inputs, Input::Certificate, files)?;
    check_certificate(alloc, loaded, graph, bytes)
}

/// Checks all of a certificate but the picture by the line graph.
fn check_certificate(
    alloc: Global,
    loaded: &Loaded,
    graph: &LineGraph,
    bytes: Option<Vec<u8>>,
) -> Result<Checked, Refusal>
    requires graph { graph_outcome loaded.now.settings.near loaded.now.tables ≡ Ok graph.now }
    requires kept { KeepsLines loaded.now.settings.near loaded.now.tables graph.now }
    ensures given { Gives checked_bytes result (certificate_checked loaded.now graph.now (option_map (λ v. v.items) bytes)) }
    ensures certified { IfOk result (λ checked. (certificate : List ℕ) × (option_map (λ v. v.items) bytes ≡ Some certificate)
        × IsCertified loaded.now.tables loaded.now.settings loaded.now.method.claim checked.svg.items certificate checked.proved) }
{
    let Some(bytes) = bytes else {
        return Err(Refusal::Refuted(Item::Missing { picture: false }));
    };
    let (tables, settings) = (&loaded.tables, &loaded.settings);
    let claim = loaded.claim();
    Ok(check_on_graph(alloc, tables, settings, claim, graph, bytes.as_slice())?)
}

/// Reads the map, and compares it with the picture that is due.
fn read_picture<F: Files>(
    alloc: Global,
    inputs: &Inputs<'_>,
    checked: &Checked,
    files: &mut F,
) -> Result<Sequence<Output>, Refusal>
    ensures follows { Follows (F.told files.old) (input_at (inputs_by inputs.now))
        (Rose (F.faults files.old) (F.faults files.new)) (λ outputs. outputs) (picture_work (checked_bytes checked.now)) result }
    ensures lies { IfOk result (λ _. IfSome (F.told files.old) (λ all.
        file_at all (input_at (inputs_by inputs.now) Input.Picture) ≡ Some checked.now.svg.items)) }
    ensures proved { IfOk result (λ outputs. outputs ≡ said (proved_line checked.now.proved)) }
    ensures later { F.faults files.old ≤ F.faults files.new }
{
    let bytes = read_file(alloc, inputs, Input::Picture, files)?;
    compare(alloc, checked, bytes)
}

/// Compares a map with the picture that is due, and prints what is proved where they are the same.
fn compare(
    alloc: Global,
    checked: &Checked,
    bytes: Option<Vec<u8>>,
) -> Result<Sequence<Output>, Refusal>
    ensures given { Gives (λ outputs. outputs) result
        (printed (picture_checked (checked_bytes checked.now) (option_map (λ v. v.items) bytes))) }
    ensures same { IfOk result (λ _. option_map (λ v. v.items) bytes ≡ Some checked.now.svg.items) }
    ensures proved { IfOk result (λ outputs. outputs ≡ said (proved_line checked.now.proved)) }
{
    let Some(bytes) = bytes else {
        return Err(Refusal::Refuted(Item::Missing { picture: true }));
    };
    match first_difference(checked.svg.as_slice(), bytes.as_slice()) {
        None => Ok(say_proved(alloc, checked.proved)?),
        Some(at) => Err(Refusal::Refuted(Item::Found(CheckItem::Picture { at: at as u64 }))),
    }
}

/// Prints what is proved of a map that is accepted.
fn say_proved(alloc: Global, proved: Proved) -> Result<Sequence<Output>, NoMemory>
    ensures { IfOk result (λ outputs. outputs ≡ said (proved_line proved)) }
{
    let Proved { cost, bound } = proved;
    let line = if bound == cost {
        format!(in alloc; "best {cost}\n")?
    } else {
        format!(in alloc; "cost {cost} bound {bound}\n")?
    };
    say(alloc, line.into_bytes())
}
