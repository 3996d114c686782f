//! The outputs of `make`, and those of any map.

ghost use Rattle.std.specs.Prelude.{◌≡◌, ◌≢◌, ◌++◌, IfOk, Ok, Some, None, option_map};
ghost use Rattle.std.specs.Option.{option_to_list};
ghost use Rattle.line_graph.specs.Outcome.{graph_outcome};
ghost use Rattle.line_graph.specs.Rides.{KeepsLines};
ghost use Rattle.map_faults.specs.declared.fault.CheckFault.TheVariants as refuted;
ghost use Rattle.graph_maps.specs.Making.{bytes_of};
ghost use Rattle.graph_maps.specs.Checking.{Gives};
ghost use Rattle.command_paths.specs.Paths.{new_paths_by, paths_by};
ghost use Rattle.map_commands.specs.MapWorks.{map_outputs, new_outputs, page_output, poster_by, poster_due};

use command_inputs::Loaded;
use command_paths::{MapFiles, NewFiles};
use command_run::Output;
use files_door::Target;
use graph_core::LineGraph;
use map_base::{NoMemory, Sequence, Text};
use map_engine::{CheckFault, Made, poster_on_graph};
use map_page::page_of;
use std::alloc::Global;

/// The outputs of a new map, its certificate and the page of its poster, where one is named, in this order.
pub(crate) fn write_new(
    alloc: Global,
    loaded: &Loaded,
    graph: &LineGraph,
    files: &NewFiles<'_>,
    made: Made,
) -> Result<Sequence<Output>, NoMemory>
    requires graph { graph_outcome loaded.now.settings.near loaded.now.tables ≡ Ok graph.now }
    requires kept { KeepsLines loaded.now.settings.near loaded.now.tables graph.now }
    ensures { IfOk result (λ outputs. outputs ≡ new_outputs (new_paths_by files.now) (poster_due loaded.now (bytes_of made)) (bytes_of made)) }
{
    let page = page_at(
        alloc,
        loaded,
        graph,
        files.page,
        made.certificate.as_slice(),
    )?;
    let outputs = write_map(alloc, &files.map, made)?;
    with_page(outputs.into_vec(), page)
}

/// Outputs with that of a page behind them, if there is one.
fn with_page(outputs: Vec<Output>, page: Option<Output>) -> Result<Sequence<Output>, NoMemory>
    ensures { IfOk result (λ all. all ≡ outputs.items ++ option_to_list page) }
{
    let mut all = outputs;
    match page {
        None => Ok(Sequence::of(all)),
        Some(output) => {
            all.push(output)?;
            Ok(Sequence::of(all))
        }
    }
}

/// The output of the page of a poster, by a certificate, if one is named.
fn page_at(
    alloc: Global,
    loaded: &Loaded,
    graph: &LineGraph,
    page: Option<&str>,
    certificate: &[u8],
) -> Result<Option<Output>, NoMemory>
    requires graph { graph_outcome loaded.now.settings.near loaded.now.tables ≡ Ok graph.now }
    requires kept { KeepsLines loaded.now.settings.near loaded.now.tables graph.now }
    ensures { IfOk result (λ output. option_to_list output ≡ page_output (option_map (λ path. path.now) page.entry)
        (poster_by loaded.now graph.now certificate.now)) }
{
    match page {
        None => Ok(None),
        Some(path) => poster_page(alloc, loaded, graph, path, certificate),
    }
}

/// The output of the page of a poster, unless that is refused.
fn poster_page(
    alloc: Global,
    loaded: &Loaded,
    graph: &LineGraph,
    path: &str,
    certificate: &[u8],
) -> Result<Option<Output>, NoMemory>
    requires graph { graph_outcome loaded.now.settings.near loaded.now.tables ≡ Ok graph.now }
    requires kept { KeepsLines loaded.now.settings.near loaded.now.tables graph.now }
    ensures { IfOk result (λ output. option_to_list output ≡ page_output (Some path.now) (poster_by loaded.now graph.now certificate.now)) }
{
    match poster_for(alloc, loaded, graph, certificate) {
        Ok(poster) => page_to(alloc, path, poster.as_slice()),
        Err(fault) => unless_no_memory(fault),
    }
}

/// The poster by a certificate and the line graph, or why that is refused.
fn poster_for(
    alloc: Global,
    loaded: &Loaded,
    graph: &LineGraph,
    certificate: &[u8],
) -> Result<Vec<u8>, CheckFault>
    requires graph { graph_outcome loaded.now.settings.near loaded.now.tables ≡ Ok graph.now }
    requires kept { KeepsLines loaded.now.settings.near loaded.now.tables graph.now }
    ensures { Gives (λ poster. poster.items) result (poster_by loaded.now graph.now certificate.now) }
{
    let (tables, settings) = (&loaded.tables, &loaded.settings);
    let claim = loaded.claim();
    poster_on_graph(alloc, tables, settings, claim, graph, certificate)
}

/// The output of the page of this poster.
fn page_to(alloc: Global, path: &str, poster: &[u8]) -> Result<Option<Output>, NoMemory>
    ensures { IfOk result (λ output. option_to_list output ≡ page_output (Some path.now) (Ok poster.now)) }
{
    Ok(Some(Output {
        to: Target::Path(Text::of(alloc, path)?),
        bytes: Sequence::of(page_of(alloc, poster)?),
    }))
}

/// No output where a poster is refused.
fn unless_no_memory(fault: CheckFault) -> Result<Option<Output>, NoMemory>
    ensures { IfOk result (λ output. (output ≡ None) × (fault ≢ refuted.NoMemory)) }
{
    match fault {
        CheckFault::NoMemory => Err(NoMemory),
        CheckFault::Refuted(_) => Ok(None),
        CheckFault::Limit(_) => Ok(None),
    }
}

/// The outputs of a map and its certificate to their files, the map first.
pub(crate) fn write_map(
    alloc: Global,
    files: &MapFiles<'_>,
    made: Made,
) -> Result<Sequence<Output>, NoMemory>
    ensures { IfOk result (λ outputs. outputs ≡ map_outputs (paths_by files.now) (bytes_of made)) }
{
    let mut outputs = Vec::new(alloc);
    outputs.push(Output {
        to: Target::Path(Text::of(alloc, files.picture)?),
        bytes: Sequence::of(made.svg),
    })?;
    outputs.push(Output {
        to: Target::Path(Text::of(alloc, files.certificate)?),
        bytes: Sequence::of(made.certificate),
    })?;
    Ok(Sequence::of(outputs))
}
