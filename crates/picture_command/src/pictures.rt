//! The commands `labels`, `geo` and `poster`.

ghost use Rattle.std.specs.Prelude.{◌≡◌, ◌≤◌, ℕ, List, All, option_map, IfOk, Ok, Some};
ghost use Rattle.files_door.specs.Fault.{Rose};
ghost use Rattle.line_graph.specs.Outcome.{graph_outcome};
ghost use Rattle.line_graph.specs.Rides.{KeepsLines};
ghost use Rattle.run_status.specs.Following.{Follows, Gives};
ghost use Rattle.command_inputs.specs.Inputs.{input_at, inputs_by};
ghost use Rattle.picture_command.specs.PictureWorks.{built, certificate_work, picture_at, picture_outputs, picture_by, picture_work, AreOfPicture, HasLines, IsPicture, IsPictureAt};
ghost use Rattle.graph_maps.specs.Checking.{Gives as EngineGives};
ghost use Rattle.map_engine.specs.Labelling.{pictured_items};
ghost use Rattle.graph_maps.specs.Readings.{certificate_in};

use command_inputs::{Inputs, Loaded, load, read_file};
use command_paths::Picture;
use command_run::Output;
use files_door::{Files, Target};
use line_graph::{GraphWithLines, build, build_with_lines};
use map_base::{NoMemory, Sequence, Settings, Text};
use map_engine::{CheckFault, geo_on_graph, labels_on_graph, poster_on_graph};
use run_status::{Input, Item, Refusal};
use std::alloc::Global;
use transit_feed::Tables;

/// Makes a picture of a command's feed, at this path, by the command's certificate. The line graph is built first, and then
/// the certificate is read and checked.
#[inline(never)]
pub fn draw_picture<F: Files>(
    alloc: Global,
    inputs: &Inputs<'_>,
    kind: Picture,
    map: &str,
    files: &mut F,
) -> Result<Sequence<Output>, Refusal>
    ensures follows { Follows (F.told files.old) (input_at (inputs_by inputs.now))
        (Rose (F.faults files.old) (F.faults files.new)) (λ outputs. outputs) (picture_work kind (inputs_by inputs.now).chosen map.now) result }
    ensures keeps { IfOk result (AreOfPicture kind (F.told files.old) (inputs_by inputs.now) map.now) }
{
    let loaded = load(alloc, inputs, files)?;
    let graph = build_graph(alloc, &loaded, kind)?;
    read_certificate(alloc, inputs, &loaded, kind, &graph, map, files)
}

/// The line graph of what is loaded, or the limit that is met first. Only geographic maps ask for the courses of its
/// segments: else there are none.
fn build_graph(alloc: Global, loaded: &Loaded, kind: Picture) -> Result<GraphWithLines, Refusal>
    ensures given { Gives (λ made. made.graph) result (built (graph_outcome loaded.now.settings.near loaded.now.tables)) }
    ensures graph { IfOk result (λ made. graph_outcome loaded.now.settings.near loaded.now.tables ≡ Ok made.graph) }
    ensures kept { IfOk result (λ made. KeepsLines loaded.now.settings.near loaded.now.tables made.graph) }
    ensures lines { IfOk result (λ made. HasLines kind loaded.now made.lines) }
{
    let (tables, settings) = (&loaded.tables, &loaded.settings);
    match kind {
        Picture::Labelled => without_lines(alloc, tables, settings),
        Picture::Poster => without_lines(alloc, tables, settings),
        Picture::Geographic => Ok(build_with_lines(alloc, tables, settings)?),
    }
}

/// The line graph without courses.
fn without_lines(
    alloc: Global,
    tables: &Tables,
    settings: &Settings,
) -> Result<GraphWithLines, Refusal>
    ensures given { Gives (λ made. made.graph) result (built (graph_outcome settings.now.near tables.now)) }
    ensures graph { IfOk result (λ made. graph_outcome settings.now.near tables.now ≡ Ok made.graph) }
    ensures kept { IfOk result (λ made. KeepsLines settings.now.near tables.now made.graph) }
{
    Ok(GraphWithLines {
        graph: build(alloc, tables, settings)?,
        lines: Sequence::of(Vec::new(alloc)),
    })
}

/// Reads the certificate, and makes the picture by it and the line graph.
fn read_certificate<F: Files>(
    alloc: Global,
    inputs: &Inputs<'_>,
    loaded: &Loaded,
    kind: Picture,
    graph: &GraphWithLines,
    map: &str,
    files: &mut F,
) -> Result<Sequence<Output>, Refusal>
    requires graph { graph_outcome loaded.now.settings.near loaded.now.tables ≡ Ok graph.now.graph }
    requires kept { KeepsLines loaded.now.settings.near loaded.now.tables graph.now.graph }
    requires lines { HasLines kind loaded.now graph.now.lines }
    ensures follows { Follows (F.told files.old) (input_at (inputs_by inputs.now))
        (Rose (F.faults files.old) (F.faults files.new)) (λ outputs. outputs) (certificate_work kind map.now loaded.now graph.now.graph) result }
    ensures labelled { IfOk result (IsPictureAt kind (F.told files.old) (inputs_by inputs.now) map.now loaded.now) }
    ensures later { F.faults files.old ≤ F.faults files.new }
{
    let bytes = read_file(alloc, inputs, Input::Certificate, files)?;
    picture_at(alloc, loaded, kind, graph, map, bytes)
}

/// The picture to its file, by the line graph and a certificate, which has to be there.
fn picture_at(
    alloc: Global,
    loaded: &Loaded,
    kind: Picture,
    graph: &GraphWithLines,
    map: &str,
    bytes: Option<Vec<u8>>,
) -> Result<Sequence<Output>, Refusal>
    requires graph { graph_outcome loaded.now.settings.near loaded.now.tables ≡ Ok graph.now.graph }
    requires kept { KeepsLines loaded.now.settings.near loaded.now.tables graph.now.graph }
    requires lines { HasLines kind loaded.now graph.now.lines }
    ensures given { Gives (λ outputs. outputs) result (picture_at kind map.now loaded.now graph.now.graph (option_map (λ v. v.items) bytes)) }
    ensures labelled { IfOk result (λ outputs. (certificate : List ℕ) × (picture : List ℕ) × (option_map (λ v. v.items) bytes ≡ Some certificate)
        × IsPicture kind loaded.now.tables loaded.now.settings loaded.now.method.claim picture certificate × (outputs ≡ picture_outputs map.now picture)) }
{
    let Some(bytes) = bytes else {
        return Err(Refusal::Refuted(Item::Missing { picture: false }));
    };
    let picture = picture_by(alloc, loaded, kind, graph, bytes.as_slice())?;
    Ok(write_picture(alloc, map, picture)?)
}

/// The picture by the line graph and a certificate, or why that is refused.
fn picture_by(
    alloc: Global,
    loaded: &Loaded,
    kind: Picture,
    graph: &GraphWithLines,
    certificate: &[u8],
) -> Result<Vec<u8>, CheckFault>
    requires graph { graph_outcome loaded.now.settings.near loaded.now.tables ≡ Ok graph.now.graph }
    requires kept { KeepsLines loaded.now.settings.near loaded.now.tables graph.now.graph }
    requires lines { HasLines kind loaded.now graph.now.lines }
    ensures given { EngineGives (λ map. map.items) result (pictured_items (picture_by kind loaded.now.tables loaded.now.settings graph.now.graph) loaded.now.tables loaded.now.settings loaded.now.method.claim graph.now.graph (certificate_in certificate.now)) }
    ensures shown { IfOk result (λ map. IsPicture kind loaded.now.tables loaded.now.settings loaded.now.method.claim map.items certificate.now) }
{
    let (tables, settings) = (&loaded.tables, &loaded.settings);
    let claim = loaded.claim();
    match kind {
        Picture::Labelled => {
            labels_on_graph(alloc, tables, settings, claim, &graph.graph, certificate)
        }
        Picture::Poster => {
            poster_on_graph(alloc, tables, settings, claim, &graph.graph, certificate)
        }
        Picture::Geographic => geo_on_graph(
            alloc,
            tables,
            settings,
            claim,
            &graph.graph,
            graph.lines.as_slice(),
            certificate,
        ),
    }
}

/// The one output of a picture to its file.
fn write_picture(alloc: Global, map: &str, picture: Vec<u8>) -> Result<Sequence<Output>, NoMemory>
    ensures { IfOk result (λ outputs. outputs ≡ picture_outputs map.now picture.items) }
{
    let mut outputs = Vec::new(alloc);
    outputs.push(Output {
        to: Target::Path(Text::of(alloc, map)?),
        bytes: Sequence::of(picture),
    })?;
    Ok(Sequence::of(outputs))
}
