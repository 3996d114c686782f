//! The map of a line graph with its names, by a certificate.

ghost use Rattle.std.specs.Prelude.{◌<◌, ◌^◌, length, All, IfOk};
ghost use Rattle.map_base.specs.Settings.{IsImportance};
ghost use Rattle.graph_maps.specs.Subjects.{told_by, AreListed};
ghost use Rattle.graph_maps.specs.Readings.{certificate_in};
ghost use Rattle.graph_maps.specs.Checking.{Gives};
ghost use Rattle.graph_maps.specs.Labelling.{labelled_on, IsLabelledOn};

use crate::checking::checked_certificate;
use graph_core::LineGraph;
use label_place::labelled;
use map_base::Settings;
use map_faults::CheckFault;
use map_method::Claim;
use std::alloc::Global;
use svg_writer::Names;

/// The map of a line graph with the names of its stations at free places (SVG 1.1), by a certificate. All of the
/// certificate is checked as `check_from` does, with the same refusals: so the map shows exactly the line graph, in a
/// legal drawing and with line orders of which the certificate proves what is claimed.
pub fn labels_from(
    alloc: Global,
    graph: &LineGraph,
    names: &Names,
    importance: &[u32],
    settings: &Settings,
    claim: Claim,
    certificate: &[u8],
) -> Result<Vec<u8>, CheckFault>
    requires numbers { All IsImportance importance.now }
    requires lines { AreListed importance.now graph.now }
    requires few { length importance.now < 2 ^ 32 }
    ensures outcome { Gives (λ map. map.items) result
        (labelled_on (told_by names.now importance.now) settings.now claim graph.now (certificate_in certificate.now)) }
    ensures certified { IfOk result (λ map. IsLabelledOn
        (told_by names.now importance.now) settings.now claim graph.now map.items certificate.now) }
{
    let checked = checked_certificate(alloc, graph, importance, settings, claim, certificate)?;
    Ok(labelled(alloc, graph, names, &checked.drawing, &checked.orders)?)
}
