//! The numbers of a map by its certificate.

ghost use Rattle.std.specs.Prelude.{◌≡◌, IfOk};
ghost use Rattle.cert_file.specs.Plain.{plain};
ghost use Rattle.trial_command.specs.Trials.{Tells, summary_of};

use crate::splits::splits_of_parts;
use cert_file::{Certificate, read_certificate};
use graph_maps::each_certificate_is_read_from_its_text;
use map_base::NoMemory;
use std::alloc::Global;
use trial_feed::Summary;

/// The numbers of a map by the text of its certificate. Such a text is always read where there is memory, so that alone
/// may be missing.
pub fn summary_in(alloc: Global, certificate: &[u8]) -> Result<Summary, NoMemory>
    ensures { IfOk result (Tells certificate.now) }
{
    each_certificate_is_read_from_its_text();
    match read_certificate(alloc, certificate) {
        Ok(read) => summary_of(&read),
        Err(_) => Err(NoMemory),
    }
}

/// The numbers that a certificate has.
fn summary_of(certificate: &Certificate) -> Result<Summary, NoMemory>
    ensures { IfOk result (λ summary. summary ≡ summary_of (plain certificate.now)) }
{
    let branches = splits_of_parts(certificate.proof.parts.as_slice())?;
    Ok(Summary {
        nodes: certificate.nodes,
        segments: certificate.segs,
        lines: certificate.lines,
        cost: certificate.cost,
        branches,
    })
}
