//! What is wrong with a map or its certificate, in a sentence.

use crate::files::missing;
use command_inputs::Inputs;
use map_base::NoMemory;
use map_faults::CheckItem;
use order_check::ProofItem;
use run_status::Item;
use std::alloc::Global;
use std::rt::Files;

/// The line for an item that is refused; a file that is missing is named.
pub(crate) fn refuted<R: Files + AllocGlobal>(
    rt: &R,
    inputs: &Inputs<'_>,
    item: &Item,
) -> Result<String, NoMemory> {
    match item {
        Item::Missing { picture: false } => missing(rt, inputs.files.certificate),
        Item::Missing { picture: true } => missing(rt, inputs.files.picture),
        Item::Found(found) => told(rt.alloc(), sentence_of_check(found)),
    }
}

/// A sentence as a line.
fn told(alloc: Global, sentence: &str) -> Result<String, NoMemory> {
    Ok(format!(in alloc; "octimap: {sentence}\n")?)
}

/// What is wrong with a part of the certificate, or with the map.
fn sentence_of_check(item: &CheckItem) -> &'static str {
    match item {
        CheckItem::Text { .. } => {
            "from this byte on the certificate can't be read; is it cut short, changed, or no certificate at all?"
        }
        CheckItem::Graph => {
            "the certificate is of another network; were the feed, the settings and the edits the same when it was \
             made?"
        }
        CheckItem::Importance => {
            "the certificate was made with another importance of lines; give the same settings and edits"
        }
        CheckItem::Walk { .. } => {
            "with the way of this segment the drawing is not legal: ways leave the grid, meet, or turn the order \
             round a node"
        }
        CheckItem::Order { .. } => "the order of this segment does not name each of its lines once",
        CheckItem::Cost => {
            "the line orders cost more or less than the certificate says; were junction, station and importance the \
             same?"
        }
        CheckItem::Proof(found) => sentence_of_proof(found),
        CheckItem::Picture { .. } => {
            "from this byte on the map is not the picture of its certificate; was the file changed, is it a poster, \
             have names or colours in the feed changed, or were other settings or edits given?"
        }
    }
}

/// What is wrong with the proof that no line orders cost less.
fn sentence_of_proof(item: &ProofItem) -> &'static str {
    match item {
        ProofItem::Rule { .. } => {
            "this rule of the proof may not be applied there; were junction, station and importance the same?"
        }
        ProofItem::Part { .. } => {
            "this part of the proof does not show that no line orders cost less; were junction, station and importance \
             the same?"
        }
        ProofItem::Total => {
            "the parts of the proof do not sum to the cost of the certificate; is it a map with a bound \
             (proof = \"bound\")?"
        }
    }
}
