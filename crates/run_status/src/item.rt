//! What is refused of a map and its certificate.

ghost use Rattle.std.specs.Prelude.{◌≡◌, ◌++◌, IfOk, OnOk, string_bytes};
ghost use Rattle.run_status.specs.Items.{check_text, item_text, next_line, part_text, proof_text};

use map_base::{LineId, NoMemory};
use map_faults::CheckItem;
use order_check::ProofItem;
use std::alloc::Global;
use std::fmt::Write;

/// What is refused of a map and its certificate.
#[derive(Debug, Drop)]
pub enum Item {
    /// A file is not there: the map, or else its certificate.
    Missing { picture: bool },
    /// An item of the check.
    Found(CheckItem),
}

impl Item {
    /// How the line of a refused item names it.
    pub fn text(&self, alloc: Global) -> Result<String, NoMemory>
        ensures { IfOk result (λ text. string_bytes text ≡ item_text self.now) }
    {
        match self {
            Item::Missing { picture: false } => {
                Ok(String::from_str(alloc, "certificate missing")?)
            }
            Item::Missing { picture: true } => Ok(String::from_str(alloc, "picture missing")?),
            Item::Found(found) => check_text(alloc, found),
        }
    }
}

/// An item of the check.
fn check_text(alloc: Global, item: &CheckItem) -> Result<String, NoMemory>
    ensures { IfOk result (λ text. string_bytes text ≡ check_text item.now) }
{
    match item {
        CheckItem::Text { at } => Ok(format!(in alloc; "text {at}")?),
        CheckItem::Graph => Ok(String::from_str(alloc, "graph")?),
        CheckItem::Importance => Ok(String::from_str(alloc, "importance")?),
        CheckItem::Walk { seg, .. } => {
            let number = seg.0;
            Ok(format!(in alloc; "walk {number}")?)
        }
        CheckItem::Order { seg } => {
            let number = seg.0;
            Ok(format!(in alloc; "order {number}")?)
        }
        CheckItem::Cost => Ok(String::from_str(alloc, "cost")?),
        CheckItem::Proof(found) => proof_text(alloc, found),
        CheckItem::Picture { at } => Ok(format!(in alloc; "picture {at}")?),
    }
}

/// An item of a proof.
fn proof_text(alloc: Global, item: &ProofItem) -> Result<String, NoMemory>
    ensures { IfOk result (λ text. string_bytes text ≡ proof_text item.now) }
{
    match item {
        ProofItem::Rule { index } => Ok(format!(in alloc; "rule {index}")?),
        ProofItem::Part { index, after } => part_text(alloc, *index, after.as_slice()),
        ProofItem::Total => Ok(String::from_str(alloc, "total")?),
    }
}

/// A part, with how many lines are taken on the way to the node that fails, and these lines.
fn part_text(alloc: Global, index: u32, after: &[LineId]) -> Result<String, NoMemory>
    ensures { IfOk result (λ text. string_bytes text ≡ part_text index after.now) }
{
    let count = after.len();
    let mut text = format!(in alloc; "part {index} after {count}")?;
    for line in after {
        push_line(&mut text, *line)?;
    }
    Ok(text)
}

/// Appends a space and the number of a line.
fn push_line(text: &mut String, line: LineId) -> Result<(), NoMemory>
    ensures { OnOk result (string_bytes text.new ≡ string_bytes text.old ++ next_line line) }
{
    let number = line.0;
    write!(text, " {number}")?;
    Ok(())
}
