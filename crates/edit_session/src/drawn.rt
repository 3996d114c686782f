//! The text of draws.

ghost use Rattle.std.specs.Prelude.{◌≡◌, ◌≢◌, ◌≤◌, ◌+◌, [], IfOk, OnOk, Ok, Err, string_bytes};
ghost use Rattle.edit_session.specs.Sessions.{draw_outcome, branches_to_draw};
ghost use Rattle.graph_maps.specs.Making.{bytes_of};
ghost use Rattle.run_status.specs.Refusals.{of_make};
ghost use Rattle.run_status.specs.Statuses.{status_of};
ghost use Rattle.edit_session.specs.DrawTexts.{draw_text, map_line, refusal_line};
ghost use Rattle.edit_session.specs.Stages.{IsRedrawn};

use crate::session::Session;
use map_base::{NoMemory, Steps};
use map_engine::{Made, MakeFault};
use run_status::{Status, line_of};
use std::alloc::Global;
use std::sync::ledger::Ledger;

/// Draws the map of a session, and gives the text of this draw, which has this number. A map that isn't made, for another
/// cause than memory, is a draw all the same.
pub(crate) fn text_of_draw<L: Ledger>(
    alloc: Global,
    session: &mut Session,
    number: u64,
    steps: &mut Steps<L>,
) -> Result<Vec<u8>, NoMemory>
    ensures text { IfOk result (λ text. text.items ≡ draw_text number (draw_outcome session.old)) }
    ensures drawn { OnOk result (IsRedrawn session.old session.new) }
    ensures steps { steps.new ≤ steps.old + branches_to_draw session.old }
{
    match session.draw(alloc, steps) {
        Ok(made) => text_of_map(alloc, number, &made),
        Err(fault) => text_of_refusal(alloc, number, fault),
    }
}

/// The text of the draw of this number, which gave a map.
fn text_of_map(alloc: Global, number: u64, made: &Made) -> Result<Vec<u8>, NoMemory>
    ensures { IfOk result (λ text. text.items ≡ draw_text number (Ok (bytes_of made.now))) }
{
    let line = map_line(alloc, number, made)?;
    let mut text = line.as_str().as_bytes().to_vec(alloc)?;
    text.extend_from_slice(made.svg.as_slice())?;
    text.extend_from_slice(made.certificate.as_slice())?;
    Ok(text)
}

/// The text of the draw of this number, which gave none.
fn text_of_refusal(alloc: Global, number: u64, fault: MakeFault) -> Result<Vec<u8>, NoMemory>
    ensures text { IfOk result (λ text. text.items ≡ draw_text number (Err fault)) }
    ensures memory { IfOk result (λ _. fault ≢ MakeFault.NoMemory) }
{
    let line = refusal_line(alloc, fault)?;
    let line = line.as_str();
    let whole = format!(in alloc; "draw {number} refused: {line}")?;
    Ok(whole.as_str().as_bytes().to_vec(alloc)?)
}

/// The line before a map and its certificate.
fn map_line(alloc: Global, number: u64, made: &Made) -> Result<String, NoMemory>
    ensures { IfOk result (λ line. string_bytes line ≡ map_line number (bytes_of made.now)) }
{
    let map = made.svg.len();
    let certificate = made.certificate.len();
    Ok(format!(in alloc; "draw {number} {map} {certificate}\n")?)
}

/// The line that `make` prints where it makes no map.
fn refusal_line(alloc: Global, fault: MakeFault) -> Result<String, NoMemory>
    ensures line { IfOk result (λ line. string_bytes line ≡ refusal_line fault) }
    ensures memory { IfOk result (λ _. fault ≢ MakeFault.NoMemory) }
{
    let status = status_of(fault)?;
    line_of(alloc, &status)
}

/// The status that a run of `make` ends with where it makes no map.
fn status_of(fault: MakeFault) -> Result<Status, NoMemory>
    ensures status { IfOk result (λ status. status ≡ status_of (λ _. []) (of_make fault)) }
    ensures memory { IfOk result (λ _. fault ≢ MakeFault.NoMemory) }
{
    match fault {
        MakeFault::NoRoute { seg } => Ok(Status::NoRoute { seg }),
        MakeFault::Spent {
            component,
            branches,
        } => Ok(Status::Spent {
            component,
            branches,
        }),
        MakeFault::Limit(limit) => Ok(Status::Limit(limit)),
        MakeFault::NoMemory => Err(NoMemory),
    }
}
