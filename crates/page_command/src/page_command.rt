//! The command `page`.

ghost use Rattle.std.specs.Prelude.{◌≡◌, Some, option_map, IfOk};
ghost use Rattle.files_door.specs.Fault.{Rose};
ghost use Rattle.run_status.specs.Following.{Follows, Gives};
ghost use Rattle.command_inputs.specs.Inputs.{input_at, inputs_by};
ghost use Rattle.page_command.specs.PageWorks.{page_at, page_outputs, page_work};

use command_inputs::{Inputs, read_file};
use command_run::Output;
use files_door::{Files, Target};
use map_base::{NoMemory, Sequence, Text};
use map_page::{is_picture, page_of};
use run_status::{Input, Refusal};
use std::alloc::Global;

/// Makes the page at a path of a command's map, which has to be there and to be a picture of octimap: a map or a
/// poster, by its first bytes.
#[inline(never)]
pub fn show_map<F: Files>(
    alloc: Global,
    inputs: &Inputs<'_>,
    page: &str,
    files: &mut F,
) -> Result<Sequence<Output>, Refusal>
    ensures follows { Follows (F.told files.old) (input_at (inputs_by inputs.now))
        (Rose (F.faults files.old) (F.faults files.new)) (λ outputs. outputs) (page_work page.now) result }
{
    let bytes = read_file(alloc, inputs, Input::Picture, files)?;
    page_at(alloc, page, bytes)
}

/// The page of a map, if that is there and a picture.
fn page_at(alloc: Global, page: &str, bytes: Option<Vec<u8>>) -> Result<Sequence<Output>, Refusal>
    ensures { Gives (λ outputs. outputs) result (page_at page.now (option_map (λ v. v.items) bytes)) }
{
    let Some(bytes) = bytes else {
        return Err(no_picture());
    };
    page_of_bytes(alloc, page, bytes.as_slice())
}

/// The page of these bytes, if they are a picture.
fn page_of_bytes(alloc: Global, page: &str, bytes: &[u8]) -> Result<Sequence<Output>, Refusal>
    ensures { Gives (λ outputs. outputs) result (page_at page.now (Some bytes.now)) }
{
    if is_picture(bytes) {
        return Ok(write_page(alloc, page, bytes)?);
    }
    Err(no_picture())
}

/// The map of which the page is to be made is not there, or no picture.
fn no_picture() -> Refusal
    ensures { result ≡ Refusal.Missing Input.Picture }
{
    Refusal::Missing {
        input: Input::Picture,
    }
}

/// The one output of a map's page to its file.
fn write_page(alloc: Global, page: &str, svg: &[u8]) -> Result<Sequence<Output>, NoMemory>
    ensures { IfOk result (λ outputs. outputs ≡ page_outputs page.now svg.now) }
{
    let mut outputs = Vec::new(alloc);
    outputs.push(Output {
        to: Target::Path(Text::of(alloc, page)?),
        bytes: Sequence::of(page_of(alloc, svg)?),
    })?;
    Ok(Sequence::of(outputs))
}
