//! The tables of a command's feed, read again.

use crate::paths::is_plain;
use command_inputs::{Inputs, Loaded, load, path_of};
use disk_files::DiskFiles;
use map_base::NoMemory;
use run_status::{Input, Refusal};
use std::rt::Files;
use table_rows::Table;

/// What a command works on; none where its files can't be read again, or are no plain ones.
pub(crate) fn tables_of<R: Files + AllocGlobal>(
    rt: &R,
    inputs: &Inputs<'_>,
) -> Result<Option<Loaded>, NoMemory> {
    if !are_plain(rt, inputs)? {
        return Ok(None);
    }
    let mut files = DiskFiles::new(rt);
    match load(rt.alloc(), inputs, &mut files) {
        Ok(loaded) => Ok(Some(loaded)),
        Err(Refusal::NoMemory) => Err(NoMemory),
        Err(_) => Ok(None),
    }
}

/// Whether all files that a command loads are plain ones, the shapes where they are there.
fn are_plain<R: Files + AllocGlobal>(rt: &R, inputs: &Inputs<'_>) -> Result<bool, NoMemory> {
    let needed = [
        Input::Table(Table::Routes),
        Input::Table(Table::Stops),
        Input::Table(Table::Trips),
        Input::Table(Table::StopTimes),
    ];
    for input in needed {
        if !is_plain_at(rt, inputs, input)? {
            return Ok(false);
        }
    }
    if inputs.options.settings.is_some() && !is_plain_at(rt, inputs, Input::Settings)? {
        return Ok(false);
    }
    if inputs.options.edits.is_some() && !is_plain_at(rt, inputs, Input::Edits)? {
        return Ok(false);
    }
    Ok(true)
}

/// Whether an input is a plain file.
fn is_plain_at<R: Files + AllocGlobal>(
    rt: &R,
    inputs: &Inputs<'_>,
    input: Input,
) -> Result<bool, NoMemory> {
    let path = path_of(rt.alloc(), inputs, input)?;
    Ok(is_plain(rt, path.as_str()))
}
