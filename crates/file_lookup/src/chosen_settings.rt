//! The settings of a command, read again.

use crate::paths::is_plain;
use command_inputs::{Inputs, settings_for};
use disk_files::DiskFiles;
use map_base::NoMemory;
use map_method::MapSettings;
use run_status::Refusal;
use std::rt::Files;

/// The settings of a command; none where their file can't be read again, or is no plain one.
pub fn settings_of<R: Files + AllocGlobal>(
    rt: &R,
    inputs: &Inputs<'_>,
) -> Result<Option<MapSettings>, NoMemory> {
    if let Some(path) = inputs.options.settings {
        if !is_plain(rt, path) {
            return Ok(None);
        }
    }
    let mut files = DiskFiles::new(rt);
    match settings_for(rt.alloc(), inputs, &mut files) {
        Ok(settings) => Ok(Some(settings)),
        Err(Refusal::NoMemory) => Err(NoMemory),
        Err(_) => Ok(None),
    }
}
