//! How the file of a path is written to.

use crate::draft::Draft;
use crate::paths::{Way, way_of};
use std::alloc::Global;
use std::fs::{File, OpenFile, OpenOptions};
use std::io::{ErrorKind, Write};
use std::path::PathBuf;
use std::{io, rt};

/// How the file of a path is written to.
#[derive(Drop)]
pub enum Output<F: Drop> {
    /// A file of a disk: by a draft beside it.
    Draft(Draft<F>),
    /// A terminal, a pipe, a device, or what this process was given open: straight.
    Straight(F),
}

/// Begins to write to the file of a path. A file that is there has to be one that may be written to.
pub fn output_at<R: rt::Files>(rt: &R, alloc: Global, path: &str) -> io::Result<Output<R::File>> {
    match way_of(rt, alloc, path)? {
        Way::Opened => Ok(Output::Straight(File::create(rt, path)?)),
        Way::File(target) => output_in(rt, alloc, target),
    }
}

/// Begins to write to the file of a path at whose end is no symbolic link.
fn output_in<R: rt::Files>(rt: &R, alloc: Global, target: PathBuf) -> io::Result<Output<R::File>> {
    let mut options = OpenOptions::new();
    options.write(true);
    match options.open(rt, target.as_str()) {
        Ok(file) => output_over(rt, alloc, target, file),
        Err(error) if error.kind() == ErrorKind::NotFound => {
            Ok(Output::Draft(Draft::begin(rt, alloc, target, None)?))
        }
        Err(error) => Err(error),
    }
}

/// Begins to write to a file that is there, and may be written to.
fn output_over<R: rt::Files>(
    rt: &R,
    alloc: Global,
    target: PathBuf,
    file: R::File,
) -> io::Result<Output<R::File>> {
    let found = file.metadata()?;
    if !found.is_file() {
        return Ok(Output::Straight(file));
    }
    let permissions = found.permissions();
    Ok(Output::Draft(Draft::begin(rt, alloc, target, Some(permissions))?))
}
