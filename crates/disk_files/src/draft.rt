//! Drafts: new files beside those that they are to replace.

ghost use Rattle.std.specs.Prelude.{◌≤◌, length, IfOk};

use crate::paths::folder_of;
use crate::retries::write_once;
use std::alloc::Global;
use std::fs::{OpenFile, OpenOptions, Permissions};
use std::io::{ErrorKind, Write};
use std::path::{Path, PathBuf};
use std::{io, rt};

/// How many names are tried for a new file, in case that other runs have taken some.
const MOST_NAMES: u32 = 10_000;

/// A new file in the folder of the file that it is to replace, open to be written.
#[derive(Drop)]
pub struct Draft<F: Drop> {
    target: PathBuf,
    beside: PathBuf,
    file: F,
    length: u64,
}

/// A draft that is written to its end: its bytes are on the disk, and it is closed.
#[derive(Drop)]
pub struct Closed {
    /// The file that it is to replace.
    pub target: PathBuf,
    /// The new file.
    pub beside: PathBuf,
    /// Bytes that it holds.
    pub length: u64,
}

impl<F: Write + OpenFile + Drop> Draft<F> {
    /// Begins an empty file to replace `target`, with these permissions, or else those of any new file.
    pub fn begin<R: rt::Files<File = F>>(
        rt: &R,
        alloc: Global,
        target: PathBuf,
        permissions: Option<Permissions>,
    ) -> io::Result<Draft<F>> {
        let (beside, file) = new_beside(rt, alloc, target.as_path())?;
        if let Some(permissions) = permissions {
            if let Err(error) = file.set_permissions(permissions) {
                remove(rt, &beside);
                return Err(error);
            }
        }
        Ok(Draft {
            target,
            beside,
            file,
            length: 0,
        })
    }

    /// Appends a beginning of the piece, and answers its length. The file gets at most `most` bytes.
    pub fn write(&mut self, piece: &[u8], most: u64) -> io::Result<usize>
        ensures bound { IfOk result (λ count. count ≤ length piece.now) }
    {
        if self.length >= most {
            return Err(io::Error::from(ErrorKind::FileTooLarge));
        }
        let count = write_once(&mut self.file, piece)?;
        self.length = self.length.saturating_add(count as u64);
        Ok(count)
    }

    /// Sees to it that the bytes are on the disk, and closes the file; where that fails, removes it.
    pub fn close<R: rt::Files>(self, rt: &R) -> io::Result<Closed> {
        let Draft {
            target,
            beside,
            file,
            length,
        } = self;
        match file.sync_all() {
            Ok(()) => Ok(Closed {
                target,
                beside,
                length,
            }),
            Err(error) => {
                remove(rt, &beside);
                Err(error)
            }
        }
    }

    /// Whether it holds a byte.
    pub fn has_bytes(&self) -> bool {
        self.length > 0
    }

    /// Removes the file.
    pub fn discard<R: rt::Files>(self, rt: &R) {
        remove(rt, &self.beside);
    }
}

/// A new file in the folder of a path, and its own path.
fn new_beside<R: rt::Files>(
    rt: &R,
    alloc: Global,
    target: Path<'_>,
) -> io::Result<(PathBuf, R::File)> {
    let mut options = OpenOptions::new();
    options.write(true).create_new(true);
    for number in 0..MOST_NAMES {
        let path = name_beside(alloc, target, number)?;
        match options.open(rt, path.as_str()) {
            Ok(file) => return Ok((path, file)),
            Err(error) if error.kind() == ErrorKind::AlreadyExists => {}
            Err(error) => return Err(error),
        }
    }
    Err(io::Error::from(ErrorKind::AlreadyExists))
}

/// The path of a file of our own with this number, in the folder of a path.
fn name_beside(alloc: Global, target: Path<'_>, number: u32) -> io::Result<PathBuf> {
    let name = format!(in alloc; ".octimap-{number}")?;
    Ok(folder_of(target).join(alloc, name.as_str())?)
}

/// Puts a second name for a file beside it, and answers that name.
pub fn link_beside<R: rt::Files>(rt: &R, alloc: Global, target: Path<'_>) -> io::Result<PathBuf> {
    for number in 0..MOST_NAMES {
        let path = name_beside(alloc, target, number)?;
        match rt.hard_link(target.as_str(), path.as_str()) {
            Ok(()) => return Ok(path),
            Err(error) if error.kind() == ErrorKind::AlreadyExists => {}
            Err(error) => return Err(error),
        }
    }
    Err(io::Error::from(ErrorKind::AlreadyExists))
}

/// Gives a file another name beside it, and answers that name.
pub fn move_beside<R: rt::Files>(rt: &R, alloc: Global, target: Path<'_>) -> io::Result<PathBuf> {
    let (path, _empty) = new_beside(rt, alloc, target)?;
    match rt.rename(target.as_str(), path.as_str()) {
        Ok(()) => Ok(path),
        Err(error) => {
            remove(rt, &path);
            Err(error)
        }
    }
}

/// Removes a file of our own. It is tried twice, and then left.
pub fn remove<R: rt::Files>(rt: &R, path: &PathBuf) {
    if rt.remove_file(path.as_str()).is_err() {
        let _left = rt.remove_file(path.as_str());
    }
}
