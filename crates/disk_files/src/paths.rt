//! Where paths lead.

use std::alloc::Global;
use std::io::ErrorKind;
use std::path::{Path, PathBuf};
use std::{io, rt};

/// How many symbolic links are followed one after another, as by Linux.
const MOST_LINKS: u32 = 40;

/// Where a path leads.
#[derive(Drop)]
pub enum Way {
    /// To the file of this path, which is no symbolic link and need not be there.
    File(PathBuf),
    /// To a file that this process, or another one, has opened, as `/dev/stdout` does.
    Opened,
}

/// Follows the symbolic links at the end of a path, one after another.
pub fn way_of<R: rt::Files>(rt: &R, alloc: Global, path: &str) -> io::Result<Way> {
    let mut way = PathBuf::from_str(alloc, path)?;
    for _ in 0..MOST_LINKS {
        if !is_link(rt, way.as_str())? {
            return Ok(Way::File(way));
        }
        if is_of_process(rt, alloc, folder_of(way.as_path()))? {
            return Ok(Way::Opened);
        }
        let link = rt.read_link(alloc, way.as_str())?;
        way.pop();
        way.push(link.as_str())?;
    }
    Err(io::Error::from(ErrorKind::FilesystemLoop))
}

/// Whether a symbolic link lies at a path.
fn is_link<R: rt::Files>(rt: &R, path: &str) -> io::Result<bool> {
    match rt.symlink_metadata(path) {
        Ok(found) => Ok(found.is_symlink()),
        Err(error) if error.kind() == ErrorKind::NotFound => Ok(false),
        Err(error) => Err(error),
    }
}

/// Whether the links in a folder lead to files that processes have opened.
fn is_of_process<R: rt::Files>(rt: &R, alloc: Global, folder: Path<'_>) -> io::Result<bool> {
    let folder = rt.canonicalize(alloc, folder.as_str())?;
    Ok(folder.as_str().starts_with("/proc/"))
}

/// The folder that a path lies in.
pub fn folder_of(path: Path<'_>) -> Path<'_> {
    match path.parent() {
        Some(folder) if !folder.as_str().is_empty() => folder,
        _ => Path::new("."),
    }
}
