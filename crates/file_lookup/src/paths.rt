//! What lies at a path of the disk.

use map_base::{NoMemory, Text};
use message_texts::Found;
use std::alloc::Global;
use std::fs::File;
use std::io::{ErrorKind, Read};
use std::rt::Files;
use std::{fs, io};

/// What lies in a folder.
#[derive(Drop)]
pub struct Folder {
    /// The names of all that lies there, in their order.
    pub names: Vec<Text>,
    /// The names of the folders among it.
    pub folders: Vec<Text>,
    /// The names of the archives among it.
    pub archives: Vec<Text>,
}

/// The bytes of a plain file; none where there is none at the path, or it can't be read. What the system's paths take
/// of the stack is let go before the bytes are looked at.
#[inline(never)]
pub fn bytes_at<R: Files + AllocGlobal>(rt: &R, path: &str) -> Result<Option<Vec<u8>>, NoMemory> {
    if !is_plain(rt, path) {
        return Ok(None);
    }
    match fs::read(rt, path) {
        Ok(bytes) => Ok(Some(bytes)),
        Err(error) if error.kind() == ErrorKind::OutOfMemory => Err(NoMemory),
        Err(_) => Ok(None),
    }
}

/// Whether there is a plain file at a path: no folder, no pipe, no device.
pub fn is_plain<R: Files>(rt: &R, path: &str) -> bool {
    match fs::metadata(rt, path) {
        Ok(metadata) => metadata.is_file(),
        Err(_) => false,
    }
}

/// Whether there is a folder at a path.
pub fn is_folder<R: Files>(rt: &R, path: &str) -> bool {
    match fs::metadata(rt, path) {
        Ok(metadata) => metadata.is_dir(),
        Err(_) => false,
    }
}

/// Why the file at a path can't be read, if it can't.
pub fn read_fault<R: Files>(rt: &R, path: &str) -> Option<io::Error> {
    if !is_plain(rt, path) && !is_folder(rt, path) {
        return fs::metadata(rt, path).err();
    }
    let mut byte = [0u8; 1];
    match File::open(rt, path) {
        Ok(mut file) => file.read(&mut byte).err(),
        Err(error) => Some(error),
    }
}

/// Whether the file at a path begins as an archive does (ZIP).
pub fn is_archive<R: Files>(rt: &R, path: &str) -> bool {
    begins_with(rt, path, b"PK\x03\x04".as_slice())
}

/// Whether the plain file at a path begins with these bytes, of which there are 64 at most.
pub fn begins_with<R: Files>(rt: &R, path: &str, begin: &[u8]) -> bool {
    if !is_plain(rt, path) {
        return false;
    }
    let mut front = [0u8; 64];
    match File::open(rt, path) {
        Ok(mut file) => match file.read(&mut front) {
            Ok(count) => front[..count].starts_with(begin),
            Err(_) => false,
        },
        Err(_) => false,
    }
}

/// What lies in the folder at a path, if there is one that can be read.
pub fn folder_at<R: Files + AllocGlobal + Clone + Drop>(
    rt: &R,
    path: &str,
) -> Result<Option<Folder>, NoMemory> {
    let Some(names) = names_in(rt, path)? else {
        return Ok(None);
    };
    let alloc = rt.alloc();
    let mut folder = Folder {
        names: Vec::new(alloc),
        folders: Vec::new(alloc),
        archives: Vec::new(alloc),
    };
    for name in &names {
        note(rt, path, name.as_str(), &mut folder)?;
    }
    Ok(Some(folder))
}

/// Notes a name of a folder.
fn note<R: Files + AllocGlobal>(
    rt: &R,
    path: &str,
    name: &str,
    folder: &mut Folder,
) -> Result<(), NoMemory> {
    let alloc = rt.alloc();
    let whole = format!(in alloc; "{path}/{name}")?;
    if is_folder(rt, whole.as_str()) {
        folder.folders.push(Text::of(alloc, name)?)?;
    }
    if is_archive(rt, whole.as_str()) {
        folder.archives.push(Text::of(alloc, name)?)?;
    }
    folder.names.push(Text::of(alloc, name)?)?;
    Ok(())
}

/// The names of all that lies in the folder at a path, in their order. Names that are no UTF-8 are left out.
fn names_in<R: Files + AllocGlobal + Clone + Drop>(
    rt: &R,
    path: &str,
) -> Result<Option<Vec<String>>, NoMemory> {
    let alloc = rt.alloc();
    let entries = match fs::read_dir(rt, path) {
        Ok(entries) => entries,
        Err(_) => return Ok(None),
    };
    let mut names = Vec::new(alloc);
    for entry in entries {
        if let Ok(entry) = entry {
            names.push(String::from_str(alloc, entry.file_name())?)?;
        }
    }
    names.sort()?;
    Ok(Some(names))
}

/// What lies at a path that is no folder.
pub fn found_file<R: Files>(rt: &R, path: &str) -> Found {
    if is_plain(rt, path) {
        Found::File {
            is_zip: is_archive(rt, path),
        }
    } else {
        Found::Nothing
    }
}

/// The first folder of a folder that has the table.
pub fn inner_with<'a, R: Files + AllocGlobal>(
    rt: &R,
    feed: &str,
    name: &str,
    folder: &'a Folder,
) -> Result<Option<&'a str>, NoMemory> {
    let alloc = rt.alloc();
    for inner in &folder.folders {
        let inner = inner.as_str();
        let table = format!(in alloc; "{feed}/{inner}/{name}")?;
        if is_plain(rt, table.as_str()) {
            return Ok(Some(inner));
        }
    }
    Ok(None)
}
