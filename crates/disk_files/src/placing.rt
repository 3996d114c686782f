//! Putting drafts in the place of what they replace: all of them, or none.

use crate::draft::{Closed, link_beside, move_beside, remove};
use crate::paths::folder_of;
use std::alloc::Global;
use std::fs::OpenFile;
use std::io::ErrorKind;
use std::path::{Path, PathBuf};
use std::{fs, io, rt};

/// Puts each draft in its place, in turn. Where one can't be, the drafts before it are taken back, so that the old
/// files stand, and all drafts are removed.
pub fn place_all<R: rt::Files>(rt: &R, alloc: Global, drafts: &[Closed]) -> io::Result<()> {
    let mut kept = Vec::new(alloc);
    match place_each(rt, alloc, drafts, &mut kept) {
        Ok(()) => {
            remove_kept(rt, &kept);
            Ok(())
        }
        Err(error) => {
            take_back(rt, drafts, &kept);
            Err(error)
        }
    }
}

/// Removes each draft.
pub fn remove_all<R: rt::Files>(rt: &R, drafts: &[Closed]) {
    for draft in drafts {
        remove(rt, &draft.beside);
    }
}

/// Puts each draft in its place, in turn, and keeps what was there under another name, if anything; `kept` has a name,
/// or none, for each draft that is in place. Then sees to it that the folders are on the disk as well.
fn place_each<R: rt::Files>(
    rt: &R,
    alloc: Global,
    drafts: &[Closed],
    kept: &mut Vec<Option<PathBuf>>,
) -> io::Result<()> {
    kept.reserve(drafts.len())?;
    for draft in drafts {
        kept.push(place(rt, alloc, draft)?)?;
    }
    sync_folders(rt, drafts)
}

/// Puts a draft in its place, and answers the name under which what was there is kept, if anything.
fn place<R: rt::Files>(rt: &R, alloc: Global, draft: &Closed) -> io::Result<Option<PathBuf>> {
    let kept = keep(rt, alloc, draft.target.as_path())?;
    match rt.rename(draft.beside.as_str(), draft.target.as_str()) {
        Ok(()) => Ok(kept),
        Err(error) => {
            if let Some(name) = &kept {
                put_back(rt, name, &draft.target);
            }
            Err(error)
        }
    }
}

/// Gives a file a second name, if it is there: by a link or, where the folder has none, by moving it away.
fn keep<R: rt::Files>(rt: &R, alloc: Global, target: Path<'_>) -> io::Result<Option<PathBuf>> {
    match link_beside(rt, alloc, target) {
        Ok(name) => Ok(Some(name)),
        Err(error) if error.kind() == ErrorKind::NotFound => Ok(None),
        Err(error) if error.kind() == ErrorKind::OutOfMemory => Err(error),
        Err(_) => Ok(Some(move_beside(rt, alloc, target)?)),
    }
}

/// Takes back the drafts that are in place, and removes the others.
fn take_back<R: rt::Files>(rt: &R, drafts: &[Closed], kept: &[Option<PathBuf>]) {
    for (at, draft) in drafts.iter().enumerate() {
        match kept.get(at) {
            Some(Some(name)) => put_back(rt, name, &draft.target),
            Some(None) => remove(rt, &draft.target),
            None => remove(rt, &draft.beside),
        }
    }
}

/// Gives a file that is kept its name again.
fn put_back<R: rt::Files>(rt: &R, name: &PathBuf, target: &PathBuf) {
    if rt.rename(name.as_str(), target.as_str()).is_ok() {
        // Where both were names of one file, nothing was moved.
        let _gone = rt.remove_file(name.as_str());
        return;
    }
    remove(rt, target);
    if rt.hard_link(name.as_str(), target.as_str()).is_ok() {
        remove(rt, name);
    }
}

/// Removes the names under which old files were kept.
fn remove_kept<R: rt::Files>(rt: &R, kept: &[Option<PathBuf>]) {
    for name in kept.iter().flatten() {
        remove(rt, name);
    }
}

/// Sees to it that each draft's folder is on the disk, where the folder may be opened and the system can do that.
fn sync_folders<R: rt::Files>(rt: &R, drafts: &[Closed]) -> io::Result<()> {
    for draft in drafts {
        match sync_folder(rt, folder_of(draft.target.as_path())) {
            Err(error) if !cannot_be(error.kind()) => return Err(error),
            _ => {}
        }
    }
    Ok(())
}

/// Sees to it that a folder is on the disk.
fn sync_folder<R: rt::Files>(rt: &R, folder: Path<'_>) -> io::Result<()> {
    fs::open(rt, folder)?.sync_all()
}

/// Whether an error says that a folder may not be opened, or can't be synced.
fn cannot_be(kind: ErrorKind) -> bool {
    match kind {
        ErrorKind::PermissionDenied => true,
        ErrorKind::InvalidInput => true,
        ErrorKind::Unsupported => true,
        _ => false,
    }
}
