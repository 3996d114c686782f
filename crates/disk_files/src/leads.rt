//! Which paths lead to one file.

ghost use Rattle.std.specs.Prelude.{◌≡◌, IfSome, IfOk};

use crate::paths::{Way, folder_of, way_of};
use map_base::NoMemory;
use std::alloc::Global;
use std::fs::Metadata;
use std::io::ErrorKind;
use std::os::unix::fs::MetadataExt;
use std::path::PathBuf;
use std::{io, rt};

/// Tells which paths lead to one file.
pub trait Leads {
    ghost use Rattle.std.specs.Prelude.{ℕ, List, Bool, Option};

    /// Whether two paths lead to one file, where that is told.
    ghost same: { Self → Option (List ℕ → List ℕ → Bool) };

    /// Whether two paths lead to one file of a disk, which need not be there: by another spelling, or by links.
    fn are_one(&self, path: &str, other: &str) -> Result<bool, NoMemory>
        ensures { IfOk result (λ one. IfSome (same self.now) (λ same. one ≡ same path.now other.now)) };
}

/// The disk. Nothing is told of where its paths lead.
#[derive(Drop)]
pub struct DiskLeads<R: rt::Files> {
    rt: R,
    alloc: Global,
}

impl<R: rt::Files> DiskLeads<R> {
    /// The paths of the disk that `rt` reaches.
    pub fn new(rt: R, alloc: Global) -> DiskLeads<R> {
        DiskLeads { rt, alloc }
    }
}

impl<R: rt::Files> Leads for DiskLeads<R> {
    ghost use Rattle.std.specs.Prelude.{None};

    ghost same = { λ disk. None };

    fn are_one(&self, path: &str, other: &str) -> Result<bool, NoMemory> {
        let spot = spot_of(&self.rt, self.alloc, path)?;
        let other = spot_of(&self.rt, self.alloc, other)?;
        Ok(is_one_file(&spot, &other))
    }
}

/// A file by its device and number.
#[derive(Clone, Copy, PartialEq)]
struct Node {
    device: u64,
    number: u64,
}

/// What lies at a path.
#[derive(Drop)]
enum Spot {
    /// A file of a disk.
    File(Node),
    /// Nothing yet: a file that is made there lies in this folder, at the name with which the path ends.
    New(Node, PathBuf),
    /// No file of a disk, and none can be made there; or that can't be told.
    Other,
}

/// Whether two spots are one file, or will be.
fn is_one_file(spot: &Spot, other: &Spot) -> bool {
    match (spot, other) {
        (Spot::File(node), Spot::File(other)) => *node == *other,
        (Spot::New(folder, path), Spot::New(other, other_path)) => {
            *folder == *other && path.as_path().file_name() == other_path.as_path().file_name()
        }
        _ => false,
    }
}

/// What lies at a path. Where the disk does not tell, nothing is known of it; the run that reads or writes it will
/// fail.
fn spot_of<R: rt::Files>(rt: &R, alloc: Global, path: &str) -> Result<Spot, NoMemory> {
    match found_at(rt, alloc, path) {
        Ok(spot) => Ok(spot),
        Err(error) if error.kind() == ErrorKind::OutOfMemory => Err(NoMemory),
        Err(_) => Ok(Spot::Other),
    }
}

/// What lies at a path, as far as the disk tells.
fn found_at<R: rt::Files>(rt: &R, alloc: Global, path: &str) -> io::Result<Spot> {
    match rt.metadata(path) {
        Ok(found) if found.is_file() => Ok(Spot::File(node_of(&found))),
        Ok(_) => Ok(Spot::Other),
        Err(error) if error.kind() == ErrorKind::NotFound => new_at(rt, alloc, path),
        Err(error) => Err(error),
    }
}

/// Where a file that is made at a path lies.
fn new_at<R: rt::Files>(rt: &R, alloc: Global, path: &str) -> io::Result<Spot> {
    match way_of(rt, alloc, path)? {
        Way::Opened => Ok(Spot::Other),
        Way::File(target) => {
            let folder = rt.metadata(folder_of(target.as_path()).as_str())?;
            Ok(Spot::New(node_of(&folder), target))
        }
    }
}

/// A file by its device and number.
fn node_of(found: &Metadata) -> Node {
    Node {
        device: found.dev(),
        number: found.ino(),
    }
}
