//! The disk itself.

use disk_files::{DiskFiles, DiskLeads, DiskSinks, Leads};
use files_door::{DoorFault, Sinks, Stop, Target, read_all, write_all};
use map_base::Text;
use std::fs;
use std::os::unix::fs::symlink;
use std::path::Path;
use std::test::Fail;

#[test]
fn files_of_the_disk_are_read(rt: HostRuntime) -> Result<(), Fail> {
    let alloc = rt.alloc();
    fs::write(&rt, "octimap-test-stops.txt", "stop_id\r\n")?;
    let mut files = DiskFiles::new(&rt);
    let bytes = read_all(alloc, &mut files, "octimap-test-stops.txt", 100);
    let below = read_all(alloc, &mut files, "octimap-test-stops.txt/stops.txt", 100);
    fs::remove_file(&rt, "octimap-test-stops.txt")?;
    let missing = read_all(alloc, &mut files, "octimap-test-stops.txt", 100);
    let folder = read_all(alloc, &mut files, ".", 100);
    assert_eq!(rt; bytes?.as_slice(), b"stop_id\r\n".as_slice());
    // A part of the path that is a file, and no file at the path.
    assert_eq!(rt; below.err(), Some(DoorFault::Absent));
    assert_eq!(rt; missing.err(), Some(DoorFault::Absent));
    assert_eq!(rt; folder.err(), Some(DoorFault::ReadFault));
    Ok(())
}

#[test]
fn a_file_in_no_folder_is_not_written(rt: HostRuntime) -> Result<(), Fail> {
    let alloc = rt.alloc();
    let target = Target::Path(Text::of(alloc, "octimap-test-missing/map.svg")?);
    let mut sinks = DiskSinks::new(&rt, alloc);
    assert_eq!(rt; sinks.begin(&target).err(), Some(Stop::Failed));
    Ok(())
}

/// Writes a text to the file of a path.
fn write_to(
    rt: &HostRuntime,
    sinks: &mut DiskSinks<&HostRuntime>,
    path: &str,
    text: &str,
) -> Result<(), Fail> {
    let target = Target::Path(Text::of(rt.alloc(), path)?);
    if sinks.begin(&target).is_err() {
        return Err(Fail::from("the file is not begun"));
    }
    write_all(sinks, text.as_bytes())?;
    Ok(())
}

/// How many names a folder has.
fn count_names(rt: &HostRuntime, folder: &str) -> Result<u32, Fail> {
    let mut count: u32 = 0;
    for entry in fs::read_dir(rt, folder)? {
        let _ = entry?;
        count = count.saturating_add(1);
    }
    Ok(count)
}

#[test]
fn files_of_the_disk_are_put_in_place(rt: HostRuntime) -> Result<(), Fail> {
    fs::create_dir(&rt, "octimap-test-new")?;
    fs::write(&rt, "octimap-test-new/map.svg", "old")?;
    symlink(&rt, "to", "octimap-test-new/link")?;
    let mut sinks = DiskSinks::new(&rt, rt.alloc());
    write_to(
        &rt,
        &mut sinks,
        "octimap-test-new/map.svg",
        "<svg>longer</svg>\n",
    )?;
    write_to(&rt, &mut sinks, "octimap-test-new/map.svg", "<svg/>\n")?;
    write_to(&rt, &mut sinks, "octimap-test-new/link", "linked")?;
    write_to(&rt, &mut sinks, "/dev/null", "nothing")?;
    let before = fs::read(&rt, "octimap-test-new/map.svg")?;
    let placed = sinks.put_in_place();
    let map = fs::read(&rt, "octimap-test-new/map.svg")?;
    let linked = fs::read(&rt, "octimap-test-new/to")?;
    let count = count_names(&rt, "octimap-test-new")?;
    fs::remove_dir_all(&rt, "octimap-test-new")?;
    assert_eq!(rt; before.as_slice(), b"old".as_slice());
    assert_eq!(rt; placed.is_ok(), true);
    assert_eq!(rt; map.as_slice(), b"<svg/>\n".as_slice());
    assert_eq!(rt; linked.as_slice(), b"linked".as_slice());
    assert_eq!(rt; count, 3u32);
    Ok(())
}

#[test]
fn one_file_is_not_put_in_place_without_the_other(rt: HostRuntime) -> Result<(), Fail> {
    fs::create_dir(&rt, "octimap-test-pair")?;
    fs::write(&rt, "octimap-test-pair/map.svg", "old")?;
    let mut sinks = DiskSinks::new(&rt, rt.alloc());
    write_to(&rt, &mut sinks, "octimap-test-pair/map.svg", "new")?;
    write_to(&rt, &mut sinks, "octimap-test-pair/map.cert", "new")?;
    // No file can take the place of a folder.
    fs::create_dir(&rt, "octimap-test-pair/map.cert")?;
    let placed = sinks.put_in_place();
    let map = fs::read(&rt, "octimap-test-pair/map.svg")?;
    let count = count_names(&rt, "octimap-test-pair")?;
    fs::remove_dir_all(&rt, "octimap-test-pair")?;
    assert_eq!(rt; placed.err(), Some(Stop::Failed));
    assert_eq!(rt; map.as_slice(), b"old".as_slice());
    assert_eq!(rt; count, 2u32);
    Ok(())
}

#[test]
fn what_is_discarded_leaves_nothing(rt: HostRuntime) -> Result<(), Fail> {
    fs::create_dir(&rt, "octimap-test-gone")?;
    fs::write(&rt, "octimap-test-gone/map.svg", "old")?;
    let mut sinks = DiskSinks::new(&rt, rt.alloc());
    write_to(&rt, &mut sinks, "octimap-test-gone/map.svg", "new")?;
    write_to(&rt, &mut sinks, "octimap-test-gone/map.cert", "new")?;
    sinks.discard();
    let map = fs::read(&rt, "octimap-test-gone/map.svg")?;
    let count = count_names(&rt, "octimap-test-gone")?;
    fs::remove_dir_all(&rt, "octimap-test-gone")?;
    assert_eq!(rt; map.as_slice(), b"old".as_slice());
    assert_eq!(rt; count, 1u32);
    Ok(())
}

#[test]
fn paths_lead_to_one_file(rt: HostRuntime) -> Result<(), Fail> {
    let alloc = rt.alloc();
    fs::create_dir(&rt, "octimap-test-leads")?;
    fs::write(&rt, "octimap-test-leads/map.svg", "old")?;
    symlink(&rt, "map.svg", "octimap-test-leads/link")?;
    symlink(&rt, "new.svg", "octimap-test-leads/to-new")?;
    let disk = DiskLeads::new(&rt, alloc);
    // Two paths in the folder, and whether they are one file.
    let pairs = [
        ("map.svg", "../octimap-test-leads/map.svg", true),
        ("map.svg", "link", true),
        ("new.svg", "./new.svg", true),
        ("new.svg", "to-new", true),
        ("map.svg", "new.svg", false),
        ("new.svg", "newer.svg", false),
        ("missing/new.svg", "missing/new.svg", false),
        ("/dev/null", "/dev/null", false),
    ];
    for (path, other, one) in pairs {
        let path = Path::new("octimap-test-leads").join(alloc, path)?;
        let other = Path::new("octimap-test-leads").join(alloc, other)?;
        assert_eq!(rt; disk.are_one(path.as_str(), other.as_str()).ok(), Some(one));
    }
    fs::remove_dir_all(&rt, "octimap-test-leads")?;
    Ok(())
}
