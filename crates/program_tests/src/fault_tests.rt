//! Faults of reading at each call in turn, and of writing at each byte.

use crate::command_tests::{run_on, words_of};
use crate::map_tests::{SMALLEST_CERTIFICATE, SMALLEST_MAP, at, smallest_feed};
use files_door::{MemoryFiles, MemorySinks, SteadyFiles, SteadySinks, Target};
use std::alloc::Global;
use std::test::Fail;

/// More calls than the smallest feed is read with.
const MANY_CALLS: u64 = 100;

/// The status of `make` on the smallest feed where the call with this number fails, whether an output was begun, and what
/// was said.
fn made_with_fault(alloc: Global, failing: u64) -> Result<(u8, bool, Vec<u8>), Fail> {
    let words = words_of(alloc, "make feed map.svg map.cert")?;
    let mut files = MemoryFiles::with(smallest_feed(alloc)?, vec![in alloc; failing]?);
    let mut sinks = SteadySinks::none(alloc);
    let status = run_on(alloc, &words, &mut files, &mut sinks);
    let has_map = sinks.written(&at(alloc, "map.svg")?).is_some();
    let has_certificate = sinks.written(&at(alloc, "map.cert")?).is_some();
    let said = sinks.written(&Target::Said).unwrap_or(b"");
    Ok((status, has_map || has_certificate, said.to_vec(alloc)?))
}

/// The shapes are not there: looking for them is a call.
#[test]
fn each_fault_of_reading_names_its_table(rt: HostRuntime) -> Result<(), Fail> {
    let mut told = Vec::new(rt.alloc());
    let mut made = false;
    for failing in 1..MANY_CALLS {
        let (status, is_begun, said) = made_with_fault(rt.alloc(), failing)?;
        if status == 0 {
            made = true;
            break;
        }
        assert_eq!(rt; status, 7);
        assert_eq!(rt; is_begun, false);
        if !told.ends_with(said.as_slice()) {
            told.extend_from_slice(said.as_slice())?;
        }
    }
    assert!(rt; made);
    let wanted = "\
read fault: feed/routes.txt
read fault: feed/stops.txt
read fault: feed/trips.txt
read fault: feed/shapes.txt
read fault: feed/stop_times.txt
";
    assert_eq!(rt; told.as_slice(), wanted.as_bytes());
    Ok(())
}

#[test]
fn a_fault_of_reading_names_the_table(rt: HostRuntime) -> Result<(), Fail> {
    let alloc = rt.alloc();
    let words = words_of(alloc, "graph feed")?;
    // Each table is begun, read and read to its end: the seventh call begins the third table.
    let listed = vec![in alloc; 7]?;
    let mut files = MemoryFiles::with(smallest_feed(alloc)?, listed);
    let mut sinks = SteadySinks::none(alloc);
    assert_eq!(rt; run_on(alloc, &words, &mut files, &mut sinks), 7);
    let held = sinks.written(&Target::Said).unwrap_or(b"");
    assert_eq!(rt; held, b"read fault: feed/trips.txt\n".as_slice());
    Ok(())
}

/// What `make` leaves of the smallest map and its certificate in this room: its status, the map, and the certificate, if
/// it was begun.
fn made_in(alloc: Global, room: u64) -> Result<(u8, Vec<u8>, Option<Vec<u8>>), Fail> {
    let words = words_of(alloc, "make feed map.svg map.cert")?;
    let mut files = SteadyFiles::with(smallest_feed(alloc)?);
    let mut sinks = MemorySinks::with_room(alloc, room);
    let status = run_on(alloc, &words, &mut files, &mut sinks);
    let map = sinks.written(&at(alloc, "map.svg")?).unwrap_or(b"");
    let map = map.to_vec(alloc)?;
    let Some(certificate) = sinks.written(&at(alloc, "map.cert")?) else {
        return Ok((status, map, None));
    };
    Ok((status, map, Some(certificate.to_vec(alloc)?)))
}

#[test]
fn each_room_holds_a_beginning_of_map_and_certificate(rt: HostRuntime) -> Result<(), Fail> {
    let alloc = rt.alloc();
    let whole = format!(in alloc; "{SMALLEST_MAP}{SMALLEST_CERTIFICATE}")?;
    let whole = whole.as_str().as_bytes();
    for room in 0..whole.len() {
        let (status, map, certificate) = made_in(alloc, room as u64)?;
        assert_eq!(rt; status, 8);
        assert_eq!(rt; certificate.is_some(), room >= SMALLEST_MAP.len());
        let mut held = map;
        if let Some(certificate) = certificate {
            held.extend_from_slice(certificate.as_slice())?;
        }
        assert_eq!(rt; held.as_slice(), &whole[..room]);
    }
    let (status, _, _) = made_in(alloc, whole.len() as u64)?;
    assert_eq!(rt; status, 0);
    Ok(())
}
