//! Files and sinks in memory.

use files_door::{
    DoorFault, MemoryFiles, MemorySinks, Sinks, SteadyFiles, Target, WriteStop, read_all, write_all,
};
use map_base::Text;
use std::alloc::Global;
use std::test::Fail;

fn file(alloc: Global, path: &str, bytes: &[u8]) -> Result<(Text, Vec<u8>), Fail> {
    Ok((Text::of(alloc, path)?, Vec::from_slice(alloc, bytes)?))
}

fn folder(alloc: Global) -> Result<Vec<(Text, Vec<u8>)>, Fail> {
    let mut files = Vec::new(alloc);
    files.push(file(alloc, "feed/stops.txt", b"abc")?)?;
    files.push(file(alloc, "feed/stops.txt", b"later")?)?;
    files.push(file(alloc, "feed/trips.txt", b"")?)?;
    Ok(files)
}

#[test]
fn reads_a_file_of_many_pieces(rt: HostRuntime) -> Result<(), Fail> {
    let mut long = Vec::new(rt.alloc());
    for place in 0..200_000_u32 {
        long.push((place % 251) as u8)?;
    }
    let mut files = Vec::new(rt.alloc());
    files.push(file(rt.alloc(), "long", &long)?)?;
    let mut files = SteadyFiles::with(files);
    let bytes = read_all(rt.alloc(), &mut files, "long", 200_000)?;
    assert!(rt; bytes.as_slice() == long.as_slice());
    let short = read_all(rt.alloc(), &mut files, "long", 199_999);
    assert!(rt; short.is_err());
    Ok(())
}

#[test]
fn fails_at_the_listed_calls(rt: HostRuntime) -> Result<(), Fail> {
    // A whole read of a short file takes three calls: its begin, its bytes, its end.
    for (call, faulty) in [(1, 0), (2, 0), (3, 0), (4, 1), (9, 2)] {
        let mut failing = Vec::new(rt.alloc());
        failing.push(call)?;
        let mut files = MemoryFiles::with(folder(rt.alloc())?, failing);
        for turn in 0..3 {
            let met = read_all(rt.alloc(), &mut files, "feed/stops.txt", 10).err();
            if turn == faulty {
                assert_eq!(rt; met, Some(DoorFault::ReadFault));
            } else {
                assert_eq!(rt; met, None);
            }
        }
    }
    Ok(())
}

#[test]
fn takes_no_more_than_there_is_room_for(rt: HostRuntime) -> Result<(), Fail> {
    let map = Target::Path(Text::of(rt.alloc(), "map.svg")?);
    let mut sinks = MemorySinks::with_room(rt.alloc(), 5);
    sinks.begin(&Target::Said)?;
    write_all(&mut sinks, b"abc")?;
    sinks.begin(&map)?;
    let stop = write_all(&mut sinks, b"defg").err();
    assert_eq!(rt; stop, Some(WriteStop::Fault { written: 2 }));
    assert_eq!(rt; sinks.written(&map), Some(b"de".as_slice()));
    assert_eq!(rt; sinks.written(&Target::Said), Some(b"abc".as_slice()));
    write_all(&mut sinks, b"")?;
    sinks.begin(&map)?;
    let stop = write_all(&mut sinks, b"h").err();
    assert_eq!(rt; stop, Some(WriteStop::Fault { written: 0 }));
    assert_eq!(rt; sinks.written(&map), Some(b"".as_slice()));
    Ok(())
}
