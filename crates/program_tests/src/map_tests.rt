//! The command `make` over files in memory.

use crate::command_tests::{run_on, words_of};
use files_door::{MemorySinks, SteadyFiles, SteadySinks, Target};
use map_base::{NoMemory, Text};
use std::alloc::Global;
use std::test::Fail;

/// The map of the smallest feed: two stations and a line.
pub(crate) const SMALLEST_MAP: &str = "\
<svg xmlns=\"http://www.w3.org/2000/svg\" version=\"1.1\" viewBox=\"-200 -200 5400 400\">
<path class=\"s0 l0\" d=\"M 0 0 L 5000 0\" fill=\"none\" stroke=\"#e6194b\" stroke-width=\"12\"><title>A</title></path>
<circle cx=\"0\" cy=\"0\" r=\"10\" fill=\"#ffffff\" stroke=\"#000000\" stroke-width=\"4\"/>
<circle cx=\"5000\" cy=\"0\" r=\"10\" fill=\"#ffffff\" stroke=\"#000000\" stroke-width=\"4\"/>
<text x=\"14\" y=\"-14\" font-size=\"20\">X</text>
<text x=\"5014\" y=\"-14\" font-size=\"20\">Y</text>
</svg>
";

/// Its certificate.
pub(crate) const SMALLEST_CERTIFICATE: &str = "\
octimap 1
graph 2 1 1
walk 0 0 0 E50
order 0 0
cost 0
rules 0
parts 0
";

/// One more file of the folder `feed`.
pub(crate) fn put_file(
    alloc: Global,
    files: &mut Vec<(Text, Vec<u8>)>,
    path: &str,
    text: &str,
) -> Result<(), NoMemory> {
    let path = Text::of(alloc, path)?;
    files.push((path, text.as_bytes().to_vec(alloc)?))?;
    Ok(())
}

/// The folder `feed` with two stations and a line.
pub(crate) fn smallest_feed(alloc: Global) -> Result<Vec<(Text, Vec<u8>)>, NoMemory> {
    let mut files = Vec::new(alloc);
    let stops = "stop_id,stop_name,stop_lat,stop_lon\nX,X,0,0\nY,Y,0,0.010000\n";
    let stop_times = "trip_id,stop_id,stop_sequence\nA1,X,1\nA1,Y,2\n";
    put_file(
        alloc,
        &mut files,
        "feed/routes.txt",
        "route_id,route_type,route_color\nA,1,\n",
    )?;
    put_file(alloc, &mut files, "feed/stops.txt", stops)?;
    put_file(
        alloc,
        &mut files,
        "feed/trips.txt",
        "route_id,service_id,trip_id\nA,S,A1\n",
    )?;
    put_file(alloc, &mut files, "feed/stop_times.txt", stop_times)?;
    Ok(files)
}

/// The file of this path.
pub(crate) fn at(alloc: Global, path: &str) -> Result<Target, NoMemory> {
    Ok(Target::Path(Text::of(alloc, path)?))
}

#[test]
fn the_smallest_map_is_made(rt: HostRuntime) -> Result<(), Fail> {
    let alloc = rt.alloc();
    let words = words_of(alloc, "make feed map.svg map.cert")?;
    let mut files = SteadyFiles::with(smallest_feed(alloc)?);
    let mut sinks = SteadySinks::none(alloc);
    assert_eq!(rt; run_on(alloc, &words, &mut files, &mut sinks), 0);
    let map = sinks.written(&at(alloc, "map.svg")?).unwrap_or(b"");
    assert_eq!(rt; map, SMALLEST_MAP.as_bytes());
    let certificate = sinks.written(&at(alloc, "map.cert")?).unwrap_or(b"");
    assert_eq!(rt; certificate, SMALLEST_CERTIFICATE.as_bytes());
    assert_eq!(rt; sinks.written(&Target::Said), None);
    Ok(())
}

#[test]
fn a_map_that_is_cut_short_leaves_no_certificate(rt: HostRuntime) -> Result<(), Fail> {
    let alloc = rt.alloc();
    let words = words_of(alloc, "make feed map.svg map.cert")?;
    let mut files = SteadyFiles::with(smallest_feed(alloc)?);
    let mut sinks = MemorySinks::with_room(alloc, 100);
    assert_eq!(rt; run_on(alloc, &words, &mut files, &mut sinks), 8);
    let map = sinks.written(&at(alloc, "map.svg")?).unwrap_or(b"");
    assert_eq!(rt; map, &SMALLEST_MAP.as_bytes()[..100]);
    assert_eq!(rt; sinks.written(&at(alloc, "map.cert")?), None);
    Ok(())
}
