//! Whole runs over files and sinks in memory.

ghost use Rattle.std.specs.Prelude.{◌≡◌, ◌<◌};

use files_door::{Files, MemoryFiles, MemorySinks, Sinks, SteadyFiles, SteadySinks, Target};
use map_base::{NoMemory, Steps, Text};
use map_run::run;
use std::alloc::{AllocError, Global};
use std::marker::Brand;
use std::sync::ledger::{Blank, Ledger};
use std::test::Fail;

/// The number that a run ends with.
fn run_counted<F: Files, S: Sinks, L: Ledger>(
    alloc: Global,
    words: &[String],
    files: &mut F,
    sinks: &mut S,
    blank: Blank,
) -> u8
    requires name { blank.name ≡ L.name }
    requires parts { blank.parts ≡ L.parts }
    requires some_part { 0 < blank.parts }
{
    let mut steps = Steps::<L>::open(blank);
    run(alloc, words, files, sinks, &mut steps).number()
}

pub(crate) fn run_on<F: Files, S: Sinks>(
    alloc: Global,
    words: &[String],
    files: &mut F,
    sinks: &mut S,
) -> u8 {
    run_counted::<F, S, Brand>(alloc, words, files, sinks, Blank::new(1))
}

pub(crate) fn words_of(alloc: Global, line: &str) -> Result<Vec<String>, AllocError> {
    let mut words = Vec::new(alloc);
    for word in line.split(' ') {
        words.push(String::from_str(alloc, word)?)?;
    }
    Ok(words)
}

/// The folder `feed` with this `stops.txt`, if any.
fn feed_with(alloc: Global, stops: Option<&str>) -> Result<Vec<(Text, Vec<u8>)>, NoMemory> {
    let mut files = Vec::new(alloc);
    if let Some(stops) = stops {
        let path = Text::of(alloc, "feed/stops.txt")?;
        files.push((path, stops.as_bytes().to_vec(alloc)?))?;
    }
    Ok(files)
}

/// The station X at 0.0001 degrees south.
const ONE_STATION: &str = "stop_id,stop_name,stop_lat,stop_lon\nX,X,-0.0001,0\n";

#[test]
fn a_fault_of_reading_names_the_path(rt: HostRuntime) -> Result<(), Fail> {
    let alloc = rt.alloc();
    let words = words_of(alloc, "stations feed")?;
    // The calls are: begin, a read that gives the file, and a read that gives its end.
    for (failing, status, said) in [
        (1, 7, "read fault: feed/stops.txt\n"),
        (2, 7, "read fault: feed/stops.txt\n"),
        (4, 0, "0 -112 X\n"),
    ] {
        let listed = vec![in alloc; failing]?;
        let mut files = MemoryFiles::with(feed_with(alloc, Some(ONE_STATION))?, listed);
        let mut sinks = SteadySinks::none(alloc);
        assert_eq!(rt; run_on(alloc, &words, &mut files, &mut sinks), status);
        let held = sinks.written(&Target::Said).unwrap_or(b"");
        assert_eq!(rt; held, said.as_bytes());
    }
    Ok(())
}

#[test]
fn a_fault_of_writing_leaves_a_beginning(rt: HostRuntime) -> Result<(), Fail> {
    let alloc = rt.alloc();
    let words = words_of(alloc, "stations feed")?;
    for (room, status, said) in [
        (0, 8, ""),
        (4, 8, "0 -1"),
        (8, 8, "0 -112 X"),
        (9, 0, "0 -112 X\n"),
    ] {
        let mut files = SteadyFiles::with(feed_with(alloc, Some(ONE_STATION))?);
        let mut sinks = MemorySinks::with_room(alloc, room);
        assert_eq!(rt; run_on(alloc, &words, &mut files, &mut sinks), status);
        let held = sinks.written(&Target::Said).unwrap_or(b"");
        assert_eq!(rt; held, said.as_bytes());
    }
    // The line of another status may be cut short, and the status stays.
    let mut files = SteadyFiles::with(feed_with(alloc, None)?);
    let mut sinks = MemorySinks::with_room(alloc, 7);
    assert_eq!(rt; run_on(alloc, &words, &mut files, &mut sinks), 3);
    let held = sinks.written(&Target::Said).unwrap_or(b"");
    assert_eq!(rt; held, b"bad row".as_slice());
    Ok(())
}

#[test]
fn words_that_are_not_read_get_a_text(rt: HostRuntime) -> Result<(), Fail> {
    let alloc = rt.alloc();
    for (line, beginning) in [
        ("help", "Makes schematic maps"),
        ("--help", "Makes schematic maps"),
        ("help graph", "Print the line graph of a feed"),
        ("graph --help", "Print the line graph of a feed"),
        ("station feed", "error: unrecognized subcommand 'station'"),
        (
            "stations",
            "error: the following required arguments were not provided:\n  <FEED>\n",
        ),
        ("graph -x", "error: unexpected argument '-x' found"),
        (
            "stations feed more",
            "error: unexpected argument 'more' found",
        ),
        (
            "make feed map.svg",
            "error: the following required arguments were not provided:\n  <CERT>\n\nUsage: octimap make ",
        ),
        (
            "make feed map map",
            "error: SVG, CERT and, where it is named, HTML have to be different files",
        ),
        ("page map map", "error: SVG and HTML are one file"),
        ("trial x", "error: invalid value 'x' for '<N>'"),
        ("help trial", "Make the map of a built-in random feed"),
        (
            "stations feed --settings my.toml",
            "error: unexpected argument '--settings' found",
        ),
    ] {
        let words = words_of(alloc, line)?;
        let mut files = SteadyFiles::with(feed_with(alloc, None)?);
        let mut sinks = SteadySinks::none(alloc);
        assert_eq!(rt; run_on(alloc, &words, &mut files, &mut sinks), 2);
        let held = sinks.written(&Target::Said).unwrap_or(b"");
        assert!(rt; held.starts_with(beginning.as_bytes()), "{line}");
    }
    Ok(())
}
