//! The tables of a whole feed.

use files_door::SteadyFiles;
use gtfs_tables::read_tables;
use map_base::Text;
use std::alloc::Global;
use std::process::Abort;
use std::test::Fail;
use transit_feed::{Line, Pattern, Shape, Station};

/// The files of a feed with what a table may have: columns in any order, doubled, unknown or missing; values with blanks and
/// quotes; routes, stops, trips and shapes that are not taken; and rows in any order.
const FILES: [(&str, &[u8]); 5] = [
    (
        "feed/routes.txt",
        b"\xef\xbb\xbfroute_color,route_type,route_long_name, route_id ,route_short_name,route_id\r\n\r\n,3,Bus,B,,\r\n00fF80,1,\"Line, \"\"A\"\"\",A,,Q\r\n,001,Long,L,2,\r\n,1,,N\r\n",
    ),
    (
        "feed/stops.txt",
        b"stop_id,stop_name,stop_lat,stop_lon,location_type,parent_station\nP,,1,1,,S\nX,X,0,0,,\nS,S,0,1,1,\nB,,,,4,P\nE,,,,2,S\nY,Y,0,2,0,\n",
    ),
    (
        "feed/trips.txt",
        b"trip_id,route_id,shape_id\nb,B,s\na,A,s\nl1,L,t\nl2,L,\nl3,L,s\nl4,L,u\na2,A,s\nn,N,\n",
    ),
    (
        "feed/shapes.txt",
        b"shape_id,shape_pt_lat,shape_pt_lon,shape_pt_sequence\nu,1,1,1\nu,2,2,0\nt,0,0,1\ns,3,-3,10\n,x,y,z\ns,4.5,-4e-1,9\n",
    ),
    (
        "feed/stop_times.txt",
        b"trip_id,stop_id,stop_sequence\na,Y,40\na,X,5\nl1,X,1\nl1,B,2\nl1,P,3\nl1,Y,4\nl1,X,5\nl2,X,1\nl2,S,2\nl2,Y,4\nl2,X,9\nl3,X,1\nl3,X,2\nl4,X,1\nl4,Y,2\na2,Y,2\na2,X,1\nb,E,1\nn,,1\n",
    ),
];

/// The folder of these files.
fn feed(alloc: Global) -> Result<SteadyFiles, Fail> {
    let mut files = Vec::new(alloc);
    for (path, bytes) in FILES {
        files.push((Text::of(alloc, path)?, Vec::from_slice(alloc, bytes)?))?;
    }
    Ok(SteadyFiles::with(files))
}

/// Expects these stations.
fn expect_stations(rt: &impl Abort, found: &[Station]) {
    let stations: [(&str, &str, i64, i64); 3] = [
        ("X", "X", 0, 0),
        ("S", "S", 0, 1_000_000),
        ("Y", "Y", 0, 2_000_000),
    ];
    assert_eq!(rt; found.len(), 3);
    for (station, (id, name, lat, lon)) in found.iter().zip(stations) {
        assert_eq!(rt; station.id.as_str(), id);
        assert_eq!(rt; station.name.as_str(), name);
        assert_eq!(rt; station.lat, lat);
        assert_eq!(rt; station.lon, lon);
    }
}

/// Expects these lines.
fn expect_lines(rt: &impl Abort, found: &[Line]) {
    let lines: [(&str, &str, [u8; 3]); 3] = [
        ("A", "Line, \"A\"", [0, 255, 128]),
        ("L", "2", [60, 180, 75]),
        ("N", "N", [67, 99, 216]),
    ];
    assert_eq!(rt; found.len(), 3);
    for (line, (id, name, colour)) in found.iter().zip(lines) {
        assert_eq!(rt; line.id.as_str(), id);
        assert_eq!(rt; line.name.as_str(), name);
        assert_eq!(rt; line.colour, colour);
        assert!(rt; !line.hidden);
    }
}

/// Expects these shapes.
fn expect_shapes(rt: &impl Abort, found: &[Shape]) {
    let shapes: [[(i64, i64); 2]; 2] = [
        [(2_000_000, 2_000_000), (1_000_000, 1_000_000)],
        [(4_500_000, -400_000), (3_000_000, -3_000_000)],
    ];
    assert_eq!(rt; found.len(), 2);
    for (shape, points) in found.iter().zip(shapes) {
        let along = shape.points.as_slice();
        assert_eq!(rt; along, points.as_slice());
    }
}

/// Expects these patterns.
fn expect_patterns(rt: &impl Abort, found: &[Pattern]) {
    let patterns: [(u32, &[u32], Option<u32>); 3] = [
        (0, &[0, 2], Some(1)),
        (1, &[0, 1, 2, 0], None),
        (1, &[0, 2], Some(0)),
    ];
    assert_eq!(rt; found.len(), 3);
    for (pattern, (line, stops, shape)) in found.iter().zip(patterns) {
        assert_eq!(rt; pattern.line.0, line);
        assert_eq!(rt; pattern.shape, shape);
        let served = pattern.stops.as_slice();
        assert_eq!(rt; served.len(), stops.len());
        for (station, number) in served.iter().zip(stops) {
            assert_eq!(rt; station.0, *number);
        }
    }
}

#[test]
fn tables_of_a_feed(rt: HostRuntime) -> Result<(), Fail> {
    let mut files = feed(rt.alloc())?;
    let tables = read_tables(rt.alloc(), &mut files, "feed", &[0, 1])
        .ok()
        .ok_or("a good feed")?;
    expect_stations(&rt, tables.stations.as_slice());
    expect_lines(&rt, tables.lines.as_slice());
    expect_shapes(&rt, tables.shapes.as_slice());
    expect_patterns(&rt, tables.patterns.as_slice());
    Ok(())
}
