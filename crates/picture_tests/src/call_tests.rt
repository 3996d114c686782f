//! What shows one pale line between two stations.

use cert_file::read_certificate;
use graph_core::LineGraph;
use graph_json::read_graph;
use label_place::labelled;
use map_base::{LineId, Sequence};
use octi_grid::Drawing;
use order_values::Orders;
use poster_picture::poster;
use std::alloc::{AllocError, Global};
use std::test::Fail;
use svg_writer::{Names, picture};

/// The line graph.
const GRAPH: &str = concat!(
    r#"{"features":[{"geometry":{"coordinates":[0,0],"type":"Point"},"#,
    r#""properties":{"joins":[],"name":"X & Co","round":[0]},"type":"Feature"},"#,
    r#"{"geometry":{"coordinates":[11132,11132],"type":"Point"},"#,
    r#""properties":{"joins":[],"name":"Y","round":[0]},"type":"Feature"},"#,
    r#"{"geometry":{"coordinates":[[0,0],[11132,11132]],"type":"LineString"},"#,
    r#""properties":{"ends":[0,1],"lines":[0]},"type":"Feature"}],"#,
    r#""lines":[{"colour":"f0f0f0","importance":1,"name":"A"}],"type":"FeatureCollection"}"#,
    "\n"
);

/// Its certificate, in which the line runs to the north-east.
const CERTIFICATE: &str =
    "octimap 1\ngraph 2 1 1\nwalk 0 2 2 NE46\norder 0 0\ncost 0\nrules 0\nparts 0\n";

/// Its picture: each name stands above its station and right of it.
const PICTURE: &str = "\
<svg xmlns=\"http://www.w3.org/2000/svg\" version=\"1.1\" viewBox=\"0 -5000 5000 5000\">
<path class=\"s0 l0\" d=\"M 200 -200 L 4800 -4800\" fill=\"none\" stroke=\"#f0f0f0\" stroke-width=\"12\"><title>A</title></path>
<circle cx=\"200\" cy=\"-200\" r=\"10\" fill=\"#ffffff\" stroke=\"#000000\" stroke-width=\"4\"/>
<circle cx=\"4800\" cy=\"-4800\" r=\"10\" fill=\"#ffffff\" stroke=\"#000000\" stroke-width=\"4\"/>
<text x=\"214\" y=\"-214\" font-size=\"20\">X &amp; Co</text>
<text x=\"4814\" y=\"-4814\" font-size=\"20\">Y</text>
</svg>
";

/// Parts of its picture with names at free places: the line takes the usual place of the first one, which stands below.
const LABELLED: [&str; 3] = [
    "viewBox=\"0 -5034 5026 5072\"",
    "<text x=\"214\" y=\"-166\" font-size=\"20\">X &amp; Co</text>",
    "<text x=\"4814\" y=\"-4814\" font-size=\"20\">Y</text>",
];

/// Parts of its poster: the frame, a name on each side of the line, and the legend in the upper left corner.
const POSTER: [&str; 4] = [
    "viewBox=\"-180 -1035 1276 1070\"",
    "<text x=\"24\" y=\"-31\" text-anchor=\"end\">X &amp; Co<tspan",
    "<text x=\"976\" y=\"-951\">Y<tspan",
    "<text x=\"-30\" y=\"-951\">A</text>",
];

/// The line graph as it is drawn.
#[derive(Drop)]
struct Shown {
    graph: LineGraph,
    names: Names,
    drawing: Drawing,
    orders: Orders,
}

/// The line graph as its certificate draws it.
fn graph_shown(alloc: Global) -> Result<Shown, Fail> {
    let read = read_graph(alloc, GRAPH.as_bytes()).ok().ok_or("a graph")?;
    let by = read_certificate(alloc, CERTIFICATE.as_bytes())
        .ok()
        .ok_or("a certificate")?;
    Ok(Shown {
        graph: read.graph,
        names: read.names,
        drawing: Drawing { walks: by.walks },
        orders: by.orders,
    })
}

/// The line calls at both stations.
fn callers(alloc: Global) -> Result<Sequence<Sequence<LineId>>, AllocError> {
    let mut callers = Vec::new(alloc);
    for _ in 0..2 {
        let mut lines = Vec::new(alloc);
        lines.push(LineId(0))?;
        callers.push(Sequence::of(lines))?;
    }
    Ok(Sequence::of(callers))
}

#[test]
fn a_line_graph_is_drawn(rt: HostRuntime) -> Result<(), Fail> {
    let alloc = rt.alloc();
    let s = graph_shown(alloc)?;
    let text = picture(alloc, &s.graph, &s.names, &s.drawing, &s.orders)?;
    assert_eq!(rt; text.as_slice(), PICTURE.as_bytes());
    Ok(())
}

#[test]
fn its_names_have_places(rt: HostRuntime) -> Result<(), Fail> {
    let alloc = rt.alloc();
    let s = graph_shown(alloc)?;
    let text = labelled(alloc, &s.graph, &s.names, &s.drawing, &s.orders)?;
    let shown = str::from_utf8(text.as_slice())?;
    for part in LABELLED {
        assert!(rt; shown.contains(part), "{part}");
    }
    Ok(())
}

#[test]
fn it_has_a_poster(rt: HostRuntime) -> Result<(), Fail> {
    let alloc = rt.alloc();
    let s = graph_shown(alloc)?;
    let callers = callers(alloc)?;
    let text = poster(alloc, &s.graph, &s.names, &s.drawing, &s.orders, &callers)?;
    let shown = str::from_utf8(text.as_slice())?;
    for part in POSTER {
        assert!(rt; shown.contains(part), "{part}");
    }
    Ok(())
}
