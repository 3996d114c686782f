//! A map that is made with a page over files in memory, and pages.

use crate::command_tests::{run_on, words_of};
use crate::map_tests::{SMALLEST_MAP, at, smallest_feed};
use files_door::{SteadyFiles, SteadySinks};
use map_page::page_of;
use std::test::Fail;

/// The poster of the smallest feed: its line ends at both stations, and the legend stands below.
const SMALLEST_POSTER: &str = "\
<svg xmlns=\"http://www.w3.org/2000/svg\" version=\"1.1\" viewBox=\"-136 -75 1272 210\" font-family=\"Helvetica, Arial, sans-serif\">
<rect x=\"-136\" y=\"-75\" width=\"1272\" height=\"210\" fill=\"#ffffff\"/>
<g id=\"lines\" fill=\"none\" stroke-linejoin=\"round\" stroke-linecap=\"round\" stroke-width=\"12\">
<path class=\"s0 l0\" d=\"M 0 0 L 1000 0\" stroke=\"#e6194b\"><title>A</title></path>
</g>
<g id=\"stations\" fill=\"none\" stroke-linejoin=\"round\" stroke-linecap=\"round\">
<g class=\"n0 l0\"><title>X</title>
<path d=\"M 0 0 L 0 0\" stroke=\"#000000\" stroke-width=\"20\"/>
<path d=\"M 0 0 L 0 0\" stroke=\"#ffffff\" stroke-width=\"12\"/>
</g>
<g class=\"n1 l0\"><title>Y</title>
<path d=\"M 1000 0 L 1000 0\" stroke=\"#000000\" stroke-width=\"20\"/>
<path d=\"M 1000 0 L 1000 0\" stroke=\"#ffffff\" stroke-width=\"12\"/>
</g>
</g>
<g id=\"names\" font-size=\"30\" fill=\"#000000\">
<text x=\"-16\" y=\"9\" text-anchor=\"end\">X<tspan dx=\"9\" fill=\"#e6194b\" font-weight=\"bold\">A</tspan></text>
<text x=\"1016\" y=\"9\">Y<tspan dx=\"9\" fill=\"#e6194b\" font-weight=\"bold\">A</tspan></text>
</g>
<g id=\"legend\" font-size=\"30\" fill=\"#000000\">
<path d=\"M -76 60 L -16 60\" stroke=\"#e6194b\" stroke-width=\"12\"/>
<text x=\"14\" y=\"69\">A</text>
</g>
</svg>
";

#[test]
fn a_map_is_made_with_the_page_of_its_poster(rt: HostRuntime) -> Result<(), Fail> {
    let alloc = rt.alloc();
    let words = words_of(alloc, "make feed map.svg map.cert --page map.html")?;
    let mut files = SteadyFiles::with(smallest_feed(alloc)?);
    let mut sinks = SteadySinks::none(alloc);
    assert_eq!(rt; run_on(alloc, &words, &mut files, &mut sinks), 0);
    let map = sinks.written(&at(alloc, "map.svg")?).unwrap_or(b"");
    assert_eq!(rt; map, SMALLEST_MAP.as_bytes());
    let due = page_of(alloc, SMALLEST_POSTER.as_bytes())?;
    let page = sinks.written(&at(alloc, "map.html")?).unwrap_or(b"");
    assert_eq!(rt; page, due.as_slice());
    let end = format!(in alloc; "{SMALLEST_POSTER}\n<!-- the picture ends here -->\n")?;
    assert!(rt; page.ends_with(end.as_str().as_bytes()));
    Ok(())
}

#[test]
fn a_picture_stands_in_its_page(rt: HostRuntime) -> Result<(), Fail> {
    let page = page_of(rt.alloc(), b"<svg/>")?;
    assert!(rt;
        page.as_slice().starts_with(b"<!DOCTYPE html>\n"),
        "the head"
    );
    assert!(rt;
        page.as_slice()
            .ends_with(b"<svg/>\n<!-- the picture ends here -->\n"),
        "the tail"
    );
    Ok(())
}
