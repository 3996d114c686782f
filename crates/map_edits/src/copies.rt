//! Copies of a feed's lists.

ghost use Rattle.std.specs.Prelude.{◌≡◌, IfOk};

use map_base::{NoMemory, Sequence, Text};
use std::alloc::Global;
use transit_feed::{Line, Pattern, Shape, Station};

fn line_copy(alloc: Global, line: &Line) -> Result<Line, NoMemory>
    ensures { IfOk result (λ copy. copy ≡ line.now) }
{
    Ok(Line {
        id: Text::of(alloc, line.id.as_str())?,
        name: Text::of(alloc, line.name.as_str())?,
        colour: line.colour,
        hidden: line.hidden,
    })
}

fn station_copy(alloc: Global, station: &Station) -> Result<Station, NoMemory>
    ensures { IfOk result (λ copy. copy ≡ station.now) }
{
    Ok(Station {
        id: Text::of(alloc, station.id.as_str())?,
        name: Text::of(alloc, station.name.as_str())?,
        lat: station.lat,
        lon: station.lon,
    })
}

fn pattern_copy(alloc: Global, pattern: &Pattern) -> Result<Pattern, NoMemory>
    ensures { IfOk result (λ copy. copy ≡ pattern.now) }
{
    Ok(Pattern {
        line: pattern.line,
        stops: Sequence::of(Vec::from_slice(alloc, pattern.stops.as_slice())?),
        shape: pattern.shape,
    })
}

fn shape_copy(alloc: Global, shape: &Shape) -> Result<Shape, NoMemory>
    ensures { IfOk result (λ copy. copy ≡ shape.now) }
{
    Ok(Shape {
        points: Sequence::of(Vec::from_slice(alloc, shape.points.as_slice())?),
    })
}

/// Lines like these.
#[tactic(auto, using(crate::proofs::ListLemmas::copied_more, crate::proofs::ListLemmas::copied_all))]
pub(crate) fn line_copies(alloc: Global, lines: &[Line]) -> Result<Vec<Line>, NoMemory>
    ensures { IfOk result (λ copies. copies.items ≡ lines.now) }
{
    let mut copies = Vec::new(alloc);
    for line in lines {
        copies.push(line_copy(alloc, line)?)?;
    }
    Ok(copies)
}

/// Stations like these.
#[tactic(auto, using(crate::proofs::ListLemmas::copied_more, crate::proofs::ListLemmas::copied_all))]
pub(crate) fn station_copies(alloc: Global, stations: &[Station]) -> Result<Vec<Station>, NoMemory>
    ensures { IfOk result (λ copies. copies.items ≡ stations.now) }
{
    let mut copies = Vec::new(alloc);
    for station in stations {
        copies.push(station_copy(alloc, station)?)?;
    }
    Ok(copies)
}

/// Patterns like these.
#[tactic(auto, using(crate::proofs::ListLemmas::copied_more, crate::proofs::ListLemmas::copied_all))]
pub(crate) fn pattern_copies(alloc: Global, patterns: &[Pattern]) -> Result<Vec<Pattern>, NoMemory>
    ensures { IfOk result (λ copies. copies.items ≡ patterns.now) }
{
    let mut copies = Vec::new(alloc);
    for pattern in patterns {
        copies.push(pattern_copy(alloc, pattern)?)?;
    }
    Ok(copies)
}

/// Shapes like these.
#[tactic(auto, using(crate::proofs::ListLemmas::copied_more, crate::proofs::ListLemmas::copied_all))]
pub(crate) fn shape_copies(alloc: Global, shapes: &[Shape]) -> Result<Vec<Shape>, NoMemory>
    ensures { IfOk result (λ copies. copies.items ≡ shapes.now) }
{
    let mut copies = Vec::new(alloc);
    for shape in shapes {
        copies.push(shape_copy(alloc, shape)?)?;
    }
    Ok(copies)
}

/// Pairs of a route id and an importance like these.
#[tactic(auto, using(crate::proofs::ListLemmas::copied_more, crate::proofs::ListLemmas::copied_all))]
pub(crate) fn pair_copies(
    alloc: Global,
    pairs: &[(Text, u32)],
) -> Result<Vec<(Text, u32)>, NoMemory>
    ensures { IfOk result (λ copies. copies.items ≡ pairs.now) }
{
    let mut copies = Vec::new(alloc);
    for pair in pairs {
        copies.push((Text::of(alloc, pair.0.as_str())?, pair.1))?;
    }
    Ok(copies)
}
