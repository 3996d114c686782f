//! The plan of a line graph's poster.

ghost use Rattle.std.specs.Prelude.{◌≡◌, ◌<◌, ◌++◌, ◌∷◌, [], length, IfOk, OnOk};
ghost use Rattle.graph_core.specs.Consistent.{IsConsistent};
ghost use Rattle.graph_core.specs.declared.parts.NodeKind.TheVariants.{Station};
ghost use Rattle.map_base.specs.declared.ids.StationId.{StationId};
ghost use Rattle.svg_writer.specs.Picture.{kind_at};
ghost use Rattle.poster_rules.specs.Texts.{all_rests, name_width, printed_at};
ghost use Rattle.poster_rules.specs.Plans.{marks_of, node_mark, pieces_from, pieces_of, plan_of, point_of, segment_pieces};
ghost use Rattle.poster_graph.specs.Words.{AreTextsOf};

use crate::served::{Served, walk_of};
use crate::stations::{ending, leaves_level, radius_at};
use crate::texts::{Texts, printed_at, width_with};
use graph_core::{LineGraph, NodeKind};
use map_base::{NoMemory, NodeId, SegId, Sequence};
use octi_grid::{Drawing, GridPoint, Walk, run_end};
use poster_plan::{Mark, Piece, Plan, TextWidth};
use std::alloc::Global;
use svg_writer::{ends_of, first_of, put_at, round_of};

/// The plan of a line graph's poster, where these texts are printed.
pub fn plan_of(alloc: Global, served: Served<'_>, texts: &Texts<'_>) -> Result<Plan, NoMemory>
    requires { AreTextsOf served.names.now served.graph.now texts.now }
    ensures { IfOk result (λ plan. plan ≡ plan_of served.entry.names.now served.entry.graph.now served.entry.drawing.now.walks served.entry.callers.now) }
{
    let marks = marks_of(alloc, served, texts)?;
    let pieces = pieces_of(alloc, served)?;
    Ok(Plan {
        marks: Sequence::of(marks),
        pieces: Sequence::of(pieces),
    })
}

/// The station nodes as a poster has them, in node order.
fn marks_of(alloc: Global, served: Served<'_>, texts: &Texts<'_>) -> Result<Vec<Mark>, NoMemory>
    requires { AreTextsOf served.names.now served.graph.now texts.now }
    ensures { IfOk result (λ marks. marks.items ≡ marks_of served.entry.names.now served.entry.graph.now served.entry.drawing.now.walks served.entry.callers.now) }
{
    let mut marks = Vec::new(alloc);
    for n in 0..served.graph.nodes() {
        put_node(alloc, &mut marks, served, texts, NodeId(n))?;
    }
    Ok(marks)
}

/// Appends a node, where it is a station.
fn put_node(
    alloc: Global,
    marks: &mut Vec<Mark>,
    served: Served<'_>,
    texts: &Texts<'_>,
    n: NodeId,
) -> Result<(), NoMemory>
    requires graph { IsConsistent served.graph.now }
    requires node { n.0 < length served.graph.now.kinds }
    requires texts { AreTextsOf served.names.now served.graph.now texts.now }
    ensures { OnOk result (marks.new.items ≡ marks.old.items ++ node_mark served.entry.names.now served.entry.graph.now served.entry.drawing.now.walks served.entry.callers.now n.0 (kind_at served.entry.graph.now.kinds n.0)) }
{
    put_kind(alloc, marks, served, texts, n, served.graph.kind(n))
}

/// Appends a node of this kind, where that is a station.
fn put_kind(
    alloc: Global,
    marks: &mut Vec<Mark>,
    served: Served<'_>,
    texts: &Texts<'_>,
    n: NodeId,
    kind: NodeKind,
) -> Result<(), NoMemory>
    requires graph { IsConsistent served.graph.now }
    requires texts { AreTextsOf served.names.now served.graph.now texts.now }
    ensures { OnOk result (marks.new.items ≡ marks.old.items ++ node_mark served.entry.names.now served.entry.graph.now served.entry.drawing.now.walks served.entry.callers.now n.0 kind) }
{
    match kind {
        NodeKind::Station(_) => {
            let name = name_width(alloc, served, texts, n)?;
            let mark = mark_of(served, n, name)?;
            marks.push(mark)?;
            Ok(())
        }
        NodeKind::Junction => Ok(()),
    }
}

/// A station node as a poster has it, where what is printed of it is so wide.
fn mark_of(served: Served<'_>, n: NodeId, name: Option<TextWidth>) -> Result<Mark, NoMemory>
    requires graph { IsConsistent served.graph.now }
    requires name { name ≡ name_width served.names.now served.graph.now served.callers.now n.0 (printed_at served.graph.now (all_rests served.names.now served.graph.now) n.0) }
    ensures { IfOk result (λ mark. (s : StationId) → mark ∷ [] ≡ node_mark served.entry.names.now served.entry.graph.now served.entry.drawing.now.walks served.entry.callers.now n.0 (Station s)) }
{
    let at = point_of(served.graph, served.drawing, n);
    let radius = radius_at(served, n)?;
    let level = leaves_level(served, n);
    Ok(Mark {
        node: n,
        at,
        radius,
        name,
        level,
    })
}

/// How wide what is printed of a node is, its lines that end there included, where it has a name to print.
fn name_width(
    alloc: Global,
    served: Served<'_>,
    texts: &Texts<'_>,
    n: NodeId,
) -> Result<Option<TextWidth>, NoMemory>
    requires graph { IsConsistent served.graph.now }
    requires texts { AreTextsOf served.names.now served.graph.now texts.now }
    ensures { IfOk result (λ width. width ≡ name_width served.entry.names.now served.entry.graph.now served.entry.callers.now n.0 (printed_at served.entry.graph.now (all_rests served.entry.names.now served.entry.graph.now) n.0)) }
{
    match printed_at(texts, served.graph, served.names, n) {
        None => Ok(None),
        Some(text) => {
            let lines = ending(alloc, served, n)?;
            let width = width_with(served.names, lines.as_slice(), text)?;
            Ok(Some(width))
        }
    }
}

/// The grid point of a node: where the walk of the first segment of its round puts it.
fn point_of(graph: &LineGraph, drawing: &Drawing, n: NodeId) -> GridPoint
    ensures { result ≡ point_of graph.now drawing.now.walks n.0 }
{
    let first = first_of(round_of(graph, n));
    put_at(&drawing.walks, ends_of(graph, first), n.0, first)
}

/// The straight pieces of all walks, in the order of their segments.
fn pieces_of(alloc: Global, served: Served<'_>) -> Result<Vec<Piece>, NoMemory>
    ensures { IfOk result (λ pieces. pieces.items ≡ pieces_of served.entry.graph.now served.entry.drawing.now.walks) }
{
    let mut pieces = Vec::new(alloc);
    for s in 0..served.graph.segs() {
        put_segment(&mut pieces, served, s)?;
    }
    Ok(pieces)
}

/// Appends the straight pieces of a segment.
fn put_segment(pieces: &mut Vec<Piece>, served: Served<'_>, s: u32) -> Result<(), NoMemory>
    requires { s < length served.graph.now.ends }
    ensures { OnOk result (pieces.new.items ≡ pieces.old.items ++ segment_pieces served.entry.graph.now served.entry.drawing.now.walks s) }
{
    let lines = served.graph.lines(SegId(s)).len();
    if lines > 100_000_000 {
        return Err(NoMemory);
    }
    let ends = ends_of(served.graph, s);
    match walk_of(&served.drawing.walks, s) {
        Some(walk) => {
            put_pieces(pieces, walk, lines as u32, ends)?;
            Ok(())
        }
        None => Ok(()),
    }
}

/// Appends the straight pieces of a walk of so many lines between these nodes.
fn put_pieces(
    pieces: &mut Vec<Piece>,
    walk: &Walk,
    lines: u32,
    ends: (NodeId, NodeId),
) -> Result<(), NoMemory>
    ensures { OnOk result (pieces.new.items ≡ pieces.old.items ++ pieces_from lines ends walk.now.start walk.now.start walk.now.steps) }
{
    let runs = walk.runs();
    let mut start = walk.start();
    for i in 0..runs.len() {
        let end = run_end(start, runs[i]);
        pieces.push(Piece {
            start,
            end,
            lines,
            ends,
        })?;
        start = end;
    }
    Ok(())
}
