//! Which names a poster prints, and how wide they are.

ghost use Rattle.std.specs.Prelude.{◌≡◌, ◌<◌, ◌==◌, ◌&&◌, ◌||◌, ◌++◌, ℕ, false, List, length, slice_index_or, IfOk, OnOk, Some};
ghost use Rattle.graph_core.specs.Consistent.{IsConsistent};
ghost use Rattle.name_widths.specs.Words.{is_common};
ghost use Rattle.name_widths.specs.Votes.{is_that, texts_of};
ghost use Rattle.poster_rules.specs.Texts.{all_names, all_rests, are_same, node_names, node_rest, printed_at, rest_at, unless_second, width_with};
ghost use Rattle.poster_graph.specs.Words.{text_in, AreSeconds, AreTextsOf, IsCommonWord};

use graph_core::{LineGraph, NodeKind};
use map_base::{LineId, NoMemory, NodeId, SegId};
use name_widths::{common_word, rest_of, text_width};
use poster_plan::TextWidth;
use std::alloc::Global;
use svg_writer::{Names, name_of, station_name};

/// The word with which more than half of a line graph's station nodes begin, if there is one, and which nodes are
/// second platforms of a stop.
#[derive(Drop)]
pub struct Texts<'a> {
    pub(crate) common: Option<&'a str>,
    pub(crate) seconds: Vec<bool>,
}

/// The texts of a line graph's nodes.
pub fn texts_of<'a>(
    alloc: Global,
    graph: &LineGraph,
    names: &'a Names,
) -> Result<Texts<'a>, NoMemory>
    ensures texts { IfOk result (AreTextsOf names.now graph.now) }
    ensures graph { IfOk result (λ texts. IsConsistent graph.now) }
{
    let all = all_names(alloc, graph, names)?;
    let common = common_word(all.as_slice());
    let seconds = second_platforms(alloc, graph, names, common)?;
    Ok(Texts { common, seconds })
}

/// What is printed of a node, where it has a name to print.
pub fn printed_at<'a>(
    texts: &Texts<'_>,
    graph: &LineGraph,
    names: &'a Names,
    n: NodeId,
) -> Option<&'a str>
    requires { AreTextsOf names.now graph.now texts.now }
    ensures { text_in result ≡ printed_at graph.now (all_rests names.now graph.now) n.0 }
{
    if n.0 < graph.nodes() {
        let rest = rest_at(graph, names, texts.common, n);
        return unless_second(texts.seconds[n.0 as usize], rest);
    }
    None
}

/// What is left of a name, where that is not empty and its node is no second platform.
fn unless_second<'a>(second: bool, rest: Option<&'a str>) -> Option<&'a str>
    ensures { text_in result ≡ unless_second second (text_in rest.entry) }
{
    match rest {
        None => None,
        Some(text) => unless_empty(second, text),
    }
}

/// This text, which is left of a name, where it is not empty and its node is no second platform.
fn unless_empty<'a>(second: bool, text: &'a str) -> Option<&'a str>
    ensures { text_in result ≡ unless_second second (Some text.now) }
{
    if text.len() == 0 {
        return None;
    }
    if second {
        return None;
    }
    Some(text)
}

/// The names of all station nodes.
fn all_names<'a>(
    alloc: Global,
    graph: &LineGraph,
    names: &'a Names,
) -> Result<Vec<&'a str>, NoMemory>
    ensures names { IfOk result (λ all. texts_of all.items ≡ all_names names.now graph.now) }
    ensures graph { IfOk result (λ all. IsConsistent graph.now) }
{
    let mut all = Vec::new(alloc);
    for n in 0..graph.nodes() {
        put_name(&mut all, names, graph.kind(NodeId(n)))?;
    }
    Ok(all)
}

/// Appends the name of a node of this kind, where that is a station.
fn put_name<'a>(all: &mut Vec<&'a str>, names: &'a Names, kind: NodeKind) -> Result<(), NoMemory>
    ensures { OnOk result (texts_of all.new.items ≡ texts_of all.old.items ++ node_names names.now kind) }
{
    match kind {
        NodeKind::Station(station) => {
            all.push(station_name(names, station.0))?;
            Ok(())
        }
        NodeKind::Junction => Ok(()),
    }
}

/// The name of a node without the common word, where it is a station.
fn rest_at<'a>(
    graph: &LineGraph,
    names: &'a Names,
    common: Option<&str>,
    n: NodeId,
) -> Option<&'a str>
    requires node { n.0 < length graph.now.kinds }
    requires common { IsCommonWord names.now graph.now common }
    ensures { text_in result ≡ rest_at (all_rests names.now graph.now) n.0 }
{
    node_rest(common, names, graph.kind(n))
}

/// The name of a node of this kind without the word that is common to some names, where it is a station.
fn node_rest<'a>(common: Option<&str>, names: &'a Names, kind: NodeKind) -> Option<&'a str>
    ensures { (all : List (List ℕ)) → ((word : List ℕ) → is_common all word ≡ is_that word common.entry) → text_in result ≡ node_rest all names.now kind }
{
    match kind {
        NodeKind::Station(station) => Some(rest_of(common, station_name(names, station.0))),
        NodeKind::Junction => None,
    }
}

/// Which nodes a segment joins to a lower station with the same rest.
fn second_platforms(
    alloc: Global,
    graph: &LineGraph,
    names: &Names,
    common: Option<&str>,
) -> Result<Vec<bool>, NoMemory>
    requires { IsCommonWord names.now graph.now common }
    ensures { IfOk result (λ flags. AreSeconds names.now graph.now flags.items) }
{
    let mut seconds = vec![in alloc; false; graph.nodes() as usize]?;
    for s in 0..graph.segs() {
        let (lower, upper) = graph.ends(SegId(s));
        let same = are_same(
            rest_at(graph, names, common, lower),
            rest_at(graph, names, common, upper),
        );
        note_second(&mut seconds, upper, same);
    }
    Ok(seconds)
}

/// Flags a node, where it has the same rest as a lower one.
fn note_second(seconds: &mut [bool], n: NodeId, same: bool)
    requires { n.0 < length seconds.old }
    ensures each { length seconds.new ≡ length seconds.old }
    ensures flagged { (k : ℕ) → slice_index_or seconds.new k false ≡ (slice_index_or seconds.old k false || (n.0 == k && same)) }
{
    if !same {
        return;
    }
    seconds[n.0 as usize] = true;
}

/// Whether two nodes are stations of which the same is left.
fn are_same(a: Option<&str>, b: Option<&str>) -> bool
    ensures { result ≡ are_same (text_in a.entry) (text_in b.entry) }
{
    match a {
        None => false,
        Some(first) => is_text(first, b),
    }
}

/// Whether a text is this one, if there is one.
fn is_text(text: &str, other: Option<&str>) -> bool
    ensures { result ≡ are_same (Some text.now) (text_in other.entry) }
{
    match other {
        None => false,
        Some(other) => text == other,
    }
}

/// How wide a text is with the names of these lines behind it, each four tenths apart. For more than can be reckoned
/// with there is no room.
pub(crate) fn width_with(names: &Names, lines: &[LineId], text: &str) -> Result<TextWidth, NoMemory>
    ensures { IfOk result (λ width. width ≡ width_with names.now lines.now text.now) }
{
    let mut width = text_width(text)?;
    for line in lines {
        if width > 1_152_921_504_606_846_976 {
            return Err(NoMemory);
        }
        let more = text_width(name_of(names, *line))?;
        width += 4 + more;
    }
    let whole = TextWidth::of(width)?;
    Ok(whole)
}
