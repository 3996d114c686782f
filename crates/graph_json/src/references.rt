//! Whether what the features of a graph file refer to is there.

ghost use Rattle.std.specs.Prelude.{◌≡◌, ◌≤◌, nat_lt, length, slice_index_or, []};
ghost use Rattle.std.specs.List.{list_all};
ghost use Rattle.map_base.specs.declared.ids.LineId.{LineId};
ghost use Rattle.graph_json.specs.References.{broken_from, node_holds, segment_holds, is_sound_segment, is_sound_join, is_sound_round, rises, is_below, is_before, has_seg, has_line, leads_up, are_sound_lines, joins_hold};

use graph_core::{GraphParts, Join};
use map_base::{LineId, NodeId, SegId, Sequence};

/// Of features, of which each is told to be a node or a segment, the first whose references don't hold in the graph that
/// they make, where so many lines are listed.
pub(crate) fn broken(parts: &GraphParts, listed: usize, are_nodes: &[bool]) -> Option<u64>
    requires few { length parts.now.ends ≤ 20000 }
    ensures { result ≡ broken_from parts.now listed 0 0 0 are_nodes.now }
{
    let mut nodes = 0;
    let mut segments = 0;
    for (i, is_node) in are_nodes.iter().enumerate() {
        if *is_node {
            if !node_holds(parts, nodes) {
                return Some(i as u64);
            }
            nodes += 1;
        } else {
            if !segment_holds(parts, listed, segments) {
                return Some(i as u64);
            }
            segments += 1;
        }
    }
    None
}

/// The list of this number, an empty one where there is none.
fn list_at<T>(lists: &[Sequence<T>], i: usize) -> &[T]
    ensures { result.now ≡ slice_index_or lists.now i [] }
{
    match lists.get(i) {
        Some(list) => list.as_slice(),
        None => &[],
    }
}

/// Whether the references of a segment hold.
fn segment_holds(parts: &GraphParts, listed: usize, s: usize) -> bool
    ensures { result ≡ segment_holds parts.now listed s }
{
    let ends = match parts.ends.as_slice().get(s) {
        Some(ends) => *ends,
        None => (NodeId(0), NodeId(0)),
    };
    let lines = list_at(parts.lines.as_slice(), s);
    is_sound_segment(parts.kinds.as_slice().len(), listed, ends, lines)
}

/// Whether a segment leads from a lower to an upper node, and has lines, which rise and are listed.
fn is_sound_segment(nodes: usize, listed: usize, ends: (NodeId, NodeId), lines: &[LineId]) -> bool
    ensures { result ≡ is_sound_segment nodes listed ends lines.now }
{
    if !leads_up(nodes, ends) {
        return false;
    }
    are_sound_lines(listed, lines)
}

/// Whether a segment leads from a lower to an upper node.
fn leads_up(nodes: usize, ends: (NodeId, NodeId)) -> bool
    ensures { result ≡ leads_up nodes ends }
{
    let (lower, upper) = ends;
    if upper.0 <= lower.0 {
        return false;
    }
    (upper.0 as usize) < nodes
}

/// Whether there are lines, which rise and are listed.
fn are_sound_lines(listed: usize, lines: &[LineId]) -> bool
    ensures { result ≡ are_sound_lines listed lines.now }
{
    if lines.is_empty() {
        return false;
    }
    if !rise(lines) {
        return false;
    }
    are_listed(listed, lines)
}

/// Whether the number of each line is below how many are listed.
fn are_listed(listed: usize, lines: &[LineId]) -> bool
    ensures { result ≡ list_all (λ (l : LineId). nat_lt l.0 listed) lines.now }
{
    lines.iter().all(|line| (line.0 as usize) < listed)
}

/// Whether the references of a node hold.
fn node_holds(parts: &GraphParts, n: usize) -> bool
    requires few { length parts.now.ends ≤ 20000 }
    ensures { result ≡ node_holds parts.now n }
{
    let round = list_at(parts.rounds.as_slice(), n);
    let joins = list_at(parts.joins.as_slice(), n);
    if !is_sound_round(parts.ends.as_slice(), n, round) {
        return false;
    }
    joins_hold(parts.lines.as_slice(), round, joins)
}

/// Whether connections rise, and the references of each hold.
fn joins_hold(lines: &[Sequence<LineId>], round: &[SegId], joins: &[Join]) -> bool
    ensures { result ≡ joins_hold lines.now round.now joins.now }
{
    if !joins_rise(joins) {
        return false;
    }
    are_sound_joins(lines, round, joins)
}

/// Whether the references of each connection hold.
fn are_sound_joins(lines: &[Sequence<LineId>], round: &[SegId], joins: &[Join]) -> bool
    ensures { result ≡ list_all (is_sound_join lines.now round.now) joins.now }
{
    joins.iter().all(|join| is_sound_join(lines, round, *join))
}

/// Whether a round is not empty, and holds exactly the segments that end at node `n`, each once.
fn is_sound_round(ends: &[(NodeId, NodeId)], n: usize, round: &[SegId]) -> bool
    requires few { length ends.now ≤ 20000 }
    ensures { result ≡ is_sound_round ends.now n round.now }
{
    if round.is_empty() {
        return false;
    }
    let mut found = 0;
    for (s, (lower, upper)) in ends.iter().enumerate() {
        if lower.0 as usize == n || upper.0 as usize == n {
            if !has_seg(round, SegId(s as u32)) {
                return false;
            }
            found += 1;
        }
    }
    round.len() == found
}

/// Whether a connection is of two segments of the round, the lesser first, and of a line on both.
fn is_sound_join(lines: &[Sequence<LineId>], round: &[SegId], join: Join) -> bool
    ensures { result ≡ is_sound_join lines.now round.now join }
{
    if join.f.0 <= join.e.0 {
        return false;
    }
    if !has_seg(round, join.e) {
        return false;
    }
    if !has_seg(round, join.f) {
        return false;
    }
    if !has_line(list_at(lines, join.e.0 as usize), join.line) {
        return false;
    }
    has_line(list_at(lines, join.f.0 as usize), join.line)
}

/// Whether a segment is among these.
fn has_seg(segs: &[SegId], seg: SegId) -> bool
    ensures { result ≡ has_seg segs.now seg }
{
    segs.iter().any(|other| other.0 == seg.0)
}

/// Whether a line is among these.
fn has_line(lines: &[LineId], line: LineId) -> bool
    ensures { result ≡ has_line lines.now line }
{
    lines.iter().any(|other| other.0 == line.0)
}

/// Whether lines rise strictly.
fn rise(lines: &[LineId]) -> bool
    ensures { result ≡ rises is_below lines.now }
{
    let [first, later @ ..] = lines else {
        return true;
    };
    let mut last = *first;
    for line in later {
        if line.0 <= last.0 {
            return false;
        }
        last = *line;
    }
    true
}

/// Whether connections rise strictly.
fn joins_rise(joins: &[Join]) -> bool
    ensures { result ≡ rises is_before joins.now }
{
    let [first, later @ ..] = joins else {
        return true;
    };
    let mut last = *first;
    for join in later {
        if !is_before(last, *join) {
            return false;
        }
        last = *join;
    }
    true
}

/// Whether one connection stands before another: by the lesser segment, then by the greater, then by line.
fn is_before(a: Join, b: Join) -> bool
    ensures { result ≡ is_before a b }
{
    if a.e.0 != b.e.0 {
        return a.e.0 < b.e.0;
    }
    if a.f.0 != b.f.0 {
        return a.f.0 < b.f.0;
    }
    a.line.0 < b.line.0
}
