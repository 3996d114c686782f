//! The network of a feed, looked at again.

use crate::feed_stations::FeedStations;
use crate::feed_tables::tables_of;
use crate::paths::bytes_at;
use command_inputs::Inputs;
use command_words::Command;
use graph_core::{LineGraph, NodeKind};
use graph_json::{Imported, JsonFault, read_graph};
use line_graph::build;
use map_base::{NoMemory, NodeId, Point, SegId, Sequence, Text};
use message_texts::far_stations;
use std::alloc::Global;
use std::rt::Files;
use transit_feed::Tables;

/// The line graph that a command works on.
#[derive(Drop)]
pub struct Network {
    /// The graph.
    pub graph: LineGraph,
    /// What its stations are called.
    pub names: Sequence<Text>,
    /// The stations of its feed; none where it stands in a graph file.
    pub feed: Option<FeedStations>,
}

/// The stations of a network that lie far from all others.
#[derive(Clone, Copy)]
pub struct FarOff {
    /// How many there are.
    pub count: usize,
    /// The first of them.
    pub first: NodeId,
}

/// The network of a command's inputs; none where they can't be read again, or are no plain files.
pub fn network_of<R: Files + AllocGlobal>(
    rt: &R,
    command: &Command<'_>,
    inputs: &Inputs<'_>,
) -> Result<Option<Network>, NoMemory> {
    match command {
        Command::Import { graph, .. } => of_graph_file(rt, graph),
        _ => of_feed(rt, inputs),
    }
}

/// The network of a graph file.
fn of_graph_file<R: Files + AllocGlobal>(rt: &R, path: &str) -> Result<Option<Network>, NoMemory> {
    let Some(bytes) = bytes_at(rt, path)? else {
        return Ok(None);
    };
    match read_graph(rt.alloc(), bytes.as_slice()) {
        Ok(read) => {
            let Imported { graph, names, .. } = read;
            Ok(Some(Network {
                graph,
                names: names.stations,
                feed: None,
            }))
        }
        Err(JsonFault::NoMemory) => Err(NoMemory),
        Err(_) => Ok(None),
    }
}

/// The network of a feed.
fn of_feed<R: Files + AllocGlobal>(
    rt: &R,
    inputs: &Inputs<'_>,
) -> Result<Option<Network>, NoMemory> {
    let alloc = rt.alloc();
    let Some(loaded) = tables_of(rt, inputs)? else {
        return Ok(None);
    };
    match build(alloc, &loaded.tables, &loaded.settings) {
        Ok(graph) => Ok(Some(Network {
            graph,
            names: names_of(alloc, &loaded.tables)?,
            feed: Some(FeedStations::of(alloc, loaded.tables)?),
        })),
        Err(_) => Ok(None),
    }
}

/// What the stations of a feed are called: by their names, else by their ids.
fn names_of(alloc: Global, tables: &Tables) -> Result<Sequence<Text>, NoMemory> {
    let mut names = Vec::new(alloc);
    for station in tables.stations.iter() {
        let name = if station.name.as_str().is_empty() {
            station.id.as_str()
        } else {
            station.name.as_str()
        };
        names.push(Text::of(alloc, name)?)?;
    }
    Ok(Sequence::of(names))
}

impl Network {
    /// The nodes of stations that lie far from all others, where there are any.
    pub fn far_off(&self, alloc: Global) -> Result<Option<FarOff>, NoMemory> {
        let (nodes, points) = self.stations(alloc)?;
        let far = far_stations(alloc, points.as_slice())?;
        let count = far.len();
        let Some(place) = far.first() else {
            return Ok(None);
        };
        match nodes.get(*place) {
            Some(first) => Ok(Some(FarOff {
                count,
                first: *first,
            })),
            None => Ok(None),
        }
    }

    /// The nodes that are stations, and where they lie.
    fn stations(&self, alloc: Global) -> Result<(Vec<NodeId>, Vec<Point>), NoMemory> {
        let mut nodes = Vec::new(alloc);
        let mut places = Vec::new(alloc);
        for number in 0..self.graph.nodes() {
            let node = NodeId(number);
            if let NodeKind::Station(_) = self.graph.kind(node) {
                nodes.push(node)?;
                places.push(self.graph.place(node))?;
            }
        }
        Ok((nodes, places))
    }

    /// The first segment with the most lines, and how many it has; none where there is no segment.
    pub fn widest(&self) -> Option<(SegId, usize)> {
        let mut widest = None;
        let mut most = 0;
        for number in 0..self.graph.segs() {
            let seg = SegId(number);
            let lines = self.graph.lines(seg).len();
            if lines > most {
                most = lines;
                widest = Some((seg, lines));
            }
        }
        widest
    }

    /// How many segments meet at a node.
    pub fn meeting(&self, node: NodeId) -> usize {
        if node.0 < self.graph.nodes() {
            self.graph.round(node).len()
        } else {
            0
        }
    }
}
