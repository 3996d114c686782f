//! The stations of a network in words.

use file_lookup::{FeedStations, Network};
use graph_core::NodeKind;
use map_base::{NoMemory, NodeId};
use message_texts::quoted;
use std::alloc::Global;
use transit_feed::Station;

/// What a node is called; a junction has no name.
pub(crate) fn node_name(
    alloc: Global,
    network: &Network,
    node: NodeId,
) -> Result<String, NoMemory> {
    if node.0 >= network.graph.nodes() {
        return Ok(String::new(alloc));
    }
    let NodeKind::Station(id) = network.graph.kind(node) else {
        return Ok(String::from_str(alloc, "a junction")?);
    };
    match network.names.as_slice().get(id.0 as usize) {
        Some(name) => quoted(alloc, name.as_str().as_bytes()),
        None => Ok(String::new(alloc)),
    }
}

/// A station of a feed by its name, its id, and its latitude and longitude in degrees.
fn station_words(alloc: Global, station: &Station) -> Result<String, NoMemory> {
    let name = quoted(alloc, station.name.as_str().as_bytes())?;
    let id = quoted(alloc, station.id.as_str().as_bytes())?;
    let lat = degrees(alloc, station.lat)?;
    let lon = degrees(alloc, station.lon)?;
    Ok(format!(in alloc; "{name} (stop_id {id}) at {lat}, {lon}")?)
}

/// Microdegrees as degrees, with six places behind the point.
fn degrees(alloc: Global, micro: i64) -> Result<String, NoMemory> {
    let sign = if micro < 0 { "-" } else { "" };
    let size = micro.unsigned_abs();
    let whole = size / 1_000_000;
    let rest = size % 1_000_000;
    Ok(format!(in alloc; "{sign}{whole}.{rest:06}")?)
}

/// A line for stations of a feed that lie far from all others; empty where there are none.
pub(crate) fn far_line(alloc: Global, feed: &FeedStations) -> Result<String, NoMemory> {
    let far = feed.far(alloc)?;
    let Some(first) = far.first() else {
        return Ok(String::new(alloc));
    };
    let station = station_words(alloc, *first)?;
    let more = and_more(alloc, far.len())?;
    Ok(format!(in alloc;
        "octimap: far from all other stations: {station}{more}; are stop_lat and stop_lon right? edits with move set \
        them\n"
    )?)
}

/// How many more there are than the first; empty where there is none.
fn and_more(alloc: Global, count: usize) -> Result<String, NoMemory> {
    let more = count.saturating_sub(1);
    if more == 0 {
        return Ok(String::new(alloc));
    }
    Ok(format!(in alloc; ", and {more} more")?)
}

/// A line for nodes of a graph file that lie far from all others; empty where there are none.
fn far_nodes_line(alloc: Global, network: &Network) -> Result<String, NoMemory> {
    let Some(far) = network.far_off(alloc)? else {
        return Ok(String::new(alloc));
    };
    if far.first.0 >= network.graph.nodes() {
        return Ok(String::new(alloc));
    }
    let name = node_name(alloc, network, far.first)?;
    let place = network.graph.place(far.first);
    let x = place.x;
    let y = place.y;
    let more = and_more(alloc, far.count)?;
    Ok(format!(in alloc;
        "octimap: far from all other stations: {name} at {x}, {y}{more}; are the coordinates right?\n"
    )?)
}

/// A line for stations of a network that lie far from all others; empty where there are none.
pub(crate) fn far_off_line(alloc: Global, network: &Network) -> Result<String, NoMemory> {
    match &network.feed {
        Some(feed) => far_line(alloc, feed),
        None => far_nodes_line(alloc, network),
    }
}

/// A line for the two stations of a feed that lie farthest apart; empty where it has none.
pub(crate) fn farthest_line(alloc: Global, feed: &FeedStations) -> Result<String, NoMemory> {
    let Some((one, other)) = feed.farthest() else {
        return Ok(String::new(alloc));
    };
    let one = station_words(alloc, one)?;
    let other = station_words(alloc, other)?;
    Ok(format!(in alloc; "octimap: farthest apart lie {one} and {other}\n")?)
}
