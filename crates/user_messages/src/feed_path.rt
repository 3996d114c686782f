//! A folder of a feed in which a table is missing: what it seems to be, and what to do.

use file_lookup::{Folder, folder_at, found_file, inner_with};
use map_base::{NoMemory, Text};
use message_texts::{Found, Seeming, list_of, meant, path_seems, plain, quoted};
use std::alloc::Global;
use std::rt::Files;

/// How many names of a folder are told.
const TOLD: usize = 12;

/// The table of this name is missing in the folder of a feed.
#[inline(never)]
pub(crate) fn missing_table<R: Files + AllocGlobal + Clone + Drop>(
    rt: &R,
    feed: &str,
    name: &str,
) -> Result<String, NoMemory> {
    let alloc = rt.alloc();
    match folder_at(rt, feed)? {
        Some(folder) => in_folder(rt, feed, name, &folder),
        None => no_folder(alloc, feed, path_seems(feed, found_file(rt, feed))),
    }
}

/// What a path seems to be where no folder is.
fn no_folder(alloc: Global, feed: &str, seems: Seeming) -> Result<String, NoMemory> {
    let shown = quoted(alloc, feed.as_bytes())?;
    match seems {
        Seeming::Empty => Ok(format!(in alloc;
            "octimap: FEED is an empty word; name the folder of an unpacked feed\n"
        )?),
        Seeming::Address => Ok(format!(in alloc;
            "octimap: {shown} is an address; download the feed, unpack it, and name the folder\n"
        )?),
        Seeming::Packed => {
            let how = how_to_unpack(alloc, feed)?;
            Ok(format!(in alloc;
                "octimap: {shown} is a packed feed; unpack it{how}, and name the folder\n"
            )?)
        }
        Seeming::File => Ok(format!(in alloc;
            "octimap: {shown} is a file; name the folder of an unpacked feed\n"
        )?),
        _ => Ok(format!(in alloc;
            "octimap: there is no folder {shown}; name the folder of an unpacked feed\n"
        )?),
    }
}

/// How the archive at a path is unpacked by a shell; empty where the path can't stand there whole and as it is.
fn how_to_unpack(alloc: Global, path: &str) -> Result<String, NoMemory> {
    let bytes = path.as_bytes();
    let shown = plain(alloc, bytes)?;
    let is_quotable = !bytes.contains(&b'\'') && !bytes.starts_with(b"-".as_slice());
    if is_quotable && shown.as_str() == path {
        return Ok(format!(in alloc; ", as by: unzip -d feed '{path}'")?);
    }
    Ok(String::new(alloc))
}

/// What a folder seems to be in which a table is missing.
fn in_folder<R: Files + AllocGlobal>(
    rt: &R,
    feed: &str,
    name: &str,
    folder: &Folder,
) -> Result<String, NoMemory> {
    let alloc = rt.alloc();
    let inner = inner_with(rt, feed, name, folder)?;
    let found = Found::Folder {
        has_table: false,
        has_inner: inner.is_some(),
        has_packed: !folder.archives.is_empty(),
    };
    match path_seems(feed, found) {
        Seeming::Outer => outer(alloc, feed, name, inner.unwrap_or("")),
        Seeming::HoldsPacked => holds_packed(alloc, feed, name, folder),
        _ => other(alloc, feed, name, folder),
    }
}

/// A folder with a folder in it that has the table.
fn outer(alloc: Global, feed: &str, name: &str, inner: &str) -> Result<String, NoMemory> {
    let path = format!(in alloc; "{feed}/{inner}")?;
    let path = quoted(alloc, path.as_bytes())?;
    Ok(format!(in alloc; "octimap: {name} lies in {path}; name that folder\n")?)
}

/// A folder with an archive in it.
fn holds_packed(
    alloc: Global,
    feed: &str,
    name: &str,
    folder: &Folder,
) -> Result<String, NoMemory> {
    let Some(archive) = folder.archives.first() else {
        return other(alloc, feed, name, folder);
    };
    let archive = archive.as_str();
    let path = format!(in alloc; "{feed}/{archive}")?;
    let path = quoted(alloc, path.as_bytes())?;
    Ok(format!(in alloc;
        "octimap: there is no {name}, but the packed feed {path}; unpack it, and name the folder\n"
    )?)
}

/// A folder with other things in it.
fn other(alloc: Global, feed: &str, name: &str, folder: &Folder) -> Result<String, NoMemory> {
    let shown = quoted(alloc, feed.as_bytes())?;
    let names = folder.names.as_slice();
    let strange = strange_names(alloc, names)?;
    if let Some(place) = meant(alloc, name, strange.as_slice())? {
        if let Some(near) = strange.get(place) {
            let near = quoted(alloc, near.as_str().as_bytes())?;
            return Ok(format!(in alloc;
                "octimap: there is no {name} in {shown} (did you mean {near}?)\n"
            )?);
        }
    }
    if names.is_empty() {
        return Ok(format!(in alloc; "octimap: the folder {shown} is empty\n")?);
    }
    let list = list_of(alloc, names, TOLD)?;
    Ok(format!(in alloc; "octimap: there is no {name} in {shown}; there are {list}\n")?)
}

/// The names that are no table of a feed: one of these may be a table whose name is misspelt.
fn strange_names(alloc: Global, names: &[Text]) -> Result<Vec<Text>, NoMemory> {
    let mut strange = Vec::new(alloc);
    for name in names {
        if !is_table(name.as_str()) {
            strange.push(Text::of(alloc, name.as_str())?)?;
        }
    }
    Ok(strange)
}

/// Whether a feed may have a table of this name, read or not.
fn is_table(name: &str) -> bool {
    match name {
        "agency.txt"
        | "stops.txt"
        | "routes.txt"
        | "trips.txt"
        | "stop_times.txt"
        | "calendar.txt"
        | "calendar_dates.txt"
        | "fare_attributes.txt"
        | "fare_rules.txt"
        | "timeframes.txt"
        | "rider_categories.txt"
        | "fare_media.txt"
        | "fare_products.txt"
        | "fare_leg_rules.txt"
        | "fare_leg_join_rules.txt"
        | "fare_transfer_rules.txt"
        | "areas.txt"
        | "stop_areas.txt"
        | "networks.txt"
        | "route_networks.txt"
        | "shapes.txt"
        | "frequencies.txt"
        | "transfers.txt"
        | "pathways.txt"
        | "levels.txt"
        | "location_groups.txt"
        | "location_group_stops.txt"
        | "booking_rules.txt"
        | "translations.txt"
        | "feed_info.txt"
        | "attributions.txt"
        | "locations.geojson" => true,
        _ => false,
    }
}
