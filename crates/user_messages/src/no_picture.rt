//! A file of which a page is to be made, and that isn't there or is no picture of octimap.

use crate::files::missing;
use file_lookup::{begins_with, is_folder, is_plain};
use map_base::NoMemory;
use message_texts::quoted;
use std::rt::Files;

/// The line for such a file: what it is, and which one is due.
pub(crate) fn no_picture<R: Files + AllocGlobal>(rt: &R, path: &str) -> Result<String, NoMemory> {
    let alloc = rt.alloc();
    let shown = quoted(alloc, path.as_bytes())?;
    if is_folder(rt, path) {
        return Ok(format!(in alloc; "octimap: {shown} is a folder, and a file is due there\n")?);
    }
    if !is_plain(rt, path) {
        return missing(rt, path);
    }
    let kind = kind_of(rt, path);
    Ok(format!(in alloc;
        "octimap: {shown} is {kind}; name an SVG file as map, labels, geo or poster wrote it\n"
    )?)
}

/// What a file is, by its first bytes.
fn kind_of<R: Files>(rt: &R, path: &str) -> &'static str {
    if begins_with(rt, path, b"octimap 1\n".as_slice()) {
        return "a certificate, and no map";
    }
    if begins_with(rt, path, b"<!DOCTYPE html>".as_slice()) {
        return "a page already";
    }
    "no picture of octimap"
}
