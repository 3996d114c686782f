//! The ids of a table.

use crate::paths::bytes_at;
use map_base::{NoMemory, Text};
use std::alloc::Global;
use std::rt::Files;
use table_rows::{column_of, field_in, rows_of};

/// The field of each row of the table at this path in the column of this name, as far as they are texts: empty where
/// the column is not there. None where the table is not there.
pub fn ids_at<R: Files + AllocGlobal>(
    rt: &R,
    path: &str,
    name: &str,
) -> Result<Vec<Text>, NoMemory> {
    match bytes_at(rt, path)? {
        Some(bytes) => ids_in(rt.alloc(), bytes.as_slice(), name),
        None => Ok(Vec::new(rt.alloc())),
    }
}

/// The field of each row of these bytes of a table in the column of this name, as far as they are texts: empty where
/// the column is not there.
#[inline(never)]
fn ids_in(alloc: Global, bytes: &[u8], name: &str) -> Result<Vec<Text>, NoMemory> {
    let rows = rows_of(alloc, bytes)?;
    let mut ids = Vec::new(alloc);
    if rows.is_empty() {
        return Ok(ids);
    }
    let column = column_of(&rows, name.as_bytes());
    for row in 1..rows.len() {
        if let Ok(id) = str::from_utf8(field_in(&rows, row, column)) {
            ids.push(Text::of(alloc, id)?)?;
        }
    }
    Ok(ids)
}
