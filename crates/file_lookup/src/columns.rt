//! The columns of a row that was found: which one lacks, and what earlier rows are asked for.

use crate::rows::{FoundRow, Sought};
use gtfs_fields::whole;
use map_base::{NoMemory, Text};
use message_texts::{column_of, id_column, is_column, required_column};
use std::alloc::Global;
use table_rows::{Table, Why};

/// How many columns a table has to have at most.
const MOST_REQUIRED: usize = 4;

/// The first column that a table has to have, and hasn't.
pub fn lacking_column(table: Table, found: &FoundRow) -> Option<&'static str> {
    for place in 0..MOST_REQUIRED {
        let column = required_column(table, place)?;
        if found.column(column).is_none() {
            return Some(column);
        }
    }
    None
}

/// The names that are none of the columns that a table may have: one of these may be a column whose name is misspelt.
pub fn other_names(alloc: Global, table: Table, names: Vec<Text>) -> Result<Vec<Text>, NoMemory> {
    let mut other = Vec::new(alloc);
    for name in names {
        if !is_column(table, name.as_str()) {
            other.push(name)?;
        }
    }
    Ok(other)
}

/// What is looked for in the rows above one that repeats what an earlier row has.
pub fn sought_in<'a>(table: Table, why: Why, found: &'a FoundRow) -> Option<Sought<'a>> {
    let id_name = id_column(table).unwrap_or("trip_id");
    let id_column = found.column(id_name)?;
    let id = found.field(id_name);
    if why == Why::RepeatedId {
        return Some(Sought {
            id_column,
            id,
            number_column: None,
            number: None,
        });
    }
    let number_name = column_of(table, why)?;
    Some(Sought {
        id_column,
        id,
        number_column: found.column(number_name),
        number: whole(found.field(number_name)),
    })
}
