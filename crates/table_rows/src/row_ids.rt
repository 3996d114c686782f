//! The ids that rows give, where none gives that of an earlier row.

ghost use Rattle.std.specs.Prelude.{◌≡◌, ◌<◌, ◌++◌, ◌∷◌, [], false, length, drop, IfOk, OnOk, if◌then◌else◌};
ghost use Rattle.table_rows.specs.Ids.{is_among};
ghost use Rattle.table_rows.specs.Cells.{ids_in};
ghost use Rattle.table_rows.specs.NewIds.{AreNew};

use crate::cells::field_in;
use crate::ids::Ids;
use gtfs_fields::Rows;
use map_base::NoMemory;
use std::alloc::Global;

/// Notes an id that was not seen, where it is wanted.
pub fn note_new<'a>(ids: &mut Ids<'a>, wanted: bool, id: &'a [u8]) -> Result<(), NoMemory>
    requires { is_among id.now ids.old ≡ false }
    ensures { OnOk result (ids.new ≡ (if wanted then ids.old ++ id.now ∷ [] else ids.old)) }
{
    if wanted {
        ids.note(id)?;
    }
    Ok(())
}

/// The id of each row behind the header, in their order, where no two rows give one id.
pub fn ids_of_rows<'a>(
    alloc: Global,
    rows: &'a Rows,
    column: Option<usize>,
) -> Result<Ids<'a>, NoMemory>
    requires header { 0 < length rows.now }
    requires new { AreNew column rows.now }
    ensures { IfOk result (λ ids. ids ≡ ids_in column (drop 1 rows.now)) }
{
    let mut ids = Ids::new(alloc);
    for row in 1..rows.len() {
        note_new(&mut ids, true, field_in(rows, row, column))?;
    }
    Ok(ids)
}
