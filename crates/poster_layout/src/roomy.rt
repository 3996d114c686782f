//! Whether a pitch is roomy.

ghost use Rattle.std.specs.Prelude.{◌≡◌, ◌≤◌, ◌++◌, ◌∷◌, [], not, true, IfOk};
ghost use Rattle.std.specs.List.{list_any};
ghost use Rattle.poster_plan.specs.Things.{clash};
ghost use Rattle.poster_table.specs.Tables.{IsShortThing, IsTable};
ghost use Rattle.poster_plan.specs.Pitches.{is_roomy, mark_thing, piece_thing};

use map_base::NoMemory;
use name_places::{mark_at, piece_at};
use poster_plan::{Kin, Mark, Piece, Plan, Thing};
use poster_table::Table;
use std::alloc::Global;

/// Whether stations and straight pieces that have no node in common keep apart at a pitch.
pub(crate) fn is_roomy(alloc: Global, pitch: u32, plan: &Plan) -> Result<bool, NoMemory>
    requires { pitch ≤ 200 }
    ensures { IfOk result (λ roomy. roomy ≡ is_roomy pitch plan.now) }
{
    let marks = plan.marks.as_slice();
    let pieces = plan.pieces.as_slice();
    let mut table = Table::none(alloc, marks.len().saturating_add(pieces.len()))?;
    for mark in marks {
        let apart = put_apart(&mut table, mark_thing(pitch, *mark))?;
        if !apart {
            return Ok(false);
        }
    }
    for piece in pieces {
        let free = put_apart(&mut table, piece_thing(pitch, *piece))?;
        if !free {
            return Ok(false);
        }
    }
    Ok(true)
}

/// What a station takes up, and whose it is.
fn mark_thing(pitch: u32, mark: Mark) -> Thing
    requires { pitch ≤ 200 }
    ensures value { result ≡ mark_thing pitch mark }
    ensures short { IsShortThing result }
{
    Thing {
        kin: Kin::Node(mark.node.0),
        shape: mark_at(pitch, mark),
    }
}

/// What a straight piece takes up, and whose it is.
fn piece_thing(pitch: u32, piece: Piece) -> Thing
    requires { pitch ≤ 200 }
    ensures value { result ≡ piece_thing pitch piece }
    ensures short { IsShortThing result }
{
    Thing {
        shape: piece_at(pitch, piece),
        kin: Kin::Ends(piece.ends.0.0, piece.ends.1.0),
    }
}

/// Puts a thing where it clashes with none of the table, and says whether that is so.
fn put_apart(table: &mut Table, thing: Thing) -> Result<bool, NoMemory>
    requires table { IsTable table.old }
    requires thing { IsShortThing thing }
    ensures apart { IfOk result (λ apart. apart ≡ not (list_any (clash thing) table.old.things.items)) }
    ensures table { IfOk result (λ apart. apart ≡ true → IsTable table.new × (table.new.things.items ≡ table.old.things.items ++ thing ∷ [])) }
{
    if table.clashes(thing) {
        return Ok(false);
    }
    table.put(thing)?;
    Ok(true)
}
