//! Reading the lines of a script.

ghost use Rattle.std.specs.Prelude.{◌≡◌, ◌<◌, ◌∷◌, option_map, IfOk};
ghost use Rattle.map_edits.specs.Words.{words, words_behind};
ghost use Rattle.map_edits.specs.Answers.{Gives};
ghost use Rattle.map_edits.specs.Grammar.{one_id, one_number, one_cell, station_in, weight_edit, rename_edit, colour_edit, importance_edit, move_edit, undo_edit, edit_of, edit_in, script_line_in};

use crate::edit::Edit;
use crate::fault::EditStop;
use crate::kind::{Kind, kind_of};
use crate::values::{cell_in, id_in, name_in, number_within, weights_in};
use crate::words::{first_word, next_word, only_word, three_words, two_words};
use map_base::{Text, Weights};
use std::alloc::Global;
use table_rows::{colour_of, latitude_of, longitude_of};

/// What a line of a script says.
#[derive(Debug, Drop)]
pub enum ScriptLine {
    /// The map is to be drawn.
    Draw,
    /// An edit.
    Edit(Edit),
}

fn one_id(alloc: Global, arguments: &[u8]) -> Result<Text, EditStop>
    ensures { Gives result (one_id (words_behind arguments.now)) }
{
    match only_word(arguments) {
        Some(word) => id_in(alloc, word),
        None => Err(EditStop::BadEdit),
    }
}

fn one_number(least: u32, most: u32, arguments: &[u8]) -> Result<u32, EditStop>
    ensures { Gives result (one_number least most (words_behind arguments.now)) }
{
    let word = only_word(arguments).ok_or(EditStop::BadEdit)?;
    number_within(least, most, word).ok_or(EditStop::BadEdit)
}

fn one_cell(arguments: &[u8]) -> Result<u32, EditStop>
    ensures { Gives result (one_cell (words_behind arguments.now)) }
{
    let word = only_word(arguments).ok_or(EditStop::BadEdit)?;
    cell_in(word).ok_or(EditStop::BadEdit)
}

/// Whether weights are those at stations.
fn station_in(word: &[u8]) -> Option<bool>
    ensures { result ≡ station_in word.now }
{
    if word == b"station".as_slice() {
        Some(true)
    } else if word == b"junction".as_slice() {
        Some(false)
    } else {
        None
    }
}

/// `weight station LINK SPLIT SEP` or `weight junction LINK SPLIT SEP`, behind the first word.
fn weight_edit(arguments: &[u8]) -> Option<Edit>
    ensures { result ≡ weight_edit (words_behind arguments.now) }
{
    let (word, numbers) = next_word(arguments)?;
    let station = station_in(word)?;
    let (link, split, sep) = three_words(numbers)?;
    let weights = weights_in(link, split, sep)?;
    Some(Edit::Weight { station, weights })
}

/// `rename ID NAME`, behind the first word.
fn rename_edit(alloc: Global, arguments: &[u8]) -> Result<Edit, EditStop>
    ensures { Gives result (rename_edit (words_behind arguments.now)) }
{
    let (stop, name) = two_words(arguments).ok_or(EditStop::BadEdit)?;
    let stop = id_in(alloc, stop)?;
    let name = name_in(alloc, name)?;
    Ok(Edit::Rename { stop, name })
}

/// `colour ID RRGGBB`, behind the first word.
fn colour_edit(alloc: Global, arguments: &[u8]) -> Result<Edit, EditStop>
    ensures { Gives result (colour_edit (words_behind arguments.now)) }
{
    let (line, colour) = two_words(arguments).ok_or(EditStop::BadEdit)?;
    let colour = colour_of(colour).ok_or(EditStop::BadEdit)?;
    let line = id_in(alloc, line)?;
    Ok(Edit::Colour { line, colour })
}

/// `importance ID N`, behind the first word.
fn importance_edit(alloc: Global, arguments: &[u8]) -> Result<Edit, EditStop>
    ensures { Gives result (importance_edit (words_behind arguments.now)) }
{
    let (line, importance) = two_words(arguments).ok_or(EditStop::BadEdit)?;
    let importance = number_within(1, 16, importance).ok_or(EditStop::BadEdit)?;
    let line = id_in(alloc, line)?;
    Ok(Edit::Importance { line, importance })
}

/// `move ID LAT LON`, behind the first word.
fn move_edit(alloc: Global, arguments: &[u8]) -> Result<Edit, EditStop>
    ensures { Gives result (move_edit (words_behind arguments.now)) }
{
    let (stop, lat, lon) = three_words(arguments).ok_or(EditStop::BadEdit)?;
    let lat = latitude_of(lat).ok_or(EditStop::BadEdit)?;
    let lon = longitude_of(lon).ok_or(EditStop::BadEdit)?;
    let stop = id_in(alloc, stop)?;
    Ok(Edit::Move { stop, lat, lon })
}

/// `undo`, behind the first word.
#[tactic(auto, using(crate::proofs::WordLemmas::undo_refused))]
fn undo_edit(arguments: &[u8]) -> Option<Edit>
    ensures { result ≡ undo_edit (words_behind arguments.now) }
{
    if arguments.is_empty() {
        Some(Edit::Undo)
    } else {
        None
    }
}

/// The edit of a kind that the words behind the first say.
fn edit_of(alloc: Global, arguments: &[u8], kind: Kind) -> Result<Edit, EditStop>
    ensures { Gives result (edit_of (words_behind arguments.now) kind) }
{
    match kind {
        Kind::Hide => Ok(Edit::Hide {
            line: one_id(alloc, arguments)?,
        }),
        Kind::Show => Ok(Edit::Show {
            line: one_id(alloc, arguments)?,
        }),
        Kind::Weight => weight_edit(arguments).ok_or(EditStop::BadEdit),
        Kind::Near => Ok(Edit::Near {
            near: one_number(20, 20_000, arguments)?,
        }),
        Kind::Cell => Ok(Edit::Cell {
            cell: one_cell(arguments)?,
        }),
        Kind::Budget => Ok(Edit::Budget {
            budget: one_number(1, 100_000, arguments)?,
        }),
        Kind::Rename => rename_edit(alloc, arguments),
        Kind::Move => move_edit(alloc, arguments),
        Kind::Colour => colour_edit(alloc, arguments),
        Kind::Importance => importance_edit(alloc, arguments),
        Kind::Undo => undo_edit(arguments).ok_or(EditStop::BadEdit),
    }
}

/// The edit that a line without its end says: words with one TAB between them, of which the first says what is
/// edited. Ids are texts that are not empty, and a new name is any text; numbers are whole numbers as in the tables
/// of a feed, without spaces, degrees as there, and a colour is six hexadecimal digits. Every value is in the range
/// of what it sets.
pub fn read_edit(alloc: Global, line: &[u8]) -> Result<Edit, EditStop>
    ensures { Gives result (edit_in line.now) }
{
    let (word, arguments) = first_word(line);
    match kind_of(word) {
        Some(kind) => edit_of(alloc, arguments, kind),
        None => Err(EditStop::BadEdit),
    }
}

/// What a line of a script without its end says: that the map is to be drawn, or an edit.
pub fn read_script_line(alloc: Global, line: &[u8]) -> Result<ScriptLine, EditStop>
    ensures { Gives result (script_line_in line.now) }
{
    if line == b"draw".as_slice() {
        return Ok(ScriptLine::Draw);
    }
    Ok(ScriptLine::Edit(read_edit(alloc, line)?))
}
