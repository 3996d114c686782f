//! The names of stations at their places.

ghost use Rattle.std.specs.Prelude.{◌≡◌, ◌≤◌, ◌<◌, ◌++◌, ◌∷◌, [], ℕ, None, Some, length, map, slice_index_or, unwrap_or, IfOk, OnOk, string_bytes};
ghost use Rattle.graph_core.specs.Consistent.{IsConsistent};
ghost use Rattle.poster_graph.specs.Words.{text_in, AreTextsOf};
ghost use Rattle.poster_rules.specs.Elements.{element_text, texts, Name, RimOfName};
ghost use Rattle.poster_rules.specs.Posters.{all_names, ending_of, name_where, printed_of, rim_of};
ghost use Rattle.poster_picture.specs.Sheets.{plain};
ghost use Rattle.poster_picture.specs.Noted.{first_of};

use crate::pieces::{push_name_text, push_spot};
use crate::sheet::{Sheet, served};
use map_base::{LineId, NoMemory};
use name_places::{mark_numbered, sign_of, text_spot};
use poster_graph::{Texts, ending, printed_at};
use poster_plan::{Mark, Plan, Printed, Spot, Step};
use std::alloc::Global;
use svg_writer::Names;

/// Appends the names that are printed, in node order.
pub(crate) fn push_all_names(
    alloc: Global,
    text: &mut String,
    sheet: Sheet<'_>,
    plan: &Plan,
    words: &Texts<'_>,
    printed: &[Printed],
) -> Result<(), NoMemory>
    requires pitch { sheet.pitch ≤ 200 }
    requires graph { IsConsistent sheet.graph.now }
    requires words { AreTextsOf sheet.names.now sheet.graph.now words.now }
    ensures { OnOk result (string_bytes text.new ≡ string_bytes text.old ++ texts (all_names (plain sheet.entry) plan.now.marks printed.now)) }
{
    let count = plan.marks.as_slice().len();
    if count > 1 << 31 {
        return Err(NoMemory);
    }
    let places = places_of(alloc, count, printed)?;
    for i in 0..count {
        let mark = mark_numbered(plan, i as u32);
        push_where(alloc, text, sheet, words, mark, places[i])?;
    }
    Ok(())
}

/// For each of so many marks where its name is printed, if it is.
fn places_of(
    alloc: Global,
    count: usize,
    printed: &[Printed],
) -> Result<Vec<Option<Printed>>, NoMemory>
    ensures each { IfOk result (λ places. length places.items ≡ count) }
    ensures places { IfOk result (λ places. (i : ℕ) → i < count → slice_index_or places.items i None ≡ printed_of printed.now i) }
{
    let mut places: Vec<Option<Printed>> = vec![in alloc; None; count]?;
    for name in printed {
        note_place(&mut places, *name);
    }
    Ok(places)
}

/// Notes where a name is printed, where its mark is one of those and is not noted yet.
fn note_place(places: &mut [Option<Printed>], name: Printed)
    ensures each { length places.new ≡ length places.old }
    ensures places { (i : ℕ) → i < length places.old → slice_index_or places.new i None ≡ first_of (slice_index_or places.old i None) (printed_of (name ∷ []) i) }
{
    let i = name.mark as usize;
    if i >= places.len() {
        return;
    }
    places[i] = first_of(places[i], name);
}

/// What is noted already, or else this.
fn first_of(noted: Option<Printed>, name: Printed) -> Option<Printed>
    ensures { result ≡ first_of noted (Some name) }
{
    match noted {
        Some(first) => Some(first),
        None => Some(name),
    }
}

/// Appends the name of a mark, where it is printed.
fn push_where(
    alloc: Global,
    text: &mut String,
    sheet: Sheet<'_>,
    words: &Texts<'_>,
    mark: Mark,
    printed: Option<Printed>,
) -> Result<(), NoMemory>
    requires pitch { sheet.pitch ≤ 200 }
    requires graph { IsConsistent sheet.graph.now }
    requires words { AreTextsOf sheet.names.now sheet.graph.now words.now }
    ensures { OnOk result (string_bytes text.new ≡ string_bytes text.old ++ texts (name_where (plain sheet.entry) mark printed)) }
{
    match printed {
        None => Ok(()),
        Some(printed) => push_printed(alloc, text, sheet, words, mark, printed),
    }
}

/// Appends the name of a mark where it is printed.
fn push_printed(
    alloc: Global,
    text: &mut String,
    sheet: Sheet<'_>,
    words: &Texts<'_>,
    mark: Mark,
    printed: Printed,
) -> Result<(), NoMemory>
    requires pitch { sheet.pitch ≤ 200 }
    requires graph { IsConsistent sheet.graph.now }
    requires words { AreTextsOf sheet.names.now sheet.graph.now words.now }
    ensures { OnOk result (string_bytes text.new ≡ string_bytes text.old ++ texts (name_where (plain sheet.entry) mark (Some printed))) }
{
    let name = text_or_none(printed_at(words, sheet.graph, sheet.names, mark.node));
    let lines = ending(alloc, served(sheet), mark.node)?;
    let spot = text_spot(sign_of(sheet.pitch, mark), printed.step, printed.place);
    push_name(
        text,
        sheet.names,
        spot,
        printed.step,
        name,
        lines.as_slice(),
    )?;
    Ok(())
}

/// A text, an empty one where there is none.
fn text_or_none<'a>(text: Option<&'a str>) -> &'a str
    ensures { result.now ≡ unwrap_or (text_in text.entry) [] }
{
    match text {
        Some(text) => text,
        None => "",
    }
}

/// Appends a name at its spot with the lines that end there, and its rim behind it where it lies over lines.
fn push_name(
    text: &mut String,
    names: &Names,
    spot: Spot,
    step: Step,
    name: &str,
    lines: &[LineId],
) -> Result<(), NoMemory>
    ensures { OnOk result (string_bytes text.new ≡ string_bytes text.old ++ texts (rim_of step (RimOfName spot step name.now (map (ending_of names.now) lines.now)) ++ Name spot step name.now (map (ending_of names.now) lines.now) ∷ [])) }
{
    match step {
        Step::Over => {
            push_rim(text, names, spot, step, name, lines)?;
            push_alone(text, names, spot, step, name, lines)?;
            Ok(())
        }
        Step::Full => push_alone(text, names, spot, step, name, lines),
        Step::Small => push_alone(text, names, spot, step, name, lines),
    }
}

/// Appends the white rim of a name.
fn push_rim(
    text: &mut String,
    names: &Names,
    spot: Spot,
    step: Step,
    name: &str,
    lines: &[LineId],
) -> Result<(), NoMemory>
    ensures { OnOk result (string_bytes text.new ≡ string_bytes text.old ++ element_text (RimOfName spot step name.now (map (ending_of names.now) lines.now))) }
{
    push_spot(text, spot, step)?;
    text.push_str(" stroke=\"#ffffff\" stroke-width=\"6\" stroke-linejoin=\"round\"")?;
    push_name_text(text, names, step, name, lines)?;
    Ok(())
}

/// Appends a name alone.
fn push_alone(
    text: &mut String,
    names: &Names,
    spot: Spot,
    step: Step,
    name: &str,
    lines: &[LineId],
) -> Result<(), NoMemory>
    ensures { OnOk result (string_bytes text.new ≡ string_bytes text.old ++ element_text (Name spot step name.now (map (ending_of names.now) lines.now))) }
{
    push_spot(text, spot, step)?;
    push_name_text(text, names, step, name, lines)?;
    Ok(())
}
