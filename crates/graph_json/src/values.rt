//! What values are read as: texts, numbers and lists of them.

ghost use Rattle.std.specs.Prelude.{◌≡◌, Option, map, option_map, option_and_then, IfOk};
ghost use Rattle.serde_json.specs.Find.{get};
ghost use Rattle.serde_json.specs.Data.{Data};
ghost use Rattle.serde_json.specs.View.{view};
ghost use Rattle.graph_json.specs.Forms.{text_at, small_of, coordinate_of, is_text, array_of, array_of_each, importance_of};

use map_base::NoMemory;
use serde_json::Value;
use std::alloc::Global;

/// How far a coordinate lies from the origin at most, in decimetres.
const FARTHEST: i64 = 300_000_000;

/// The text of a member.
pub(crate) fn text_at<'a>(value: &'a Value, key: &str) -> Option<&'a str>
    ensures { option_map (λ s. s.now) result ≡ text_at key.now (view value.now) }
{
    value.get(key).and_then(Value::as_str)
}

/// Whether a member is this text.
pub(crate) fn is_text_at(value: &Value, key: &str, wanted: &str) -> bool
    ensures { result ≡ is_text wanted.now (text_at key.now (view value.now)) }
{
    match text_at(value, key) {
        Some(text) => text == wanted,
        None => false,
    }
}

/// A whole number of 32 bits that is not negative.
pub(crate) fn small_of(value: &Value) -> Option<u32>
    ensures { result ≡ small_of (view value.now) }
{
    let number = value.as_u64()?;
    if number < 4_294_967_296 {
        Some(number as u32)
    } else {
        None
    }
}

/// A coordinate, in decimetres.
pub(crate) fn coordinate_of(value: &Value) -> Option<i64>
    ensures { result ≡ coordinate_of (view value.now) }
{
    let number = value.as_i64()?;
    if -FARTHEST <= number && number <= FARTHEST {
        Some(number)
    } else {
        None
    }
}

/// An importance, from 1 to 16.
pub(crate) fn importance_of(value: &Value) -> Option<u32>
    ensures { result ≡ importance_of (view value.now) }
{
    let importance = small_of(value)?;
    if 1 <= importance && importance <= 16 {
        Some(importance)
    } else {
        None
    }
}

/// The elements of an array.
#[tactic(auto, using(crate::proofs::Lists::array_elements))]
pub(crate) fn array_of(value: &Value) -> Option<&[Value]>
    ensures { option_map (λ items. map view items.now) result ≡ array_of (view value.now) }
{
    let items = value.as_array()?;
    Some(items.as_slice())
}

/// What an element of a list is read as.
pub(crate) trait Form: Drop {
    /// What comes of a value, by definition.
    ghost form: { Data → Option Self };

    /// What comes of a value, none where its form is another.
    fn of(value: &Value) -> Option<Self>
        ensures { result ≡ form (view value.now) };
}

/// The list of a member, none where it is no array or has an element of another form.
pub(crate) fn list_at<T: Form>(
    alloc: Global,
    value: &Value,
    key: &str,
) -> Result<Option<Vec<T>>, NoMemory>
    ensures { IfOk result (λ list. option_map (λ v. v.items) list ≡ option_and_then (array_of_each T.form) (get key.now (view value.now))) }
{
    let Some(items) = value.get(key).and_then(array_of) else {
        return Ok(None);
    };
    let mut list = Vec::new(alloc);
    for item in items {
        let Some(element) = T::of(item) else {
            return Ok(None);
        };
        list.push(element)?;
    }
    Ok(Some(list))
}
