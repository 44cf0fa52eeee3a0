//! Names that no function has, and that mean a call of one.
ghost use Rattle.std.specs.Prelude.{◌≡◌, map};
ghost use Rattle.vortex_expressions.specs.Functions as specs;
ghost use Rattle.vortex_expressions.specs.Items.{item_in};
ghost use Rattle.vortex_expressions.specs.Answering.{Gives};

use crate::applied::function_call;
use crate::functions::function_item;
use crate::item::Item;
use crate::kind_words::is_word;
use crate::refusal::{BindStop, Refusal};
use crate::written_forms::{Form, form_word, formed};
use std::alloc::Global;
use vortex_logical::kind::Kind;
use vortex_standard::Standard;

/// The place of a text in another, which comes behind it.
fn located(alloc: Global, items: Vec<Item>) -> Result<Item, BindStop>
    ensures { Gives item_in result (specs.located (map item_in items.items)) }
{
    match items.as_slice() {
        [part, text] => {
            let turned = vec![in alloc; text.try_clone(alloc)?, part.try_clone(alloc)?]?;
            function_item(alloc, Standard::StrPos, turned)
        }
        [] => function_item(alloc, Standard::StrPos, items),
        [_] => function_item(alloc, Standard::StrPos, items),
        [_, _, _, ..] => function_item(alloc, Standard::StrPos, items),
    }
}

/// Whether the name is that of `strpos` with its arguments turned: `position(a in b)` is read as
/// `position(a, b)`.
fn is_locate(name: &[u8]) -> bool
    ensures { result ≡ specs.is_locate name.now }
{
    is_word(name, b"locate") || is_word(name, b"position")
}

/// The kind that a function of that name reads a text as, by a format, and the function.
fn format_word(word: &[u8]) -> Option<(Kind, Standard)>
    ensures { result ≡ specs.format_word word.now }
{
    if is_word(word, b"to_date") {
        Some((Kind::Date, Standard::TextToDateBy))
    } else if is_word(word, b"to_timestamp") {
        Some((Kind::Timestamp, Standard::TextToTimestampBy))
    } else if is_word(word, b"try_to_date") {
        Some((Kind::Date, Standard::TryTextToDateBy))
    } else if is_word(word, b"try_to_timestamp") {
        Some((Kind::Timestamp, Standard::TryTextToTimestampBy))
    } else {
        None
    }
}

/// The function that such a name means.
pub(crate) fn meant_function(name: &[u8]) -> Option<Standard> {
    if is_locate(name) {
        return Some(Standard::StrPos);
    }
    match form_word(name) {
        Some(Form::Contains) => return Some(Standard::StrPos),
        Some(Form::EndsWith) => return Some(Standard::StartsWith),
        _ => {}
    }
    let (_kind, function) = format_word(name)?;
    Some(function)
}

/// The date or the timestamp of a text by a format.
fn read_by(alloc: Global, name: &[u8], items: Vec<Item>) -> Result<Item, BindStop>
    ensures { Gives item_in result
        (specs.read_by (specs.format_word name.now) (map item_in items.items)) }
{
    let Some((kind, function)) = format_word(name) else {
        return Err(BindStop::Refused(Refusal::NoFunction));
    };
    let tree = function_call(alloc, function, items)?;
    Ok(Item::Kinded(kind, tree))
}

/// What a name means that no function has.
pub(crate) fn unnamed_item(alloc: Global, name: &[u8], items: Vec<Item>) -> Result<Item, BindStop>
    ensures { Gives item_in result (specs.unnamed_item name.now (map item_in items.items)) }
{
    if is_locate(name) {
        return located(alloc, items);
    }
    match form_word(name) {
        Some(form) => formed(alloc, form, items),
        None => read_by(alloc, name, items),
    }
}
