//! What names of functions mean of items.
ghost use Rattle.std.specs.Prelude.{◌≡◌, map};
ghost use Rattle.vortex_expressions.specs.Functions as specs;
ghost use Rattle.vortex_expressions.specs.Items.{item_in};
ghost use Rattle.vortex_expressions.specs.Answering.{Gives};

use crate::applied::function_call;
use crate::functions::{first_kind, function_item};
use crate::item::Item;
use crate::joining::{joined_texts, joins};
use crate::kind_casts::is_text_type;
use crate::kind_functions::{kind_call, single_call};
use crate::kind_words::{KindFunction, KindName, is_word, kind_word};
use crate::kinded::is_plain;
use crate::literal::Literal;
use crate::located::unnamed_item;
use crate::refusal::{BindStop, Refusal};
use std::alloc::Global;
use vortex_logical::kind::Kind;
use vortex_standard::{FloatFunction, PatternFunction, Standard, named};
use vortex_syntax::TrimSide;

/// The call of the function of that name.
fn standard_item(alloc: Global, name: &[u8], items: Vec<Item>) -> Result<Item, BindStop>
    ensures { Gives item_in result (specs.standard_item name.now (map item_in items.items)) }
{
    match named(name) {
        Some(function) => function_item(alloc, function, items),
        None => Err(BindStop::Refused(Refusal::NoFunction)),
    }
}

/// What a name means next to a value of a kind, or without one.
fn applied_item(alloc: Global, name: &[u8], items: Vec<Item>) -> Result<Item, BindStop>
    ensures { Gives item_in result (specs.applied_item name.now (map item_in items.items)) }
{
    if is_plain(&first_kind(false, &items)) {
        return standard_item(alloc, name, items);
    }
    match kind_word(name) {
        Some(meant) => kind_call(alloc, meant, &items),
        None => standard_item(alloc, name, items),
    }
}

/// The date of a year, a month and a day.
fn made_date(alloc: Global, items: Vec<Item>) -> Result<Item, BindStop>
    ensures { Gives item_in result (specs.made_date (map item_in items.items)) }
{
    let tree = function_call(alloc, Standard::MakeDate, items)?;
    Ok(Item::Kinded(Kind::Date, tree))
}

/// Whether a function of numbers takes whole numbers as floats: some whole numbers have, too.
fn takes_whole(function: FloatFunction) -> bool
    ensures { result ≡ specs.takes_whole function }
{
    !matches!(function, FloatFunction::Abs | FloatFunction::Sign)
}

/// The call of a function; one that makes a text of several takes values of each type.
fn joined_call(alloc: Global, function: Standard, items: Vec<Item>) -> Result<Item, BindStop>
    ensures { Gives item_in result (specs.joined_call function (map item_in items.items)) }
{
    if joins(function) {
        joined_texts(alloc, function, items)
    } else {
        function_item(alloc, function, items)
    }
}

/// Whether it is a text, next to which `substring` finds a pattern.
fn is_text(item: &Item) -> bool
    ensures { result ≡ specs.is_text (item_in item.now) }
{
    match item {
        Item::Literal(Literal::Text(_)) => true,
        Item::Bound(tree) => is_text_type(tree.dtype()),
        _ => false,
    }
}

/// The function that is meant: `substring` by a pattern is another one, and so is `regexp_extract` of
/// no group.
fn by_pattern(function: Standard, items: &[Item]) -> Standard
    ensures { result ≡ specs.by_pattern function (map item_in items.now) }
{
    match (function, items) {
        (Standard::Substr, [_, second]) if is_text(second) => {
            Standard::PatternFunction(PatternFunction::Part)
        }
        (Standard::RegexpExtract, [_, _]) => Standard::PatternFunction(PatternFunction::Substr),
        _ => function,
    }
}

/// The function of that name.
fn joining_item(alloc: Global, name: &[u8], items: Vec<Item>) -> Result<Item, BindStop>
    ensures { Gives item_in result (specs.joining_item name.now (map item_in items.items)) }
{
    match named(name) {
        Some(function) => joined_call(alloc, by_pattern(function, &items), items),
        None => unnamed_item(alloc, name, items),
    }
}

/// What a name means without a value of a kind, over columns with kinds.
fn whole_item(
    alloc: Global,
    meant: Option<KindName>,
    name: &[u8],
    items: Vec<Item>,
) -> Result<Item, BindStop>
    ensures { Gives item_in result (specs.whole_item meant name.now (map item_in items.items)) }
{
    match meant {
        Some(KindName::Single(KindFunction::OfFloat(function))) if takes_whole(function) => {
            single_call(alloc, KindFunction::OfFloat(function), &items)
        }
        _ => joining_item(alloc, name, items),
    }
}

/// What a name means over columns with kinds.
fn kinds_item(alloc: Global, name: &[u8], items: Vec<Item>) -> Result<Item, BindStop>
    ensures { Gives item_in result (specs.kinds_item name.now (map item_in items.items)) }
{
    if is_plain(&first_kind(false, &items)) {
        return whole_item(alloc, kind_word(name), name, items);
    }
    match kind_word(name) {
        Some(meant) => kind_call(alloc, meant, &items),
        None => joining_item(alloc, name, items),
    }
}

/// What a name means in a text, over columns with kinds if the flag is true.
pub(crate) fn applied_by(
    alloc: Global,
    has_kinds: bool,
    name: &[u8],
    items: Vec<Item>,
) -> Result<Item, BindStop>
    ensures { Gives item_in result
        (specs.applied_by has_kinds name.now (map item_in items.items)) }
{
    if !has_kinds {
        return applied_item(alloc, name, items);
    }
    if is_word(name, b"make_date") {
        made_date(alloc, items)
    } else {
        kinds_item(alloc, name, items)
    }
}

/// The name of the function that trims there: `trim(both b from a)` is `btrim(a, b)`.
pub(crate) fn trim_word(side: TrimSide) -> &'static str
    ensures { result.now ≡ specs.trim_word side }
{
    match side {
        TrimSide::Both => "btrim",
        TrimSide::Leading => "ltrim",
        TrimSide::Trailing => "rtrim",
    }
}
