//! LIKE, with its escape.
ghost use Rattle.std.specs.Prelude.{option_map};
ghost use Rattle.vortex_expressions.specs.Calls as specs;
ghost use Rattle.vortex_expressions.specs.Items.{item_in};
ghost use Rattle.vortex_expressions.specs.Answering.{Gives};

use crate::item::{Item, called};
use crate::quotes::between_quotes;
use crate::refusal::{BindStop, Refusal};
use std::alloc::Global;
use vortex_cells::escapes;
use vortex_columns::{DType, Nullability};
use vortex_functions::{LikeOptions, ScalarFnRef};
use vortex_syntax::LikeKind;

/// The escape of a text: its only character, or none if it has no character.
fn escape_in(alloc: Global, written: &[u8]) -> Result<Option<char>, BindStop>
    ensures { Gives (λ c. c) result (specs.escape_in written.now) }
{
    let text = between_quotes(alloc, b'\'', written)?;
    match escapes::escape_of(text.as_str()) {
        Some(escape) => Ok(escape),
        None => Err(BindStop::Refused(Refusal::NoEscape)),
    }
}

fn liked_item(
    alloc: Global,
    kind: LikeKind,
    escape: Option<char>,
    item: Item,
    pattern: Item,
) -> Result<Item, BindStop>
    ensures { Gives item_in result
        (specs.liked_item kind escape (item_in item) (item_in pattern)) }
{
    let function = ScalarFnRef::Like(LikeOptions {
        negated: kind.negated,
        case_insensitive: kind.case_insensitive,
        escape,
    });
    let text = DType::Utf8(Nullability::NonNullable);
    let tree = called(alloc, function, Some(&text), vec![in alloc; item, pattern]?)?;
    Ok(Item::Bound(tree))
}

/// LIKE, whose escape is the backslash unless a text is given.
pub(crate) fn matched_item(
    alloc: Global,
    kind: LikeKind,
    escape: Option<&[u8]>,
    item: Item,
    pattern: Item,
) -> Result<Item, BindStop>
    ensures { Gives item_in result (specs.matched_item kind (option_map (λ e. e.now) escape.entry)
        (item_in item) (item_in pattern)) }
{
    let escape = match escape {
        Some(escape) => escape_in(alloc, escape)?,
        None => Some('\\'),
    };
    liked_item(alloc, kind, escape, item, pattern)
}
