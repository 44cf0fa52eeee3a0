//! Which column's type an error may come of.

use crate::mixed::MixedColumn;
use crate::scopes::is_in_names;
use std::alloc::Global;
use vortex_columns::VortexError;
use vortex_expressions::{Reason, Refusal, TextError};

/// Whether types do not go together.
fn is_of_types(error: &TextError) -> bool {
    matches!(
        &error.reason,
        Reason::Refused(
            Refusal::NotHeld | Refusal::Kinds(_) | Refusal::Binding(VortexError::TypeMismatch(_))
        )
    )
}

/// Whether a function is none of the types of its arguments, or there is none.
fn is_of_function(error: &TextError) -> bool {
    matches!(&error.reason, Reason::Refused(Refusal::NoFunction))
}

/// Where the part begins that ends with a text: behind a comma or a bracket that is open there.
fn start_of(before: &[u8]) -> usize {
    let mut depth = 0usize;
    let mut place = before.len();
    for byte in before.iter().rev() {
        match *byte {
            b')' => depth = depth.saturating_add(1),
            b'(' | b',' if depth == 0 => return place,
            b'(' => depth = depth.saturating_sub(1),
            _ => {}
        }
        place = place.saturating_sub(1);
    }
    0
}

/// Where the part ends that a text begins with: before a comma, or a bracket that was open before.
fn end_of(behind: &[u8]) -> usize {
    let mut depth = 0usize;
    let mut place = 0usize;
    for byte in behind {
        match *byte {
            b'(' => depth = depth.saturating_add(1),
            b')' | b',' if depth == 0 => return place,
            b')' => depth = depth.saturating_sub(1),
            _ => {}
        }
        place = place.saturating_add(1);
    }
    place
}

/// The answer or the argument around a byte of a text.
fn part_at(text: &str, byte: usize) -> &str {
    let Some((before, behind)) = text.split_at_checked(byte) else {
        return text;
    };
    let start = start_of(before.as_bytes());
    let end = byte.saturating_add(end_of(behind.as_bytes()));
    text.get(start..end).unwrap_or(text)
}

/// The first of these columns that is among the names of a text, if an error in it may come of the
/// column's type: it stands in the same answer or argument. Of a function that is none of these types,
/// only a column that is probably not meant to be text, or of dates or numbers in another form.
pub(crate) fn mixed_among(
    alloc: Global,
    columns: &[MixedColumn],
    names: &[String],
    text: &str,
    error: &TextError,
) -> Option<MixedColumn> {
    let is_function = is_of_function(error);
    if !is_of_types(error) && !is_function {
        return None;
    }
    let part = part_at(text, error.byte);
    for column in columns {
        let is_other = match &column.field {
            Some(field) => column.is_meant || field.reading.is_some(),
            None => false,
        };
        let name = column.name.as_str();
        let is_read = is_in_names(names, name) && part.contains(name);
        if is_read && (is_other || !is_function) {
            return column.try_clone(alloc).ok();
        }
    }
    None
}
