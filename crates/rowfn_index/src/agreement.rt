//! Whether an index was written as it is asked.
ghost use Rattle.std.specs.Prelude.{◌≡◌, ◌<◌, IfOk, IfSome, IsTrue, OnOk, length, string_bytes};
ghost use Rattle.rowfn_index.specs.Agreement.{IsNamed, IsAt, word_at, AreSameWords};

use crate::error::IndexError;
use crate::head::IndexedColumn;
use std::alloc::Global;

/// A copy of a word; of none, what says so.
fn word_or_none(alloc: Global, word: Option<&String>) -> Result<String, IndexError> {
    match word {
        Some(word) => Ok(word.clone()?),
        None => Ok(String::from_str(alloc, "no further --null")?),
    }
}

/// Whether two lists have the same word at a place, or neither has one there.
fn is_same_at(written: &[String], asked: &[String], place: usize) -> bool
    ensures { IsTrue result → word_at written.now place ≡ word_at asked.now place }
{
    match (written.get(place), asked.get(place)) {
        (Some(written), Some(asked)) => written.as_str() == asked.as_str(),
        (None, None) => true,
        _ => false,
    }
}

/// Fails with the first option in which the words by which an index was written differ from those that
/// are asked.
pub fn check_words(alloc: Global, written: &[String], asked: &[String]) -> Result<(), IndexError>
    ensures { OnOk result (AreSameWords written.now asked.now) }
{
    for place in 0..written.len().max(asked.len()) {
        if !is_same_at(written, asked, place) {
            return Err(IndexError::OtherOption {
                written: word_or_none(alloc, written.get(place))?,
                asked: word_or_none(alloc, asked.get(place))?,
            });
        }
    }
    Ok(())
}

/// The number of the column of that name.
fn find_column(columns: &[IndexedColumn], name: &str) -> Option<usize>
    ensures { IfSome result (λ k. (k < length columns.now) × IsNamed columns.now k name.now) }
{
    for number in 0..columns.len() {
        if columns[number].name.as_str() == name {
            return Some(number);
        }
    }
    None
}

/// The place of the column of that number.
fn place_at(columns: &[IndexedColumn], number: usize) -> usize
    requires { number < length columns.now }
    ensures { IsAt columns.now number result }
{
    columns[number].place
}

/// The number of the column of that name. Fails where there is none, and where it is at another place
/// than that, if one is said.
pub fn number_named(
    alloc: Global,
    columns: &[IndexedColumn],
    name: &str,
    place: Option<usize>,
) -> Result<usize, IndexError>
    ensures within { IfOk result (λ k. k < length columns.now) }
    ensures named { IfOk result (λ k. IsNamed columns.now k name.now) }
    ensures there { IfOk result (λ k. IfSome place (IsAt columns.now k)) }
{
    let Some(number) = find_column(columns, name) else {
        return Err(IndexError::NoColumn(String::from_str(alloc, name)?));
    };
    let written = place_at(columns, number);
    let Some(asked) = place else {
        return Ok(number);
    };
    if asked == written {
        return Ok(number);
    }
    Err(IndexError::OtherPlace {
        name: String::from_str(alloc, name)?,
        written: written.saturating_add(1),
        asked: asked.saturating_add(1),
    })
}

/// Fails where a column has another type than that.
pub fn check_type(alloc: Global, column: &IndexedColumn, dtype: &str) -> Result<(), IndexError>
    ensures { OnOk result (string_bytes column.now.dtype ≡ dtype.now) }
{
    if column.dtype.as_str() == dtype {
        return Ok(());
    }
    Err(IndexError::OtherType {
        name: column.name.clone()?,
        written: column.dtype.clone()?,
        asked: String::from_str(alloc, dtype)?,
    })
}
