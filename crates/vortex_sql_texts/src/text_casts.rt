//! Casts of texts to integers and to truth values. Spaces at their ends are passed over.
ghost use Rattle.std.specs.Prelude.{◌≡◌, ◌<◌, IfSome};
ghost use Rattle.vortex_sql_rows.specs.AnsweredRows.{AnswersRow};
ghost use Rattle.vortex_sql_texts.specs.TextCasts.{digits_number, in_type, int_cast_id};
ghost use Rattle.vortex_sql_texts.specs.TextCasts.{int_cast_lawful, int_cast_row, is_false_word};
ghost use Rattle.vortex_sql_texts.specs.TextCasts.{is_start, is_true_word, negated, positive};
ghost use Rattle.vortex_sql_texts.specs.TextCasts.{same_word, signed_number, truth_cast_lawful};
ghost use Rattle.vortex_sql_texts.specs.TextCasts.{truth_cast_row, within_spaces, word_truth};

use crate::trims::{LeftOut, Trim, trimmed};
use vortex_columns::{Cell, PType, VortexResult};
use vortex_interface::ScalarFnId;
use vortex_sql_rows::cells::{int_or_fault, only_text};
use vortex_sql_rows::faults::RowFault;
use vortex_sql_rows::ranges::checked;
use vortex_sql_rows::row::{RowFn, Signature};
use vortex_sql_rows::types::{Gives, Kind, Takes};

/// A cast of a text to that integer type, with a fault where it is no number of the type.
#[derive(Clone, Copy, Debug, PartialEq, Eq)]
pub struct TextToInt {
    pub ptype: PType,
}

/// A cast of a text to a truth value, with a fault where it is none.
pub struct TextToTruth;

/// The greatest number of an integer type.
const GREATEST: u128 = 18446744073709551615;

/// The number that digits write. None where there are none, or others than digits, or where more
/// digits follow a number that no type has.
fn digits_number(digits: &[u8]) -> Option<u128>
    ensures value { result ≡ digits_number digits.now }
    ensures bounded { IfSome result (λ n. n < 200000000000000000000) }
{
    if digits.is_empty() {
        return None;
    }
    let mut number = 0;
    for digit in digits {
        if !digit.is_ascii_digit() {
            return None;
        }
        if number > GREATEST {
            return None;
        }
        number = number * 10 + (*digit - 48) as u128;
    }
    Some(number)
}

fn negated(number: Option<u128>) -> Option<i128>
    requires { IfSome number (λ n. n < 200000000000000000000) }
    ensures { result ≡ negated number }
{
    match number {
        Some(number) => Some(-(number as i128)),
        None => None,
    }
}

fn positive(number: Option<u128>) -> Option<i128>
    requires { IfSome number (λ n. n < 200000000000000000000) }
    ensures { result ≡ positive number }
{
    match number {
        Some(number) => Some(number as i128),
        None => None,
    }
}

/// The number of digits with a sign before them or without.
fn signed_number(bytes: &[u8]) -> Option<i128>
    ensures { result ≡ signed_number bytes.now }
{
    match bytes {
        [] => None,
        [first, rest @ ..] => {
            if *first == b'-' {
                negated(digits_number(rest))
            } else if *first == b'+' {
                positive(digits_number(rest))
            } else {
                positive(digits_number(bytes))
            }
        }
    }
}

fn in_type(ptype: PType, number: Option<i128>) -> Option<i128>
    ensures { result ≡ in_type ptype number }
{
    match number {
        Some(number) => checked(ptype, number),
        None => None,
    }
}

fn int_cast_id(ptype: PType) -> ScalarFnId
    ensures { result.now ≡ int_cast_id ptype }
{
    match ptype {
        PType::I8 => "sql.utf8_to_i8",
        PType::I16 => "sql.utf8_to_i16",
        PType::I32 => "sql.utf8_to_i32",
        PType::I64 => "sql.utf8_to_i64",
        PType::U8 => "sql.utf8_to_u8",
        PType::U16 => "sql.utf8_to_u16",
        PType::U32 => "sql.utf8_to_u32",
        PType::U64 => "sql.utf8_to_u64",
    }
}

/// A text without what casts pass over at its ends: blanks, tabs, line feeds, vertical tabs, form
/// feeds, carriage returns.
pub fn within_spaces<'a>(text: &'a str) -> &'a str
    ensures { result.now ≡ within_spaces text.now }
{
    trimmed(Trim::Both, text, LeftOut::Spaces)
}

impl RowFn for TextToInt {
    ghost about = { λ f. int_cast_row f.ptype };

    fn signature(&self) -> Signature {
        Signature::strict(
            int_cast_id(self.ptype),
            1,
            Takes::Alike(Kind::Text),
            Gives::Integer(self.ptype),
            false,
        )
    }

    fn answer<'a>(&self, _ptype: PType, cells: &[Cell<'a>]) -> VortexResult<Cell<'a>> {
        let Some(text) = only_text(cells) else {
            return Ok(Cell::Null);
        };
        let number = signed_number(within_spaces(text).as_bytes());
        int_or_fault(in_type(self.ptype, number), RowFault::NoInteger(self.ptype))
    }

    ghost lawful = { λ f. int_cast_lawful f.ptype };
}

fn is_same_word(word: &[u8], other: &[u8]) -> bool
    ensures { result ≡ same_word word.now other.now }
{
    word.eq_ignore_ascii_case(other)
}

/// Whether a word, ignoring case, begins with that one, which has a byte at least.
fn is_start(word: &[u8], whole: &[u8]) -> bool
    ensures { result ≡ is_start word.now whole.now }
{
    if word.is_empty() {
        return false;
    }
    if word.len() > whole.len() {
        return false;
    }
    is_same_word(word, &whole[..word.len()])
}

fn is_true_word(word: &[u8]) -> bool
    ensures { result ≡ is_true_word word.now }
{
    is_start(word, b"true")
        || (is_start(word, b"yes") || (is_same_word(word, b"on") || is_same_word(word, b"1")))
}

fn is_false_word(word: &[u8]) -> bool
    ensures { result ≡ is_false_word word.now }
{
    is_start(word, b"false")
        || (is_start(word, b"no")
            || (is_same_word(word, b"of")
                || (is_same_word(word, b"off") || is_same_word(word, b"0"))))
}

fn word_truth<'a>(word: &[u8]) -> VortexResult<Cell<'a>>
    ensures { AnswersRow (word_truth word.now) result }
{
    if is_true_word(word) {
        Ok(Cell::Bool(true))
    } else if is_false_word(word) {
        Ok(Cell::Bool(false))
    } else {
        int_or_fault(None, RowFault::NoTruth)
    }
}

impl RowFn for TextToTruth {
    ghost about = { λ f. truth_cast_row };

    fn signature(&self) -> Signature {
        Signature::strict(
            "sql.utf8_to_bool",
            1,
            Takes::Alike(Kind::Text),
            Gives::Truth,
            false,
        )
    }

    fn answer<'a>(&self, _ptype: PType, cells: &[Cell<'a>]) -> VortexResult<Cell<'a>> {
        let Some(text) = only_text(cells) else {
            return Ok(Cell::Null);
        };
        word_truth(within_spaces(text).as_bytes())
    }

    ghost lawful = { λ f. truth_cast_lawful };
}
