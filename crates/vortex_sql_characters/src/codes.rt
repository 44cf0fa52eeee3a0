//! Characters and their numbers: `ascii` and `chr`.
ghost use Rattle.std.specs.Prelude.{◌≡◌, string_bytes};
ghost use Rattle.std.specs.Char.{encode_utf8};
ghost use Rattle.std.specs.Str.{chars};
ghost use Rattle.vortex_errors.specs.Answers.{AnswersUnlessMemory};
ghost use Rattle.vortex_sql_rows.specs.AnsweredRows.{MakesRow};
ghost use Rattle.vortex_sql_characters.specs.Codes.{ascii_lawful, ascii_row, chr, chr_lawful};
ghost use Rattle.vortex_sql_characters.specs.Codes.{chr_row, first_code};

use crate::faults::no_character;
use crate::parts::first_of;
use std::alloc::Global;
use vortex_columns::{Cell, PType, VortexResult};
use vortex_sql_rows::cells::{only_int, only_text};
use vortex_sql_rows::row::{RowFn, Signature, TextFn};
use vortex_sql_rows::types::{Gives, Kind, Takes};

/// `ascii(a)`
pub struct Ascii;

/// `chr(n)`
pub struct Chr;

/// The number of the first character; of an empty text zero.
fn first_code(text: &str) -> u32
    ensures { result ≡ first_code (chars text.now) }
{
    match first_of(text) {
        Some(c) => c as u32,
        None => 0,
    }
}

impl RowFn for Ascii {
    ghost about = { λ f. ascii_row };

    fn signature(&self) -> Signature {
        let takes = Takes::Alike(Kind::Text);
        Signature::strict("sql.ascii", 1, takes, Gives::Integer(PType::I64), true)
    }

    fn answer<'a>(&self, _ptype: PType, cells: &[Cell<'a>]) -> VortexResult<Cell<'a>> {
        let Some(text) = only_text(cells) else {
            return Ok(Cell::Null);
        };
        Ok(Cell::Int(first_code(text) as i128))
    }

    ghost lawful = { λ f. ascii_lawful };
}

fn text_of(alloc: Global, character: char) -> VortexResult<String>
    ensures { AnswersUnlessMemory result (λ made. string_bytes made ≡ encode_utf8 character) }
{
    let mut made = String::new(alloc);
    made.push(character)?;
    Ok(made)
}

/// The character with that number; zero has none here, as in PostgreSQL.
fn character_or_fault(alloc: Global, number: i128) -> VortexResult<Option<String>>
    ensures { MakesRow (chr number) result }
{
    if number < 1 || number > 0x10_FFFF {
        return no_character();
    }
    match char::from_u32(number as u32) {
        Some(character) => Ok(Some(text_of(alloc, character)?)),
        None => no_character(),
    }
}

impl TextFn for Chr {
    ghost about = { λ f. chr_row };

    fn signature(&self) -> Signature {
        let takes = Takes::Alike(Kind::Integer);
        Signature::strict("sql.chr", 1, takes, Gives::Text, false)
    }

    fn make(
        &self,
        alloc: Global,
        _ptype: PType,
        cells: &[Cell<'_>],
    ) -> VortexResult<Option<String>> {
        let Some(number) = only_int(cells) else {
            return Ok(None);
        };
        character_or_fault(alloc, number)
    }

    ghost lawful = { λ f. chr_lawful };
}
