//! Texts that are made: in lower and upper case, two in one, and of an integer.
ghost use Rattle.std.specs.Prelude.{◌≡◌, string_bytes};
ghost use Rattle.vortex_errors.specs.Answers.{AnswersUnlessMemory};
ghost use Rattle.vortex_sql_texts.specs.MadeTexts.{in_letters, letters_row};
ghost use Rattle.vortex_sql_texts.specs.MadeTexts.{letters_lawful, concat_row, concat_lawful};
ghost use Rattle.vortex_sql_texts.specs.MadeTexts.{int_text_row, int_text_lawful};

use crate::made::text_or_fault;
use std::alloc::Global;
use vortex_columns::{Cell, PType, VortexResult};
use vortex_sql_rows::cells::{only_int, only_text, text_in};
use vortex_sql_rows::row::{Signature, TextFn};
use vortex_sql_rows::types::{Gives, Kind, Takes};

/// `lower(a)` or `upper(a)`, by the full mapping of Unicode
#[derive(Clone, Copy, Debug, PartialEq, Eq)]
pub enum Letters {
    Lower,
    Upper,
}

/// `a || b`
pub struct Concat;

/// A cast of an integer to text.
pub struct IntToText;

fn in_letters(alloc: Global, letters: Letters, text: &str) -> VortexResult<String>
    ensures { AnswersUnlessMemory result (λ s. string_bytes s ≡ in_letters letters text.now) }
{
    match letters {
        Letters::Lower => Ok(text.to_lowercase(alloc)?),
        Letters::Upper => Ok(text.to_uppercase(alloc)?),
    }
}

impl TextFn for Letters {
    ghost about = { letters_row };

    fn signature(&self) -> Signature {
        let id = match self {
            Letters::Lower => "sql.lower",
            Letters::Upper => "sql.upper",
        };
        Signature::strict(id, 1, Takes::Alike(Kind::Text), Gives::Text, false)
    }

    fn make(
        &self,
        alloc: Global,
        _ptype: PType,
        cells: &[Cell<'_>],
    ) -> VortexResult<Option<String>> {
        let Some(a) = only_text(cells) else {
            return Ok(None);
        };
        text_or_fault(in_letters(alloc, *self, a)?)
    }

    ghost lawful = { letters_lawful };
}

impl TextFn for Concat {
    ghost about = { λ f. concat_row };

    fn signature(&self) -> Signature {
        Signature::strict(
            "sql.textcat",
            2,
            Takes::Alike(Kind::Text),
            Gives::Text,
            false,
        )
    }

    fn make(
        &self,
        alloc: Global,
        _ptype: PType,
        cells: &[Cell<'_>],
    ) -> VortexResult<Option<String>> {
        let [a, b] = cells else {
            return Ok(None);
        };
        let Some(a) = text_in(a) else {
            return Ok(None);
        };
        let Some(b) = text_in(b) else {
            return Ok(None);
        };
        let mut text = String::from_str(alloc, a)?;
        text.push_str(b)?;
        text_or_fault(text)
    }

    ghost lawful = { λ f. concat_lawful };
}

impl TextFn for IntToText {
    ghost about = { λ f. int_text_row };

    fn signature(&self) -> Signature {
        Signature::strict(
            "sql.int_to_utf8",
            1,
            Takes::Alike(Kind::Integer),
            Gives::Text,
            false,
        )
    }

    fn make(
        &self,
        alloc: Global,
        _ptype: PType,
        cells: &[Cell<'_>],
    ) -> VortexResult<Option<String>> {
        let Some(a) = only_int(cells) else {
            return Ok(None);
        };
        text_or_fault(a.to_string(alloc)?)
    }

    ghost lawful = { λ f. int_text_lawful };
}
