//! A text with another one in place of each part: `replace`.
ghost use Rattle.std.specs.Prelude.{◌≡◌, string_bytes};
ghost use Rattle.vortex_errors.specs.Answers.{Answers};
ghost use Rattle.vortex_sql_rows.specs.AnsweredRows.{MakesRow};
ghost use Rattle.vortex_sql_texts.specs.Fields.{fields, joined};
ghost use Rattle.vortex_sql_texts.specs.MadeTexts.{IsTooLong, text_or_fault};
ghost use Rattle.vortex_sql_texts.specs.Replaced.{replace_lawful, replace_row, replaced};

use crate::fields::cut;
use crate::made::{no_text, push_text, text_or_fault};
use std::alloc::Global;
use vortex_columns::{Cell, PType, VortexResult};
use vortex_sql_rows::cells::text_in;
use vortex_sql_rows::row::{Signature, TextFn};
use vortex_sql_rows::types::{Gives, Kind, Takes};

/// `replace(a, part, other)`
pub struct Replace;

/// The text with the other one in place of each part; a fault once it is too long.
fn replaced(alloc: Global, text: &str, part: &str, other: &str) -> VortexResult<String>
    ensures { Answers result
        (λ made. string_bytes made ≡ joined other.now (fields part.now text.now))
        (IsTooLong (joined other.now (fields part.now text.now))) }
{
    let mut made = String::new(alloc);
    let mut rest = text;
    while let Some((field, after)) = cut(rest, part) {
        push_text(&mut made, field)?;
        push_text(&mut made, other)?;
        rest = after;
    }
    push_text(&mut made, rest)?;
    Ok(made)
}

#[tactic(auto, using(crate::proofs::TextRoom::too_long_rows))]
fn replaced_or_fault(
    alloc: Global,
    text: &str,
    part: &str,
    other: &str,
) -> VortexResult<Option<String>>
    ensures { MakesRow (text_or_fault (replaced text.now part.now other.now)) result }
{
    match replaced(alloc, text, part, other) {
        Ok(made) => text_or_fault(made),
        Err(error) => Err(error),
    }
}

impl TextFn for Replace {
    ghost about = { λ f. replace_row };

    fn signature(&self) -> Signature {
        Signature::strict(
            "sql.replace",
            3,
            Takes::Alike(Kind::Text),
            Gives::Text,
            false,
        )
    }

    fn make(
        &self,
        alloc: Global,
        _ptype: PType,
        cells: &[Cell<'_>],
    ) -> VortexResult<Option<String>> {
        let [text, part, other] = cells else {
            return no_text();
        };
        let Some(text) = text_in(text) else {
            return no_text();
        };
        let Some(part) = text_in(part) else {
            return no_text();
        };
        let Some(other) = text_in(other) else {
            return no_text();
        };
        replaced_or_fault(alloc, text, part, other)
    }

    ghost lawful = { λ f. replace_lawful };
}
