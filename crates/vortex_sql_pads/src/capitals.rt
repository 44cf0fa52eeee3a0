//! Texts with each word's first letter in upper case, and its others in lower case: `initcap`.
ghost use Rattle.std.specs.Prelude.{◌≡◌, ◌++◌, OnOk, encode_utf8_all, option_to_list, string_bytes};
ghost use Rattle.std.specs.Char.Iter.{case_mapping_chars};
ghost use Rattle.vortex_errors.specs.Answers.{AnswersUnlessMemory};
ghost use Rattle.vortex_sql_pads.specs.Capitals as specs;
ghost use Rattle.vortex_sql_pads.specs.Capitals.{initcap_lawful, initcap_row};

use crate::made::text_or_fault;
use std::alloc::{AllocError, Global};
use std::char::ToLowercase;
use vortex_columns::{Cell, PType, VortexResult};
use vortex_sql_rows::cells::only_text;
use vortex_sql_rows::row::{Signature, TextFn};
use vortex_sql_rows::types::{Gives, Kind, Takes};

/// `initcap(a)`
pub struct Initcap;

fn push_some(made: &mut String, letter: Option<char>) -> Result<(), AllocError>
    ensures { OnOk result (string_bytes made.new
        ≡ string_bytes made.old ++ encode_utf8_all (option_to_list letter)) }
{
    match letter {
        Some(letter) => made.push(letter),
        None => Ok(()),
    }
}

/// A character in another case is up to three; `ToUppercase` is this same type.
fn push_changed(made: &mut String, mut changed: ToLowercase) -> Result<(), AllocError>
    ensures { OnOk result (string_bytes made.new
        ≡ string_bytes made.old ++ encode_utf8_all (case_mapping_chars changed)) }
{
    push_some(made, changed.next())?;
    push_some(made, changed.next())?;
    push_some(made, changed.next())
}

fn push_letter(made: &mut String, within: bool, c: char) -> Result<(), AllocError>
    ensures { OnOk result (string_bytes made.new
        ≡ string_bytes made.old ++ encode_utf8_all (specs.letter within c)) }
{
    if within {
        push_changed(made, c.to_lowercase())
    } else {
        push_changed(made, c.to_uppercase())
    }
}

fn by_capitals(alloc: Global, text: &str) -> VortexResult<String>
    ensures { AnswersUnlessMemory result (λ made. string_bytes made ≡ specs.initcap text.now) }
{
    let mut made = String::new(alloc);
    let mut within = false;
    for c in text.chars() {
        push_letter(&mut made, within, c)?;
        within = c.is_alphanumeric();
    }
    Ok(made)
}

impl TextFn for Initcap {
    ghost about = { λ f. initcap_row };

    fn signature(&self) -> Signature {
        let takes = Takes::Alike(Kind::Text);
        Signature::strict("sql.initcap", 1, takes, Gives::Text, false)
    }

    fn make(
        &self,
        alloc: Global,
        _ptype: PType,
        cells: &[Cell<'_>],
    ) -> VortexResult<Option<String>> {
        let Some(text) = only_text(cells) else {
            return Ok(None);
        };
        text_or_fault(by_capitals(alloc, text)?)
    }

    ghost lawful = { λ f. initcap_lawful };
}
