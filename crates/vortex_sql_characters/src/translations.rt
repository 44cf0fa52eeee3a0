//! Texts with other characters in place of some: `translate`.
ghost use Rattle.std.specs.Prelude.{◌≡◌, ◌++◌, OnOk, encode_utf8_all, option_to_list, string_bytes};
ghost use Rattle.std.specs.Str.{chars};
ghost use Rattle.vortex_errors.specs.Answers.{AnswersUnlessMemory};
ghost use Rattle.vortex_sql_characters.specs.Translations as specs;
ghost use Rattle.vortex_sql_characters.specs.Translations.{translate_lawful, translate_row};

use crate::faults::no_text;
use crate::parts::{after_first, first_of};
use std::alloc::{AllocError, Global};
use vortex_columns::{Cell, PType, VortexResult};
use vortex_sql_rows::cells::text_in;
use vortex_sql_rows::row::{Signature, TextFn};
use vortex_sql_rows::types::{Gives, Kind, Takes};
use vortex_sql_texts::made::text_or_fault;

/// `translate(a, characters, others)`
pub struct Translate;

/// What comes in place of a character: the other one at its first place, or nothing where the
/// others are fewer; itself if it is none of the characters.
fn replacement(characters: &str, others: &str, c: char) -> Option<char>
    ensures { option_to_list result
        ≡ specs.replacement (chars characters.now) (chars others.now) c }
{
    let mut rest = others;
    for character in characters.chars() {
        if character == c {
            return first_of(rest);
        }
        rest = after_first(rest);
    }
    Some(c)
}

fn push_some(made: &mut String, letter: Option<char>) -> Result<(), AllocError>
    ensures { OnOk result (string_bytes made.new
        ≡ string_bytes made.old ++ encode_utf8_all (option_to_list letter)) }
{
    match letter {
        Some(letter) => made.push(letter),
        None => Ok(()),
    }
}

fn translated(alloc: Global, text: &str, characters: &str, others: &str) -> VortexResult<String>
    ensures { AnswersUnlessMemory result
        (λ made. string_bytes made ≡ specs.translated text.now characters.now others.now) }
{
    let mut made = String::new(alloc);
    for c in text.chars() {
        push_some(&mut made, replacement(characters, others, c))?;
    }
    Ok(made)
}

impl TextFn for Translate {
    ghost about = { λ f. translate_row };

    fn signature(&self) -> Signature {
        let takes = Takes::Alike(Kind::Text);
        Signature::strict("sql.translate", 3, takes, Gives::Text, false)
    }

    fn make(
        &self,
        alloc: Global,
        _ptype: PType,
        cells: &[Cell<'_>],
    ) -> VortexResult<Option<String>> {
        let [text, characters, others] = cells else {
            return no_text();
        };
        let Some(text) = text_in(text) else {
            return no_text();
        };
        let Some(characters) = text_in(characters) else {
            return no_text();
        };
        let Some(others) = text_in(others) else {
            return no_text();
        };
        text_or_fault(translated(alloc, text, characters, others)?)
    }

    ghost lawful = { λ f. translate_lawful };
}
