//! Texts without some characters at their ends: `btrim`, `ltrim` and `rtrim`.
ghost use Rattle.std.specs.Prelude.{◌≡◌};
ghost use Rattle.std.specs.Str.{chars};
ghost use Rattle.vortex_columns.specs.Cells.{cell_value};
ghost use Rattle.vortex_sql_rows.specs.AnsweredRows.{AnswersRow};
ghost use Rattle.vortex_sql_rows.specs.Shapes.{text_in, with_both};
ghost use Rattle.vortex_sql_texts.specs.Trims.{has, kept_count, members, of_blanks, trim_lawful};
ghost use Rattle.vortex_sql_texts.specs.Trims.{trim_of, trim_row, trimmed, without_end};
ghost use Rattle.vortex_sql_texts.specs.Trims.{without_start};

use crate::characters::{count_chars, first_chars, split_first};
use crate::made::{other_values, text_cell};
use vortex_columns::{Arity, Cell, PType, VortexResult};
use vortex_sql_rows::cells::text_in;
use vortex_sql_rows::row::{RowFn, Signature};
use vortex_sql_rows::types::{Gives, Kind, Nulls, Takes, Types};

/// `btrim(a)`, `ltrim(a)` or `rtrim(a)`: without blanks at both ends, the start or the end; with a
/// second text without its characters.
#[derive(Clone, Copy, Debug, PartialEq, Eq)]
pub enum Trim {
    Both,
    Start,
    End,
}

/// The characters that are left out at the ends of a text.
#[derive(Clone, Copy)]
pub(crate) enum LeftOut<'a> {
    Blanks,
    /// What casts pass over: blanks, tabs, line feeds, vertical tabs, form feeds, carriage returns.
    Spaces,
    CharactersOf(&'a str),
}

/// Whether a text has the character.
fn has_char(text: &str, c: char) -> bool
    ensures { result ≡ has (chars text.now) c }
{
    let mut rest = text;
    while let Some((first, after)) = split_first(rest) {
        if first == c {
            return true;
        }
        rest = after;
    }
    false
}

impl LeftOut<'_> {
    fn has(self, c: char) -> bool
        ensures { result ≡ has (members self.entry) c }
    {
        match self {
            LeftOut::Blanks => c == ' ',
            LeftOut::Spaces => {
                c == ' ' || c == '\t' || c == '\n' || c == '\x0b' || c == '\x0c' || c == '\r'
            }
            LeftOut::CharactersOf(text) => has_char(text, c),
        }
    }
}

fn without_start<'a>(text: &'a str, out: LeftOut<'_>) -> &'a str
    ensures { result.now ≡ without_start (members out.entry) text.now }
{
    let mut rest = text;
    while let Some((c, after)) = split_first(rest) {
        if !out.has(c) {
            return rest;
        }
        rest = after;
    }
    rest
}

/// How many characters there are up to the last that stays.
fn kept_count(text: &str, out: LeftOut<'_>) -> usize
    ensures { result ≡ kept_count (members out.entry) (chars text.now) }
{
    let mut rest = text;
    let mut end = text;
    while let Some((c, after)) = split_first(rest) {
        if !out.has(c) {
            end = after;
        }
        rest = after;
    }
    count_chars(text) - count_chars(end)
}

fn without_end<'a>(text: &'a str, out: LeftOut<'_>) -> &'a str
    ensures { result.now ≡ without_end (members out.entry) text.now }
{
    first_chars(text, kept_count(text, out) as u128)
}

pub(crate) fn trimmed<'a>(trim: Trim, text: &'a str, out: LeftOut<'_>) -> &'a str
    ensures { result.now ≡ trimmed trim (members out.entry) text.now }
{
    match trim {
        Trim::Both => without_end(without_start(text, out), out),
        Trim::Start => without_start(text, out),
        Trim::End => without_end(text, out),
    }
}

fn without_characters<'a>(
    trim: Trim,
    text: &Cell<'a>,
    characters: &Cell<'_>,
) -> VortexResult<Cell<'a>>
    ensures { AnswersRow (with_both (trim_of trim) (text_in (cell_value text.now))
        (text_in (cell_value characters.now))) result }
{
    let Some(text) = text_in(text) else {
        return other_values();
    };
    let Some(characters) = text_in(characters) else {
        return other_values();
    };
    text_cell(trimmed(trim, text, LeftOut::CharactersOf(characters)))
}

fn without_blanks<'a>(trim: Trim, text: &Cell<'a>) -> VortexResult<Cell<'a>>
    ensures { AnswersRow (of_blanks trim (text_in (cell_value text.now))) result }
{
    let Some(text) = text_in(text) else {
        return other_values();
    };
    text_cell(trimmed(trim, text, LeftOut::Blanks))
}

impl RowFn for Trim {
    ghost about = { trim_row };

    fn signature(&self) -> Signature {
        let id = match self {
            Trim::Both => "sql.btrim",
            Trim::Start => "sql.ltrim",
            Trim::End => "sql.rtrim",
        };
        Signature {
            id,
            arity: Arity::Variadic {
                min: 1,
                max: Some(2),
            },
            types: Types {
                takes: Takes::Alike(Kind::Text),
                nulls: Nulls::WhereAny,
                gives: Gives::Text,
            },
            is_strict: true,
            is_infallible: false,
        }
    }

    fn answer<'a>(&self, _ptype: PType, cells: &[Cell<'a>]) -> VortexResult<Cell<'a>> {
        match cells {
            [text] => without_blanks(*self, text),
            [text, characters] => without_characters(*self, text, characters),
            [] => other_values(),
            [_, _, _, ..] => other_values(),
        }
    }

    ghost lawful = { trim_lawful };
}
