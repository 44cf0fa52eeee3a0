//! Texts in one with a separator between each two, where nulls are passed over: `concat_ws`.
ghost use Rattle.std.specs.Prelude.{◌≡◌, ◌++◌, map, string_bytes};
ghost use Rattle.vortex_errors.specs.Answers.{Answers};
ghost use Rattle.vortex_columns.specs.Cells.{cell_value};
ghost use Rattle.vortex_sql_rows.specs.AnsweredRows.{MakesRow};
ghost use Rattle.vortex_sql_texts.specs.MadeTexts.{IsTooLong, text_or_fault};
ghost use Rattle.vortex_sql_pads.specs.Joins.{concat_ws_lawful, concat_ws_row, separated};

use crate::made::{no_text, push_text, text_or_fault};
use std::alloc::Global;
use vortex_columns::{Arity, Cell, PType, VortexResult};
use vortex_sql_rows::cells::text_in;
use vortex_sql_rows::row::{Signature, TextFn};
use vortex_sql_rows::types::{Gives, Kind, Nulls, Takes, Types};

/// `concat_ws(separator, a, ..)`
pub struct ConcatWs;

/// Appends two texts; a fault where the whole is then too long.
fn push_part(made: &mut String, before: &str, part: &str) -> VortexResult<()>
    ensures { Answers result
        (λ _. string_bytes made.new ≡ string_bytes made.old ++ (before.now ++ part.now))
        (IsTooLong (string_bytes made.old ++ (before.now ++ part.now))) }
{
    made.push_str(before)?;
    push_text(made, part)
}

/// The texts with the separator between each two; a fault once it is too long.
fn separated(alloc: Global, separator: &str, cells: &[Cell<'_>]) -> VortexResult<String>
    ensures { Answers result
        (λ made. string_bytes made ≡ separated separator.now (map cell_value cells.now))
        (IsTooLong (separated separator.now (map cell_value cells.now))) }
{
    let mut made = String::new(alloc);
    let mut before = "";
    for cell in cells {
        if let Some(text) = text_in(cell) {
            push_part(&mut made, before, text)?;
            before = separator;
        }
    }
    Ok(made)
}

#[tactic(auto, using(crate::proofs::TextRoom::too_long_rows))]
fn separated_or_fault(
    alloc: Global,
    separator: &str,
    cells: &[Cell<'_>],
) -> VortexResult<Option<String>>
    ensures { MakesRow (text_or_fault (separated separator.now (map cell_value cells.now))) result }
{
    match separated(alloc, separator, cells) {
        Ok(made) => text_or_fault(made),
        Err(error) => Err(error),
    }
}

impl TextFn for ConcatWs {
    ghost about = { λ f. concat_ws_row };

    fn signature(&self) -> Signature {
        Signature {
            id: "sql.concat_ws",
            arity: Arity::Variadic { min: 2, max: None },
            types: Types {
                takes: Takes::Alike(Kind::Text),
                nulls: Nulls::WhereAny,
                gives: Gives::Text,
            },
            is_strict: false,
            is_infallible: false,
        }
    }

    fn make(
        &self,
        alloc: Global,
        _ptype: PType,
        cells: &[Cell<'_>],
    ) -> VortexResult<Option<String>> {
        let [separator, texts @ ..] = cells else {
            return no_text();
        };
        match separator {
            Cell::Null => Ok(None),
            Cell::Text(separator) => separated_or_fault(alloc, separator, texts),
            _ => no_text(),
        }
    }

    ghost lawful = { λ f. concat_ws_lawful };
}
