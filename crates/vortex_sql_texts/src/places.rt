//! The place of a text in another: `strpos`.
ghost use Rattle.std.specs.Prelude.{◌≡◌, pos};
ghost use Rattle.std.specs.Str.{chars};
ghost use Rattle.vortex_sql_texts.specs.Places.{place_of, strpos_lawful, strpos_row};

use crate::characters::{count_chars, split_first};
use vortex_columns::{Cell, PType, VortexResult};
use vortex_sql_rows::cells::{int_or_fault, text_in};
use vortex_sql_rows::faults::RowFault;
use vortex_sql_rows::ranges::checked;
use vortex_sql_rows::row::{RowFn, Signature};
use vortex_sql_rows::types::{Gives, Kind, Takes};

/// `strpos(a, b)`, which SQL writes `position(b in a)`
pub struct StrPos;

/// The place of the first character with which the text begins as the part does, from 1 on; else 0.
fn place_of(text: &str, part: &str) -> i128
    ensures { result ≡ pos (place_of part.now (chars text.now)) }
{
    let mut rest = text;
    while !rest.as_bytes().starts_with(part.as_bytes()) {
        match split_first(rest) {
            Some((_, after)) => rest = after,
            None => return 0,
        }
    }
    count_chars(text) as i128 - count_chars(rest) as i128 + 1
}

impl RowFn for StrPos {
    ghost about = { λ f. strpos_row };

    fn signature(&self) -> Signature {
        Signature::strict(
            "sql.strpos",
            2,
            Takes::Alike(Kind::Text),
            Gives::Integer(PType::I64),
            false,
        )
    }

    fn answer<'a>(&self, _ptype: PType, cells: &[Cell<'a>]) -> VortexResult<Cell<'a>> {
        let [a, b] = cells else {
            return Ok(Cell::Null);
        };
        let Some(a) = text_in(a) else {
            return Ok(Cell::Null);
        };
        let Some(b) = text_in(b) else {
            return Ok(Cell::Null);
        };
        int_or_fault(checked(PType::I64, place_of(a, b)), RowFault::TextTooLong)
    }

    ghost lawful = { λ f. strpos_lawful };
}
