//! What is read of texts: how many characters and bytes they have, and how they begin.
ghost use Rattle.std.specs.Prelude.{◌≡◌};
ghost use Rattle.vortex_sql_texts.specs.Texts.{measure_row, measure_lawful, measured};
ghost use Rattle.vortex_sql_texts.specs.Texts.{begins_row, begins_lawful};

use crate::characters::count_chars;
use vortex_columns::{Cell, PType, VortexResult};
use vortex_sql_rows::cells::{int_or_fault, only_text, text_in};
use vortex_sql_rows::faults::RowFault;
use vortex_sql_rows::ranges::checked;
use vortex_sql_rows::row::{RowFn, Signature};
use vortex_sql_rows::types::{Gives, Kind, Takes};

/// `length(a)` or `octet_length(a)`
#[derive(Clone, Copy, Debug, PartialEq, Eq)]
pub enum Measure {
    Characters,
    Bytes,
}

/// `starts_with(a, b)`
pub struct StartsWith;

fn measured(measure: Measure, text: &str) -> usize
    ensures { result ≡ measured measure text.now }
{
    match measure {
        Measure::Characters => count_chars(text),
        Measure::Bytes => text.len(),
    }
}

impl RowFn for Measure {
    ghost about = { measure_row };

    fn signature(&self) -> Signature {
        let id = match self {
            Measure::Characters => "sql.length",
            Measure::Bytes => "sql.octet_length",
        };
        Signature::strict(
            id,
            1,
            Takes::Alike(Kind::Text),
            Gives::Integer(PType::I64),
            false,
        )
    }

    fn answer<'a>(&self, _ptype: PType, cells: &[Cell<'a>]) -> VortexResult<Cell<'a>> {
        let Some(a) = only_text(cells) else {
            return Ok(Cell::Null);
        };
        let count = measured(*self, a) as i128;
        int_or_fault(checked(PType::I64, count), RowFault::TextTooLong)
    }

    ghost lawful = { measure_lawful };
}

impl RowFn for StartsWith {
    ghost about = { λ f. begins_row };

    fn signature(&self) -> Signature {
        Signature::strict(
            "sql.starts_with",
            2,
            Takes::Alike(Kind::Text),
            Gives::Truth,
            true,
        )
    }

    fn answer<'a>(&self, _ptype: PType, cells: &[Cell<'a>]) -> VortexResult<Cell<'a>> {
        let [a, b] = cells else {
            return Ok(Cell::Null);
        };
        let Some(a) = text_in(a) else {
            return Ok(Cell::Null);
        };
        let Some(b) = text_in(b) else {
            return Ok(Cell::Null);
        };
        Ok(Cell::Bool(a.as_bytes().starts_with(b.as_bytes())))
    }

    ghost lawful = { λ f. begins_lawful };
}
