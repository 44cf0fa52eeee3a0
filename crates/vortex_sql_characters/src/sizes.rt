//! How many bits a text has: `bit_length`.
ghost use Rattle.std.specs.Prelude.{◌≡◌};
ghost use Rattle.vortex_sql_characters.specs.Sizes.{bit_length_lawful, bit_length_row};

use vortex_columns::{Cell, PType, VortexResult};
use vortex_sql_rows::cells::{int_or_fault, only_text};
use vortex_sql_rows::faults::RowFault;
use vortex_sql_rows::ranges::checked;
use vortex_sql_rows::row::{RowFn, Signature};
use vortex_sql_rows::types::{Gives, Kind, Takes};

/// `bit_length(a)`
pub struct BitLength;

impl RowFn for BitLength {
    ghost about = { λ f. bit_length_row };

    fn signature(&self) -> Signature {
        let takes = Takes::Alike(Kind::Text);
        Signature::strict(
            "sql.bit_length",
            1,
            takes,
            Gives::Integer(PType::I64),
            false,
        )
    }

    fn answer<'a>(&self, _ptype: PType, cells: &[Cell<'a>]) -> VortexResult<Cell<'a>> {
        let Some(text) = only_text(cells) else {
            return Ok(Cell::Null);
        };
        let bits = 8 * text.len() as i128;
        int_or_fault(checked(PType::I64, bits), RowFault::TextTooLong)
    }

    ghost lawful = { λ f. bit_length_lawful };
}
