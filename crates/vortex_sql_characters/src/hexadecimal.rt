//! Numbers in hexadecimal digits: `to_hex`.
ghost use Rattle.std.specs.Prelude.{◌≡◌, string_bytes};
ghost use Rattle.vortex_errors.specs.Answers.{AnswersUnlessMemory};
ghost use Rattle.vortex_sql_characters.specs.Hexadecimal.{in_hex, to_hex_lawful, to_hex_row};
ghost use Rattle.vortex_sql_characters.specs.Hexadecimal.{unsigned_number};

use std::alloc::Global;
use vortex_columns::{Cell, PType, VortexResult};
use vortex_sql_rows::cells::only_int;
use vortex_sql_rows::row::{Signature, TextFn};
use vortex_sql_rows::types::{Gives, Kind, Takes};
use vortex_sql_texts::made::text_or_fault;

/// `to_hex(n)`
pub struct ToHex;

/// The unsigned number of 64 bits that has the number's two's complement.
fn unsigned_number(number: i128) -> u64
    ensures { result ≡ unsigned_number number }
{
    number.rem_euclid(18_446_744_073_709_551_616) as u64
}

fn in_hex(alloc: Global, number: i128) -> VortexResult<String>
    ensures { AnswersUnlessMemory result (λ made. string_bytes made ≡ in_hex number) }
{
    let number = unsigned_number(number);
    Ok(format!(in alloc; "{number:x}")?)
}

impl TextFn for ToHex {
    ghost about = { λ f. to_hex_row };

    fn signature(&self) -> Signature {
        let takes = Takes::Alike(Kind::Integer);
        Signature::strict("sql.to_hex", 1, takes, Gives::Text, false)
    }

    fn make(
        &self,
        alloc: Global,
        _ptype: PType,
        cells: &[Cell<'_>],
    ) -> VortexResult<Option<String>> {
        let Some(number) = only_int(cells) else {
            return Ok(None);
        };
        text_or_fault(in_hex(alloc, number)?)
    }

    ghost lawful = { λ f. to_hex_lawful };
}
