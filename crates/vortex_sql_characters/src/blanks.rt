//! So many blanks: `space`.
ghost use Rattle.std.specs.Prelude.{◌≡◌, ◌≤◌, codes, string_bytes};
ghost use Rattle.std.specs.List.{repeat};
ghost use Rattle.vortex_errors.specs.Answers.{AnswersUnlessMemory};
ghost use Rattle.vortex_sql_rows.specs.AnsweredRows.{MakesRow};
ghost use Rattle.vortex_sql_rows.specs.declared.faults.RowFault.TheVariants.{TextTooLong};
ghost use Rattle.vortex_sql_rows.specs.Faults.{faults_by};
ghost use Rattle.vortex_sql_characters.specs.Blanks.{space, space_lawful, space_row};

use crate::parts::at_least_zero;
use std::alloc::Global;
use vortex_columns::{Cell, PType, VortexError, VortexResult};
use vortex_sql_rows::cells::only_int;
use vortex_sql_rows::faults::RowFault;
use vortex_sql_rows::row::{Signature, TextFn};
use vortex_sql_rows::types::{Gives, Kind, Takes};

/// `space(n)`
pub struct Space;

/// The fault of a text that is too long.
fn too_long() -> VortexResult<Option<String>>
    ensures { MakesRow (faults_by TextTooLong) result }
{
    Err(VortexError::Custom(RowFault::TextTooLong.number()))
}

fn blanks(alloc: Global, count: usize) -> VortexResult<String>
    requires { count ≤ 4294967295 }
    ensures { AnswersUnlessMemory result (λ made. string_bytes made ≡ repeat count (codes " ")) }
{
    Ok(" ".repeat(alloc, count)?)
}

fn blanks_or_fault(alloc: Global, count: i128) -> VortexResult<Option<String>>
    ensures { MakesRow (space count) result }
{
    if count > 4294967295 {
        return too_long();
    }
    Ok(Some(blanks(alloc, at_least_zero(count) as usize)?))
}

impl TextFn for Space {
    ghost about = { λ f. space_row };

    fn signature(&self) -> Signature {
        let takes = Takes::Alike(Kind::Integer);
        Signature::strict("sql.space", 1, takes, Gives::Text, false)
    }

    fn make(
        &self,
        alloc: Global,
        _ptype: PType,
        cells: &[Cell<'_>],
    ) -> VortexResult<Option<String>> {
        let Some(count) = only_int(cells) else {
            return Ok(None);
        };
        blanks_or_fault(alloc, count)
    }

    ghost lawful = { λ f. space_lawful };
}
