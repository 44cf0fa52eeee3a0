//! The stored integer of a row, and the cells that functions return.
ghost use Rattle.std.specs.Prelude.{◌≡◌};
ghost use Rattle.vortex_sql_rows.specs.AnsweredRows.{AnswersRow};
ghost use Rattle.vortex_sql_rows.specs.Faults.{faults_by};
ghost use Rattle.vortex_sql_rows.specs.Integers.{checked};
ghost use Rattle.vortex_sql_rows.specs.declared.faults.RowFault.TheVariants.{OtherValues};
ghost use Rattle.vortex_types.specs.declared.dtype.PType.TheVariants.{I64};
ghost use Rattle.vortex_sql_floats.specs.FloatOutcomes.{gives_float};

use vortex_columns::{Cell, PType, VortexError, VortexResult};
use vortex_logical::keys::key_of_f64;
use vortex_sql_rows::faults::RowFault;
use vortex_sql_rows::ranges::is_in;

/// The number, if it has 64 bits.
pub(crate) fn key_in(number: i128) -> Option<i64>
    ensures { result ≡ checked I64 number }
{
    if is_in(PType::I64, number) {
        Some(number as i64)
    } else {
        None
    }
}

/// The integer of a float.
pub(crate) fn float_cell<'a>(float: f64) -> VortexResult<Cell<'a>>
    ensures { AnswersRow (gives_float float) result }
{
    Ok(Cell::Int(i128::from(key_of_f64(float))))
}

/// The fault of values that no call passes.
pub(crate) fn other_values<'a>() -> VortexResult<Cell<'a>>
    ensures { AnswersRow (faults_by OtherValues) result }
{
    Err(VortexError::Custom(RowFault::OtherValues.number()))
}
