//! The rows of a column of Bool that are true, by their numbers.
ghost use Rattle.std.specs.Prelude.{◌≡◌, ◌≤◌, ◌<◌, ◌^◌, All, length, true};
ghost use Rattle.vortex_columns.specs.Words.{AnswersWhere, AnswersUnlessMemory, InvalidColumn};
ghost use Rattle.vortex_columns.specs.Words.{cell_value, AreRowsOf};
ghost use Rattle.vortex_columns.specs.TrueRows.{is_true, true_rows};

use super::Column;
use crate::cell::Cell;
use std::alloc::Global;
use vortex_types::{VortexError, VortexResult};

/// Whether a value is true: not false, null or of another kind.
fn is_true(cell: &Cell<'_>) -> bool
    ensures { result ≡ is_true (cell_value cell.now) }
{
    match cell {
        Cell::Bool(b) => *b,
        _ => false,
    }
}

impl Column {
    ghost use Rattle.vortex_types.specs.LogicalTypes.{is_bool_type};

    /// The numbers of the true rows, ascending, as `take` expects them. E12 exactly where there are
    /// more than 4,294,967,296 rows, which a `u32` cannot number.
    pub fn true_rows(&self, alloc: Global) -> VortexResult<Vec<u32>>
        requires { is_bool_type self.now.dtype ≡ true }
        ensures rows { AnswersWhere result (length self.now.rows ≤ 2 ^ 32)
            (λ codes. codes.items ≡ true_rows self.now.rows) InvalidColumn }
        ensures within { AnswersWhere result (length self.now.rows ≤ 2 ^ 32)
            (λ codes. AreRowsOf self.now codes.items) InvalidColumn }
    {
        if self.len() > 1 << 32 {
            return Err(VortexError::InvalidColumn);
        }
        let mut codes = Vec::new(alloc);
        for i in 0..self.len() {
            if is_true(&self.cell(i)) {
                codes.push(i as u32)?;
            }
        }
        Ok(codes)
    }
}
