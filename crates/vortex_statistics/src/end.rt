//! An end of the values of a column.
ghost use Rattle.std.specs.Prelude.{◌≡◌, true, false};
ghost use Rattle.vortex_columns.specs.Words.{AnswersUnlessMemory, value_of};
ghost use Rattle.vortex_statistics.specs.Parts.{end_view};

use std::alloc::Global;
use vortex_columns::{ScalarValue, VortexResult};

/// A value that no row is below, or none above.
#[derive(Drop)]
pub struct End {
    /// The value.
    pub value: ScalarValue,
    /// Whether it is the value of a row. If not, no more is known than that no row is beyond it.
    pub attained: bool,
}

impl End {
    /// The least or the greatest value, which a row has.
    pub fn attained(value: ScalarValue) -> End
        ensures { end_view result ≡ record { value = value_of value; attained = true } }
    {
        End {
            value,
            attained: true,
        }
    }

    /// A value that no row is beyond, as a text that was cut off.
    pub fn outer(value: ScalarValue) -> End
        ensures { end_view result ≡ record { value = value_of value; attained = false } }
    {
        End {
            value,
            attained: false,
        }
    }

    /// A copy with the same view.
    pub fn try_clone(&self, alloc: Global) -> VortexResult<End>
        ensures { AnswersUnlessMemory result (λ e. end_view e ≡ end_view self.now) }
    {
        let value = self.value.try_clone(alloc)?;
        Ok(End {
            value,
            attained: self.attained,
        })
    }
}
