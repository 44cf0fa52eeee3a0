//! Other counts and ends in place of those that are known.
ghost use Rattle.std.specs.Prelude.{◌≡◌, None, IfErr, option_map};
ghost use Rattle.vortex_columns.specs.Words.{MadeWhere, InvalidColumn};
ghost use Rattle.vortex_statistics.specs.StatisticsView.{AreConsistent};
ghost use Rattle.vortex_statistics.specs.Parts.{end_view};
ghost use Rattle.vortex_statistics.specs.Replaced.{replaced};

use super::Statistics;
use crate::checks::are_consistent;
use crate::end::End;
use vortex_columns::{VortexError, VortexResult};

impl Statistics {
    /// Puts counts and ends in place of those that are known. The type stays, and whether ends leave
    /// NaN out. E12 exactly where the parts contradict themselves then, as in `try_new`: nothing
    /// else is known after that.
    pub fn try_replace(
        &mut self,
        rows: Option<u64>,
        nulls: Option<u64>,
        low: Option<End>,
        high: Option<End>,
    ) -> VortexResult<()>
        ensures parts { MadeWhere result
            (AreConsistent (replaced self.old rows nulls (option_map end_view low)
            (option_map end_view high)))
            (λ _. self.new ≡ replaced self.old rows nulls (option_map end_view low)
            (option_map end_view high))
            InvalidColumn }
        ensures refused { IfErr result (λ _. self.new ≡ replaced self.old None None None None) }
    {
        self.parts.rows = rows;
        self.parts.nulls = nulls;
        self.parts.low = low;
        self.parts.high = high;
        if are_consistent(&self.parts) {
            return Ok(());
        }
        self.parts.rows = None;
        self.parts.nulls = None;
        self.parts.low = None;
        self.parts.high = None;
        Err(VortexError::InvalidColumn)
    }
}
