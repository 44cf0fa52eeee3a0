//! What is known of a column without its rows.
ghost use Rattle.std.specs.Prelude.{◌≡◌, None, MatchOption, Some};
ghost use Rattle.vortex_columns.specs.Words.{MadeWhere, InvalidColumn, type_of};
ghost use Rattle.vortex_statistics.specs.StatisticsView.{AreConsistent};
ghost use Rattle.vortex_statistics.specs.Parts.{end_view, parts_view};
ghost use Rattle.vortex_statistics.specs.Unknown.{unknown, DescribesAny};

mod joined;
mod measured;
mod replaced;

use crate::checks::are_consistent;
use crate::end::End;
use crate::parts::Parts;
use std::marker::Model;
use vortex_columns::{DType, VortexError, VortexResult};

/// What is known of a column without its rows: the type, how many rows there are and how many of
/// them are null, and ends between which the other rows lie.
#[derive(Drop)]
pub struct Statistics {
    parts: Parts,
}

impl Model for Statistics {
    ghost use Rattle.vortex_statistics.specs.StatisticsView.{StatisticsView, coded_statistics};
    ghost use Rattle.vortex_statistics.specs.StatisticsView.{AreConsistent};
    ghost use Rattle.vortex_statistics.specs.Parts.{parts_view};

    ghost Value = { StatisticsView };

    ghost coded = { coded_statistics };

    ghost view = { λ a. parts_view a.parts };

    ghost invariant = { λ a. AreConsistent (parts_view a.parts) };
}

impl Statistics {
    /// The statistics of these parts. E12 exactly where the parts contradict themselves: an end
    /// does not have the type, the low end is above the high one, there are more nulls than rows or
    /// some of a type without null, or an end is attained where each row is null.
    pub fn try_new(parts: Parts) -> VortexResult<Statistics>
        ensures { MadeWhere result (AreConsistent (parts_view parts))
            (λ s. s ≡ parts_view parts) InvalidColumn }
    {
        if are_consistent(&parts) {
            Ok(Statistics { parts })
        } else {
            Err(VortexError::InvalidColumn)
        }
    }

    /// The statistics of a column of which nothing is known but its type.
    pub fn unknown(dtype: DType) -> Statistics
        ensures parts { result ≡ unknown (type_of dtype) }
        ensures describes { DescribesAny (type_of dtype) result }
    {
        Statistics {
            parts: Parts {
                dtype,
                rows: None,
                nulls: None,
                low: None,
                high: None,
                skips_nan: false,
            },
        }
    }

    /// The type, borrowed. The statistics do not contradict themselves: so each end has the type.
    pub fn dtype(&self) -> &DType
        ensures dtype { type_of result.now ≡ self.now.dtype }
        ensures consistent { AreConsistent self.now }
    {
        &self.parts.dtype
    }

    /// How many rows there are, if it is known.
    pub fn rows(&self) -> Option<u64>
        ensures { result ≡ self.now.rows }
    {
        self.parts.rows
    }

    /// How many rows are null, if it is known.
    pub fn nulls(&self) -> Option<u64>
        ensures { result ≡ self.now.nulls }
    {
        self.parts.nulls
    }

    /// A value that no row is below, if one is known.
    pub fn low(&self) -> Option<&End>
        ensures { MatchOption result (self.now.low ≡ None)
            (λ e. self.now.low ≡ Some (end_view e.now)) }
    {
        self.parts.low.as_ref()
    }

    /// A value that no row is above, if one is known.
    pub fn high(&self) -> Option<&End>
        ensures { MatchOption result (self.now.high ≡ None)
            (λ e. self.now.high ≡ Some (end_view e.now)) }
    {
        self.parts.high.as_ref()
    }

    /// Whether the ends say nothing of NaN.
    pub fn skips_nan(&self) -> bool
        ensures { result ≡ self.now.skips_nan }
    {
        self.parts.skips_nan
    }
}
