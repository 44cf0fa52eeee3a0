//! Columns of optional values, from their rows.
ghost use Rattle.std.specs.Prelude.{◌≡◌, map, unwrap_or};
ghost use Rattle.vortex_columns.specs.Words.{AnswersUnlessMemory, validity_of};
ghost use Rattle.vortex_columns.specs.Options.{option_validity};

use super::Column;
use crate::validity::Validity;
use std::alloc::Global;
use vortex_bits::BitBuffer;
use vortex_types::{NativePType, VortexResult};

/// A set bit for each value that is present.
fn option_validity<T: Copy + Drop>(alloc: Global, rows: &[Option<T>]) -> VortexResult<Validity>
    ensures { AnswersUnlessMemory result (λ v. validity_of v ≡ option_validity rows.now) }
{
    let mut valid = Vec::new(alloc);
    for row in rows {
        valid.push(row.is_some())?;
    }
    Ok(Validity::Array(BitBuffer::from_bools(alloc, &valid)?))
}

/// The values, and `under_null` for none.
fn values_or<T: Copy + Drop>(
    alloc: Global,
    rows: &[Option<T>],
    under_null: T,
) -> VortexResult<Vec<T>>
    ensures { AnswersUnlessMemory result
        (λ values. values.items ≡ map (λ o. unwrap_or o under_null) rows.now) }
{
    let mut values = Vec::new(alloc);
    for row in rows {
        values.push(row.unwrap_or(under_null))?;
    }
    Ok(values)
}

/// Columns of a nullable type, whose validity is an array of bits, even if every value is present.
impl Column {
    ghost use Rattle.vortex_columns.specs.Options.{optional_bools, optional_ints, optional_texts};
    ghost use Rattle.vortex_columns.specs.Options.{option_text};
    ghost use Rattle.vortex_columns.specs.Words.{AnswersWhere, InvalidColumn};
    ghost use Rattle.vortex_views.specs.Collected.{HaveRoom};

    /// A column of nullable truth values: null for none.
    pub fn of_bools(alloc: Global, rows: &[Option<bool>]) -> VortexResult<Column>
        ensures { AnswersUnlessMemory result (λ c. c ≡ optional_bools rows.now) }
    {
        let values = values_or(alloc, rows, false)?;
        let bits = BitBuffer::from_bools(alloc, &values)?;
        Column::try_bool(alloc, bits, option_validity(alloc, rows)?)
    }

    /// A column of nullable integers of one type: null for none.
    pub fn of_ints<T: NativePType>(alloc: Global, rows: &[Option<T>]) -> VortexResult<Column>
        ensures { AnswersUnlessMemory result (λ c. c ≡ optional_ints T.ptype T.number rows.now) }
    {
        let values = values_or(alloc, rows, T::zero())?;
        Column::try_primitive(alloc, values, option_validity(alloc, rows)?)
    }

    /// A column of nullable texts: null for none. E12 exactly where a text is longer than
    /// 4,294,967,295 bytes, or more than 4,294,967,296 buffers of that many bytes would be needed.
    pub fn of_texts(alloc: Global, rows: &[Option<&str>]) -> VortexResult<Column>
        ensures { AnswersWhere result
            (HaveRoom (map option_text rows.now))
            (λ c. c ≡ optional_texts rows.now)
            InvalidColumn }
    {
        let values = values_or(alloc, rows, "")?;
        Column::try_texts(alloc, &values, option_validity(alloc, rows)?)
    }
}
