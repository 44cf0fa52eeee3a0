//! Columns that store each value once.
ghost use Rattle.std.specs.Prelude.{◌≡◌, ◌↔◌, IsTrue, length};
ghost use Rattle.vortex_arrays.specs.Words.{AnswersUnlessMemory, MadeWhere, AreRowsOf};
ghost use Rattle.vortex_arrays.specs.Words.{AllCoded, InvalidColumn, decoded};

mod codes;
mod inputs;
mod kernels;
mod push_down;

use crate::dictionary::codes::{Codes, are_below};
use crate::encoded::EncodedColumn;
use std::alloc::Global;
use std::marker::Model;
use vortex_columns::{Column, DType, ExecutionCtx, VortexError, VortexResult};

/// A column by its values and a code for each row, the index of the row's value. A null row has
/// the code of a null value.
///
/// Values without a code are allowed, and equal values too. The codes are stored as passed; after
/// `share` dictionaries share them.
#[derive(Drop)]
pub struct DictColumn {
    values: Column,
    codes: Codes,
}

impl Model for DictColumn {
    ghost use Rattle.vortex_arrays.specs.Dictionary.{DictView, coded_dict};
    ghost use Rattle.vortex_arrays.specs.Kept.{dict_view, IsDict};

    ghost Value = { DictView };

    ghost coded = { coded_dict };

    ghost view = { dict_view };

    ghost invariant = { IsDict };
}

impl DictColumn {
    /// The values, and for each row a code. E12 exactly where a code is not below the number of
    /// values. Allocates nothing.
    pub fn try_new(values: Column, codes: Vec<u32>) -> VortexResult<DictColumn>
        ensures { MadeWhere result
            (AreRowsOf values codes.items)
            (λ d. d ≡ record { values = values; codes = codes.items })
            InvalidColumn }
    {
        if !are_below(&codes, values.len()) {
            return Err(VortexError::InvalidColumn);
        }
        Ok(DictColumn {
            values,
            codes: Codes::Owned(codes),
        })
    }

    /// The same column, with shared codes: the result of `push_down` has them without a copy, and
    /// shares them too. Reads each code once, or none if they are shared already.
    pub fn share(self, alloc: Global) -> VortexResult<DictColumn>
        ensures { AnswersUnlessMemory result (λ d. d ≡ self) }
    {
        let DictColumn { values, codes } = self;
        let codes = codes.share(alloc, values.len())?;
        Ok(DictColumn { values, codes })
    }

    /// The values, borrowed.
    pub fn values(&self) -> &Column
        ensures { result.now ≡ self.now.values }
    {
        &self.values
    }

    /// For each row the index of its value, borrowed.
    pub fn codes(&self) -> &[u32]
        ensures codes { result.now ≡ self.now.codes }
        ensures below { AreRowsOf self.now.values self.now.codes }
    {
        self.codes.codes()
    }

    /// Whether each value has a code. Stored for shared codes.
    pub(crate) fn all_coded(&self, alloc: Global) -> VortexResult<bool>
        ensures { AnswersUnlessMemory result (λ b. IsTrue b ↔ AllCoded self.now) }
    {
        self.codes.all_coded(alloc, self.values.len())
    }

    /// The same codes over as many other values.
    pub(crate) fn with_values(&self, alloc: Global, values: Column) -> VortexResult<DictColumn>
        requires { length values.rows ≡ length self.now.values.rows }
        ensures { AnswersUnlessMemory result
            (λ d. d ≡ record { values = values; codes = self.now.codes }) }
    {
        Ok(DictColumn {
            values,
            codes: self.codes.try_clone(alloc)?,
        })
    }
}

impl EncodedColumn for DictColumn {
    ghost column = { decoded };

    fn dtype(&self) -> &DType {
        self.values.dtype()
    }

    fn len(&self) -> usize {
        self.codes().len()
    }

    fn decode(&self, ctx: &mut ExecutionCtx) -> VortexResult<Column> {
        self.values.take(self.codes(), ctx)
    }
}
