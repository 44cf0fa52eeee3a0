//! Columns in a custom encoding.
ghost use Rattle.std.specs.Prelude.{◌≡◌, length};
ghost use Rattle.vortex_arrays.specs.Words.{AnswersUnlessMemory, ColumnView, IsDecoded, type_of};

use vortex_columns::{Column, DType, ExecutionCtx, VortexResult};

/// A column in a custom encoding. It represents one column, which only contracts see: the contracts
/// of the type, the length, the decoded column and the kernels' results are about that one.
pub trait EncodedColumn {
    ghost column: { Self → ColumnView };

    /// The type of its rows, borrowed.
    fn dtype(&self) -> &DType
        ensures { type_of result.now ≡ (column self.now).dtype };

    /// How many rows there are.
    fn len(&self) -> usize
        ensures { result ≡ length (column self.now).rows };

    /// Its rows as a column of its type. E9 where an allocation fails. Whether that is constant,
    /// and the form of its validity, are unspecified.
    fn decode(&self, ctx: &mut ExecutionCtx) -> VortexResult<Column>
        ensures { AnswersUnlessMemory result (IsDecoded (column self.now)) };
}
