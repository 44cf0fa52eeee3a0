//! The words in which columns and fields that are wrong are told.
ghost use Rattle.std.specs.Prelude.{◌≡◌, string_bytes};
ghost use Rattle.vortex_errors.specs.Answers.{AnswersUnlessMemory};
ghost use Rattle.vortex_types.specs.TypeOf.{struct_fields};
ghost use Rattle.yurkije_columns.specs.Messages.{scope_words, borrowed_words, fault_words};
ghost use Rattle.yurkije_columns.specs.Messages.{name_of_field};

use crate::batch::{ColumnError, ColumnFault};
use crate::borrowed::BorrowedError;
use crate::fields::{FieldError, ScopeFault};
use std::alloc::Global;
use vortex_columns::{StructFields, VortexResult};

/// The words for a field that is wrong. E9 where memory is refused.
pub fn scope_words(alloc: Global, error: FieldError) -> VortexResult<String>
    ensures { AnswersUnlessMemory result
        (λ words. string_bytes words ≡ scope_words error.field error.fault) }
{
    let field = error.field;
    match error.fault {
        ScopeFault::UnknownKind => Ok(format!(in alloc; "field {field}: no kind has that number")?),
        ScopeFault::NotUtf8 => Ok(format!(in alloc; "field {field}: its name is not UTF-8")?),
        ScopeFault::NameTwice => {
            Ok(format!(in alloc; "field {field}: a field before it has its name")?)
        }
        ScopeFault::OutOfMemory => Ok(String::from_str(alloc, "out of memory")?),
    }
}

/// The words for columns that are not taken. E9 where memory is refused.
pub fn borrowed_words(alloc: Global, error: BorrowedError) -> VortexResult<String>
    ensures { AnswersUnlessMemory result (λ words. string_bytes words ≡ borrowed_words error) }
{
    match error {
        BorrowedError::UnknownKind { column } => {
            Ok(format!(in alloc; "column {column}: no kind has that number")?)
        }
        BorrowedError::OutOfMemory => Ok(String::from_str(alloc, "out of memory")?),
    }
}

/// The name of a field, or none where there is no such field.
fn field_named(scope: &StructFields, field: usize) -> &str
    ensures { result.now ≡ name_of_field (struct_fields scope.now) field }
{
    if field < scope.len() {
        scope.name(field)
    } else {
        ""
    }
}

/// The words for a column of a batch of so many rows that is wrong, with the name of its field. E9
/// where memory is refused.
pub fn batch_words(
    alloc: Global,
    scope: &StructFields,
    error: ColumnError,
    rows: usize,
) -> VortexResult<String>
    ensures { let name = name_of_field (struct_fields scope.now) error.column in
        AnswersUnlessMemory result
        (λ words. string_bytes words ≡ fault_words error.column name rows error.fault) }
{
    let column = error.column;
    let name = field_named(scope, column);
    match error.fault {
        ColumnFault::Missing => Ok(format!(in alloc; "column {column} ({name}): missing")?),
        ColumnFault::Unasked => Ok(format!(in alloc; "column {column}: there is no field for it")?),
        ColumnFault::OtherType => {
            Ok(format!(in alloc; "column {column} ({name}): of another type than the field")?)
        }
        ColumnFault::OtherLength { rows: length } => Ok(format!(in alloc;
            "column {column} ({name}): {length} rows in a batch of {rows}"
        )?),
        ColumnFault::Unread(error) => Ok(format!(in alloc; "column {column} ({name}): {error}")?),
    }
}
