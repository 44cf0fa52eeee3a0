//! Columns, fields and buffers as C has them: a scope of fields, columns that are lent over it, and
//! outputs for answers.
#![tactic(auto)]

pub mod batch;
pub mod borrowed;
pub mod checking;
pub mod fields;
pub mod joined;
pub mod kinds;
pub mod outputs;
pub mod statuses;
pub mod texts;
mod words;

pub use batch::{ColumnError, ColumnFault, dtype_of, has_dtype, read_batch};
pub use borrowed::{BorrowedColumn, BorrowedError, arrow_columns, placed};
pub use checking::{check_batch, is_flat};
pub use fields::{BorrowedField, FieldError, ScopeFault, read_fields, read_kinds};
pub use joined::Joined;
pub use kinds::{Kind, Type, kind_number, kind_numbered, number_at, reported_type};
pub use outputs::{Room, RoomError, Size, copy_answer, size_of};
pub use texts::{put_message, put_text};
pub use words::{batch_words, borrowed_words, scope_words};
