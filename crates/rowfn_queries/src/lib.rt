//! What is asked of the rows of a stream, as people write it: columns with their types, a condition,
//! and answers. Columns that are not declared take their types from the first rows.
#![tactic(auto)]

mod advice;
pub mod again;
mod binding;
pub mod column_type;
mod columns;
pub mod declared;
pub mod error;
pub mod inference;
pub mod mixed;
mod other_forms;
mod places;
pub mod query;
pub mod question;
mod rows;
mod sample;
pub mod scope;
mod scopes;
mod texts;
mod types;

pub use again::Again;
pub use column_type::ColumnType;
pub use declared::{Declared, read_scope};
pub use error::{HeaderFault, QueryError, TextPlace};
pub use inference::infer;
pub use mixed::MixedColumn;
pub use query::{Query, Words, read_query};
pub use question::Question;
pub use rows::{SAMPLED_BYTES, SAMPLED_ROWS};
pub use scope::{DeclarationError, ScopeReason};
