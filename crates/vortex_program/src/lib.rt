//! Programs: answers and conditions that are read once and run over batches of columns.
#![tactic(auto)]

pub mod answer;
mod coded;
mod deciding;
pub mod executing;
pub mod faults;
pub mod form;
mod infallible;
mod names;
mod naming;
pub mod parsed;
pub mod program;
pub mod reads;
mod rows;
pub mod running;
mod truths;
pub mod widths;

pub use answer::Answer;
pub use executing::execute_answers;
pub use faults::first_fault;
pub use form::Form;
pub use parsed::{Parsed, parse_answers, parse_condition};
pub use program::Program;
pub use reads::{columns_read, unread_columns_change_nothing};
pub use running::RunError;
pub use widths::rows_at_once;
