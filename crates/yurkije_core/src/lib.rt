//! Programs over batches of columns that a caller lends: what the C interface calls, without its
//! handles.
#![tactic(auto)]

mod chunks;
pub mod expression;
mod faults;
mod lent;
mod parts;
pub mod reading;
pub mod report;
pub mod running;
pub mod statuses;
mod words;

pub use expression::{Expression, kinds_of};
pub use reading::{ProgramError, read_program};
pub use report::{ErrorNumbers, NONE, Report};
pub use running::{BatchRunError, run_program};
pub use vortex_program::Program;
pub use words::{program_words, run_words};
