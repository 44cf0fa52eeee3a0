//! Pruning by statistics that a C caller lends: what is known of a condition in each of several
//! groups of rows, written into the caller's buffers. No handle.
#![tactic(auto)]

pub mod error;
mod fields;
mod groups;
pub mod laws;
mod lent;
mod statuses;
mod verdicts;
mod words;

pub use error::{Part, PartFault, PruneError};
pub use fields::read_statistics;
pub use groups::prune_lent;
pub use lent::BorrowedStatistics;
pub use statuses::{Place, place_of, prune_status};
pub use verdicts::{Verdicts, write_verdicts};
pub use vortex_pruning::{FieldStatistics, GroupError, Pruned, Verdict};
pub use words::prune_words;
