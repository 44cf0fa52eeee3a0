//! Which groups of rows a condition excludes, and of which it is true in every row, by statistics of
//! their columns.
#![tactic(auto)]

mod call;
pub mod functions;
pub mod groups;
pub mod laws;
mod node;
pub mod pruned;
pub mod residuals;
mod sql;
pub mod trees;

pub use functions::ScalarFnRanges;
pub use groups::{FieldStatistics, GroupError, prune_groups, statistics_in};
pub use pruned::{Pruned, Verdict};
pub use residuals::{ResidualTree, residual};
pub use trees::{prune, ranges};
pub use vortex_ranges::{Bound, Range};
