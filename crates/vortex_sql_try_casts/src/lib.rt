//! SQL's `try_cast`: casts that are null where a cast faults.
#![tactic(auto)]

pub mod casts;
pub mod try_fn;
