//! SQL's functions that choose among values, and tests of values that take nulls.
#![tactic(auto)]

pub mod case;
pub mod coalesce;
pub mod distinct;
pub mod extremes;
pub mod in_list;
pub mod nullif;
pub mod truth_tests;
