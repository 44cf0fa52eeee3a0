//! Tests of rows that flow, for what no case of `crates/stream_cases` says: a reader that gives more
//! only after what it has heard, a stream that is watched, and fields that are no rows.
#![tactic(auto)]

#[cfg(test)]
mod fields;
#[cfg(test)]
mod flushing;
#[cfg(test)]
mod programs;
#[cfg(test)]
mod watching;
