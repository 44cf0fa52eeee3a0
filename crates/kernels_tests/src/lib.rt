//! Tests of the kernels, of the operators that choose them, of checked arithmetic and of LIKE, for
//! what no case of `crates/cases` says: bits that begin anywhere in their bytes, what lies under
//! nulls, views, nested values, and calls over single rows and words.
#![tactic(auto)]

#[cfg(test)]
mod bits;
#[cfg(test)]
mod checked;
#[cfg(test)]
mod like;
#[cfg(test)]
mod nested;
#[cfg(test)]
mod operators;
#[cfg(test)]
mod questions;
