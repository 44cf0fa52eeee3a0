//! Tests of bits, views, types, values and columns, of columns in Arrow's format, and of
//! statistics: each call on its happy path, texts without contracts, and depth.
#![tactic(auto)]

#[cfg(test)]
mod arrow;
#[cfg(test)]
mod bits;
#[cfg(test)]
mod columns;
#[cfg(test)]
mod deep_columns;
#[cfg(test)]
mod depths;
#[cfg(test)]
mod questions;
#[cfg(test)]
mod rows;
#[cfg(test)]
mod scalars;
#[cfg(test)]
mod statistics;
#[cfg(test)]
mod taken;
#[cfg(test)]
mod texts;
#[cfg(test)]
mod types;
#[cfg(test)]
mod views;
