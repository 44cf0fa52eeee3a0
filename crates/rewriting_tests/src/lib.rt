//! Tests of array trees, of rules at places of either kind of tree, and of callers' functions and
//! their rules.
#![tactic(auto)]

#[cfg(test)]
mod arrays;
#[cfg(test)]
mod expressions;
#[cfg(test)]
mod questions;
#[cfg(test)]
mod readme;
#[cfg(test)]
mod rules;
