//! Tests of expressions over columns that are borrowed of a C caller, on the examples of Arrow's own page.
#![tactic(auto)]

#[cfg(test)]
mod kinds;
#[cfg(test)]
mod lending;
#[cfg(test)]
mod reading;
#[cfg(test)]
mod rooms;
#[cfg(test)]
mod running;
