//! Parts and beginnings of dates and timestamps, over the integers that stand for them, as
//! functions of SQL.
#![tactic(auto)]

mod calendar;
pub mod casts;
pub mod laws;
pub mod made;
pub mod months;
pub mod parts;
mod stored;
#[cfg(test)]
mod tests;
pub mod truncations;
