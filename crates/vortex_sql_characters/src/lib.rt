//! SQL's functions of texts by their characters: codes, characters in place of others, and parts in
//! place of others.
#![tactic(auto)]

pub mod blanks;
pub mod codes;
pub mod faults;
pub mod hexadecimal;
pub mod overlays;
mod parts;
pub mod sizes;
pub mod translations;
