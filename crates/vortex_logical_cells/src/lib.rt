//! Columns of kinds: their stored integers read from fields, and the texts of these.
#![tactic(auto)]

pub mod fields;
mod readers;
pub mod texts;

pub use fields::{column_of_kind, field_fits_kind};
pub use texts::{KindTexts, texts_of_kind};
