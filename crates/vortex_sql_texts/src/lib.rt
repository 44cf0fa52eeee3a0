//! SQL's functions of texts.
#![tactic(auto)]

mod characters;
pub mod concats;
pub mod fields;
pub mod letters;
pub mod made;
pub mod parts;
pub mod places;
pub mod repeats;
pub mod replaced;
pub mod text_casts;
pub mod texts;
pub mod trims;
