//! LIKE patterns over texts and over columns of texts.
#![tactic(auto)]

mod any_prefix;
mod characters;
mod column_test;
mod cuts;
mod each_pattern;
pub mod execute;
mod first_byte;
mod folded_tests;
pub mod form;
mod form_test;
mod gathered;
pub mod laws;
mod matching;
pub mod option_bytes;
pub mod options;
pub mod pattern;
mod prefiltered;
mod small_inside;
mod text_tests;
mod texts;
mod token;
mod token_reading;
mod token_test;
pub mod variant;

pub use execute::execute_like;
pub use form::LikeForm;
pub use options::LikeOptions;
pub use pattern::LikePattern;
pub use token::{LikeToken, Looks};
pub use variant::LikeVariant;
