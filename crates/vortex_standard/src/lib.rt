//! SQL's functions: the list, and the names by which texts call them.
#![tactic(auto)]

mod dispatch;
pub mod error_texts;
pub mod key_functions;
pub mod names;
pub mod scales;
pub mod standard;

pub use error_texts::ErrorText;
pub use key_functions::KEY_FUNCTIONS;
pub use names::{FUNCTIONS, named};
pub use scales::DecimalScale;
pub use standard::Standard;
pub use vortex_float_texts::width::Width;
pub use vortex_sql_choices::extremes::Extreme;
pub use vortex_sql_choices::truth_tests::TruthTest;
pub use vortex_sql_dates::parts::{DatePart, Part, TimestampPart};
pub use vortex_sql_dates::truncations::{DateTrunc, TimestampTrunc, Unit};
pub use vortex_sql_float_functions::functions::FloatFunction;
pub use vortex_sql_float_functions::places::FloatPlaces;
pub use vortex_sql_floats::floats::FloatOperator;
pub use vortex_sql_floats::integers::FloatToInt;
pub use vortex_sql_kind_texts::decimals::{DecimalRound, Rounding};
pub use vortex_sql_kind_texts::float_texts::FloatToText;
pub use vortex_sql_kind_texts::from_texts::TextToKind;
pub use vortex_sql_kind_texts::kinds::{StoredKind, WrittenKind};
pub use vortex_sql_kind_texts::to_texts::KindToText;
pub use vortex_sql_numbers::bits::{BitOperator, Shift};
pub use vortex_sql_numbers::integer_casts::{Cast, Widen};
pub use vortex_sql_numbers::truth_casts::TruthToInt;
pub use vortex_sql_pads::pads::Pad;
pub use vortex_sql_patterns::functions::PatternFunction;
pub use vortex_sql_rows::faults::RowFault;
pub use vortex_sql_rows::ranges::has_all_of;
pub use vortex_sql_rows::types::{Gives, Kind, Nulls, Takes, Types};
pub use vortex_sql_texts::letters::Letters;
pub use vortex_sql_texts::parts::Side;
pub use vortex_sql_texts::text_casts::TextToInt;
pub use vortex_sql_texts::texts::Measure;
pub use vortex_sql_texts::trims::Trim;
