//! Columns in Arrow's columnar format: borrowed from a caller and made into a `Column`, and copied
//! from a `Column` into the caller's buffers.
#![tactic(auto)]

mod bits_out;
mod byte_rows;
mod column;
mod copying;
mod error;
mod floats;
pub mod laws;
mod offsets;
mod reading;
mod selecting;
mod set_bits;
mod texts_out;
mod true_words;
mod validity;
mod views;
mod whole_texts;

pub use bits_out::bytes_for;
pub use column::{ArrowColumn, ArrowValues};
pub use copying::{copy_bools, copy_integers};
pub use error::{ArrowError, CopyError, ValueFault};
pub use floats::{copy_narrow_floats, copy_wide_floats};
pub use offsets::IndexType;
pub use reading::to_column;
pub use selecting::{copy_mask, copy_true_rows, true_count};
pub use texts_out::{byte_count, copy_texts};
