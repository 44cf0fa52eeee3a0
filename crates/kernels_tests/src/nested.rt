//! Comparisons of structs and lists: by the first part that differs, with nulls of rows and nulls
//! within them, over words of rows and bits that begin anywhere. What each row answers was written
//! by hand.

mod lists;
mod structs;

/// Counts of rows around one word and two.
const LENGTHS: [usize; 5] = [1, 63, 64, 65, 130];
