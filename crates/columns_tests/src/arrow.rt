//! Tests of columns in Arrow's columnar format, on the examples of its own page.

mod copying;
mod reading;
