//! How a test ends.

use fixtures::Ask;
use std::process::Abort;
use vortex_columns::VortexResult;

/// Ends the test unless the result is `true`. A call costs less to prove than an `assert!` with its
/// branch.
pub fn sure<R: Abort + Ask>(test: &R, answer: VortexResult<bool>) {
    assert!(test; test.yes(answer));
}
