//! A script, run.

use crate::seen::Tally;
use fixtures::{PRINTED, SCRIPT};
use rowfn_scripts::{End, interpret};
use std::alloc::Global;
use vortex_columns::VortexResult;

/// Whether the script is read to its end and prints its lines. Where memory runs out, what is
/// printed is a beginning of them.
fn prints(alloc: Global) -> VortexResult<bool> {
    let outcome = interpret(alloc, SCRIPT.as_bytes());
    if !PRINTED.as_bytes().starts_with(&outcome.out) {
        return Ok(false);
    }
    match outcome.ending {
        End::Done => Ok(outcome.out.len() == PRINTED.len()),
        End::Refused(error) => Err(error),
        End::Malformed(_) => Ok(false),
    }
}

pub fn ask(alloc: Global, tally: &mut Tally) {
    tally.note("interpret", prints(alloc));
}
