//! Results of the calls.

use vortex_columns::{VortexError, VortexResult};

/// The first call that ran out of memory, and the first with a wrong result.
#[derive(Drop)]
pub struct Tally {
    pub out_of_memory: Option<&'static str>,
    pub wrong: Option<&'static str>,
}

/// Whether the result is `true`.
pub fn yes(answer: VortexResult<bool>) -> bool {
    match answer {
        Ok(answer) => answer,
        Err(_) => false,
    }
}

impl Tally {
    /// No calls yet.
    pub fn new() -> Tally {
        Tally {
            out_of_memory: None,
            wrong: None,
        }
    }

    /// Records whether a call returned as expected or ran out of memory. Everything else is wrong.
    pub fn note(&mut self, call: &'static str, answer: VortexResult<bool>) {
        match answer {
            Ok(true) => {}
            Err(VortexError::OutOfMemory) => {
                self.out_of_memory = self.out_of_memory.or(Some(call));
            }
            _ => self.wrong = self.wrong.or(Some(call)),
        }
    }
}
