//! A reader that gives little by little.

use std::io::{self, ErrorKind, Read};

/// Gives bytes, at most so many at once, and then their end or a failure. Each read is interrupted
/// once before it gives anything.
#[derive(Drop)]
pub(crate) struct Drips<'a> {
    pub(crate) bytes: &'a [u8],
    pub(crate) step: usize,
    /// Whether the last read was interrupted.
    pub(crate) interrupted: bool,
    pub(crate) fails: bool,
}

/// Bytes that are given so many at once, to their end.
pub(crate) fn by_steps(bytes: &[u8], step: usize) -> Drips<'_> {
    Drips {
        bytes,
        step,
        interrupted: false,
        fails: false,
    }
}

impl Read for Drips<'_> {
    fn read(&mut self, buf: &mut [u8]) -> io::Result<usize> {
        self.interrupted = !self.interrupted;
        if self.interrupted {
            return Err(io::Error::from(ErrorKind::Interrupted));
        }
        if self.bytes.is_empty() && self.fails {
            return Err(io::Error::from(ErrorKind::ConnectionReset));
        }
        let count = self.step.min(self.bytes.len()).min(buf.len());
        let (given, left) = self.bytes.split_at(count);
        buf[..count].copy_from_slice(given);
        self.bytes = left;
        Ok(count)
    }
}
