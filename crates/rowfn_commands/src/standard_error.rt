//! Standard error as a writer of text.

use std::io::{self, ErrorKind, Write};
use std::str;

/// Standard error as a writer of text.
#[derive(Drop)]
pub struct StandardError<'a, P> {
    pub console: &'a P,
}

impl<P: Eprint> Write for StandardError<'_, P> {
    fn write(&mut self, buf: &[u8]) -> io::Result<usize> {
        match str::from_utf8(buf) {
            Ok(text) => eprint!(self.console; "{text}")?,
            Err(_) => return Err(io::Error::from(ErrorKind::InvalidData)),
        }
        Ok(buf.len())
    }

    fn flush(&mut self) -> io::Result<()> {
        Ok(())
    }
}
