//! Streams whose reader gives more only after what it has heard.

use crate::programs::{asked, read_asked, settings};
use rowfn_batches::{RefusedRows, Settings, run};
use std::alloc::Global;
use std::cell::Cell;
use std::io::{self, Read, Write};

/// Parts of an input, each of which is begun once so many bytes were written; fails where they were
/// not, or more were.
#[derive(Drop)]
struct Asker<'a> {
    parts: &'a [(&'a str, usize)],
    /// Which part comes, and how many of its bytes were given.
    place: usize,
    given: usize,
    written: &'a Cell<usize>,
}

impl Read for Asker<'_> {
    fn read(&mut self, buf: &mut [u8]) -> io::Result<usize> {
        let Some((part, expected)) = self.parts.get(self.place) else {
            return Ok(0);
        };
        if self.given == 0 && self.written.get() != *expected {
            return Err(io::Error::from(io::ErrorKind::ConnectionReset));
        }
        let Some(left) = part.as_bytes().get(self.given..) else {
            return Ok(0);
        };
        let count = left.len().min(buf.len());
        buf[..count].copy_from_slice(&left[..count]);
        self.given = self.given.saturating_add(count);
        if self.given >= part.len() {
            self.place = self.place.saturating_add(1);
            self.given = 0;
        }
        Ok(count)
    }
}

/// Counts what is written.
#[derive(Drop)]
struct Listener<'a> {
    written: &'a Cell<usize>,
}

impl Write for Listener<'_> {
    fn write(&mut self, buf: &[u8]) -> io::Result<usize> {
        self.written
            .set(self.written.get().saturating_add(buf.len()));
        Ok(buf.len())
    }

    fn flush(&mut self) -> io::Result<()> {
        Ok(())
    }
}

/// Whether a stream is read to its end by an asker, and written whenever the input pauses or not.
fn is_heard(alloc: Global, flushes: bool, parts: &[(&str, usize)]) -> bool {
    let written = Cell::new(0);
    let reader = Asker {
        parts,
        place: 0,
        given: 0,
        written: &written,
    };
    let mut listener = Listener { written: &written };
    let Some(answers) = read_asked(alloc, "a i64, b i64: a + b as sum") else {
        return false;
    };
    let settings = Settings {
        flushes,
        ..settings(1000, 1000)
    };
    let mut refused = RefusedRows::<Vec<u8>>::End;
    run(
        alloc,
        &settings,
        &asked(&answers),
        None,
        reader,
        &mut listener,
        &mut refused,
    )
    .is_ok()
}

#[test]
fn what_is_there_is_answered_before_more_is_read(rt: HostRuntime) {
    let parts = [
        ("a,b\n1,2\n", 0),
        ("3,4\n5", 6),
        (",6\r\n\r\n", 8),
        ("", 11),
    ];
    assert!(rt; is_heard(rt.alloc(), true, &parts));
    assert!(rt; !is_heard(rt.alloc(), false, &parts));
}
