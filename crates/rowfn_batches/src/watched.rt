//! A reader that tells how far a stream has come.
ghost use Rattle.std.specs.Prelude.{◌≡◌, ◌+◌, ◌-◌, ◌^◌, min};
ghost use Rattle.std.specs.Io.{ReadsAtMost};
ghost use Rattle.std.specs.Io.KnownBytes.{ReadConsumes};
ghost use Rattle.rowfn_batches.specs.Watching.{counted};

use std::cell::Cell;
use std::io::{self, Read};

/// Is told how far a stream has come.
pub trait Watcher {
    /// So many rows were passed on, and so many bytes were read.
    fn tell(&mut self, rows: u64, bytes: u64);
}

/// A reader over another, of which a watcher is told whenever so many bytes more were read. `rows` is
/// where the stream counts the rows that were passed on.
#[derive(Drop)]
pub struct Watched<'a, R, T> {
    inner: R,
    watcher: T,
    rows: &'a Cell<u64>,
    every: u64,
    bytes: u64,
    told: u64,
}

impl<'a, R, T> Watched<'a, R, T> {
    /// Nothing is read yet; takes no memory.
    pub fn new(inner: R, watcher: T, rows: &'a Cell<u64>, every: u64) -> Watched<'a, R, T>
        ensures { (result.inner ≡ inner) × (result.bytes ≡ 0) }
    {
        Watched {
            inner,
            watcher,
            rows,
            every,
            bytes: 0,
            told: 0,
        }
    }
}

impl<R: Read, T: Watcher> Watched<'_, R, T> {
    /// Counts bytes that were read, and tells how far the stream has come where that is due.
    fn count(&mut self, count: usize)
        ensures bytes { self.new.bytes ≡ min (self.old.bytes + count) (2 ^ 64 - 1) }
        ensures inner { self.new.inner ≡ self.old.inner }
    {
        self.bytes = self.bytes.saturating_add(count as u64);
        if self.bytes.saturating_sub(self.told) >= self.every {
            self.told = self.bytes;
            self.watcher.tell(self.rows.get(), self.bytes);
        }
    }
}

impl<R: Read, T: Watcher> Read for Watched<'_, R, T> {
    ghost remaining = { λ w. R.remaining w.inner };

    fn read(&mut self, buf: &mut [u8]) -> io::Result<usize>
        ensures bound { ReadsAtMost result buf.new }
        ensures bytes { ReadConsumes (R.remaining self.old.inner) (R.remaining self.new.inner)
            result buf.new }
        ensures count { self.new.bytes ≡ counted self.old.bytes result }
    {
        let count = self.inner.read(buf)?;
        self.count(count);
        Ok(count)
    }
}
