//! A reader whose first bytes are read twice.
ghost use Rattle.std.specs.Prelude.{◌≡◌, ◌↔◌, ◌<◌, ◌≤◌, [], IsTrue, length, take, drop};
ghost use Rattle.std.specs.Prelude.{true, false, None};
ghost use Rattle.std.specs.Io.{ReadsAtMost};

use std::alloc::Global;
use std::io::{self, Read};

/// A reader over another, which keeps what it gives, until it is to give that once more: from then
/// on it gives what it kept, how reading ended where it did, and what comes behind that.
#[derive(Drop)]
pub struct Again<R> {
    inner: R,
    alloc: Global,
    kept: Vec<u8>,
    /// How many of those bytes were given since they are to be given.
    given: usize,
    keeps: bool,
    ended: bool,
    failed: Option<io::Error>,
}

impl<R> Again<R> {
    /// Nothing is kept yet; takes no memory.
    pub fn new(alloc: Global, inner: R) -> Again<R>
        ensures { (result.inner ≡ inner) × (result.kept.items ≡ []) × (result.keeps ≡ true)
            × (result.ended ≡ false) × (result.failed ≡ None) }
    {
        Again {
            inner,
            alloc,
            kept: Vec::new(alloc),
            given: 0,
            keeps: true,
            ended: false,
            failed: None,
        }
    }

    /// From here on what was kept is given, and no more is kept. Behind it comes the error by which
    /// reading failed, if it did.
    pub fn rewind(&mut self, failed: Option<io::Error>)
        ensures { self.new ≡ record self.old { keeps = false; failed = failed } }
    {
        self.keeps = false;
        self.failed = failed;
    }

    /// Whether bytes are kept: some were read, and not all of them given once more.
    pub fn has_kept(&self) -> bool
        ensures { IsTrue result ↔ 0 < length self.now.kept.items }
    {
        !self.kept.is_empty()
    }
}

/// Copies bytes from a place on into a buffer; answers how many.
fn copied(bytes: &[u8], from: usize, buf: &mut [u8]) -> usize
    ensures bound { result ≤ length buf.new }
    ensures copied { take result buf.new ≡ take result (drop from bytes.now) }
{
    let Some(left) = bytes.get(from..) else {
        return 0;
    };
    let count = left.len().min(buf.len());
    buf[..count].copy_from_slice(&left[..count]);
    count
}

impl<R: Read> Again<R> {
    /// Gives bytes that were kept, and lets go of all behind the last.
    fn give(&mut self, buf: &mut [u8]) -> usize
        ensures bound { result ≤ length buf.new }
        ensures given { take result buf.new
            ≡ take result (drop self.old.given self.old.kept.items) }
    {
        let count = copied(&self.kept, self.given, buf);
        self.given = self.given.saturating_add(count);
        if self.given >= self.kept.len() {
            self.kept = Vec::new(self.alloc);
            self.given = 0;
        }
        count
    }

    /// Reads behind what was kept.
    fn read_after(&mut self, buf: &mut [u8]) -> io::Result<usize>
        ensures { ReadsAtMost result buf.new }
    {
        if let Some(error) = self.failed.take() {
            return Err(error);
        }
        if self.ended {
            return Ok(0);
        }
        self.inner.read(buf)
    }
}

impl<R: Read> Read for Again<R> {
    fn read(&mut self, buf: &mut [u8]) -> io::Result<usize> {
        if !self.keeps {
            if self.kept.is_empty() {
                return self.read_after(buf);
            }
            return Ok(self.give(buf));
        }
        let count = self.inner.read(buf)?;
        self.ended = count == 0 && !buf.is_empty();
        self.kept
            .extend_from_slice(buf.get(..count).unwrap_or(&[]))?;
        Ok(count)
    }
}
