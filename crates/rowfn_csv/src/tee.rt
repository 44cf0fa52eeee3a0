//! A reader that keeps what was read.
ghost use Rattle.std.specs.Io.{ReadsAtMost};

use crate::comments::Lines;
use crate::format::Format;
use crate::growth::Growth;
use crate::raw::MARK;
use std::alloc::{AllocError, Global};
use std::cell::Cell;
use std::io::{self, ErrorKind, Read};

/// A reader over another, which keeps the bytes that it gave from a place of the input on. Where it
/// gives more than one byte, it gives a carriage return together with what follows it. It gives
/// line feeds for the bytes of comments, but keeps those. It fails where the record that is being
/// read has a field that is longer than a limit.
#[derive(Drop)]
pub struct Tee<R> {
    inner: R,
    kept: Vec<u8>,
    first: u64,
    wanted: Cell<u64>,
    ended: bool,
    held: bool,
    lines: Lines,
    limit: usize,
    record: Cell<u64>,
    growth: Growth,
    outgrown: bool,
}

impl<R: Read> Tee<R> {
    ghost use Rattle.std.specs.Prelude.{◌≡◌};
    ghost use Rattle.rowfn_csv.specs.Comments.{BeginsLines};
    ghost use Rattle.rowfn_csv.specs.KeptLines.{bytes_between};
    ghost use Rattle.rowfn_csv.specs.Reads.{bytes_from, after_mark};

    /// Nothing is read yet; takes no memory. `limit` is the greatest length of a field.
    pub(crate) fn new(alloc: Global, inner: R, format: &Format<'_>, limit: usize) -> Tee<R>
        ensures inner { result.inner ≡ inner }
        ensures lines { BeginsLines format.now.delimiter format.now.comment result.lines }
    {
        Tee {
            inner,
            kept: Vec::new(alloc),
            first: 0,
            wanted: Cell::new(0),
            ended: false,
            held: false,
            lines: Lines::new(format.delimiter, format.comment),
            limit,
            record: Cell::new(0),
            growth: Growth::from(0),
            outgrown: false,
        }
    }

    /// A record is read next, which begins at this place or behind the ends of lines there.
    #[inline(always)]
    pub(crate) fn begin_record(&self, place: u64) {
        self.record.set(place);
    }

    /// Whether a field of the record that was being read is longer than the limit: no read goes on
    /// behind it.
    pub(crate) fn is_outgrown(&self) -> bool {
        self.outgrown
    }

    /// From here on nothing is asked for that lies before this place, counted in bytes of the
    /// input.
    pub(crate) fn keep_from(&self, place: u64) {
        self.wanted.set(place);
    }

    /// Whether the reader below is at its end.
    pub fn is_ended(&self) -> bool
        ensures { result ≡ self.now.ended }
    {
        self.ended
    }

    /// The bytes between two places of the input, without those that are no longer kept.
    #[inline(always)]
    pub fn between(&self, start: u64, end: u64) -> &[u8]
        ensures { result.now ≡ bytes_between self.now start end }
    {
        let start = start.saturating_sub(self.first) as usize;
        let end = end.saturating_sub(self.first) as usize;
        self.kept.as_slice().get(start..end).unwrap_or(&[])
    }

    /// The bytes from a place of the input on.
    pub(crate) fn from(&self, start: u64) -> &[u8]
        ensures { result.now ≡ bytes_from self.now start }
    {
        let start = start.saturating_sub(self.first) as usize;
        self.kept.as_slice().get(start..).unwrap_or(&[])
    }

    /// The byte at a place of the input, where it was read and is still kept.
    pub(crate) fn byte_at(&self, place: u64) -> Option<u8> {
        let index = place.checked_sub(self.first)?;
        self.kept.as_slice().get(index as usize).copied()
    }

    /// The place behind a byte order mark, where that is one's; else the same.
    pub(crate) fn after_mark(&self, place: u64) -> u64
        ensures { result ≡ after_mark self.now place }
    {
        if place == 0 && self.kept.as_slice().starts_with(MARK) {
            MARK.len() as u64
        } else {
            place
        }
    }

    /// Drops what nobody asks for again.
    fn forget(&mut self)
        ensures { self.new.lines ≡ self.old.lines }
    {
        let passed = self.wanted.get().saturating_sub(self.first);
        let count = self.kept.len().min(passed as usize);
        if count == 0 {
            return;
        }
        let left = self.kept.len() - count;
        self.kept.as_mut_slice().copy_within(count.., 0);
        self.kept.truncate(left);
        self.first = self.first.saturating_add(count as u64);
    }
}

impl<R: Read> Tee<R> {
    ghost use Rattle.std.specs.Prelude.{◌≡◌, ◌++◌, ◌≤◌, length, take, OnOk, IfOk};
    ghost use Rattle.rowfn_csv.specs.Comments.{bytes_given, lines_after};
    ghost use Rattle.rowfn_csv.specs.KeptLines.{GivesLines};

    /// Whether a field of the record that is being read is longer than the limit. Goes over the
    /// record's bytes only where they are more than that, and over each once.
    fn outgrows(&mut self) -> bool
        ensures { self.new.lines ≡ self.old.lines }
    {
        let end = self.first.saturating_add(self.kept.len() as u64);
        let start = self.record.get();
        if end.saturating_sub(start) <= self.limit as u64 {
            return false;
        }
        if self.growth.seen() <= start {
            self.growth = Growth::from(self.after_mark(start));
        }
        let from = self.growth.seen().saturating_sub(self.first) as usize;
        self.growth
            .outgrows(&self.kept, from, self.lines, self.limit)
    }

    /// Reads, once more where a signal interrupts it.
    fn read_inner(&mut self, buf: &mut [u8]) -> io::Result<usize>
        ensures bound { ReadsAtMost result buf.new }
        ensures lines { self.new.lines ≡ self.old.lines }
    {
        for _ in 0..u64::MAX {
            match self.inner.read(buf) {
                Err(error) if error.kind() == ErrorKind::Interrupted => {}
                outcome => return outcome,
            }
        }
        Err(io::Error::from(ErrorKind::Interrupted))
    }

    /// Writes a carriage return that was held back before what is read next; answers how many bytes
    /// that is.
    fn give_held(&mut self, buf: &mut [u8]) -> usize
        ensures { self.new.lines ≡ self.old.lines }
    {
        match buf.first_mut() {
            Some(first) if self.held => {
                *first = b'\r';
                self.held = false;
                1
            }
            _ => 0,
        }
    }

    /// Reads behind the first bytes of a buffer; answers how many bytes it then holds.
    fn read_after(&mut self, buf: &mut [u8], count: usize) -> io::Result<usize>
        ensures bound { ReadsAtMost result buf.new }
        ensures lines { self.new.lines ≡ self.old.lines }
    {
        if count >= buf.len() {
            return Ok(buf.len());
        }
        let more = self.read_inner(&mut buf[count..])?;
        if more == 0 {
            self.ended = true;
        }
        Ok(count + more)
    }

    /// Keeps the first bytes of a buffer, and writes line feeds over those of comments there.
    fn keep(&mut self, buf: &mut [u8], count: usize) -> Result<(), AllocError>
        requires { count ≤ length buf.old }
        ensures kept { OnOk result
            (self.new.kept.items ≡ self.old.kept.items ++ take count buf.old) }
        ensures given { OnOk result
            (take count buf.new ≡ bytes_given self.old.lines (take count buf.old)) }
        ensures lines { OnOk result
            (self.new.lines ≡ lines_after self.old.lines (take count buf.old)) }
        ensures size { length buf.new ≡ length buf.old }
    {
        let bytes = &mut buf[..count];
        self.kept.extend_from_slice(bytes)?;
        self.lines.blank(bytes);
        Ok(())
    }

    /// Reads what is given next, and holds nothing back.
    fn read_whole(&mut self, buf: &mut [u8]) -> io::Result<usize>
        ensures bound { ReadsAtMost result buf.new }
        ensures lines { self.new.lines ≡ self.old.lines }
    {
        let held = self.give_held(buf);
        let count = self.read_after(buf, held)?;
        if count == 1 && buf.first() == Some(&b'\r') {
            return self.read_after(buf, count);
        }
        Ok(count)
    }

    /// Holds back a carriage return at the end of the bytes that were read; returns how many are
    /// given.
    fn hold_return(&mut self, buf: &[u8], count: usize) -> usize
        requires { count ≤ length buf.now }
        ensures fewer { result ≤ count }
        ensures lines { self.new.lines ≡ self.old.lines }
    {
        if count > 1 && !self.ended && buf[count - 1] == b'\r' {
            self.held = true;
            return count - 1;
        }
        count
    }

    /// Reads and keeps what is given next.
    fn read_kept(&mut self, buf: &mut [u8]) -> io::Result<usize>
        ensures bound { ReadsAtMost result buf.new }
        ensures given { IfOk result (λ n. GivesLines n buf.new self.old.lines self.new) }
    {
        self.forget();
        if self.outgrows() {
            self.outgrown = true;
            return Err(io::Error::from(ErrorKind::FileTooLarge));
        }
        let read = self.read_whole(buf)?;
        let count = self.hold_return(buf, read);
        self.keep(buf, count)?;
        Ok(count)
    }
}

impl<R: Read> Read for Tee<R> {
    fn read(&mut self, buf: &mut [u8]) -> io::Result<usize> {
        self.read_kept(buf)
    }
}
