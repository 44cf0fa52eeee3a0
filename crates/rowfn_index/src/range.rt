//! Chunks of a file, read one after the other.
ghost use Rattle.std.specs.Prelude.{◌≡◌, ◌≤◌, [], IfOk, IfSome, true, length, take, drop};
ghost use Rattle.rowfn_index.specs.Chunks.{HasDigest, rows_of};

use crate::chunk::Chunk;
use crate::digest::digest_of;
use std::alloc::Global;
use std::cell::Cell;
use std::io::{self, ErrorKind, Read, Seek, SeekFrom};

/// A byte order mark. At the start of an input it is skipped.
const MARK: &[u8] = b"\xEF\xBB\xBF";

/// What is to be read before bytes, so that a stream over them reads all of them: a byte order mark
/// where they begin with one, and are not the first of the file.
pub(crate) fn mark_before(offset: u64, bytes: &[u8]) -> &'static [u8] {
    if offset != 0 && bytes.starts_with(MARK) {
        MARK
    } else {
        &[]
    }
}

/// How many rows chunks have; 18,446,744,073,709,551,615 where they are more.
fn rows_of(chunks: &[Chunk]) -> u64
    ensures { result ≡ rows_of chunks.now }
{
    let mut rows = 0u64;
    for chunk in chunks {
        rows = rows.saturating_add(chunk.rows);
    }
    rows
}

/// So many chunks from one on; fewer where there are no more.
fn chunks_from(chunks: &[Chunk], first: usize, count: usize) -> &[Chunk]
    ensures { result.now ≡ take count (drop first chunks.now) }
{
    let rest = chunks.get(first..).unwrap_or(&[]);
    rest.get(..count).unwrap_or(rest)
}

/// A file of chunks, of which some are read, one after the other, each as a whole. None is given whose
/// digest is not its own.
#[derive(Drop)]
pub struct ChunkFile<'a, F> {
    file: F,
    chunks: Vec<Chunk>,
    /// The number of the next chunk that is read, and of the first that is not.
    next: usize,
    end: usize,
    /// Whether the next chunk is the first one.
    is_first: bool,
    /// What is given before the chunk.
    mark: &'static [u8],
    buffer: Vec<u8>,
    given: usize,
    /// The number of a chunk that has changed, if one was read.
    changed: &'a Cell<Option<usize>>,
}

impl<'a, F: Read + Seek> ChunkFile<'a, F> {
    /// No chunk of the file is read yet; takes no memory.
    pub fn new(
        alloc: Global,
        file: F,
        chunks: Vec<Chunk>,
        changed: &'a Cell<Option<usize>>,
    ) -> ChunkFile<'a, F>
        ensures chunks { result.chunks ≡ chunks }
        ensures none { result.end ≡ 0 }
    {
        ChunkFile {
            file,
            chunks,
            next: 0,
            end: 0,
            is_first: true,
            mark: &[],
            buffer: Vec::new(alloc),
            given: 0,
            changed,
        }
    }

    /// How many rows so many chunks from one on have; 18,446,744,073,709,551,615 where they are more.
    pub fn rows(&self, first: usize, count: usize) -> u64
        ensures { result ≡ rows_of (take count (drop first self.now.chunks.items)) }
    {
        rows_of(chunks_from(&self.chunks, first, count))
    }

    /// From here on, so many chunks from one on are read.
    pub fn begin(&mut self, first: usize, count: usize)
        ensures chunks { self.new.chunks ≡ self.old.chunks }
        ensures first { self.new.next ≡ first }
        ensures none { self.new.buffer.items ≡ [] }
    {
        self.next = first;
        self.end = first.saturating_add(count);
        self.is_first = true;
        self.mark = &[];
        self.buffer.clear();
        self.given = 0;
    }

    /// Reads the bytes of a chunk.
    fn read_bytes(&mut self, chunk: &Chunk) -> io::Result<()> {
        self.given = 0;
        self.buffer.clear();
        self.buffer.resize(chunk.bytes as usize, 0)?;
        self.file.seek(SeekFrom::Start(chunk.offset))?;
        self.file.read_exact(&mut self.buffer)
    }

    /// Reads the next chunk whole. Returns whether there was one. Fails where its digest is another.
    fn read_next(&mut self) -> io::Result<bool>
        ensures { IfOk result (λ more. more ≡ true
            → HasDigest self.old.chunks.items self.old.next self.new.buffer.items) }
    {
        if self.next >= self.end {
            return Ok(false);
        }
        let Some(chunk) = self.chunks.get(self.next).copied() else {
            return Ok(false);
        };
        self.read_bytes(&chunk)?;
        if digest_of(&self.buffer) != chunk.digest {
            self.changed.set(Some(self.next));
            return Err(io::Error::from(ErrorKind::InvalidData));
        }
        if self.is_first {
            self.mark = mark_before(chunk.offset, &self.buffer);
        }
        self.is_first = false;
        self.next = self.next.saturating_add(1);
        Ok(true)
    }

    /// The bytes of the next chunk; nothing after the last. Fails where its digest is another.
    pub fn next_bytes(&mut self) -> io::Result<Option<&[u8]>>
        ensures { IfOk result (λ o. IfSome o
            (λ bytes. HasDigest self.old.chunks.items self.old.next bytes.now)) }
    {
        if self.read_next()? {
            Ok(Some(&self.buffer))
        } else {
            Ok(None)
        }
    }
}

/// Gives bytes that are left: as many as a buffer takes.
fn give(left: &[u8], buf: &mut [u8]) -> usize
    ensures fits { result ≤ length buf.new }
    ensures there { result ≤ length left.now }
{
    let count = left.len().min(buf.len());
    buf[..count].copy_from_slice(&left[..count]);
    count
}

impl<F: Read + Seek> Read for ChunkFile<'_, F> {
    fn read(&mut self, buf: &mut [u8]) -> io::Result<usize> {
        if self.given >= self.buffer.len() && !self.read_next()? {
            return Ok(0);
        }
        if !self.mark.is_empty() {
            let count = give(self.mark, buf);
            self.mark = &self.mark[count..];
            return Ok(count);
        }
        let left = self.buffer.as_slice().get(self.given..).unwrap_or(&[]);
        let count = give(left, buf);
        self.given = self.given.saturating_add(count);
        Ok(count)
    }
}
