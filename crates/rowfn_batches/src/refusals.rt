//! Rows that are refused, as lines of CSV.
ghost use Rattle.std.specs.Prelude.{◌≡◌, ◌++◌, [], OnOk, IfOk, IfErr, true, false, decimal};
ghost use Rattle.std.specs.Io.KnownBytes.{Appends};
ghost use Rattle.rowfn_batches.specs.Refusals.{IsUntold, one_more_counted, header_before, row_shown};
ghost use Rattle.rowfn_batches.specs.Refusals.{AddsLine, TellsRow};

use crate::errors::StreamError;
use crate::messages::{message_bytes, message_text, write_bytes};
use itoa::Buffer;
use std::alloc::{AllocError, AllocFailed, Global};
use std::io::{self, Write};
use std::rt::Files;
use std::{fmt, fs, str};

/// The names of the columns.
const HEADER: &[u8] = b"row,column,reason,field\n";

/// With how many bytes lines are written that were not yet.
const ENOUGH: usize = 1 << 16;

/// What is told of a row that is refused, as a line.
#[derive(Clone, Copy)]
struct RefusalLine<'a> {
    error: &'a StreamError,
}

/// Writes a text and what stands behind it in quotes, each quote in the text twice.
fn write_quoted<W: fmt::Write>(f: &mut fmt::Formatter<W>, text: &str, end: &str) -> fmt::Result {
    f.write_str("\"")?;
    for (place, part) in text.split('"').enumerate() {
        if place != 0 {
            f.write_str("\"\"")?;
        }
        f.write_str(part)?;
    }
    f.write_str(end)?;
    f.write_str("\"")
}

/// Whether a text stands in quotes: an empty one, and one with a comma, a quote or an end of line.
fn needs_quotes(text: &str) -> bool {
    text.is_empty() || text.as_bytes().iter().any(|byte| b",\"\r\n".contains(byte))
}

/// Writes a text and what stands behind it, in quotes where they need them.
fn write_text<W: fmt::Write>(f: &mut fmt::Formatter<W>, text: &str, end: &str) -> fmt::Result {
    if needs_quotes(text) {
        return write_quoted(f, text, end);
    }
    f.write_str(text)?;
    f.write_str(end)
}

/// What stands behind the beginning of a field.
fn end_of(is_cut: bool) -> &'static str {
    if is_cut { ".." } else { "" }
}

/// Writes the beginning of a field: nothing for null.
fn write_field<W: fmt::Write>(f: &mut fmt::Formatter<W>, field: Option<&[u8]>) -> fmt::Result {
    let Some(bytes) = field else {
        return Ok(());
    };
    if let Ok(text) = str::from_utf8(bytes) {
        let (told, is_cut) = message_text(text);
        return write_text(f, told, end_of(is_cut));
    }
    let (told, is_cut) = message_bytes(bytes);
    f.write_str("\"")?;
    write_bytes(f, told)?;
    f.write_str(end_of(is_cut))?;
    f.write_str("\"")
}

/// Writes why a row is refused, in quotes where that has a comma.
fn write_reason<W: fmt::Write>(f: &mut fmt::Formatter<W>, error: &StreamError) -> fmt::Result {
    let quote = if error.has_comma() { "\"" } else { "" };
    f.write_str(quote)?;
    if let StreamError::Misfit { field: None, .. } = error {
        f.write_str("null ")?;
    }
    error.write_reason(f)?;
    f.write_str(quote)
}

/// What follows the row's number: the column or answer by its name, the reason, and the beginning of
/// the field.
impl fmt::Display for RefusalLine<'_> {
    fn fmt<W: fmt::Write>(&self, f: &mut fmt::Formatter<W>) -> fmt::Result {
        match self.error {
            StreamError::Misfit { column, .. } => write_text(f, column.as_str(), "")?,
            StreamError::NoText { name, .. } => write_text(f, name.as_str(), "")?,
            _ => {}
        }
        f.write_str(",")?;
        write_reason(f, self.error)?;
        f.write_str(",")?;
        match self.error {
            StreamError::Misfit { field, .. } => {
                write_field(f, field.as_ref().map(|bytes| bytes.as_slice()))?;
            }
            StreamError::Fault { text, .. } => {
                write_field(f, text.as_ref().map(|text| text.as_bytes()))?;
            }
            _ => {}
        }
        f.write_str("\n")
    }
}

/// Tells rows that are refused to a writer, as CSV with commas between fields: `row` by its number,
/// `column`, the name of the column or answer, which is empty where none is at fault, `reason`, and
/// `field`, its first 80 characters, where one does not fit. Lines are held until they are enough, or
/// flushed.
#[derive(Drop)]
pub struct Refusals<W> {
    alloc: Global,
    writer: W,
    /// The lines that are not yet written.
    lines: Vec<u8>,
    /// Whether the header was told.
    has_header: bool,
    /// How many rows were told.
    count: u64,
    /// Whether the writer refused lines.
    failed: bool,
}

impl<W> Refusals<W> {
    /// Nothing is told yet; takes no memory.
    pub fn new(alloc: Global, writer: W) -> Refusals<W>
        ensures { (result.count ≡ 0) × (result.lines.items ≡ []) × (result.has_header ≡ false)
            × (result.writer ≡ writer) }
    {
        Refusals {
            alloc,
            writer,
            lines: Vec::new(alloc),
            has_header: false,
            count: 0,
            failed: false,
        }
    }

    /// How many rows were told; 18,446,744,073,709,551,615 where they are more.
    pub fn count(&self) -> u64
        ensures { result ≡ self.now.count }
    {
        self.count
    }

    /// Whether the writer refused lines when they were written last.
    pub fn has_failed(&self) -> bool
        ensures { result ≡ self.now.failed }
    {
        self.failed
    }
}

impl<W: Write> Refusals<W> {
    /// Tells the header, where it was not yet. Refused only for want of memory.
    pub fn report_header(&mut self) -> Result<(), AllocError>
        ensures count { self.new.count ≡ self.old.count }
        ensures writer { self.new.writer ≡ self.old.writer }
        ensures told { OnOk result (self.new.has_header ≡ true) }
        ensures lines { OnOk result (self.new.lines.items
            ≡ self.old.lines.items ++ header_before self.old.has_header) }
    {
        if !self.has_header {
            self.lines.extend_from_slice(HEADER)?;
            self.has_header = true;
        }
        Ok(())
    }

    /// Adds the number of a row.
    fn push_number(&mut self, row: u64) -> Result<(), AllocError>
        ensures count { self.new.count ≡ self.old.count }
        ensures writer { self.new.writer ≡ self.old.writer }
        ensures lines { OnOk result (self.new.lines.items
            ≡ self.old.lines.items ++ decimal row) }
    {
        let mut buffer = Buffer::new();
        self.lines.extend_from_slice(buffer.format(row).as_bytes())
    }

    /// Adds the line of a row, behind the header.
    fn push_line(&mut self, error: &StreamError) -> Result<(), AllocError>
        ensures count { self.new.count ≡ self.old.count }
        ensures writer { self.new.writer ≡ self.old.writer }
        ensures line { OnOk result (AddsLine self.old.has_header error.now self.old.lines.items
            self.new.lines.items) }
    {
        self.report_header()?;
        self.push_number(error.row().unwrap_or(0))?;
        self.lines.push(b',')?;
        let line = format!(in self.alloc; "{}", RefusalLine { error })?;
        self.lines.extend_from_slice(line.as_bytes())?;
        Ok(())
    }

    /// Tells a row that is refused, behind the header. Refused for want of memory, and where lines
    /// are written that the writer refuses.
    pub fn tell(&mut self, error: &StreamError) -> Result<(), StreamError>
        ensures count { OnOk result (self.new.count ≡ one_more_counted self.old.count) }
        ensures told { OnOk result (TellsRow self.old.has_header error.now self.old.lines.items
            self.new.lines.items (W.contents self.old.writer) (W.contents self.new.writer)) }
        ensures refused { IfErr result IsUntold }
    {
        self.push_line(error)?;
        self.count = self.count.saturating_add(1);
        if self.lines.len() < ENOUGH {
            return Ok(());
        }
        self.flush()
    }

    /// Writes the lines that are held.
    fn write_lines(&mut self) -> Result<(), StreamError>
        ensures written { OnOk result (Appends (W.contents self.old.writer)
            (W.contents self.new.writer) self.old.lines.items) }
        ensures count { self.new.count ≡ self.old.count }
        ensures refused { IfErr result IsUntold }
    {
        if let Err(error) = self.writer.write_all(&self.lines) {
            return Err(StreamError::Writing(error));
        }
        if let Err(error) = self.writer.flush() {
            return Err(StreamError::Writing(error));
        }
        Ok(())
    }

    /// Writes the lines that are held. Refused only where the writer refuses; then they are lost.
    pub fn flush(&mut self) -> Result<(), StreamError>
        ensures written { OnOk result (Appends (W.contents self.old.writer)
            (W.contents self.new.writer) self.old.lines.items) }
        ensures none_held { self.new.lines.items ≡ [] }
        ensures count { self.new.count ≡ self.old.count }
        ensures refused { IfErr result IsUntold }
        ensures failed { IfErr result (λ _. self.new.failed ≡ true) }
    {
        if self.lines.is_empty() {
            return Ok(());
        }
        let written = self.write_lines();
        self.failed = written.is_err();
        self.lines.clear();
        written
    }
}

/// What becomes of rows that are refused.
#[derive(Drop)]
pub enum RefusedRows<W> {
    /// The first one ends the stream.
    End,
    /// They are reported there, and skipped.
    Skip(Refusals<W>),
}

/// Why there is no file in which rows that are refused are told.
#[derive(Drop)]
pub enum NoRefusals {
    /// The file of that name cannot be made.
    NoFile(String, io::Error),
    /// Memory ran out.
    OutOfMemory,
}

impl From<AllocError> for NoRefusals {
    ghost use Rattle.rowfn_batches.specs.declared.refusals.NoRefusals.TheVariants.{OutOfMemory};
    ghost use Rattle.std.specs.Prelude.{◌≡◌};

    ghost from_gives = { λ _ e. e ≡ OutOfMemory };

    fn from(_error: AllocError) -> NoRefusals {
        NoRefusals::OutOfMemory
    }
}

impl<T: Drop> From<AllocFailed<T>> for NoRefusals {
    ghost use Rattle.rowfn_batches.specs.declared.refusals.NoRefusals.TheVariants.{OutOfMemory};
    ghost use Rattle.std.specs.Prelude.{◌≡◌};

    ghost from_gives = { λ _ e. e ≡ OutOfMemory };

    fn from(_error: AllocFailed<T>) -> NoRefusals {
        NoRefusals::OutOfMemory
    }
}

/// The file, and what is wrong with it.
impl fmt::Display for NoRefusals {
    fn fmt<W: fmt::Write>(&self, f: &mut fmt::Formatter<W>) -> fmt::Result {
        match self {
            NoRefusals::NoFile(name, error) => {
                let name = name.as_str();
                write!(f, "writing {name}: {error}")
            }
            NoRefusals::OutOfMemory => f.write_str("out of memory"),
        }
    }
}

/// Makes the file of that name, or empties it, to tell rows that are refused there, behind the
/// header. Refused with the name where it cannot be made, and for want of memory.
pub fn refusals_in<F: Files + AllocGlobal>(
    rt: &F,
    name: &str,
) -> Result<Refusals<F::File>, NoRefusals>
    ensures { IfOk result (λ refusals. refusals.count ≡ 0) }
{
    match fs::create(rt, name) {
        Ok(file) => {
            let mut refusals = Refusals::new(rt.alloc(), file);
            refusals.report_header()?;
            Ok(refusals)
        }
        Err(error) => {
            let name = String::from_str(rt.alloc(), name)?;
            Err(NoRefusals::NoFile(name, error))
        }
    }
}
