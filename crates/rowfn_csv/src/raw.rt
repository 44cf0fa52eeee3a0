//! What the bytes of a record tell beyond its fields: which fields stand in quotes, and whether the
//! last quote is closed.
ghost use Rattle.std.specs.Prelude.{◌≡◌, ◌≢◌, List, Bool, true, false, map, OnOk, IfOk};
ghost use Rattle.std.specs.Prelude.{MatchBool, ◌≤◌, ◌<◌, length};
ghost use Rattle.std.specs.Str.{bytes_eq};
ghost use Rattle.rowfn_csv.specs.Formats.{is_line_end};
ghost use Rattle.rowfn_csv.specs.Reads.{from_record, after_comments, HasLineEnd, IsEndOf};
ghost use Rattle.rowfn_csv.specs.Records.{Field, SaysFields, is_quoted, quoted_at};
ghost use Rattle.rowfn_csv.specs.Records.{without_line_end};
ghost use Rattle.rowfn_csv.specs.Scanning.{place_behind, AreMarks, Knows};

use std::alloc::{AllocError, Global};

/// Where a byte of a record stands.
#[derive(Clone, Copy, PartialEq, Eq)]
pub enum RecordPlace {
    /// At the first byte of a field.
    Start,
    /// In a field, outside quotes.
    Plain,
    /// In quotes.
    Quoted,
    /// Behind a quote that closes, or the first of two that stand for one.
    Closed,
}

/// Whether a byte ends a line.
pub(crate) fn ends_line(byte: u8) -> bool
    ensures { result ≡ is_line_end byte }
{
    byte == b'\n' || byte == b'\r'
}

/// Where the byte behind this one stands, in the same record.
pub fn behind(place: RecordPlace, byte: u8, delimiter: u8) -> RecordPlace
    ensures { result ≡ place_behind delimiter place byte }
{
    match place {
        RecordPlace::Quoted if byte == b'"' => RecordPlace::Closed,
        RecordPlace::Quoted => RecordPlace::Quoted,
        _ if byte == delimiter => RecordPlace::Start,
        RecordPlace::Start | RecordPlace::Closed if byte == b'"' => RecordPlace::Quoted,
        _ => RecordPlace::Plain,
    }
}

/// Whether a field is that text.
#[inline(always)]
pub fn is_text(field: &[u8], text: &[u8]) -> bool
    ensures { result ≡ bytes_eq field.now text.now }
{
    field.len() == text.len() && field == text
}

/// A byte order mark.
pub const MARK: &[u8] = b"\xEF\xBB\xBF";

/// Bytes of the input from a place on, without a byte order mark at the start of the input.
pub(crate) fn without_mark(bytes: &[u8], place: u64) -> &[u8]
    ensures { IsEndOf bytes.now result.now }
{
    match bytes.strip_prefix(MARK) {
        Some(rest) if place == 0 => rest,
        _ => bytes,
    }
}

/// The bytes from the first record on: without the ends of lines and the comments before it.
pub(crate) fn from_record(raw: &[u8], comment: Option<u8>) -> &[u8]
    ensures { result.now ≡ from_record comment false raw.now }
{
    let mut in_comment = false;
    for (start, byte) in raw.iter().enumerate() {
        if ends_line(*byte) {
            in_comment = false;
        } else if in_comment || comment == Some(*byte) {
            in_comment = true;
        } else {
            return &raw[start..];
        }
    }
    &[]
}

/// The bytes after the comments with which they begin, and after the ends of their lines.
pub(crate) fn after_comments(bytes: &[u8], comment: Option<u8>) -> &[u8]
    ensures { result.now ≡ after_comments comment false false bytes.now }
{
    let mut in_comment = false;
    let mut after_return = false;
    for (start, byte) in bytes.iter().enumerate() {
        if in_comment || (after_return && *byte == b'\n') || comment == Some(*byte) {
            in_comment = !ends_line(*byte);
            after_return = *byte == b'\r';
        } else {
            return &bytes[start..];
        }
    }
    &[]
}

/// The record without the end of its line.
pub fn without_line_end(raw: &[u8]) -> &[u8]
    ensures { result.now ≡ without_line_end raw.now }
{
    let raw = raw.strip_suffix(b"\n").unwrap_or(raw);
    raw.strip_suffix(b"\r").unwrap_or(raw)
}

/// Whether each quote of a record is closed, which begins with its first field.
pub fn is_closed(raw: &[u8], delimiter: u8) -> bool
    ensures { (closed : Bool) → (fields : List Field) → delimiter ≢ 34
        → SaysFields delimiter closed raw.now fields → result ≡ closed }
{
    let mut place = RecordPlace::Start;
    for byte in raw {
        place = behind(place, *byte, delimiter);
    }
    place != RecordPlace::Quoted
}

/// Whether a line ends in bytes which begin with a field, outside quotes.
pub(crate) fn has_line_end(bytes: &[u8], delimiter: u8) -> bool
    ensures { MatchBool result (HasLineEnd delimiter bytes.now) (¬ HasLineEnd delimiter bytes.now) }
{
    let mut place = RecordPlace::Start;
    for byte in bytes {
        if place != RecordPlace::Quoted && ends_line(*byte) {
            return true;
        }
        place = behind(place, *byte, delimiter);
    }
    false
}

/// Tells of each field of a record whether it stands in quotes; the record begins with its first
/// field. Refused only for want of memory.
fn mark_quoted(raw: &[u8], delimiter: u8, marks: &mut Vec<bool>) -> Result<(), AllocError>
    ensures { (closed : Bool) → (fields : List Field) → delimiter ≢ 34
        → SaysFields delimiter closed raw.now fields
        → OnOk result (marks.new.items ≡ map is_quoted fields) }
{
    marks.clear();
    let mut place = RecordPlace::Start;
    for byte in raw {
        if place == RecordPlace::Start {
            marks.push(*byte == b'"')?;
        }
        place = behind(place, *byte, delimiter);
    }
    if place == RecordPlace::Start {
        marks.push(false)?;
    }
    Ok(())
}

/// Which fields of a line stand in quotes: found out where it is asked for the first time.
#[derive(Drop)]
pub struct Quotes {
    marks: Vec<bool>,
    is_marked: bool,
}

impl Quotes {
    /// Nothing is known yet; takes no memory.
    pub fn new(alloc: Global) -> Quotes
        ensures { result.is_marked ≡ false }
    {
        Quotes {
            marks: Vec::new(alloc),
            is_marked: false,
        }
    }

    /// Another line is asked for from here on.
    pub fn forget(&mut self)
        ensures { self.new.is_marked ≡ false }
    {
        self.is_marked = false;
    }

    /// Marks the fields of a line.
    fn mark(&mut self, line: &[u8], delimiter: u8) -> Result<(), AllocError>
        ensures marks { OnOk result
            (AreMarks delimiter (without_line_end line.now) self.new.marks.items) }
        ensures kept { self.new.is_marked ≡ self.old.is_marked }
    {
        let raw = without_line_end(line);
        if !raw.contains(&b'"') {
            self.marks.clear();
            return Ok(());
        }
        mark_quoted(raw, delimiter, &mut self.marks)
    }

    /// Whether a field of a line stands in quotes. Refused only for want of memory.
    #[inline(never)]
    pub fn is_quoted(
        &mut self,
        line: &[u8],
        delimiter: u8,
        index: usize,
    ) -> Result<bool, AllocError>
        requires { Knows delimiter line.now self.old }
        ensures knows { Knows delimiter line.now self.new }
        ensures quoted { (closed : Bool) → (said : List Field) → delimiter ≢ 34
            → SaysFields delimiter closed (without_line_end line.now) said
            → IfOk result (λ is_quoted. is_quoted ≡ quoted_at said index) }
    {
        if !self.is_marked {
            self.mark(line, delimiter)?;
            self.is_marked = true;
        }
        Ok(self.marks.get(index).copied().unwrap_or(false))
    }
}
