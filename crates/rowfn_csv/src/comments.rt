//! Which bytes of the input belong to comments.
ghost use Rattle.std.specs.Prelude.{◌≡◌};
ghost use Rattle.rowfn_csv.specs.Comments.{goes_on_mark, mark_after, past_mark, text_after};
ghost use Rattle.rowfn_csv.specs.Comments.{line_after, is_comment, line_behind, blanked};
ghost use Rattle.rowfn_csv.specs.Comments.{BeginsLines, bytes_given, lines_after};

use crate::raw::{RecordPlace, behind, ends_line};

/// Where a byte of the input is.
#[derive(Clone, Copy)]
pub enum LinePlace {
    /// The first byte of the input, where a byte order mark may be.
    Input,
    /// After the first byte of such a mark.
    Mark1,
    /// After the second one.
    Mark2,
    /// At the start of a line.
    Start,
    /// In a comment.
    Comment,
    /// In a record.
    Record(RecordPlace),
}

/// Whether a byte order mark goes on with a byte.
fn goes_on_mark(line: LinePlace, byte: u8) -> bool
    ensures { result ≡ goes_on_mark line byte }
{
    match line {
        LinePlace::Input => byte == 0xEF,
        LinePlace::Mark1 => byte == 0xBB,
        LinePlace::Mark2 => byte == 0xBF,
        LinePlace::Start | LinePlace::Comment | LinePlace::Record(_) => false,
    }
}

/// Where the byte after one is with which a byte order mark goes on.
fn mark_after(line: LinePlace) -> LinePlace
    ensures { result ≡ mark_after line }
{
    match line {
        LinePlace::Input => LinePlace::Mark1,
        LinePlace::Mark1 => LinePlace::Mark2,
        LinePlace::Mark2 | LinePlace::Start | LinePlace::Comment | LinePlace::Record(_) =>
            LinePlace::Start,
    }
}

/// Where a byte is with which no byte order mark goes on.
fn past_mark(line: LinePlace) -> LinePlace
    ensures { result ≡ past_mark line }
{
    match line {
        LinePlace::Input => LinePlace::Start,
        LinePlace::Mark1 | LinePlace::Mark2 => LinePlace::Record(RecordPlace::Plain),
        LinePlace::Start | LinePlace::Comment | LinePlace::Record(_) => line,
    }
}

/// Where the byte after one is that belongs to no byte order mark.
fn text_after(line: LinePlace, byte: u8, delimiter: u8, comment: Option<u8>) -> LinePlace
    ensures { result ≡ text_after delimiter comment line byte }
{
    match line {
        LinePlace::Record(RecordPlace::Quoted) => LinePlace::Record(behind(
            RecordPlace::Quoted,
            byte,
            delimiter,
        )),
        _ if ends_line(byte) => LinePlace::Start,
        LinePlace::Record(place) => LinePlace::Record(behind(place, byte, delimiter)),
        LinePlace::Comment => LinePlace::Comment,
        _ if comment == Some(byte) => LinePlace::Comment,
        _ => LinePlace::Record(behind(RecordPlace::Start, byte, delimiter)),
    }
}

/// Where the byte after this one is.
pub(crate) fn line_after(line: LinePlace, byte: u8, delimiter: u8, comment: Option<u8>) -> LinePlace
    ensures { result ≡ line_after delimiter comment line byte }
{
    if goes_on_mark(line, byte) {
        mark_after(line)
    } else {
        text_after(past_mark(line), byte, delimiter, comment)
    }
}

/// Whether the byte before this place belongs to a comment.
fn is_comment(line: LinePlace) -> bool
    ensures { result ≡ is_comment line }
{
    matches!(line, LinePlace::Comment)
}

/// Which lines of the input are comments, and where its next byte is.
#[derive(Clone, Copy)]
pub struct Lines {
    pub(crate) delimiter: u8,
    pub(crate) comment: Option<u8>,
    line: LinePlace,
}

/// Writes a line feed over each byte of a comment. Returns where the byte after these is.
fn blank_comments(
    bytes: &mut [u8],
    line: LinePlace,
    delimiter: u8,
    comment: Option<u8>,
) -> LinePlace
    ensures line { result ≡ line_behind delimiter comment line bytes.old }
    ensures bytes { bytes.new ≡ blanked delimiter comment line bytes.old }
{
    let mut line = line;
    for index in 0..bytes.len() {
        line = line_after(line, bytes[index], delimiter, comment);
        if is_comment(line) {
            bytes[index] = b'\n';
        }
    }
    line
}

impl Lines {
    /// The lines of an input whose first byte comes next.
    pub(crate) fn new(delimiter: u8, comment: Option<u8>) -> Lines
        ensures { BeginsLines delimiter comment result }
    {
        Lines {
            delimiter,
            comment,
            line: LinePlace::Input,
        }
    }

    /// Writes a line feed over each byte of a comment among the next bytes, so that a reader skips
    /// comments as blank lines.
    pub(crate) fn blank(&mut self, bytes: &mut [u8])
        ensures bytes { bytes.new ≡ bytes_given self.old bytes.old }
        ensures lines { self.new ≡ lines_after self.old bytes.old }
    {
        let Some(comment) = self.comment else {
            return;
        };
        self.line = blank_comments(bytes, self.line, self.delimiter, Some(comment));
    }
}
