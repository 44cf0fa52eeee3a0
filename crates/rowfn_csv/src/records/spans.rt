//! Where the bytes of a record are in the input.
ghost use Rattle.std.specs.Prelude.{◌≡◌, ◌&&◌, not, false};
ghost use Rattle.rowfn_csv.specs.Formats.{is_line_end, begins_comment, is_comment_line};
ghost use Rattle.rowfn_csv.specs.KeptLines.{line_of};

use super::{Records, Span};
use crate::raw::{ends_line, from_record, without_mark};
use std::io::Read;

impl<R: Read> Records<'_, R> {
    /// Whether a record may begin with a byte at the start of a line.
    #[inline(always)]
    fn begins_record(&self, byte: u8) -> bool
        ensures { result ≡ (not (is_line_end byte)
            && not (begins_comment self.now.format.comment byte)) }
    {
        !ends_line(byte) && !self.format.begins_comment(byte)
    }

    /// The span of a record that was read between two places: after a byte order mark, the ends of
    /// lines and the comments before it, and with a line feed after its carriage return.
    #[inline(always)]
    pub(super) fn span_of(&self, start: u64, end: u64) -> Span
        ensures { is_comment_line self.now.format.comment (line_of self.now result) ≡ false }
    {
        let span = Span { start, end };
        match self.bytes(span) {
            // nearly all records
            [first, .., b'\n'] if start != 0 && self.begins_record(*first) => span,
            bytes => self.trimmed(bytes, span),
        }
    }

    /// The same of a record whose bytes are those.
    #[inline(never)]
    fn trimmed(&self, bytes: &[u8], span: Span) -> Span
        requires { bytes.now ≡ line_of self.now span }
        ensures { is_comment_line self.now.format.comment (line_of self.now result) ≡ false }
    {
        let record = from_record(without_mark(bytes, span.start), self.format.comment);
        let start = span.end.saturating_sub(record.len() as u64);
        if let [.., b'\r'] = record {
            if self.reader.get_ref().byte_at(span.end) == Some(b'\n') {
                let end = span.end.saturating_add(1);
                return Span { start, end };
            }
        }
        Span {
            start,
            end: span.end,
        }
    }
}
