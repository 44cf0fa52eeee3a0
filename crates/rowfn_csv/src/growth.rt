//! How long the field is that is being read.

use crate::comments::{LinePlace, Lines, line_after};
use crate::raw::RecordPlace;

/// How far the record that is being read was gone over, and how long its last field is there.
#[derive(Clone, Copy)]
pub struct Growth {
    line: LinePlace,
    seen: u64,
    len: usize,
}

/// Whether a byte is one of its field's text: neither a delimiter, nor a quote that begins or ends
/// the field, nor the first of two quotes.
fn is_text(place: RecordPlace, byte: u8, delimiter: u8) -> bool {
    match place {
        RecordPlace::Quoted => byte != b'"',
        RecordPlace::Start => byte != delimiter && byte != b'"',
        RecordPlace::Plain | RecordPlace::Closed => byte != delimiter,
    }
}

/// Where a byte of a record is; at the start of a field where it is in none.
fn place_in(line: LinePlace) -> RecordPlace {
    match line {
        LinePlace::Record(place) => place,
        _ => RecordPlace::Start,
    }
}

impl Growth {
    /// Nothing is gone over of a record that begins at that place of the input.
    pub(crate) fn from(place: u64) -> Growth {
        Growth {
            line: LinePlace::Start,
            seen: place,
            len: 0,
        }
    }

    /// The place of the input up to which the record was gone over.
    pub(crate) fn seen(&self) -> u64 {
        self.seen
    }

    /// Goes over a byte: a field begins with a line and after a delimiter, and comments have none.
    fn pass(&mut self, byte: u8, lines: Lines) {
        self.seen = self.seen.saturating_add(1);
        let before = place_in(self.line);
        self.line = line_after(self.line, byte, lines.delimiter, lines.comment);
        if place_in(self.line) == RecordPlace::Start {
            self.len = 0;
        } else if is_text(before, byte, lines.delimiter) {
            self.len = self.len.saturating_add(1);
        }
    }

    /// Goes over bytes from an index on, up to the first with which a field is longer than a limit;
    /// answers whether there is one.
    pub(crate) fn outgrows(
        &mut self,
        bytes: &[u8],
        from: usize,
        lines: Lines,
        limit: usize,
    ) -> bool {
        let Some(bytes) = bytes.get(from..) else {
            return false;
        };
        for byte in bytes {
            self.pass(*byte, lines);
            if self.len > limit {
                return true;
            }
        }
        false
    }
}
