//! How blank lines are read that are rows.
ghost use Rattle.std.specs.Prelude.{◌≡◌};
ghost use Rattle.rowfn_csv.specs.Reads.{ReadsOne, KeepsFormat, behind_comments};

use super::{FoundRecord, RecordError, Records, Span};
use crate::raw::after_comments;
use csv::ByteRecord;
use std::alloc::Global;
use std::io::Read;
use std::mem;

/// What was read behind lines without a byte which are rows, and are given before it.
#[derive(Drop)]
pub(super) struct Ahead {
    record: ByteRecord,
    /// Where it lies; an empty span at the end of the input where there is no record.
    span: Span,
    /// Whether there is a record; else the input ends there.
    is_record: bool,
    is_outgrown: bool,
    /// Whether it is yet to be given.
    is_held: bool,
}

impl Ahead {
    /// Nothing was read; takes no memory.
    pub(super) fn new(alloc: Global) -> Ahead {
        Ahead {
            record: ByteRecord::new(alloc),
            span: Span { start: 0, end: 0 },
            is_record: false,
            is_outgrown: false,
            is_held: false,
        }
    }
}

impl<R: Read> Records<'_, R> {
    /// Holds what was read behind lines without a byte, which stand behind a record.
    fn hold(&mut self, given: Span, found: FoundRecord, place: u64)
        ensures kept { KeepsFormat self.old self.new }
        ensures error { self.new.error ≡ self.old.error }
    {
        mem::swap(&mut self.last, &mut self.ahead.record);
        self.ahead.span = match found {
            FoundRecord::Record => self.span,
            FoundRecord::End | FoundRecord::Failed => Span {
                start: place,
                end: place,
            },
        };
        self.ahead.is_record = found == FoundRecord::Record;
        self.ahead.is_outgrown = self.is_outgrown;
        self.ahead.is_held = true;
        self.span = given;
        self.is_outgrown = false;
    }

    /// Gives what is held behind lines without a byte.
    fn give_held(&mut self) -> FoundRecord
        ensures { ReadsOne self.old self.new result }
    {
        mem::swap(&mut self.last, &mut self.ahead.record);
        self.span = self.ahead.span;
        self.is_outgrown = self.ahead.is_outgrown;
        self.ahead.is_held = false;
        if self.ahead.is_record {
            FoundRecord::Record
        } else {
            FoundRecord::End
        }
    }

    /// The place after a byte order mark and the comments at a place.
    fn blank_from(&self, place: u64) -> u64
        ensures { result ≡ behind_comments self.now place }
    {
        let tee = self.reader.get_ref();
        let place = tee.after_mark(place);
        let bytes = tee.from(place);
        let rest = after_comments(bytes, self.format.comment);
        place.saturating_add(bytes.len().saturating_sub(rest.len()) as u64)
    }

    /// Gives the next line without a byte, or else the record behind such lines.
    #[inline(always)]
    pub(super) fn read_with_blank_lines(&mut self) -> FoundRecord
        ensures { ReadsOne self.old self.new result }
    {
        if !self.ahead.is_held {
            let given = self.span;
            let found = self.read_record();
            let place = match found {
                FoundRecord::Record => self.span.start,
                FoundRecord::End => self.reader.position().byte,
                FoundRecord::Failed => return FoundRecord::Failed,
            };
            if place <= self.blank_from(given.end) {
                return found;
            }
            self.hold(given, found, place);
        }
        let place = self.blank_from(self.span.end);
        if place < self.ahead.span.start {
            return self.give_blank(place);
        }
        self.give_held()
    }

    /// Gives the line without a byte that lies there, as a record of one empty field.
    fn give_blank(&mut self, place: u64) -> FoundRecord
        ensures { ReadsOne self.old self.new result }
    {
        let tee = self.reader.get_ref();
        let next = place.saturating_add(1);
        let is_pair = tee.byte_at(place) == Some(b'\r') && tee.byte_at(next) == Some(b'\n');
        self.span = Span {
            start: place,
            end: next.saturating_add(u64::from(is_pair)),
        };
        self.last.clear();
        if self.last.push_field(&[]).is_err() {
            self.error = Some(RecordError::OutOfMemory);
            return FoundRecord::Failed;
        }
        FoundRecord::Record
    }
}
