//! How a stream goes on behind rows that are refused: each is told, and left out.
ghost use Rattle.std.specs.Prelude.{◌≡◌, ◌≤◌, ◌+◌, OnOk, IfSome, map, length, option_map, false};
ghost use Rattle.rowfn_batches.specs.Fields.{field_in};
ghost use Rattle.rowfn_batches.specs.Passing.{IsRefilled};
ghost use Rattle.rowfn_batches.specs.ReadingBack.{ReadsBack};
ghost use Rattle.rowfn_batches.specs.Skipping.{IsPlace, PassesTold, fields_asked, condition_width};
ghost use Rattle.rowfn_batches.specs.Skipping.{AreLoaded, PassesPart, PassesAll, PassesRest};
ghost use Rattle.rowfn_batches.specs.Skipping.{PassesBatch, PassesMisshapen, PassesBehind};
ghost use Rattle.rowfn_batches.specs.Skipping.{PassesNextTold, FlowsOn};

use super::{Stream, Summary};
use crate::errors::StreamError;
use crate::parts::{fields_from, next_count, next_row, refill};
use crate::refusals::Refusals;
use crate::request::Request;
use crate::settings::Settings;
use rowfn_csv::{Batch, Span};
use std::alloc::{AllocError, Global};
use std::io::{Read, Write};
use std::mem;

/// Where a row that is refused stands behind so many rows; nothing where no such row is, or none is
/// behind it that has a number of its own.
fn place_of(error: &StreamError, rows_before: u64) -> Option<usize>
    ensures { IfSome result (λ place. IsPlace rows_before place error.now) }
{
    let row = error.left_out()?;
    if row == u64::MAX {
        return None;
    }
    let place = row.checked_sub(rows_before)?.checked_sub(1)?;
    Some(place as usize)
}

impl<'a, R: Read + Drop> Stream<'a, R> {
    /// Passes the batch on: up to the first row that is refused, which is told. Answers where that
    /// row stands in the batch.
    fn pass_reporting<W: Write, E: Write>(
        &mut self,
        writer: &mut W,
        refusals: &mut Refusals<E>,
    ) -> Result<Option<usize>, StreamError>
        ensures { PassesTold self.old self.new (W.contents writer.old) (W.contents writer.new)
            refusals.old.count refusals.new.count result }
    {
        let rows_before = self.rows_before();
        let rows_read = self.summary.rows_read;
        let Some(error) = self.pass_up_to(None, writer)? else {
            return Ok(None);
        };
        let Some(place) = place_of(&error, rows_before) else {
            return Err(error);
        };
        refusals.tell(&error)?;
        self.summary.rows_read = rows_read.saturating_add(place as u64).saturating_add(1);
        self.report_rows();
        Ok(Some(place))
    }

    /// Takes the rows out of the batch, and those of the condition.
    fn take_rows(&mut self) -> (Batch, Batch)
        ensures refilled { IsRefilled self.old self.new }
        ensures rows { result.0 ≡ self.old.batch }
        ensures asked { result.1.fields ≡ fields_asked self.old.condition }
    {
        let none = Batch::new(self.alloc);
        let rows = mem::replace(&mut self.batch, none);
        let none = Batch::new(self.alloc);
        let asked = match &mut self.condition {
            Some(condition) => mem::replace(&mut condition.batch, none),
            None => none,
        };
        (rows, asked)
    }

    /// Puts rows into the batch, with the fields that the condition reads.
    fn load(
        &mut self,
        fields: &[Option<&[u8]>],
        asked: &[Option<&[u8]>],
        spans: &[Span],
    ) -> Result<(), AllocError>
        ensures refilled { IsRefilled self.old self.new }
        ensures loaded { OnOk result (AreLoaded (map field_in fields.now) (map field_in asked.now)
            spans.now self.new) }
    {
        refill(&mut self.batch, fields, spans)?;
        match &mut self.condition {
            Some(condition) => refill(&mut condition.batch, asked, spans),
            None => Ok(()),
        }
    }

    /// How many fields of a row the condition reads.
    fn condition_width(&self) -> usize
        ensures { result ≡ condition_width self.now.condition }
    {
        match &self.condition {
            Some(condition) => condition.layout.places.len(),
            None => 0,
        }
    }

    /// Passes on so many rows from one of them on; answers where the one stands among them that is
    /// refused, which is told.
    fn pass_part<W: Write, E: Write>(
        &mut self,
        fields: &[Option<&[u8]>],
        asked: &[Option<&[u8]>],
        spans: &[Span],
        part: (usize, usize),
        writer: &mut W,
        refusals: &mut Refusals<E>,
    ) -> Result<Option<usize>, StreamError>
        requires { part.1 + part.0 ≤ length spans.now }
        ensures { PassesPart (map field_in fields.now) (map field_in asked.now) spans.now part.0
            part.1 self.old self.new (W.contents writer.old)
            (W.contents writer.new) refusals.old.count refusals.new.count result }
    {
        let (first, count) = part;
        let width = self.layout.places.len();
        let fields = fields_from(fields, width, first, count);
        let asked = fields_from(asked, self.condition_width(), first, count);
        self.load(fields, asked, &spans[first..first + count])?;
        self.pass_reporting(writer, refusals)
    }

    /// Passes on rows from one of them on, part by part: a row that is refused is told, and one row
    /// is tried behind it, then two, then four. So no more than twice as many rows are tried as
    /// there are.
    fn pass_parts<W: Write, E: Write>(
        &mut self,
        fields: &[Option<&[u8]>],
        asked: &[Option<&[u8]>],
        spans: &[Span],
        first: usize,
        writer: &mut W,
        refusals: &mut Refusals<E>,
    ) -> Result<(), StreamError>
        ensures { PassesAll (map field_in fields.now) (map field_in asked.now) spans.now first
            self.old self.new (W.contents writer.old)
            (W.contents writer.new) refusals.old.count refusals.new.count result }
    {
        let mut next = first;
        let mut count = 1;
        'parts: while next < spans.len() {
            let tried = spans.len() - next;
            let tried = tried.min(count);
            let part = (next, tried);
            let refused = self.pass_part(fields, asked, spans, part, writer, refusals)?;
            next = next_row(spans.len(), next, tried, refused);
            count = next_count(count, refused);
        }
        Ok(())
    }

    /// Passes on the rows of the batch from one of them on.
    fn pass_rest<W: Write, E: Write>(
        &mut self,
        first: usize,
        writer: &mut W,
        refusals: &mut Refusals<E>,
    ) -> Result<(), StreamError>
        ensures { PassesRest first self.old self.new (W.contents writer.old)
            (W.contents writer.new) refusals.old.count refusals.new.count result }
    {
        let (rows, asked) = self.take_rows();
        let fields = rows.fields(self.alloc)?;
        let fields_option = asked.fields(self.alloc)?;
        self.pass_parts(
            &fields,
            &fields_option,
            rows.spans(),
            first,
            writer,
            refusals,
        )
    }

    /// Passes on the batch, but for the rows that are refused, which are told.
    fn pass_batch<W: Write, E: Write>(
        &mut self,
        writer: &mut W,
        refusals: &mut Refusals<E>,
    ) -> Result<(), StreamError>
        ensures { PassesBatch self.old self.new (W.contents writer.old)
            (W.contents writer.new) refusals.old.count refusals.new.count result }
    {
        match self.pass_reporting(writer, refusals)? {
            Some(place) => self.pass_rest(place.saturating_add(1), writer, refusals),
            None => Ok(()),
        }
    }

    /// Tells what stands behind a batch, where that is no row, and goes on behind it. Refused with
    /// what ends the stream there.
    fn pass_misshapen<E: Write>(
        &mut self,
        error: StreamError,
        refusals: &mut Refusals<E>,
    ) -> Result<(), StreamError>
        ensures { PassesMisshapen self.old self.new error refusals.old.count refusals.new.count
            result }
    {
        let Some(_row) = error.left_out() else {
            return Err(error);
        };
        refusals.tell(&error)?;
        self.summary.rows_read = self.summary.rows_read.saturating_add(1);
        self.report_rows();
        Ok(())
    }

    /// The same, where anything stands there.
    fn pass_after<E: Write>(
        &mut self,
        error: Option<StreamError>,
        refusals: &mut Refusals<E>,
    ) -> Result<(), StreamError>
        ensures { PassesBehind self.old self.new error refusals.old.count refusals.new.count
            result }
    {
        match error {
            Some(error) => self.pass_misshapen(error, refusals),
            None => Ok(()),
        }
    }

    /// Reads the next batch and passes it on, but for the rows that are refused, which are told;
    /// answers whether the input goes on behind it.
    fn pass_next_reporting<W: Write, E: Write>(
        &mut self,
        writer: &mut W,
        refusals: &mut Refusals<E>,
    ) -> Result<bool, StreamError>
        ensures { PassesNextTold self.old self.new (W.contents writer.old)
            (W.contents writer.new) refusals.old.count refusals.new.count result }
    {
        let filled = self.fill();
        self.pass_batch(writer, refusals)?;
        let goes_on = !filled.is_end();
        self.pass_after(filled.into_error(), refusals)?;
        refusals.flush()?;
        Ok(goes_on)
    }
}

/// Runs a stream, and goes on after each row that is refused, which is reported and skipped.
pub(super) fn run_past_refused<'a, R: Read + Drop, W: Write, E: Write>(
    alloc: Global,
    settings: &Settings<'a>,
    asked: &Request<'a>,
    condition: Option<&Request<'a>>,
    reader: R,
    writer: &mut W,
    refusals: &mut Refusals<E>,
) -> Result<Summary, StreamError>
    ensures flows { FlowsOn reader settings.now asked.now
        (option_map (λ c. c.now) condition.entry)
        (W.contents writer.old) (W.contents writer.new) refusals.old.count refusals.new.count
        result }
    ensures reads_back { OnOk result (settings.now.picks_rows ≡ false
        → ReadsBack settings.now asked.now.program.now.written.items) }
{
    let mut stream = Stream::start(alloc, settings, asked, condition, reader)?;
    stream.write(writer)?;
    'batches: for _turn in 0..u64::MAX {
        let goes_on = stream.pass_next_reporting(writer, refusals)?;
        if !goes_on {
            return Ok(stream.summary);
        }
    }
    Ok(stream.summary)
}
