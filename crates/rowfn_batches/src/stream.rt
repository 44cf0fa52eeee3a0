//! The stream: batches of rows, answered and written one behind the other.
ghost use Rattle.std.specs.Prelude.{◌≡◌, OnOk, false, option_map};
ghost use Rattle.rowfn_batches.specs.Passing.{PassesNext, Flows};
ghost use Rattle.rowfn_batches.specs.ReadingBack.{ReadsBack};
ghost use Rattle.rowfn_batches.specs.Skipping.{Runs};

mod filling;
mod passing;
mod skipping;
mod starting;
mod writing;

use crate::errors::StreamError;
use crate::filter::Condition;
use crate::header::Layout;
use crate::output::Output;
use crate::refusals::RefusedRows;
use crate::request::Request;
use crate::settings::Settings;
use rowfn_csv::{Batch, Records};
use skipping::run_past_refused;
use std::alloc::Global;
use std::io::{Read, Write};

/// How many rows a stream read and wrote, headers aside.
#[derive(Clone, Copy, Debug, PartialEq, Eq)]
pub struct Summary {
    pub rows_read: u64,
    pub rows_written: u64,
}

/// A stream between two batches.
#[derive(Drop)]
struct Stream<'a, R> {
    alloc: Global,
    settings: Settings<'a>,
    asked: Request<'a>,
    condition: Option<Condition<'a>>,
    records: Records<'a, R>,
    layout: Layout,
    /// How many fields a row has, once that is known.
    width: Option<usize>,
    batch: Batch,
    output: Output<'a>,
    summary: Summary,
}

impl<'a, R: Read + Drop> Stream<'a, R> {
    /// Reads the next batch and passes it on; answers whether the input goes on behind it.
    fn pass_next<W: Write>(&mut self, writer: &mut W) -> Result<bool, StreamError>
        ensures { PassesNext self.old self.new (W.contents writer.old) (W.contents writer.new)
            result }
    {
        let filled = self.fill();
        let goes_on = filled.goes_on();
        self.pass(filled.into_error(), writer)?;
        Ok(goes_on)
    }
}

/// Runs a stream up to the first row that is refused, which ends it.
fn run_until_refused<'a, R: Read + Drop, W: Write>(
    alloc: Global,
    settings: &Settings<'a>,
    asked: &Request<'a>,
    condition: Option<&Request<'a>>,
    reader: R,
    writer: &mut W,
) -> Result<Summary, StreamError>
    ensures flows { Flows reader settings.now asked.now
        (option_map (λ c. c.now) condition.entry) (W.contents writer.old) (W.contents writer.new)
        result }
    ensures reads_back { OnOk result (settings.now.picks_rows ≡ false
        → ReadsBack settings.now asked.now.program.now.written.items) }
{
    let mut stream = Stream::start(alloc, settings, asked, condition, reader)?;
    stream.write(writer)?;
    'batches: for _turn in 0..u64::MAX {
        let goes_on = stream.pass_next(writer)?;
        if !goes_on {
            return Ok(stream.summary);
        }
    }
    Ok(stream.summary)
}

/// Runs a stream: reads rows as CSV, a batch at a time, and writes what a program answers in them, or
/// in those of them in which a condition is true, which is one answer over columns of its own; or, as
/// the settings say, the rows in which the program's only answer is true, without a condition. Returns
/// how many rows were read and written.
///
/// Fails before anything is written where the answers would not read back: where two have one name,
/// and where the only one may be null, and its empty line would be skipped; and where the header of
/// the input does not have the columns. Fields of the header that no column names are accepted.
///
/// A row is refused that is no row, with a field that does not fit, or in which an answer faults. The
/// rows before it are answered and written, whatever the batches; then it ends the stream, with its
/// error. Or it is reported and skipped, as `refused` says, and what is written is what would be
/// written of the other rows; the summary counts it as read. A field that is too long ends the stream
/// all the same, and so does an error that is no row's. No more than three times as many rows are
/// tried as are read. Memory holds one batch, and the longest row.
pub fn run<'a, R: Read + Drop, W: Write, E: Write>(
    alloc: Global,
    settings: &Settings<'a>,
    asked: &Request<'a>,
    condition: Option<&Request<'a>>,
    reader: R,
    writer: &mut W,
    refused: &mut RefusedRows<E>,
) -> Result<Summary, StreamError>
    ensures runs { Runs reader settings.now asked.now (option_map (λ c. c.now) condition.entry)
        (W.contents writer.old) (W.contents writer.new) refused.old refused.new result }
    ensures reads_back { OnOk result (settings.now.picks_rows ≡ false
        → ReadsBack settings.now asked.now.program.now.written.items) }
{
    match refused {
        RefusedRows::End => run_until_refused(alloc, settings, asked, condition, reader, writer),
        RefusedRows::Skip(refusals) => {
            run_past_refused(alloc, settings, asked, condition, reader, writer, refusals)
        }
    }
}
