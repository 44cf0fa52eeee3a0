//! How a stream starts: with the header of the input, which says where columns are, and the header
//! of the output.
ghost use Rattle.std.specs.Prelude.{◌≡◌, ◌⊎◌, ◌++◌, ◌∷◌, [], ℕ, List, OnOk, MatchResult, true, false};
ghost use Rattle.std.specs.Prelude.{option_map, if◌then◌else◌};
ghost use Rattle.csv.specs.Records.{fields_of};
ghost use Rattle.vortex_types.specs.TypeOf.{struct_fields};
ghost use Rattle.rowfn_csv.specs.KeptLines.{line_of};
ghost use Rattle.rowfn_csv.specs.Records.{without_line_end};
ghost use Rattle.rowfn_batches.specs.declared.errors.StreamError.TheVariants as end;
ghost use Rattle.rowfn_batches.specs.Layouts.{LacksFrom, TellsTaken, AreApartFrom, IsNameTaken};
ghost use Rattle.rowfn_batches.specs.Layouts.{StandAt};
ghost use Rattle.rowfn_batches.specs.Outputs.{Adds};
ghost use Rattle.rowfn_batches.specs.ReadingBack.{ReadsBack};
ghost use Rattle.rowfn_batches.specs.Starts.{ReadsHeader, HasColumns, IsLaidOut};
ghost use Rattle.rowfn_batches.specs.Starts.{RefusesLayout, HasCondition};
ghost use Rattle.rowfn_batches.specs.Starts.{RefusesCondition, own_names, PushesHeader};
ghost use Rattle.rowfn_batches.specs.Starts.{RefusesNamesBeside, IsHeaded, DoesNotStart};

use super::{Stream, Summary};
use crate::errors::StreamError;
use crate::filter::Condition;
use crate::header::{Layout, declared_layout, find_from, named_layout, with_spelling};
use crate::output::Output;
use crate::reading_back::check_reading_back;
use crate::request::Request;
use crate::settings::Settings;
use rowfn_csv::{Batch, ByteRecord, FoundRecord, Records, without_line_end};
use std::alloc::{AllocError, Global};
use std::io::Read;
use vortex_program::Answer;

impl<'a, R: Read + Drop> Stream<'a, R> {
    /// Reads the header, where there is one, and pushes the header of the output.
    pub(super) fn start(
        alloc: Global,
        settings: &Settings<'a>,
        asked: &Request<'a>,
        condition: Option<&Request<'a>>,
        reader: R,
    ) -> Result<Stream<'a, R>, StreamError>
        ensures starts { MatchResult result
            (IsHeaded reader settings.now asked.now (option_map (λ c. c.now) condition.entry))
            (DoesNotStart reader settings.now asked.now
            (option_map (λ c. c.now) condition.entry)) }
        ensures reads_back { OnOk result (settings.now.picks_rows ≡ false
            → ReadsBack settings.now asked.now.program.now.written.items) }
    {
        check_reading_back(alloc, settings, asked.program)?;
        let mut records = Records::new(alloc, settings.format, settings.max_field, reader);
        let is_there = read_header(settings, &mut records)?;
        let layout = layout_of(alloc, settings, asked, records.record())?;
        let mut output = Output::new(alloc, settings.format);
        let answers = &asked.program.written;
        push_header(alloc, settings, is_there, answers, &records, &mut output)?;
        let condition = condition_of(alloc, settings, condition, records.record())?;
        let width = layout.width;
        Ok(Stream {
            alloc,
            settings: *settings,
            asked: *asked,
            condition,
            records,
            layout,
            width,
            batch: Batch::new(alloc),
            output,
            summary: Summary {
                rows_read: 0,
                rows_written: 0,
            },
        })
    }
}

/// Reads the header, where the input has one. Returns whether there is a record. Fails where it
/// cannot be read, where a field is too long, and where its last quote is not closed.
fn read_header<R: Read>(
    settings: &Settings<'_>,
    records: &mut Records<'_, R>,
) -> Result<bool, StreamError>
    ensures { ReadsHeader settings.now records.old records.new result }
{
    if !settings.header {
        return Ok(false);
    }
    match records.read_record() {
        FoundRecord::Record => {}
        FoundRecord::End => return Ok(false),
        FoundRecord::Failed => return Err(StreamError::from(records.take_error())),
    }
    if records.is_outgrown() {
        return Err(StreamError::HeaderTooLong(settings.max_field));
    }
    if records.is_open() {
        return Err(StreamError::OpenHeader);
    }
    Ok(true)
}

/// Where columns are: where the header says, or, where the input has none, in the order in which
/// they are declared.
fn columns_of(
    alloc: Global,
    settings: &Settings<'_>,
    asked: &Request<'_>,
    header: &ByteRecord,
) -> Result<Layout, StreamError>
    ensures { MatchResult result
        (HasColumns settings.now (fields_of header.now) asked.now)
        (RefusesLayout settings.now (fields_of header.now) asked.now) }
{
    let declared = &asked.program.scope;
    if settings.header {
        return named_layout(alloc, declared, asked.places, header);
    }
    Ok(declared_layout(alloc, declared, asked.places)?)
}

/// The same, with the columns whose truth values are read in any spelling. A header with further
/// fields, which no column names, is accepted, and they change nothing: the places of the columns are
/// the only ones at which their names are.
fn layout_of(
    alloc: Global,
    settings: &Settings<'_>,
    asked: &Request<'_>,
    header: &ByteRecord,
) -> Result<Layout, StreamError>
    ensures layout { MatchResult result
        (IsLaidOut settings.now (fields_of header.now) asked.now)
        (RefusesLayout settings.now (fields_of header.now) asked.now) }
    ensures further { (places : List ℕ) → settings.now.header ≡ true
        → StandAt (fields_of header.now) (struct_fields asked.now.program.now.scope)
        asked.now.places.now places
        → MatchResult result (λ layout. layout.places.items ≡ places)
        (λ e. e ≡ end.OutOfMemory) }
{
    let layout = columns_of(alloc, settings, asked, header)?;
    let declared = &asked.program.scope;
    Ok(with_spelling(alloc, declared, settings.format.any_truths, layout)?)
}

/// The condition, if there is one, and where its columns are.
fn condition_of<'a>(
    alloc: Global,
    settings: &Settings<'a>,
    condition: Option<&Request<'a>>,
    header: &ByteRecord,
) -> Result<Option<Condition<'a>>, StreamError>
    ensures { MatchResult result
        (HasCondition settings.now (fields_of header.now) (option_map (λ c. c.now) condition.entry))
        (RefusesCondition settings.now (fields_of header.now)
        (option_map (λ c. c.now) condition.entry)) }
{
    let Some(asked) = condition else {
        return Ok(None);
    };
    let layout = layout_of(alloc, settings, asked, header)?;
    Ok(Some(Condition {
        asked: *asked,
        layout,
        batch: Batch::new(alloc),
    }))
}

/// Fails where a name is that of a column of the input.
fn check_name(alloc: Global, name: &str, header: &ByteRecord) -> Result<(), StreamError>
    ensures { MatchResult result (λ _. LacksFrom (fields_of header.now) name.now 0)
        (TellsTaken (fields_of header.now) name.now) }
{
    match find_from(header, name, 0) {
        Some(_) => Err(StreamError::NameTaken(String::from_str(alloc, name)?)),
        None => Ok(()),
    }
}

/// Fails where an answer has the name of a column of the input.
fn check_taken(alloc: Global, answers: &[Answer], header: &ByteRecord) -> Result<(), StreamError>
    ensures { MatchResult result (λ _. AreApartFrom (fields_of header.now) answers.now)
        (IsNameTaken (fields_of header.now) answers.now) }
{
    for answer in answers {
        match check_name(alloc, answer.name.as_str(), header) {
            Ok(()) => {}
            Err(error) => return Err(error),
        }
    }
    Ok(())
}

/// Pushes the names of the input's fields as they are, and a delimiter, where the fields are written
/// too. Fails only where memory runs out.
fn push_own_names<'a, R: Read>(
    settings: &Settings<'a>,
    records: &Records<'a, R>,
    output: &mut Output<'a>,
) -> Result<(), AllocError>
    ensures { OnOk result (Adds output.old output.new
        (own_names settings.now records.now output.old.format.output_delimiter)) }
{
    if !settings.appends {
        return Ok(());
    }
    output.push_bytes(without_line_end(records.bytes(records.span())))?;
    output.push_delimiter()
}

/// Pushes the header of the input as it is, where there is one. Fails only where memory runs out.
fn push_line<'a, R: Read>(
    is_there: bool,
    records: &Records<'a, R>,
    output: &mut Output<'a>,
) -> Result<(), AllocError>
    ensures { OnOk result (Adds output.old output.new
        (if is_there then line_of records.now records.now.span else [])) }
{
    if !is_there {
        return Ok(());
    }
    output.push_bytes(records.bytes(records.span()))
}

/// Fails where the input's fields are written too, and one of them has the name of an answer.
fn check_beside<R: Read>(
    alloc: Global,
    settings: &Settings<'_>,
    answers: &[Answer],
    records: &Records<'_, R>,
) -> Result<(), StreamError>
    ensures { MatchResult result
        (λ _. settings.now.appends ≡ true
        → AreApartFrom (fields_of records.now.last) answers.now)
        (λ e. (settings.now.appends ≡ true)
        × IsNameTaken (fields_of records.now.last) answers.now e) }
{
    if !settings.appends {
        return Ok(());
    }
    check_taken(alloc, answers, records.record())
}

/// Pushes the header of the output, where it has one: that of the input as it is, where rows are
/// picked; else the names of the answers, after those of the input's fields where these are written
/// too.
fn push_header<'a, R: Read>(
    alloc: Global,
    settings: &Settings<'a>,
    is_there: bool,
    answers: &[Answer],
    records: &Records<'a, R>,
    output: &mut Output<'a>,
) -> Result<(), StreamError>
    ensures { MatchResult result
        (λ _. PushesHeader settings.now is_there records.now answers.now output.old output.new)
        (RefusesNamesBeside settings.now (fields_of records.now.last) answers.now) }
{
    if !settings.header {
        return Ok(());
    }
    if settings.picks_rows {
        push_line(is_there, records, output)?;
        return Ok(());
    }
    check_beside(alloc, settings, answers, records)?;
    push_own_names(settings, records, output)?;
    output.push_names(answers)?;
    Ok(())
}
