//! What is written: answers as fields of CSV, or rows of the input as they stand.
ghost use Rattle.std.specs.Prelude.{◌≡◌, ◌<◌, ◌≤◌, ◌+◌, ◌∷◌, [], OnOk, IfOk, length, map};
ghost use Rattle.std.specs.Prelude.{if◌then◌else◌, ◌++◌, option_map, slice_index_or, IfSome};
ghost use Rattle.vortex_columns.specs.ColumnView.{row};
ghost use Rattle.vortex_interface.specs.CallTexts.{joined, separator_before};
ghost use Rattle.rowfn_csv.specs.Fields.{text_field};
ghost use Rattle.rowfn_csv.specs.KeptLines.{line_of};
ghost use Rattle.rowfn_batches.specs.Names.{names_of};
ghost use Rattle.rowfn_batches.specs.Outputs.{names_line};
ghost use Rattle.rowfn_batches.specs.Outputs.{Adds, name_field, value_field, row_fields, row_line};
ghost use Rattle.rowfn_batches.specs.Outputs.{HaveRows, row_lines, is_true, picked_texts};
ghost use Rattle.rowfn_batches.specs.Outputs.{picked_count, appended_lines};
ghost use Rattle.rowfn_batches.specs.Truths.{AreTruths};
ghost use Rattle.rowfn_csv.specs.Records.{without_line_end};

use crate::answering::row_among;
use crate::printing::push_field;
use crate::truths::{
    Truths, WrittenTruths, push_line_end, push_truth_in, push_truth_line, truths_of,
};
use rowfn_csv::{Format, Records, Span, quote_from, without_line_end};
use std::alloc::{AllocError, Global};
use std::io::Read;
use vortex_columns::{Cell, Column};
use vortex_program::Answer;

/// The only answer, where it has truth values and is no constant.
fn only_truths(answers: &[Column]) -> Option<WrittenTruths<'_>>
    ensures { IfSome result (λ rows. answers.now ≡ rows ∷ []) }
{
    match answers {
        [answer] => WrittenTruths::of(answer),
        _ => None,
    }
}

/// What is to be written next. Its buffers serve from batch to batch.
#[derive(Drop)]
pub struct Output<'a> {
    format: Format<'a>,
    bytes: Vec<u8>,
    spare: Vec<u8>,
}

impl<'a> Output<'a> {
    /// Nothing to write; takes no memory.
    pub fn new(alloc: Global, format: Format<'a>) -> Output<'a>
        ensures { (result.bytes.items ≡ []) × (result.format ≡ format.entry) }
    {
        Output {
            format,
            bytes: Vec::new(alloc),
            spare: Vec::new(alloc),
        }
    }

    /// Clears what was written, and keeps the buffers.
    pub fn clear(&mut self)
        ensures { (self.new.bytes.items ≡ []) × (self.new.format ≡ self.old.format) }
    {
        self.bytes.clear();
    }

    /// What is to be written.
    pub fn bytes(&self) -> &[u8]
        ensures { result.now ≡ self.now.bytes.items }
    {
        self.bytes.as_slice()
    }

    /// Adds bytes as they stand. Refused only for want of memory.
    pub fn push_bytes(&mut self, bytes: &[u8]) -> Result<(), AllocError>
        ensures { OnOk result (Adds self.old self.new bytes.now) }
    {
        self.bytes.extend_from_slice(bytes)
    }

    /// Adds a delimiter before each field but the first.
    #[inline(always)]
    fn begin_field(&mut self, index: usize) -> Result<(), AllocError>
        ensures { OnOk result (Adds self.old self.new
            (separator_before (self.old.format.output_delimiter ∷ []) index)) }
    {
        if index != 0 {
            self.bytes.push(self.format.output_delimiter)?;
        }
        Ok(())
    }

    /// Adds a text as a field, in quotes where it needs them. Refused only for want of memory.
    fn push_text(&mut self, text: &str) -> Result<(), AllocError>
        ensures { OnOk result (Adds self.old self.new
            (text_field self.old.format text.now)) }
    {
        let start = self.bytes.len();
        self.bytes.extend_from_slice(text.as_bytes())?;
        quote_from(&mut self.bytes, start, &self.format, &mut self.spare)
    }

    /// Adds a name of the header. Refused only for want of memory.
    fn push_name(&mut self, index: usize, name: &str) -> Result<(), AllocError>
        ensures { OnOk result (Adds self.old self.new (name_field self.old.format index name.now)) }
    {
        self.begin_field(index)?;
        self.push_text(name)
    }

    /// Adds the names of answers as a line. Fails only where memory runs out.
    pub fn push_names(&mut self, answers: &[Answer]) -> Result<(), AllocError>
        ensures { OnOk result (Adds self.old self.new (names_line self.old.format (names_of answers.now))) }
    {
        for k in 0..answers.len() {
            self.push_name(k, answers[k].name.as_str())?;
        }
        self.end_line()
    }

    /// Adds the value of a row, which is no truth value, as a field. Refused only for want of memory.
    fn push_other(&mut self, column: &Column, place: usize) -> Result<(), AllocError>
        requires { place < length column.now.rows }
        ensures { OnOk result (Adds self.old self.new
            (value_field self.old.format
            (row column.now.rows place))) }
    {
        let start = self.bytes.len();
        if push_field(&mut self.bytes, column, place)? {
            quote_from(&mut self.bytes, start, &self.format, &mut self.spare)?;
        } else {
            self.bytes.extend_from_slice(self.format.null)?;
        }
        Ok(())
    }

    /// Adds the value of a row as a field. Refused only for want of memory.
    #[inline(always)]
    fn push_value(
        &mut self,
        column: &Column,
        place: usize,
        truths: Truths<'a>,
    ) -> Result<(), AllocError>
        requires place { place < length column.now.rows }
        requires truths { AreTruths self.old.format truths }
        ensures { OnOk result (Adds self.old self.new
            (value_field self.old.format
            (row column.now.rows place))) }
    {
        let Some(rows) = WrittenTruths::of(column) else {
            return self.push_other(column, place);
        };
        push_truth_in(&mut self.bytes, &rows, place, truths, &self.format)?;
        Ok(())
    }

    /// Ends a line. Refused only for want of memory.
    #[inline(always)]
    pub fn end_line(&mut self) -> Result<(), AllocError>
        ensures { OnOk result (Adds self.old self.new (10 ∷ [])) }
    {
        push_line_end(&mut self.bytes)
    }

    /// Adds the values of a row as fields. Refused only for want of memory.
    #[inline(always)]
    fn push_values(
        &mut self,
        answers: &[Column],
        place: usize,
        truths: Truths<'a>,
    ) -> Result<(), AllocError>
        requires rows { HaveRows (place + 1) answers.now }
        requires truths { AreTruths self.old.format truths }
        ensures { OnOk result (Adds self.old self.new
            (joined (self.old.format.output_delimiter ∷ []) (row_fields self.old.format answers.now place))) }
    {
        for k in 0..answers.len() {
            self.begin_field(k)?;
            self.push_value(&answers[k], place, truths)?;
        }
        Ok(())
    }

    /// Adds a row of the answers as a line. Refused only for want of memory.
    #[inline(always)]
    fn push_row(
        &mut self,
        answers: &[Column],
        place: usize,
        truths: Truths<'a>,
    ) -> Result<(), AllocError>
        requires rows { HaveRows (place + 1) answers.now }
        requires truths { AreTruths self.old.format truths }
        ensures { OnOk result (Adds self.old self.new
            (row_line self.old.format answers.now place)) }
    {
        self.push_values(answers, place, truths)?;
        self.end_line()
    }

    /// Adds the first rows of truth values, a line each. Refused only for want of memory.
    fn push_truths(
        &mut self,
        rows: &WrittenTruths<'_>,
        row_count: usize,
        truths: Truths<'a>,
    ) -> Result<(), AllocError>
        requires rows { row_count ≤ length rows.now.rows }
        requires truths { AreTruths self.old.format truths }
        ensures { OnOk result (Adds self.old self.new (row_lines self.old.format (rows.now ∷ []) row_count)) }
    {
        for row in 0..row_count {
            push_truth_line(&mut self.bytes, rows, row, truths, &self.format)?;
        }
        Ok(())
    }

    /// Adds the first rows of the answers, a line each. Refused only for want of memory.
    pub fn push_rows(&mut self, answers: &[Column], row_count: usize) -> Result<(), AllocError>
        requires { HaveRows row_count answers.now }
        ensures { OnOk result (Adds self.old self.new
            (row_lines self.old.format answers.now row_count)) }
    {
        let truths = truths_of(&self.format);
        if let Some(rows) = only_truths(answers) {
            return self.push_truths(&rows, row_count, truths);
        }
        for row in 0..row_count {
            self.push_row(answers, row, truths)?;
        }
        Ok(())
    }

    /// Adds a delimiter. Fails only where memory runs out.
    pub fn push_delimiter(&mut self) -> Result<(), AllocError>
        ensures { OnOk result (Adds self.old self.new (self.old.format.output_delimiter ∷ [])) }
    {
        self.bytes.push(self.format.output_delimiter)?;
        Ok(())
    }

    /// Adds a line without its end, and behind it a row of the answers. Refused only for want of
    /// memory.
    fn push_after(
        &mut self,
        line: &[u8],
        answers: &[Column],
        place: usize,
        truths: Truths<'a>,
    ) -> Result<(), AllocError>
        requires rows { HaveRows (place + 1) answers.now }
        requires truths { AreTruths self.old.format truths }
        ensures { OnOk result (Adds self.old self.new (without_line_end line.now
            ++ (self.old.format.output_delimiter
            ∷ row_line self.old.format answers.now place))) }
    {
        self.push_bytes(without_line_end(line))?;
        self.push_delimiter()?;
        self.push_row(answers, place, truths)
    }

    /// Adds the first rows of the answers, each behind its row of the input, a line each; `rows`
    /// says which those are, if not all. Refused only for want of memory.
    pub fn push_appended<R: Read>(
        &mut self,
        records: &Records<'_, R>,
        spans: &[Span],
        rows: Option<&[usize]>,
        answers: &[Column],
        row_count: usize,
    ) -> Result<(), AllocError>
        requires { HaveRows row_count answers.now }
        ensures { OnOk result (Adds self.old self.new (appended_lines self.old.format (map (line_of records.now) spans.now)
            (option_map (λ r. r.now) rows.entry) answers.now row_count)) }
    {
        let truths = truths_of(&self.format);
        for place in 0..row_count {
            let line = line_at(records, spans, row_among(rows, place));
            self.push_after(line, answers, place, truths)?;
        }
        Ok(())
    }

    /// Adds the line of a row where a column is true in it, and answers whether it is. Refused only
    /// for want of memory.
    fn push_if_true(&mut self, top: &Column, i: usize, line: &[u8]) -> Result<bool, AllocError>
        requires { i < length top.now.rows }
        ensures { IfOk result (λ picked. (picked ≡ is_true (row top.now.rows i))
            × Adds self.old self.new (if is_true (row top.now.rows i) then line.now else [])) }
    {
        if !is_true(top, i) {
            return Ok(false);
        }
        self.push_bytes(line)?;
        Ok(true)
    }

    /// Adds the lines of those rows in which a column is true, and answers how many those are; each
    /// of `spans` lies in a row of the column. Refused only for want of memory.
    pub fn push_picked<R: Read>(
        &mut self,
        top: &Column,
        records: &Records<'_, R>,
        spans: &[Span],
    ) -> Result<u64, AllocError>
        requires { length spans.now ≤ length top.now.rows }
        ensures lines { OnOk result (Adds self.old self.new
            (picked_texts top.now (map (line_of records.now) spans.now))) }
        ensures count { IfOk result (λ count. count ≡ picked_count top.now (length spans.now)) }
    {
        let mut count = 0;
        for (i, span) in spans.iter().enumerate() {
            count += u64::from(self.push_if_true(top, i, records.bytes(*span))?);
        }
        Ok(count)
    }
}

/// The bytes of a row that is still kept; none where there is no such row.
fn line_at<'r, R: Read>(records: &'r Records<'_, R>, spans: &[Span], row: usize) -> &'r [u8]
    ensures { result.now ≡ slice_index_or (map (line_of records.now) spans.now) row [] }
{
    match spans.get(row) {
        Some(span) => records.bytes(*span),
        None => &[],
    }
}

/// Whether a column is true in a row; it is not where it is null there.
pub fn is_true(column: &Column, i: usize) -> bool
    requires { i < length column.now.rows }
    ensures { result ≡ is_true (row column.now.rows i) }
{
    match column.cell(i) {
        Cell::Bool(true) => true,
        _ => false,
    }
}
