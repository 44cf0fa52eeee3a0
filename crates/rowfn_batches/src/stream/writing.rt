//! What a stream writes of a batch.
ghost use Rattle.std.specs.Prelude.{◌≡◌, ◌≤◌, ◌-◌, IfErr, IfOk, OnOk, None, length, option_map};
ghost use Rattle.std.specs.Prelude.{slice_get};
ghost use Rattle.std.specs.Io.KnownBytes.{Appends};
ghost use Rattle.rowfn_batches.specs.Outputs.{Adds, HaveRows};
ghost use Rattle.rowfn_batches.specs.Passing.{picked_lines, answer_text, batch_text};
ghost use Rattle.rowfn_batches.specs.Passing.{KeepsReading, IsCleared, IsWriting};
ghost use Rattle.rowfn_batches.specs.Passing.{count_where, rows_put};

use super::Stream;
use crate::errors::StreamError;
use std::alloc::AllocError;
use std::io::{Read, Write};
use vortex_columns::Column;

impl<'a, R: Read + Drop> Stream<'a, R> {
    /// Pushes the lines of the input of those of the first rows in which the last answer is true.
    /// Answers how many those are. Refused only for want of memory.
    fn push_picked(&mut self, answers: &[Column], row_count: usize) -> Result<u64, AllocError>
        requires rows { HaveRows row_count answers.now }
        requires spans { row_count ≤ length self.old.batch.spans }
        ensures text { OnOk result (Adds self.old.output self.new.output
            (picked_lines self.old (slice_get answers.now (length answers.now - 1)) row_count)) }
        ensures count { IfOk result (λ count. count
            ≡ count_where (slice_get answers.now (length answers.now - 1)) row_count) }
        ensures kept { KeepsReading self.old self.new }
        ensures summary { self.new.summary ≡ self.old.summary }
    {
        let Some(top) = answers.last() else {
            return Ok(0);
        };
        let spans = &self.batch.spans()[..row_count];
        self.output.push_picked(top, &self.records, spans)
    }

    /// Pushes a line of the answers for each of the first rows, behind the row's own fields where
    /// these are appended. Refused only for want of memory.
    fn push_answers(
        &mut self,
        answers: &[Column],
        row_count: usize,
        rows: Option<&[usize]>,
    ) -> Result<(), AllocError>
        requires rows { HaveRows row_count answers.now }
        ensures text { OnOk result (Adds self.old.output self.new.output
            (answer_text self.old (option_map (λ r. r.now) rows.entry) answers.now row_count)) }
        ensures kept { KeepsReading self.old self.new }
        ensures summary { self.new.summary ≡ self.old.summary }
    {
        if self.settings.appends {
            let spans = self.batch.spans();
            self.output
                .push_appended(&self.records, spans, rows, answers, row_count)
        } else {
            self.output.push_rows(answers, row_count)
        }
    }

    /// Pushes what is written of the first rows that are answered. Answers how many those are.
    /// Refused only for want of memory.
    pub(super) fn push_batch(
        &mut self,
        answers: &[Column],
        row_count: usize,
        rows: Option<&[usize]>,
    ) -> Result<u64, AllocError>
        requires rows { HaveRows row_count answers.now }
        requires spans { rows ≡ None → row_count ≤ length self.old.batch.spans }
        ensures text { OnOk result (Adds self.old.output self.new.output
            (batch_text self.old (option_map (λ r. r.now) rows.entry) answers.now row_count)) }
        ensures count { IfOk result (λ count. count
            ≡ rows_put self.old (option_map (λ r. r.now) rows.entry) answers.now row_count) }
        ensures kept { KeepsReading self.old self.new }
        ensures summary { self.new.summary ≡ self.old.summary }
    {
        if self.settings.picks_rows && rows.is_none() {
            return self.push_picked(answers, row_count);
        }
        self.push_answers(answers, row_count, rows)?;
        Ok(row_count as u64)
    }

    /// Writes what was pushed. Refused only where the writer refuses.
    pub(super) fn write<W: Write>(&mut self, writer: &mut W) -> Result<(), StreamError>
        ensures written { OnOk result (Appends (W.contents writer.old) (W.contents writer.new)
            self.old.output.bytes.items) }
        ensures cleared { OnOk result (IsCleared self.old.output self.new.output) }
        ensures kept { KeepsReading self.old self.new }
        ensures summary { self.new.summary ≡ self.old.summary }
        ensures refused { IfErr result IsWriting }
    {
        if let Err(error) = writer.write_all(self.output.bytes()) {
            return Err(StreamError::Writing(error));
        }
        if let Err(error) = writer.flush() {
            return Err(StreamError::Writing(error));
        }
        self.output.clear();
        Ok(())
    }
}
