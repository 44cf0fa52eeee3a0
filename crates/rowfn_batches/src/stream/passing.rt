//! How a stream passes a batch on: what its rows answer, up to the one that ends it.
ghost use Rattle.std.specs.Prelude.{◌≡◌, OnOk, MatchResult, map, option_map};
ghost use Rattle.rowfn_batches.specs.Fields.{field_in};
ghost use Rattle.rowfn_batches.specs.Passing.{IsAnswered, PassesUpTo, PassesOn, IsBehind};
ghost use Rattle.rowfn_batches.specs.Filtering.{Takes, IsLeft, rows_before};

use super::{Stream, Summary};
use crate::answering::{Answered, BatchTask};
use crate::errors::StreamError;
use crate::filter::{Taken, slice_of, take_all, take_those};
use std::io::{Read, Write};

impl<'a, R: Read + Drop> Stream<'a, R> {
    /// The rows of the batch that are answered, behind which an error ends the stream, if there is
    /// one.
    fn take(&self, error: Option<StreamError>) -> Result<Taken<'_>, StreamError>
        ensures { MatchResult result
            (λ t. Takes self.now error (map field_in t.fields.items)
            (option_map (λ r. r.items) t.rows) t.row_count t.error)
            (IsLeft self.now error) }
    {
        let Some(condition) = &self.condition else {
            return take_all(self.alloc, &self.batch, error);
        };
        let (rows, error) = condition.sift(self.alloc, self.rows_before(), error)?;
        take_those(
            self.alloc,
            &self.batch,
            self.layout.places.len(),
            rows,
            error,
        )
    }

    /// What is asked of rows of the batch: of these, or of all.
    fn task<'r>(&'r self, rows: Option<&'r [usize]>) -> BatchTask<'r>
        ensures asked { (result.asked ≡ self.now.asked)
            × (result.places.now ≡ self.now.layout.places.items) }
        ensures numbers { (result.rows_before ≡ rows_before self.now)
            × (result.rows ≡ rows.entry) }
    {
        BatchTask {
            alloc: self.alloc,
            asked: self.asked,
            places: &self.layout.places,
            rows_before: self.rows_before(),
            rows,
        }
    }

    /// What rows of the batch answer, and which these are where not all are answered.
    fn answer(
        &self,
        error: Option<StreamError>,
    ) -> Result<(Answered, Option<Vec<usize>>), StreamError>
        ensures { MatchResult result
            (λ a. IsAnswered self.now error (option_map (λ r. r.items) a.1) a.0.row_count
            a.0.answers.items a.0.error)
            (IsLeft self.now error) }
    {
        let Taken {
            fields,
            rows,
            row_count,
            error,
        } = self.take(error)?;
        let task = self.task(slice_of(&rows));
        let answered = task.answer_batch(&fields, row_count, error)?;
        Ok((answered, rows))
    }

    /// Tells how many rows were passed on, where that is asked.
    pub(super) fn report_rows(&self) {
        if let Some(count) = self.settings.rows_passed {
            count.set(self.summary.rows_read);
        }
    }

    /// Answers and writes the batch: the lines of its rows in their order, up to the first that is
    /// refused, or all of them. Answers what ends them there, if anything does. Refused where no row
    /// is answered, and where the writer refuses.
    pub(super) fn pass_up_to<W: Write>(
        &mut self,
        error: Option<StreamError>,
        writer: &mut W,
    ) -> Result<Option<StreamError>, StreamError>
        ensures passes { PassesUpTo self.old error (W.contents writer.old) (W.contents writer.new)
            result }
        ensures behind { OnOk result (IsBehind self.old self.new error) }
    {
        let (answered, rows) = self.answer(error)?;
        let Answered {
            answers,
            row_count,
            error,
        } = answered;
        let count = self.push_batch(&answers, row_count, slice_of(&rows))?;
        self.write(writer)?;
        let Summary {
            rows_read,
            rows_written,
        } = self.summary;
        self.summary = Summary {
            rows_read: rows_read.saturating_add(self.batch.len() as u64),
            rows_written: rows_written.saturating_add(count),
        };
        self.report_rows();
        Ok(error)
    }

    /// The same. Refused with the error that ends the stream, too, if any.
    pub(super) fn pass<W: Write>(
        &mut self,
        error: Option<StreamError>,
        writer: &mut W,
    ) -> Result<(), StreamError>
        ensures passes { PassesOn self.old error (W.contents writer.old) (W.contents writer.new)
            result }
        ensures behind { OnOk result (IsBehind self.old self.new error) }
    {
        match self.pass_up_to(error, writer)? {
            Some(error) => Err(error),
            None => Ok(()),
        }
    }
}
