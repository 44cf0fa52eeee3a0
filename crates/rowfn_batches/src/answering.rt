//! What a batch answers, up to the first row that ends the stream.
ghost use Rattle.std.specs.Prelude.{◌≡◌, ◌<◌, ◌+◌, ◌*◌, length, map, take, IfOk, IfErr};
ghost use Rattle.std.specs.Prelude.{MatchResult, option_map};
ghost use Rattle.rowfn_batches.specs.Fields.{field_in};
ghost use Rattle.rowfn_batches.specs.Batches.{field_at};
ghost use Rattle.rowfn_batches.specs.declared.errors.StreamError.TheVariants.{OutOfMemory};
ghost use Rattle.rowfn_batches.specs.BatchAnswers.{row_number, row_among, number_of};
ghost use Rattle.rowfn_batches.specs.BatchAnswers.{TellsMisfit, TellsName, AreFirst};
ghost use Rattle.rowfn_batches.specs.BatchAnswers.{AreAnswers, EndsRows, EndsShown, EndsBatch};
ghost use Rattle.rowfn_batches.specs.BatchAnswers.{IsUnserved, IsUnanswered, width_of, scope_of};
ghost use Rattle.rowfn_batches.specs.BatchAnswers.{kinds_of, AreValues, AnswersOrLacks};

use crate::columns::{FieldsError, kind_at, leftmost_misfit, read_columns};
use crate::errors::StreamError;
use crate::request::Request;
use crate::showing::Shown;
use std::alloc::Global;
use vortex_columns::Column;
use vortex_program::RunError;

/// What the first rows of a batch answer, and what ends the stream behind them, if anything does.
#[derive(Drop)]
pub struct Answered {
    pub answers: Vec<Column>,
    pub row_count: usize,
    pub error: Option<StreamError>,
}

/// What a batch is asked.
#[derive(Clone, Copy)]
pub struct BatchTask<'a> {
    pub alloc: Global,
    pub asked: Request<'a>,
    /// Where each declared column stands in a row of the input.
    pub places: &'a [usize],
    /// How many rows were read before the batch.
    pub rows_before: u64,
    /// Which rows of the batch these are; all where that is not said.
    pub rows: Option<&'a [usize]>,
}

/// The number of a row of a batch, counted from 1 over the whole input; 18,446,744,073,709,551,615
/// where it is larger.
pub fn row_number(rows_before: u64, row: usize) -> u64
    ensures { result ≡ row_number rows_before row }
{
    rows_before.saturating_add(row as u64).saturating_add(1)
}

/// Which row of a batch a row is of those that are answered: these, or all.
pub fn row_among(rows: Option<&[usize]>, row: usize) -> usize
    ensures { result ≡ row_among (option_map (λ r. r.now) rows.entry) row }
{
    match rows {
        Some(rows) => rows.get(row).copied().unwrap_or(0),
        None => row,
    }
}

/// The fields of the first rows that have so many each; all where there are fewer.
pub(crate) fn first_rows<'f, 'b>(
    fields: &'f [Option<&'b [u8]>],
    width: usize,
    row_count: usize,
) -> &'f [Option<&'b [u8]>]
    ensures { result.now ≡ take (width * row_count) fields.now }
{
    let len = fields.len();
    let Some(count) = width.checked_mul(row_count) else {
        return fields;
    };
    if count < len {
        &fields[..count]
    } else {
        fields
    }
}

impl BatchTask<'_> {
    /// The number of a row that is answered.
    pub(crate) fn number_of(&self, row: usize) -> u64
        ensures { result ≡ number_of self.now row }
    {
        row_number(self.rows_before, row_among(self.rows, row))
    }

    /// The columns of the first rows, which are whole and none of which has a misfit. E9 where
    /// memory is refused.
    fn columns(
        &self,
        fields: &[Option<&[u8]>],
        row_count: usize,
    ) -> Result<Vec<Column>, StreamError>
        ensures { MatchResult result
            (λ columns. AreFirst self.now.asked (map field_in fields.now) row_count
            columns.items)
            (λ e. e ≡ OutOfMemory) }
    {
        let declared = &self.asked.program.scope;
        let kinds = self.asked.program.kinds.as_slice();
        let fields = first_rows(fields, declared.len(), row_count);
        match read_columns(self.alloc, declared, kinds, fields, row_count) {
            Ok(columns) => Ok(columns),
            Err(_) => Err(StreamError::OutOfMemory),
        }
    }

    /// The error for a field that is no value of its column. E9 where an allocation fails.
    fn misfit(
        &self,
        fields: &[Option<&[u8]>],
        row: usize,
        column: usize,
    ) -> Result<StreamError, StreamError>
        requires column { column < width_of self.now.asked }
        requires place { row * width_of self.now.asked + column < length fields.now }
        ensures { let width = width_of self.now.asked in
            MatchResult result
            (TellsMisfit (number_of self.now) row (scope_of self.now.asked)
            (kinds_of self.now.asked) column
            (field_at (map field_in fields.now) (row * width + column)))
            (λ e. e ≡ OutOfMemory) }
    {
        let declared = &self.asked.program.scope;
        let field = match fields[row * declared.len() + column] {
            Some(bytes) => Some(bytes.to_vec(self.alloc)?),
            None => None,
        };
        Ok(StreamError::Misfit {
            row: self.number_of(row),
            column: String::from_str(self.alloc, declared.name(column))?,
            kind: kind_at(&self.asked.program.kinds, column),
            dtype: declared.dtype(column).clone()?,
            field,
        })
    }

    /// The error for a column whose texts are too long. E9 where memory is refused.
    fn too_long(&self, column: usize) -> Result<StreamError, StreamError>
        requires { column < width_of self.now.asked }
        ensures { MatchResult result
            (TellsName (scope_of self.now.asked) column)
            (λ e. e ≡ OutOfMemory) }
    {
        let name = self.asked.program.scope.name(column);
        Ok(StreamError::TextsTooLong(String::from_str(self.alloc, name)?))
    }

    /// What is shown of the answers of the first rows, which have neither a misfit nor a fault; or
    /// the first of them in which a value has no text.
    fn answer_once(&self, fields: &[Option<&[u8]>], row_count: usize) -> Result<Shown, StreamError>
        ensures { MatchResult result
            (AnswersOrLacks self.now.asked (map field_in fields.now) (number_of self.now) row_count)
            (IsUnserved self.now.asked (map field_in fields.now)) }
    {
        let columns = self.columns(fields, row_count)?;
        match self.asked.program.run(self.alloc, &columns, row_count) {
            Ok(values) => self.show_values(fields, values, row_count),
            // the columns are valid for the trees, and no row faults
            Err(_) => Err(StreamError::OutOfMemory),
        }
    }

    /// What the first rows answer, which have neither a misfit nor a fault: up to the first in
    /// which a value has no text. Each turn has fewer rows than the one before it.
    fn answer_faultless(
        &self,
        fields: &[Option<&[u8]>],
        row_count: usize,
        error: Option<StreamError>,
    ) -> Result<Answered, StreamError>
        ensures rows { IfOk result (λ a. AreAnswers self.now.asked
            (map field_in fields.now) a.row_count a.answers.items) }
        ensures ends { IfOk result (λ a. EndsShown self.now.asked (map field_in fields.now)
            (number_of self.now) row_count error a.row_count a.error) }
        ensures refused { IfErr result (IsUnserved self.now.asked (map field_in fields.now)) }
    {
        let mut count = row_count;
        let mut behind = error;
        'turns: loop {
            match self.answer_once(fields, count)? {
                Shown::Columns(answers) => {
                    return Ok(Answered {
                        answers,
                        row_count: count,
                        error: behind,
                    });
                }
                Shown::NoText { row, error } => {
                    count = row;
                    behind = Some(error);
                }
            }
        }
    }

    /// What the first rows answer, of which these are the values: up to the first in which one has
    /// no text.
    fn answer_values(
        &self,
        fields: &[Option<&[u8]>],
        values: Vec<Column>,
        row_count: usize,
        error: Option<StreamError>,
    ) -> Result<Answered, StreamError>
        requires { AreValues self.now.asked (map field_in fields.now) row_count values.items }
        ensures rows { IfOk result (λ a. AreAnswers self.now.asked
            (map field_in fields.now) a.row_count a.answers.items) }
        ensures ends { IfOk result (λ a. EndsShown self.now.asked (map field_in fields.now)
            (number_of self.now) row_count error a.row_count a.error) }
        ensures refused { IfErr result (IsUnserved self.now.asked (map field_in fields.now)) }
    {
        match self.show_values(fields, values, row_count)? {
            Shown::Columns(answers) => Ok(Answered {
                answers,
                row_count,
                error,
            }),
            Shown::NoText { row, error } => self.answer_faultless(fields, row, Some(error)),
        }
    }

    /// What the first rows answer, which have no misfit: up to the first that faults, or in which a
    /// value has no text.
    fn answer_fitting(
        &self,
        fields: &[Option<&[u8]>],
        columns: &[Column],
        row_count: usize,
        error: Option<StreamError>,
    ) -> Result<Answered, StreamError>
        requires { AreFirst self.now.asked (map field_in fields.now) row_count
            columns.now }
        ensures rows { IfOk result (λ a. AreAnswers self.now.asked
            (map field_in fields.now) a.row_count a.answers.items) }
        ensures ends { IfOk result (λ a. EndsRows self.now.asked
            (map field_in fields.now) (number_of self.now) row_count error a.row_count a.error) }
        ensures refused { IfErr result
            (IsUnserved self.now.asked (map field_in fields.now)) }
    {
        match self.asked.program.run(self.alloc, columns, row_count) {
            Ok(values) => self.answer_values(fields, values, row_count, error),
            Err(RunError::Fault { row, answer, error }) => {
                let text = self.cast_text(fields, row, answer, &error);
                let fault = StreamError::Fault {
                    row: self.number_of(row),
                    error,
                    text,
                };
                self.answer_faultless(fields, row, Some(fault))
            }
            Err(RunError::Refused(refusal)) => Err(StreamError::Refused(refusal)),
            Err(RunError::OutOfMemory) => Err(StreamError::OutOfMemory),
        }
    }

    /// What the rows of a batch answer: up to the first that has a misfit, a fault or a value
    /// without a text, or all of them and the error behind the batch, if there is one. Of several
    /// misfits of a row the leftmost in the input is told.
    ///
    /// Refused where the texts of a column or of an answer are too long for a batch, where the
    /// columns are not valid for a tree, and where memory runs out; never with a row's fault.
    pub fn answer_batch(
        &self,
        fields: &[Option<&[u8]>],
        row_count: usize,
        error: Option<StreamError>,
    ) -> Result<Answered, StreamError>
        ensures rows { IfOk result (λ a. AreAnswers self.now.asked
            (map field_in fields.now) a.row_count a.answers.items) }
        ensures ends { IfOk result (λ a. EndsBatch self.now.asked
            (map field_in fields.now) self.now.places.now (number_of self.now) row_count error
            a.row_count a.error) }
        ensures refused { IfErr result (IsUnanswered self.now.asked
            (map field_in fields.now) row_count) }
    {
        let declared = &self.asked.program.scope;
        let kinds = self.asked.program.kinds.as_slice();
        let whole = first_rows(fields, declared.len(), row_count);
        match read_columns(self.alloc, declared, kinds, whole, row_count) {
            Ok(columns) => self.answer_fitting(fields, &columns, row_count, error),
            Err(FieldsError::Misfit { row, column }) => {
                let column = leftmost_misfit(declared, kinds, self.places, whole, row, column);
                let misfit = self.misfit(fields, row, column)?;
                let columns = self.columns(fields, row)?;
                self.answer_fitting(fields, &columns, row, Some(misfit))
            }
            Err(FieldsError::TextsTooLong { column }) => Err(self.too_long(column)?),
            Err(FieldsError::Uneven | FieldsError::OutOfMemory) => Err(StreamError::OutOfMemory),
        }
    }
}
