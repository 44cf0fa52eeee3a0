//! The rows of a batch that are answered: all, or those in which a condition is true.
ghost use Rattle.std.specs.Prelude.{◌≡◌, ◌≤◌, None, Some, IfOk, IfErr, length, map, take};
ghost use Rattle.std.specs.Prelude.{drop, option_map, ◌*◌, ◌++◌, ◌∷◌, [], OnOk, if◌then◌else◌};
ghost use Rattle.rowfn_batches.specs.Fields.{field_in};
ghost use Rattle.rowfn_batches.specs.BatchAnswers.{AreAnswers, EndsBatch, IsUnanswered};
ghost use Rattle.rowfn_batches.specs.BatchAnswers.{row_number};
ghost use Rattle.rowfn_batches.specs.declared.errors.StreamError.TheVariants.{OutOfMemory};
ghost use Rattle.rowfn_batches.specs.Filtering.{true_rows, rows_picked, fields_picked, Sifts};
ghost use Rattle.rowfn_batches.specs.Outputs.{HaveRows};

use crate::answering::{Answered, BatchTask};
use crate::errors::StreamError;
use crate::header::Layout;
use crate::output::is_true;
use crate::request::Request;
use rowfn_csv::Batch;
use std::alloc::{AllocError, Global};
use vortex_columns::Column;

/// The condition of the rows that are answered, over columns of its own, with their fields.
#[derive(Drop)]
pub struct Condition<'a> {
    pub asked: Request<'a>,
    pub layout: Layout,
    pub batch: Batch,
}

/// The rows of a batch that are answered, and what ends the stream behind them, if anything does.
#[derive(Drop)]
pub struct Taken<'b> {
    pub fields: Vec<Option<&'b [u8]>>,
    /// Which rows of the batch those are; all where that is not said.
    pub rows: Option<Vec<usize>>,
    pub row_count: usize,
    pub error: Option<StreamError>,
}

/// Adds a row where it is taken.
fn push_if(rows: &mut Vec<usize>, row: usize, is_taken: bool) -> Result<(), AllocError>
    ensures { OnOk result (rows.new.items
        ≡ rows.old.items ++ (if is_taken then row ∷ [] else [])) }
{
    if is_taken {
        rows.push(row)?;
    }
    Ok(())
}

/// The first rows in which a column is true; it has so many.
fn true_rows(alloc: Global, column: &Column, row_count: usize) -> Result<Vec<usize>, AllocError>
    requires { row_count ≤ length column.now.rows }
    ensures { IfOk result (λ rows. rows.items ≡ true_rows column.now row_count) }
{
    let mut rows = Vec::new(alloc);
    for row in 0..row_count {
        push_if(&mut rows, row, is_true(column, row))?;
    }
    Ok(rows)
}

/// The first rows in which the first answer is true.
fn rows_picked(
    alloc: Global,
    answers: &[Column],
    row_count: usize,
) -> Result<Vec<usize>, AllocError>
    requires { HaveRows row_count answers.now }
    ensures { IfOk result (λ rows. rows.items ≡ rows_picked answers.now row_count) }
{
    match answers.first() {
        Some(truth) => true_rows(alloc, truth, row_count),
        None => Ok(Vec::new(alloc)),
    }
}

/// The fields of a row, of rows of so many.
fn row_fields<'f, 'b>(
    fields: &'f [Option<&'b [u8]>],
    width: usize,
    row: usize,
) -> &'f [Option<&'b [u8]>]
    ensures { result.now ≡ take width (drop (row * width) fields.now) }
{
    let len = fields.len();
    let Some(start) = row.checked_mul(width) else {
        return &fields[len..];
    };
    if start >= len {
        return &fields[len..];
    }
    let rest = &fields[start..];
    if width < rest.len() {
        &rest[..width]
    } else {
        rest
    }
}

/// The fields of those rows, of rows of so many.
fn fields_picked<'b>(
    alloc: Global,
    fields: &[Option<&'b [u8]>],
    width: usize,
    rows: &[usize],
) -> Result<Vec<Option<&'b [u8]>>, AllocError>
    ensures { IfOk result (λ taken. map field_in taken.items
        ≡ fields_picked (map field_in fields.now) width rows.now) }
{
    let mut taken = Vec::new(alloc);
    for row in rows {
        taken.extend_from_slice(row_fields(fields, width, *row))?;
    }
    Ok(taken)
}

/// The rows that are answered, where not all are.
pub fn slice_of(rows: &Option<Vec<usize>>) -> Option<&[usize]>
    ensures { option_map (λ r. r.now) result ≡ option_map (λ r. r.items) rows.now }
{
    match rows {
        Some(rows) => Some(rows.as_slice()),
        None => None,
    }
}

/// All rows of a batch.
pub fn take_all(
    alloc: Global,
    batch: &Batch,
    error: Option<StreamError>,
) -> Result<Taken<'_>, StreamError>
    ensures fields { IfOk result (λ t. map field_in t.fields.items ≡ batch.now.fields) }
    ensures rows { IfOk result (λ t. (t.rows ≡ None) × (t.row_count ≡ length batch.now.spans)
        × (t.error ≡ error)) }
    ensures refused { IfErr result (λ e. e ≡ OutOfMemory) }
{
    Ok(Taken {
        fields: batch.fields(alloc)?,
        rows: None,
        row_count: batch.len(),
        error,
    })
}

impl Condition<'_> {
    /// What the condition is in the rows of its batch.
    fn answer(
        &self,
        alloc: Global,
        rows_before: u64,
        error: Option<StreamError>,
    ) -> Result<Answered, StreamError>
        ensures rows { IfOk result (λ a. AreAnswers self.now.asked self.now.batch.fields
            a.row_count a.answers.items) }
        ensures ends { IfOk result (λ a. EndsBatch self.now.asked self.now.batch.fields
            self.now.layout.places.items (row_number rows_before) (length self.now.batch.spans)
            error a.row_count a.error) }
        ensures refused { IfErr result (IsUnanswered self.now.asked self.now.batch.fields
            (length self.now.batch.spans)) }
    {
        let fields = self.batch.fields(alloc)?;
        let task = BatchTask {
            alloc,
            asked: self.asked,
            places: &self.layout.places,
            rows_before,
            rows: None,
        };
        task.answer_batch(&fields, self.batch.len(), error)
    }

    /// The rows of a batch in which the condition is true: up to the first in which it faults, or
    /// of which a field does not fit, and that ends them.
    pub fn sift(
        &self,
        alloc: Global,
        rows_before: u64,
        error: Option<StreamError>,
    ) -> Result<(Vec<usize>, Option<StreamError>), StreamError>
        ensures sifts { IfOk result (λ s. Sifts self.now rows_before error s.0.items s.1) }
        ensures refused { IfErr result (IsUnanswered self.now.asked self.now.batch.fields
            (length self.now.batch.spans)) }
    {
        let Answered {
            answers,
            row_count,
            error,
        } = self.answer(alloc, rows_before, error)?;
        let rows = rows_picked(alloc, &answers, row_count)?;
        Ok((rows, error))
    }
}

/// Those rows of a batch, of so many fields each.
pub fn take_those(
    alloc: Global,
    batch: &Batch,
    width: usize,
    rows: Vec<usize>,
    error: Option<StreamError>,
) -> Result<Taken<'_>, StreamError>
    ensures fields { IfOk result (λ t. map field_in t.fields.items
        ≡ fields_picked batch.now.fields width rows.items) }
    ensures rows { IfOk result (λ t. (option_map (λ r. r.items) t.rows ≡ Some rows.items)
        × (t.row_count ≡ length rows.items) × (t.error ≡ error)) }
    ensures refused { IfErr result (λ e. e ≡ OutOfMemory) }
{
    let fields = batch.fields(alloc)?;
    let fields = fields_picked(alloc, &fields, width, &rows)?;
    let row_count = rows.len();
    Ok(Taken {
        fields,
        rows: Some(rows),
        row_count,
        error,
    })
}
