//! What is shown of the values of answers: plain ones as they are, those of a kind as texts.
ghost use Rattle.std.specs.Prelude.{◌≡◌, ◌≢◌, ◌<◌, ◌≤◌, ◌⊎◌, map, length, slice_get, Some, None};
ghost use Rattle.std.specs.Prelude.{MatchOption, MatchResult};
ghost use Rattle.vortex_errors.specs.declared.error.VortexError.TheVariants.{InvalidColumn};
ghost use Rattle.vortex_columns.specs.ColumnView.{ColumnView};
ghost use Rattle.vortex_logical_cells.specs.StoredTexts.{IsTextsOrRow, MakeNoColumn};
ghost use Rattle.vortex_program.specs.declared.answer.Answer.{Answer as Asked};
ghost use Rattle.rowfn_batches.specs.declared.errors.StreamError.TheVariants.{OutOfMemory};
ghost use Rattle.rowfn_batches.specs.Fields.{field_in};
ghost use Rattle.rowfn_batches.specs.Batches.{AreEven};
ghost use Rattle.rowfn_batches.specs.Showing.{lone_column, own_texts, TextsOrRow, IsHidden};
ghost use Rattle.rowfn_batches.specs.Showing.{TellsLong, ShowsAt, Lacks, Hides};
ghost use Rattle.rowfn_batches.specs.BatchAnswers.{first_fields, answers_asked, AreValues};
ghost use Rattle.rowfn_batches.specs.BatchAnswers.{scope_of, kinds_of, width_of, number_of};
ghost use Rattle.rowfn_batches.specs.BatchAnswers.{IsUnserved, TellsNoText, AnswersOrLacks};

use crate::answering::{BatchTask, first_rows};
use crate::errors::StreamError;
use crate::explained::answer_at;
use std::alloc::Global;
use vortex_cells::fields::column_of_fields;
use vortex_columns::{Column, DType, Nullability, VortexError};
use vortex_functions::BoundExpression;
use vortex_logical::kind::Kind;
use vortex_logical_cells::{KindTexts, texts_of_kind};
use vortex_program::Answer;
use vortex_standard::Standard;

/// What is shown of the values of answers; or the first row, counted from 0, in which one has no text,
/// with its error.
#[derive(Drop)]
pub enum Shown {
    Columns(Vec<Column>),
    NoText { row: usize, error: StreamError },
}

/// The place of a tree that is one of the first columns.
fn lone_column(tree: &BoundExpression<Standard>, width: usize) -> Option<usize>
    ensures { result ≡ lone_column width tree.now }
{
    let place = tree.as_column()?;
    if place < width { Some(place) } else { None }
}

/// The error for an answer whose texts are too long. E9 where an allocation fails.
fn long_answer(alloc: Global, answer: &Answer) -> Result<StreamError, StreamError>
    ensures { MatchResult result (TellsLong answer.now) (λ e. e ≡ OutOfMemory) }
{
    let name = String::from_str(alloc, answer.name.as_str())?;
    Ok(StreamError::TextsTooLong(name))
}

/// The texts of an answer's values. E9 where an allocation fails.
fn value_texts(
    alloc: Global,
    answer: &Answer,
    value: &Column,
    row_count: usize,
) -> Result<KindTexts, StreamError>
    requires { row_count ≤ length value.now.rows }
    ensures { MatchResult result (IsTextsOrRow answer.now.kind value.now.rows row_count)
        (λ e. (e ≡ OutOfMemory) ⊎ (MakeNoColumn answer.now.kind value.now.rows InvalidColumn
        × TellsLong answer.now e)) }
{
    match texts_of_kind(alloc, answer.kind, value, row_count) {
        Ok(texts) => Ok(texts),
        Err(VortexError::InvalidColumn) => Err(long_answer(alloc, answer)?),
        Err(_) => Err(StreamError::OutOfMemory),
    }
}

impl BatchTask<'_> {
    /// The fields of a column as they are, which are shown of an answer.
    fn own_texts(
        &self,
        fields: &[Option<&[u8]>],
        answer: &Answer,
        place: usize,
        row_count: usize,
    ) -> Result<Column, StreamError>
        requires place { place < width_of self.now.asked }
        requires even { AreEven (scope_of self.now.asked) (kinds_of self.now.asked)
            (first_fields self.now.asked (map field_in fields.now) row_count) row_count }
        ensures { let own = own_texts (width_of self.now.asked)
            (first_fields self.now.asked (map field_in fields.now) row_count) row_count place in
            MatchResult result (λ c. Some c ≡ own)
            (λ e. (e ≡ OutOfMemory) ⊎ ((None ≡ own) × TellsLong answer.now e)) }
    {
        let width = self.asked.program.scope.len();
        let whole = first_rows(fields, width, row_count);
        let dtype = DType::Utf8(Nullability::Nullable);
        match column_of_fields(self.alloc, &dtype, whole, width, row_count, place) {
            Ok(Some(column)) => Ok(column),
            Ok(None) => Err(long_answer(self.alloc, answer)?),
            Err(_) => Err(StreamError::OutOfMemory),
        }
    }

    /// The texts that are shown of an answer's values; none where these are shown as they are.
    fn show_answer(
        &self,
        fields: &[Option<&[u8]>],
        answer: &Answer,
        value: &Column,
        row_count: usize,
    ) -> Result<Option<KindTexts>, StreamError>
        requires even { AreEven (scope_of self.now.asked) (kinds_of self.now.asked)
            (first_fields self.now.asked (map field_in fields.now) row_count) row_count }
        requires rows { row_count ≤ length value.now.rows }
        ensures { let first = first_fields self.now.asked (map field_in fields.now) row_count in
            MatchResult result
            (λ o. MatchOption o (answer.now.kind ≡ Kind.Plain)
            (TextsOrRow (width_of self.now.asked) first row_count answer.now value.now))
            (IsHidden (width_of self.now.asked) first row_count answer.now value.now) }
    {
        if matches!(answer.kind, Kind::Plain) {
            return Ok(None);
        }
        match lone_column(&answer.tree, self.asked.program.scope.len()) {
            Some(place) => {
                let texts = self.own_texts(fields, answer, place, row_count)?;
                Ok(Some(KindTexts::Texts(texts)))
            }
            None => Ok(Some(value_texts(self.alloc, answer, value, row_count)?)),
        }
    }

    /// The error for an answer whose value in a row has no text. E9 where an allocation fails.
    fn no_text(&self, answer: &Answer, row: usize) -> Result<StreamError, StreamError>
        ensures { MatchResult result (TellsNoText (number_of self.now) row answer.now)
            (λ e. e ≡ OutOfMemory) }
    {
        Ok(StreamError::NoText {
            row: self.number_of(row),
            name: String::from_str(self.alloc, answer.name.as_str())?,
            kind: answer.kind,
        })
    }

    /// Puts what is shown of an answer in the place of its values. Or returns the first row, counted
    /// from 0, in which one has no text, with its error.
    fn show_at(
        &self,
        fields: &[Option<&[u8]>],
        shown: &mut Vec<Column>,
        k: usize,
        row_count: usize,
    ) -> Result<Option<(usize, StreamError)>, StreamError>
        requires even { AreEven (scope_of self.now.asked) (kinds_of self.now.asked)
            (first_fields self.now.asked (map field_in fields.now) row_count) row_count }
        requires place { k < length shown.old.items }
        requires rows { (value : ColumnView) → slice_get shown.old.items k ≡ Some value
            → row_count ≤ length value.rows }
        ensures { let w = width_of self.now.asked in let answers = answers_asked self.now.asked in
            let first = first_fields self.now.asked (map field_in fields.now) row_count in
            MatchResult result
            (λ o. MatchOption o
            (ShowsAt w first row_count answers shown.old.items k shown.new.items)
            (λ s. (a : Asked) × Lacks w first row_count answers shown.old.items k s.0 a
            × TellsNoText (number_of self.now) s.0 a s.1))
            (λ e. (e ≡ OutOfMemory) ⊎ Hides w first row_count answers shown.old.items k e) }
    {
        let Some(answer) = answer_at(&self.asked.program.written, k) else {
            return Ok(None);
        };
        match self.show_answer(fields, answer, &shown[k], row_count)? {
            None => Ok(None),
            Some(KindTexts::Texts(texts)) => {
                shown[k] = texts;
                Ok(None)
            }
            Some(KindTexts::NoText(row)) => Ok(Some((row, self.no_text(answer, row)?))),
        }
    }

    /// What is shown of the values of the first rows: of an answer of a kind texts, which are its
    /// fields as they are in the input if it is a lone column, else the texts of its values.
    pub(crate) fn show_values(
        &self,
        fields: &[Option<&[u8]>],
        values: Vec<Column>,
        row_count: usize,
    ) -> Result<Shown, StreamError>
        requires { AreValues self.now.asked (map field_in fields.now) row_count values.items }
        ensures { MatchResult result
            (AnswersOrLacks self.now.asked (map field_in fields.now) (number_of self.now) row_count)
            (IsUnserved self.now.asked (map field_in fields.now)) }
    {
        let mut shown = values;
        for k in 0..shown.len() {
            if let Some((row, error)) = self.show_at(fields, &mut shown, k, row_count)? {
                return Ok(Shown::NoText { row, error });
            }
        }
        Ok(Shown::Columns(shown))
    }
}
