//! What is asked of rows.
ghost use Rattle.std.specs.Prelude.{◌≡◌, ◌⊎◌, IfOk, IfErr, MatchResult, true, false};
ghost use Rattle.rowfn_queries.specs.Bindings.{RefusesWidened, AreRead, columns_in, sampled_in};
ghost use Rattle.rowfn_queries.specs.Columns.{gathered_in, none, with_all, with_texts};
ghost use Rattle.rowfn_queries.specs.DeclaredColumns.{declared_by};
ghost use Rattle.rowfn_queries.specs.Queries.{IsQuery, inferred_of};
ghost use Rattle.rowfn_queries.specs.Reading.{AreInferred, DeclaredBy};
ghost use Rattle.rowfn_queries.specs.Refusals.{IsOfInput, RefusesDeclared};
ghost use Rattle.rowfn_queries.specs.Refusals.{RefusesWords};

use crate::again::Again;
use crate::binding::Binding;
use crate::columns::Gathered;
use crate::declared::{Declared, read_scope};
use crate::error::QueryError;
use crate::mixed::MixedColumn;
use crate::question::Question;
use crate::sample::{Sample, read_sample};
use crate::scopes::{add_all, add_named};
use crate::texts::Texts;
use rowfn_csv::Format;
use std::alloc::{AllocError, Global};
use std::io::Read;
use vortex_columns::{StructFields, VortexResult};
use vortex_logical::kind::Kind;

/// The words that ask, and how columns get their types.
#[derive(Clone, Copy)]
pub struct Words<'a> {
    /// The columns that are declared.
    pub columns: Option<&'a str>,
    /// The answers; the rows are taken as they stand where there are none.
    pub answers: Option<&'a str>,
    /// The condition of the rows that are answered; all are where there is none.
    pub condition: Option<&'a str>,
    /// Whether the first record of the input names its columns; else they are called `c1`, `c2`, ..
    pub header: bool,
    /// Whether columns that are not declared take their types from the first rows.
    pub infers: bool,
    /// Whether bad rows are left out, of the first rows too; else the first one ends those.
    pub skips: bool,
}

/// What is asked of rows: the answers, and the condition, each over the columns that it reads.
#[derive(Drop)]
pub struct Query {
    pub answers: Option<Question>,
    pub condition: Option<Question>,
    /// The columns whose types were taken from the first rows.
    pub inferred: StructFields,
    /// The kinds of their values, by place.
    pub inferred_kinds: Vec<Kind>,
    /// Those of them that are text by one field, and have numbers, dates or timestamps.
    pub mixed: Vec<MixedColumn>,
}

impl Query {
    /// The first column whose fields are dates in another form, and that is compared with a date in
    /// quotes.
    pub fn compared_column(&self, alloc: Global) -> Result<Option<MixedColumn>, AllocError> {
        for column in self.mixed.iter() {
            if column.is_compared {
                return Ok(Some(column.try_clone(alloc)?));
            }
        }
        Ok(None)
    }
}

/// All columns that are declared, that have the types of their fields, and that a header has besides.
fn widened(binding: Binding<'_>, names: &[String]) -> VortexResult<Gathered>
    ensures { IfOk result (λ columns. gathered_in columns
        ≡ with_texts names.now (with_all (sampled_in binding.entry)
        (with_all (columns_in binding.entry) none))) }
{
    let alloc = binding.alloc;
    let mut columns = Gathered::none(alloc);
    add_all(alloc, &mut columns, binding.columns)?;
    add_all(alloc, &mut columns, binding.sampled)?;
    add_named(alloc, &mut columns, names)?;
    Ok(columns)
}

/// The error by which texts are refused over all names that a header has: one of them may be meant.
fn with_header_names(
    binding: Binding<'_>,
    texts: &Texts<'_>,
    names: &[String],
    error: QueryError,
) -> QueryError
    ensures { AreRead texts.now
        → (result ≡ error) ⊎ RefusesWidened binding.entry names.now texts.now result }
{
    let columns = match widened(binding, names) {
        Ok(columns) => columns,
        Err(_) => return error,
    };
    let wide = Binding {
        columns: columns.scope(),
        ..binding
    };
    match wide.bind(texts) {
        Ok(_) => error,
        Err(error) => error,
    }
}

/// The columns that a text declares; none where there is none.
fn declared_columns(alloc: Global, text: Option<&str>) -> Result<Declared, QueryError>
    ensures { MatchResult result (λ d. DeclaredBy text.entry (declared_by d))
        (RefusesDeclared text.entry) }
{
    let Some(text) = text else {
        return Ok(Declared::none(alloc));
    };
    match read_scope(alloc, text) {
        Ok(columns) => Ok(columns),
        Err(error) => Err(QueryError::Columns(error)),
    }
}

/// What the beginning of the input shows of those columns, where they are to take their types from
/// it.
fn sampled<R: Read>(
    alloc: Global,
    words: &Words<'_>,
    format: Format<'_>,
    max_field: usize,
    wanted: &[String],
    reader: &mut Again<R>,
) -> Result<Sample, QueryError>
    ensures inferred { IfOk result (λ sample. AreInferred (gathered_in sample.columns)) }
    ensures not_inferred { words.now.infers ≡ false
        → IfOk result (λ sample. gathered_in sample.columns ≡ none) }
    ensures refused { IfErr result (λ e. (words.now.infers ≡ true) × IsOfInput e) }
{
    if words.infers && !wanted.is_empty() {
        read_sample(alloc, words, format, max_field, wanted, reader)
    } else {
        Ok(Sample::none(alloc))
    }
}

/// Reads what is asked of rows: the columns that are declared, with the kinds of their values; the
/// condition, a truth value, over them and the others that it names; and the answers. Columns that are
/// named and not declared have the types and kinds that the first rows give their fields, where they
/// are to; the reader gives these once
/// more after the call.
///
/// Without a header the columns are called `c1`, `c2`, .. by their places. A column stands at the
/// place that is declared of it; else, with a header, where its name does; without one, at the place
/// of its name `c1`, `c2`, .., or in its turn among the declared ones.
pub fn read_query<R: Read>(
    alloc: Global,
    words: Words<'_>,
    format: Format<'_>,
    max_field: usize,
    reader: &mut Again<R>,
) -> Result<Query, QueryError>
    ensures read { IfOk result (IsQuery words.entry) }
    ensures not_inferred { words.entry.infers ≡ false
        → IfOk result (λ q. inferred_of q ≡ none) }
    ensures refused { IfErr result (RefusesWords words.entry) }
{
    let declared = match declared_columns(alloc, words.columns) {
        Ok(declared) => declared,
        Err(error) => return Err(error),
    };
    let texts = match Texts::parse(alloc, &words) {
        Ok(texts) => texts,
        Err(error) => return Err(error),
    };
    let wanted = texts.lacking(alloc, &declared.columns)?;
    let Sample {
        names,
        columns: inferred,
        mixed,
        failed,
    } = match sampled(alloc, &words, format, max_field, &wanted, reader) {
        Ok(sample) => sample,
        Err(error) => return Err(error),
    };
    reader.rewind(failed);
    let columns = declared.scope();
    let sampled = inferred.scope();
    let binding = Binding {
        alloc,
        words,
        declared: &declared,
        columns,
        sampled,
        mixed: &mixed,
    };
    match binding.bind(&texts) {
        Ok((answers, condition)) => Ok(Query {
            answers,
            condition,
            inferred: inferred.fields,
            inferred_kinds: inferred.kinds,
            mixed,
        }),
        Err(error) => Err(with_header_names(binding, &texts, &names, error)),
    }
}
