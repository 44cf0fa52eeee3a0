//! Scopes, column by column.
ghost use Rattle.std.specs.Prelude.{◌≡◌, map, string_bytes};
ghost use Rattle.std.specs.List.{list_any};
ghost use Rattle.std.specs.Str.{bytes_eq};
ghost use Rattle.vortex_errors.specs.Answers.{AnswersUnlessMemory};
ghost use Rattle.rowfn_queries.specs.ColumnTypes.{type_in};
ghost use Rattle.rowfn_queries.specs.Columns.{gathered_in, scope_in, is_among, with_wanted};
ghost use Rattle.rowfn_queries.specs.Columns.{with_all, typed_columns, with_texts};

use crate::column_type::ColumnType;
use crate::columns::{Gathered, Scope};
use std::alloc::Global;
use vortex_columns::{DType, Nullability, VortexResult};

/// Whether a name is another.
fn is_name(name: &String, other: &str) -> bool
    ensures { result ≡ bytes_eq (string_bytes name.now) other.now }
{
    name.as_str() == other
}

/// Whether one of these names is that.
fn has_name(names: &[String], name: &str) -> bool
    ensures { result ≡ list_any (λ n. bytes_eq (string_bytes n) name.now) names.now }
{
    names.iter().any(|other| is_name(other, name))
}

/// Whether a name stands in a list.
pub(crate) fn is_in_names(names: &[String], name: &str) -> bool
    ensures { result ≡ is_among (map string_bytes names.now) name.now }
{
    has_name(names, name)
}

/// Adds those columns of a scope whose names are wanted.
pub(crate) fn add_needed(
    alloc: Global,
    columns: &mut Gathered,
    from: Scope<'_>,
    wanted: &[String],
) -> VortexResult<()>
    ensures { AnswersUnlessMemory result (λ _. gathered_in columns.new
        ≡ with_wanted (is_among (map string_bytes wanted.now)) (scope_in from.entry)
        (gathered_in columns.old)) }
{
    for place in 0..from.fields.len() {
        let name = from.fields.name(place);
        if is_in_names(wanted, name) {
            columns.add(alloc, name, from.column(alloc, place)?)?;
        }
    }
    Ok(())
}

/// Adds all columns of a scope.
pub(crate) fn add_all(alloc: Global, columns: &mut Gathered, from: Scope<'_>) -> VortexResult<()>
    ensures { AnswersUnlessMemory result (λ _. gathered_in columns.new
        ≡ with_all (scope_in from.entry) (gathered_in columns.old)) }
{
    for place in 0..from.fields.len() {
        let column = from.column(alloc, place)?;
        columns.add(alloc, from.fields.name(place), column)?;
    }
    Ok(())
}

/// Adds columns of texts by their names.
pub(crate) fn add_named(alloc: Global, columns: &mut Gathered, names: &[String]) -> VortexResult<()>
    ensures { AnswersUnlessMemory result (λ _. gathered_in columns.new
        ≡ with_texts names.now (gathered_in columns.old)) }
{
    for name in names {
        let column = ColumnType::plain(DType::Utf8(Nullability::Nullable));
        columns.add(alloc, name.as_str(), column)?;
    }
    Ok(())
}

/// Columns of these names and types, each name once.
pub(crate) fn typed_columns(
    alloc: Global,
    names: &[String],
    types: &[ColumnType],
) -> VortexResult<Gathered>
    ensures { AnswersUnlessMemory result (λ columns. gathered_in columns
        ≡ typed_columns (map string_bytes names.now) (map (λ t. type_in t) types.now)) }
{
    let mut columns = Gathered::none(alloc);
    let count = names.len().min(types.len());
    for place in 0..count {
        let column = types[place].try_clone(alloc)?;
        columns.add(alloc, names[place].as_str(), column)?;
    }
    Ok(columns)
}
