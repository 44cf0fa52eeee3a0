//! Columns with the kinds of their values.
ghost use Rattle.std.specs.Prelude.{◌≡◌, ◌<◌};
ghost use Rattle.vortex_errors.specs.Answers.{AnswersUnlessMemory};
ghost use Rattle.vortex_types.specs.LogicalTypes.{field_count};
ghost use Rattle.vortex_types.specs.TypeOf.{struct_fields};
ghost use Rattle.rowfn_queries.specs.ColumnTypes.{type_in};
ghost use Rattle.rowfn_queries.specs.Columns.{gathered_in, scope_in, none, with_new};
ghost use Rattle.rowfn_queries.specs.Columns.{column_at};

use crate::column_type::ColumnType;
use std::alloc::Global;
use vortex_columns::{StructFields, VortexResult};
use vortex_logical::kind::Kind;

/// Columns that were gathered, each name once.
#[derive(Drop)]
pub(crate) struct Gathered {
    pub(crate) fields: StructFields,
    /// The kinds of their values, by place; further columns are plain.
    pub(crate) kinds: Vec<Kind>,
}

/// Columns that texts may read.
#[derive(Clone, Copy)]
pub(crate) struct Scope<'a> {
    pub(crate) fields: &'a StructFields,
    /// The kinds of their values, by place; further columns are plain.
    pub(crate) kinds: &'a [Kind],
}

impl Gathered {
    /// No columns. Takes no memory.
    pub(crate) fn none(alloc: Global) -> Gathered
        ensures { gathered_in result ≡ none }
    {
        Gathered {
            fields: StructFields::new(alloc),
            kinds: Vec::new(alloc),
        }
    }

    pub(crate) fn scope(&self) -> Scope<'_>
        ensures { scope_in result ≡ gathered_in self.now }
    {
        Scope {
            fields: &self.fields,
            kinds: &self.kinds,
        }
    }

    /// One column more, where none has its name yet. E9 where an allocation fails.
    pub(crate) fn add(&mut self, alloc: Global, name: &str, column: ColumnType) -> VortexResult<()>
        ensures { AnswersUnlessMemory result (λ _. gathered_in self.new
            ≡ with_new (gathered_in self.old) name.now (type_in column)) }
    {
        if self.fields.find(name).is_some() {
            return Ok(());
        }
        self.fields
            .push(String::from_str(alloc, name)?, column.dtype)?;
        self.kinds.push(column.kind)?;
        Ok(())
    }
}

impl Scope<'_> {
    /// The type of a column, with its kind.
    pub(crate) fn column(&self, alloc: Global, place: usize) -> VortexResult<ColumnType>
        requires { place < field_count (struct_fields self.now.fields.now) }
        ensures { AnswersUnlessMemory result
            (λ column. type_in column ≡ column_at (scope_in self.now) place) }
    {
        let dtype = self.fields.dtype(place).try_clone(alloc)?;
        let kind = self.kinds.get(place).copied().unwrap_or(Kind::Plain);
        Ok(ColumnType { dtype, kind })
    }
}
