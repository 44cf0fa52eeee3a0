//! Expressions as people write them, read and written.

use crate::seen::Tally;
use std::alloc::Global;
use vortex_columns::{DType, Nullability, PType, StructFields, VortexError, VortexResult};
use vortex_expressions::{
    TextError, read_answers, read_expression, read_logical, write_expression,
};
use vortex_logical::kind::{Kind, kind_named};

const TEXT: &str = "price * 2 > 100 and \"the \"\"name\"\"\" like 'a''%'";

fn scope(alloc: Global) -> VortexResult<StructFields> {
    let fields = [
        ("price", DType::Primitive(PType::I64, Nullability::Nullable)),
        ("the \"name\"", DType::Utf8(Nullability::NonNullable)),
    ];
    StructFields::of(alloc, &fields)
}

/// `false` for a text that fails; else out of memory.
fn refused(error: &TextError) -> VortexResult<bool> {
    if error.is_out_of_memory() {
        Err(VortexError::OutOfMemory)
    } else {
        Ok(false)
    }
}

/// Whether what is read of the text is written as the text.
fn reads_and_writes(alloc: Global) -> VortexResult<bool> {
    let scope = scope(alloc)?;
    match read_expression(alloc, &scope, TEXT) {
        Ok(tree) => match write_expression(alloc, &tree)? {
            Some(text) => Ok(text.as_str() == TEXT),
            None => Ok(false),
        },
        Err(error) => refused(&error),
    }
}

/// Whether two answers are read, the first with a name.
fn reads_answers(alloc: Global) -> VortexResult<bool> {
    let scope = scope(alloc)?;
    match read_answers(alloc, &scope, &[], "price as \"a\"\"b\", null::utf8") {
        Ok(answers) => match answers.as_slice() {
            [first, second] => Ok(first.name.is_some() && second.name.is_none()),
            _ => Ok(false),
        },
        Err(error) => refused(&error),
    }
}

/// Whether an unknown column is an error, with the one that may be meant.
fn tells_a_column(alloc: Global) -> VortexResult<bool> {
    let scope = scope(alloc)?;
    match read_expression(alloc, &scope, "1 < prcie") {
        Ok(_) => Ok(false),
        Err(error) => {
            refused(&error)?;
            Ok(error.byte == 4 && error.line == 1 && error.column == 5)
        }
    }
}

/// A decimal, a date and a float, as they are stored.
fn kinds(alloc: Global) -> VortexResult<(StructFields, Vec<Kind>)> {
    let fields = [
        ("price", DType::Primitive(PType::I64, Nullability::Nullable)),
        ("day", DType::Primitive(PType::I32, Nullability::Nullable)),
        ("x", DType::Primitive(PType::I64, Nullability::Nullable)),
    ];
    let scope = StructFields::of(alloc, &fields)?;
    let price = match kind_named("decimal(12,2)") {
        Some(kind) => kind,
        None => Kind::Plain,
    };
    Ok((scope, vec![in alloc; price, Kind::Date, Kind::F64]?))
}

/// The kind of an expression over them.
fn kind_of(alloc: Global, text: &str) -> VortexResult<Option<Kind>> {
    let (scope, kinds) = kinds(alloc)?;
    match read_logical(alloc, &scope, &kinds, text) {
        Ok(answer) => Ok(Some(answer.kind)),
        Err(error) => {
            refused(&error)?;
            Ok(None)
        }
    }
}

/// Whether values of kinds are compared and computed, each by its own calls.
fn reads_kinds(alloc: Global) -> VortexResult<bool> {
    let truth = kind_of(
        alloc,
        "price * 3 > 12.5 and day between '2024-01-01' and day + 30",
    )?;
    let float = kind_of(alloc, "x / price - 0.5")?;
    Ok(truth == Some(Kind::Plain) && float == Some(Kind::F64))
}

/// Whether kinds that do not meet are an error.
fn refuses_kinds(alloc: Global) -> VortexResult<bool> {
    let found = kind_of(alloc, "day > price")?;
    Ok(found == None)
}

pub fn ask(alloc: Global, tally: &mut Tally) {
    tally.note("read_logical", reads_kinds(alloc));
    tally.note(
        "read_logical of kinds that do not meet",
        refuses_kinds(alloc),
    );
    tally.note("read_expression, write_expression", reads_and_writes(alloc));
    tally.note("read_answers", reads_answers(alloc));
    tally.note("read_expression of no column", tells_a_column(alloc));
}
