//! The column of a call of a function that makes texts.
ghost use Rattle.std.specs.Prelude.{◌≡◌, IsTrue, IsSome, length, map};
ghost use Rattle.vortex_errors.specs.Answers.{Answers, AnswersUnlessMemory};
ghost use Rattle.vortex_errors.specs.Arities.{fits};
ghost use Rattle.vortex_columns.specs.Cells.{cell_value};
ghost use Rattle.vortex_types.specs.TypeOf.{type_of};
ghost use Rattle.vortex_interface.specs.Functions.{IsTypeMismatch};
ghost use Rattle.vortex_interface.specs.Outcomes.{types_in, HasCallRows, IsCallFault};
ghost use Rattle.vortex_sql_rows.specs.AnsweredRows.{text_or_null};
ghost use Rattle.vortex_sql_calls.specs.Calls.{MadeRows};
ghost use Rattle.vortex_sql_rows.specs.Row.{row_type, row_means, row_gives};

use crate::call::{input_types, read_cells, typed_inputs};
use crate::column::column_of;
use std::alloc::Global;
use vortex_columns::{Cell, Column, DType, ExecutionCtx, PType, VortexResult};
use vortex_interface::ExecutionArgs;
use vortex_sql_rows::row::{TextFn, make_row};
use vortex_sql_rows::types::{main_ptype, type_by};

/// The type that a call returns; E3 exactly where the types are not taken.
pub fn text_dtype<F: TextFn>(alloc: Global, function: &F, types: &[DType]) -> VortexResult<DType>
    requires { IsTrue (fits (F.about function.now).arity (length types.now)) }
    ensures { Answers result
        (λ t. row_type (F.about function.now) (map type_of types.now) ≡ Some (type_of t))
        (λ e. (row_type (F.about function.now) (map type_of types.now) ≡ None)
        × IsTypeMismatch e) }
{
    type_by(alloc, function.signature().types, types)
}

/// The text of each row.
fn made_texts<F: TextFn, A: ExecutionArgs>(
    alloc: Global,
    function: &F,
    ptype: PType,
    args: &A,
) -> VortexResult<Vec<Option<String>>>
    ensures { Answers result
        (λ rows. MadeRows (row_gives (F.about function.now) ptype) (A.inputs args.now)
        (A.rows args.now) rows.items)
        (IsCallFault (λ ts. row_gives (F.about function.now) ptype) (A.inputs args.now)
        (A.rows args.now)) }
{
    let mut rows = Vec::new(alloc);
    let mut cells = Vec::new(alloc);
    for i in 0..args.row_count() {
        read_cells(args, i, &mut cells)?;
        match make_row(alloc, function, ptype, &cells) {
            Ok(made) => rows.push(made)?,
            Err(error) => return Err(error),
        }
    }
    Ok(rows)
}

fn text_cell(made: &Option<String>) -> Cell<'_>
    ensures { cell_value result ≡ text_or_null made.now }
{
    match made {
        Some(text) => Cell::Text(text.as_str()),
        None => Cell::Null,
    }
}

/// The cells of texts that were made.
fn text_cells(alloc: Global, made: &[Option<String>]) -> VortexResult<Vec<Cell<'_>>>
    ensures { AnswersUnlessMemory result
        (λ cells. map cell_value cells.items ≡ map text_or_null made.now) }
{
    let mut cells = Vec::new(alloc);
    for text in made {
        cells.push(text_cell(text))?;
    }
    Ok(cells)
}

/// The column of a call.
pub fn execute_texts<F: TextFn, A: ExecutionArgs>(
    function: &F,
    args: &A,
    ctx: &mut ExecutionCtx,
) -> VortexResult<Column>
    requires arity { IsTrue (fits (F.about function.now).arity (length (A.inputs args.now))) }
    requires accepted { IsSome (row_type (F.about function.now) (types_in (A.inputs args.now))) }
    ensures { Answers result
        (HasCallRows (row_type (F.about function.now)) (row_means (F.about function.now))
        (A.inputs args.now) (A.rows args.now))
        (IsCallFault (row_means (F.about function.now)) (A.inputs args.now) (A.rows args.now)) }
{
    let alloc = ctx.alloc();
    typed_inputs(args)?;
    let types = input_types(alloc, args)?;
    let dtype = text_dtype(alloc, function, &types)?;
    let ptype = main_ptype(function.signature().types.takes, &types);
    let made = made_texts(alloc, function, ptype, args)?;
    let cells = text_cells(alloc, &made)?;
    column_of(alloc, &dtype, &cells)
}
