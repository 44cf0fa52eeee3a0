//! The column of a call, row by row.
ghost use Rattle.std.specs.Prelude.{◌≡◌, ◌<◌, IsTrue, IsSome, length, map};
ghost use Rattle.vortex_errors.specs.Answers.{Answers, AnswersUnlessMemory};
ghost use Rattle.vortex_errors.specs.Arities.{fits};
ghost use Rattle.vortex_types.specs.TypeOf.{type_of};
ghost use Rattle.vortex_interface.specs.Outcomes.{values_at, types_in, HasCallRows, IsCallFault};
ghost use Rattle.vortex_interface.specs.Functions.{IsTypeMismatch};
ghost use Rattle.vortex_sql_calls.specs.Calls.{AreRowCells, AnsweredRows, EachTyped};
ghost use Rattle.vortex_sql_rows.specs.Row.{row_type, row_means, row_gives, row_ptype};

use crate::column::column_of;
use std::alloc::Global;
use vortex_columns::{Cell, Column, DType, ExecutionCtx, PType, VortexResult};
use vortex_interface::ExecutionArgs;
use vortex_sql_rows::row::{RowFn, answer_row};
use vortex_sql_rows::types::{main_ptype, type_by};

/// Puts the cells of a row in place of those that are there.
pub fn read_cells<'a, A: ExecutionArgs>(
    args: &'a A,
    i: usize,
    cells: &mut Vec<Cell<'a>>,
) -> VortexResult<()>
    requires { i < A.rows args.now }
    ensures { AnswersUnlessMemory result
        (λ _. AreRowCells (values_at (A.inputs args.now) i) cells.new.items) }
{
    cells.clear();
    for k in 0..args.num_inputs() {
        let input = args.get(k)?;
        cells.push(input.cell(i))?;
    }
    Ok(())
}

/// The cell of each row.
fn answered_cells<'a, F: RowFn, A: ExecutionArgs>(
    alloc: Global,
    function: &F,
    ptype: PType,
    args: &'a A,
) -> VortexResult<Vec<Cell<'a>>>
    ensures { Answers result
        (λ rows. AnsweredRows (row_gives (F.about function.now) ptype) (A.inputs args.now)
        (A.rows args.now) rows.items)
        (IsCallFault (λ ts. row_gives (F.about function.now) ptype) (A.inputs args.now)
        (A.rows args.now)) }
{
    let mut rows = Vec::new(alloc);
    let mut cells = Vec::new(alloc);
    for i in 0..args.row_count() {
        read_cells(args, i, &mut cells)?;
        match answer_row(function, ptype, &cells) {
            Ok(made) => rows.push(made)?,
            Err(error) => return Err(error),
        }
    }
    Ok(rows)
}

/// The type that a call returns; E3 exactly where the types are not taken.
pub fn row_dtype<F: RowFn>(alloc: Global, function: &F, types: &[DType]) -> VortexResult<DType>
    requires { IsTrue (fits (F.about function.now).arity (length types.now)) }
    ensures { Answers result
        (λ t. row_type (F.about function.now) (map type_of types.now) ≡ Some (type_of t))
        (λ e. (row_type (F.about function.now) (map type_of types.now) ≡ None)
        × IsTypeMismatch e) }
{
    type_by(alloc, function.signature().types, types)
}

pub fn input_types<A: ExecutionArgs>(alloc: Global, args: &A) -> VortexResult<Vec<DType>>
    ensures { AnswersUnlessMemory result
        (λ types. map type_of types.items ≡ types_in (A.inputs args.now)) }
{
    let mut types = Vec::new(alloc);
    for k in 0..args.num_inputs() {
        let input = args.get(k)?;
        let kind = input.dtype().try_clone(alloc)?;
        types.push(kind)?;
    }
    Ok(types)
}

/// Reads each input once, so that its rows are known to have its type.
pub fn typed_inputs<A: ExecutionArgs>(args: &A) -> VortexResult<()>
    ensures { AnswersUnlessMemory result (λ _. EachTyped (A.inputs args.now) (A.rows args.now)) }
{
    for k in 0..args.num_inputs() {
        let input = args.get(k)?;
        let _typed = input.dtype();
    }
    Ok(())
}

/// The column of a call.
pub fn execute_rows<F: RowFn, A: ExecutionArgs>(
    function: &F,
    args: &A,
    ctx: &mut ExecutionCtx,
) -> VortexResult<Column>
    requires arity { IsTrue (fits (F.about function.now).arity (length (A.inputs args.now))) }
    requires accepted { IsSome (row_type (F.about function.now) (types_in (A.inputs args.now))) }
    ensures { Answers result
        (HasCallRows (row_type (F.about function.now)) (row_means (F.about function.now))
        (A.inputs args.now) (A.rows args.now))
        (IsCallFault (row_means (F.about function.now)) (A.inputs args.now) (A.rows args.now)) }
{
    let alloc = ctx.alloc();
    typed_inputs(args)?;
    let types = input_types(alloc, args)?;
    let dtype = row_dtype(alloc, function, &types)?;
    let ptype = main_ptype(function.signature().types.takes, &types);
    let rows = answered_cells(alloc, function, ptype, args)?;
    column_of(alloc, &dtype, &rows)
}
