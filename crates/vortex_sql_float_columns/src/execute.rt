//! The column of a call of an operator: a loop over keys where no row faults.
ghost use Rattle.std.specs.Prelude.{◌≡◌, ◌<◌, IfSome, IsSome, IsTrue, ⊤, length, pos};
ghost use Rattle.std.specs.Prelude.{slice_index_or};
ghost use Rattle.vortex_errors.specs.Answers.{Answers, AnswersUnlessMemory};
ghost use Rattle.vortex_errors.specs.Arities.{fits};
ghost use Rattle.vortex_types.specs.declared.dtype.PType.TheVariants.{I64};
ghost use Rattle.vortex_types.specs.Typing.{FitsPType};
ghost use Rattle.vortex_types.specs.Values.{number};
ghost use Rattle.vortex_columns.specs.Cells.{cell_value};
ghost use Rattle.vortex_interface.specs.Outcomes.{HasCallRows, IsCallFault, types_in};
ghost use Rattle.vortex_sql_rows.specs.Row.{row_type, row_means};
ghost use Rattle.vortex_sql_floats.specs.ArithmeticRows.{operator_row};
ghost use Rattle.vortex_sql_float_columns.specs.KeyedRows.{AreKeys, AreRowKeys, HasFloatRows};

use crate::keys::{Keys, ListedKeys, OneKey, key_rows};
use std::alloc::Global;
use vortex_columns::{Cell, Column, ExecutionCtx, NativePType, VortexResult, both_valid};
use vortex_interface::ExecutionArgs;
use vortex_sql_calls::call::execute_rows;
use vortex_sql_floats::floats::FloatOperator;

/// The integers of a column of `i64` that is not constant.
fn listed(column: &Column) -> Option<ListedKeys<'_>>
    ensures { IfSome result (λ k. AreRowKeys column.now (λ i. i < length k.keys.now)
        (λ i. slice_index_or k.keys.now i (pos 0))) }
{
    match column.ints::<i64>() {
        Some(keys) => Some(ListedKeys { keys }),
        None => None,
    }
}

/// The integer that a cell is, if it has 64 bits.
fn key_in(cell: &Cell<'_>) -> Option<i64>
    ensures value { IfSome result (λ key. cell_value cell.now ≡ number key) }
    ensures range { IfSome result (FitsPType I64) }
{
    match cell {
        Cell::Int(number) => i64::from_i128(*number),
        Cell::Null => None,
        Cell::Bool(_) => None,
        Cell::Text(_) => None,
        Cell::Bytes(_) => None,
        Cell::Sequence(_) => None,
    }
}

/// The integer in each row of a constant column of these.
fn constant_key(column: &Column) -> Option<OneKey>
    ensures { IfSome result (λ k. AreRowKeys column.now (λ i. ⊤) (λ i. k.key)) }
{
    match column.as_constant() {
        Some(scalar) => match key_in(&scalar.cell()) {
            Some(key) => Some(OneKey { key }),
            None => None,
        },
        None => None,
    }
}

/// The column of the integers of the results, null where a side is.
fn keyed_column<L: Keys, R: Keys>(
    alloc: Global,
    _operator: FloatOperator,
    keys: Vec<i64>,
    _left: &L,
    _right: &R,
    lhs: &Column,
    rhs: &Column,
) -> VortexResult<Column>
    requires lengths { length lhs.now.rows ≡ length rhs.now.rows }
    requires left { AreRowKeys lhs.now (L.has_row _left.now) (L.key_at _left.now) }
    requires right { AreRowKeys rhs.now (R.has_row _right.now) (R.key_at _right.now) }
    requires keys { AreKeys _operator (L.key_at _left.now) (R.key_at _right.now)
        (length lhs.now.rows) keys.items }
    ensures { AnswersUnlessMemory result (HasFloatRows _operator lhs.now rhs.now) }
{
    let validity = both_valid(alloc, lhs, rhs)?;
    Column::try_primitive(alloc, keys, validity)
}

/// The column of the results, unless a row faults, even under a null.
fn float_column<L: Keys, R: Keys>(
    alloc: Global,
    operator: FloatOperator,
    left: &L,
    right: &R,
    lhs: &Column,
    rhs: &Column,
) -> VortexResult<Option<Column>>
    requires lengths { length lhs.now.rows ≡ length rhs.now.rows }
    requires left { AreRowKeys lhs.now (L.has_row left.now) (L.key_at left.now) }
    requires right { AreRowKeys rhs.now (R.has_row right.now) (R.key_at right.now) }
    ensures { AnswersUnlessMemory result
        (λ made. IfSome made (HasFloatRows operator lhs.now rhs.now)) }
{
    let Some(keys) = key_rows(alloc, operator, left, right, lhs.len())? else {
        return Ok(None);
    };
    let made = keyed_column(alloc, operator, keys, left, right, lhs, rhs)?;
    Ok(Some(made))
}

/// The same for two columns, of which one may be constant.
fn keyed_columns(
    alloc: Global,
    operator: FloatOperator,
    lhs: &Column,
    rhs: &Column,
) -> VortexResult<Option<Column>>
    requires { length lhs.now.rows ≡ length rhs.now.rows }
    ensures { AnswersUnlessMemory result
        (λ made. IfSome made (HasFloatRows operator lhs.now rhs.now)) }
{
    match (listed(lhs), listed(rhs)) {
        (Some(left), Some(right)) => {
            float_column::<ListedKeys, ListedKeys>(alloc, operator, &left, &right, lhs, rhs)
        }
        (Some(left), None) => match constant_key(rhs) {
            Some(right) => {
                float_column::<ListedKeys, OneKey>(alloc, operator, &left, &right, lhs, rhs)
            }
            None => Ok(None),
        },
        (None, Some(right)) => match constant_key(lhs) {
            Some(left) => {
                float_column::<OneKey, ListedKeys>(alloc, operator, &left, &right, lhs, rhs)
            }
            None => Ok(None),
        },
        (None, None) => Ok(None),
    }
}

/// The column of a call by the loop over keys, where that has one.
fn calculated<A: ExecutionArgs>(
    alloc: Global,
    operator: FloatOperator,
    args: &A,
) -> VortexResult<Option<Column>>
    requires count { length (A.inputs args.now) ≡ 2 }
    requires accepted { IsSome (row_type (operator_row operator) (types_in (A.inputs args.now))) }
    ensures { AnswersUnlessMemory result (λ made. IfSome made
        (HasCallRows (row_type (operator_row operator)) (row_means (operator_row operator))
        (A.inputs args.now) (A.rows args.now))) }
{
    let left = args.get(0)?;
    let right = args.get(1)?;
    keyed_columns(alloc, operator, left, right)
}

/// The column of a call of an operator of floats: where neither side is nulls alone, not both are
/// constant, and no row faults, even under a null, by a loop over the keys; else row by row.
pub fn execute_float_operator<A: ExecutionArgs>(
    operator: FloatOperator,
    args: &A,
    ctx: &mut ExecutionCtx,
) -> VortexResult<Column>
    requires arity { IsTrue (fits (operator_row operator).arity (length (A.inputs args.now))) }
    requires accepted { IsSome (row_type (operator_row operator) (types_in (A.inputs args.now))) }
    ensures { Answers result
        (HasCallRows (row_type (operator_row operator)) (row_means (operator_row operator))
        (A.inputs args.now) (A.rows args.now))
        (IsCallFault (row_means (operator_row operator)) (A.inputs args.now) (A.rows args.now)) }
{
    match calculated(ctx.alloc(), operator, args)? {
        Some(made) => Ok(made),
        None => execute_rows(&operator, args, ctx),
    }
}
