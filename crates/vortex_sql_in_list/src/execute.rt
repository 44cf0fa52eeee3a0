//! The column of a call of `in_list`.
ghost use Rattle.std.specs.Prelude.{◌≡◌, ◌<◌, ◌||◌, IfSome, IsSome, IsTrue, Some, length, true};
ghost use Rattle.std.specs.Prelude.{slice_get};
ghost use Rattle.vortex_errors.specs.Answers.{Answers, AnswersUnlessMemory};
ghost use Rattle.vortex_errors.specs.Arities.{fits};
ghost use Rattle.vortex_types.specs.LogicalTypes.{bool_type, is_nullable};
ghost use Rattle.vortex_types.specs.TypeOf.{type_of};
ghost use Rattle.vortex_interface.specs.Outcomes.{HasCallRows, IsCallFault, types_in, values_at};
ghost use Rattle.vortex_kernels.specs.Rows.{HasRows};
ghost use Rattle.vortex_sql_rows.specs.Row.{row_type, row_means};
ghost use Rattle.vortex_sql_choices.specs.InList.{in_list, in_list_row};
ghost use Rattle.vortex_sql_in_list.specs.InLists.{AreItems};

use crate::found::found_column;
use crate::items::{CellItem, constant_items};
use crate::rows::{IntRows, ItemRows, TextRows};
use std::alloc::Global;
use vortex_columns::{Column, DType, ExecutionCtx, NativePType, PType, VortexResult};
use vortex_interface::ExecutionArgs;
use vortex_sets::{IntItem, ItemSet, TextItem};
use vortex_sql_calls::call::{execute_rows, input_types, row_dtype};
use vortex_sql_choices::in_list::InList;

/// Whether it is the type of truth values, with null or without.
fn is_bool(dtype: &DType, nullable: bool) -> bool
    ensures { result ≡ true → type_of dtype.now ≡ bool_type nullable }
{
    match dtype {
        DType::Bool(nullability) => nullability.is_nullable() == nullable,
        _ => false,
    }
}

/// Whether a row of the column or an item may be null.
fn may_be_null(column: &Column, has_null: bool) -> bool
    ensures { result ≡ (is_nullable column.now.dtype || has_null) }
{
    column.dtype().is_nullable() || has_null
}

/// The rows of the first input, looked up in the others; none where these are not constant, or
/// there is no set of them.
fn looked_up<'a, I: CellItem<'a>, R: ItemRows<I>, A: ExecutionArgs>(
    alloc: Global,
    args: &'a A,
    dtype: &DType,
    value: &Column,
    rows: &R,
) -> VortexResult<Option<Column>>
    requires first { slice_get (A.inputs args.now) 0 ≡ Some value.now }
    requires count { length value.now.rows ≡ A.rows args.now }
    requires items { AreItems value.now (R.values rows.now) }
    ensures { AnswersUnlessMemory result (λ made. IfSome made (λ c. HasRows (type_of dtype.now)
        (A.rows args.now) (λ i. in_list (values_at (A.inputs args.now) i)) c)) }
{
    let Some(items) = constant_items::<I, A>(alloc, args)? else {
        return Ok(None);
    };
    let has_null = items.has_null;
    let Some(set) = ItemSet::try_new(alloc, items.values)? else {
        return Ok(None);
    };
    let nullable = may_be_null(value, has_null);
    if !is_bool(dtype, nullable) {
        return Ok(None);
    }
    let made = found_column(alloc, value, rows, &set, has_null)?;
    Ok(Some(made))
}

/// The same, where the first input has integers of that type.
fn looked_up_ints<T: NativePType, A: ExecutionArgs>(
    alloc: Global,
    args: &A,
    dtype: &DType,
) -> VortexResult<Option<Column>>
    requires { 0 < length (A.inputs args.now) }
    ensures { AnswersUnlessMemory result (λ made. IfSome made (λ c. HasRows (type_of dtype.now)
        (A.rows args.now) (λ i. in_list (values_at (A.inputs args.now) i)) c)) }
{
    let value = args.get(0)?;
    let Some(numbers) = value.ints::<T>() else {
        return Ok(None);
    };
    looked_up::<IntItem<T>, IntRows<T>, A>(alloc, args, dtype, value, &IntRows { numbers })
}

/// The same, where it has texts.
fn looked_up_texts<A: ExecutionArgs>(
    alloc: Global,
    args: &A,
    dtype: &DType,
) -> VortexResult<Option<Column>>
    requires { 0 < length (A.inputs args.now) }
    ensures { AnswersUnlessMemory result (λ made. IfSome made (λ c. HasRows (type_of dtype.now)
        (A.rows args.now) (λ i. in_list (values_at (A.inputs args.now) i)) c)) }
{
    let value = args.get(0)?;
    if !value.dtype().is_utf8() {
        return Ok(None);
    }
    let Some(texts) = value.views() else {
        return Ok(None);
    };
    looked_up::<TextItem, TextRows, A>(alloc, args, dtype, value, &TextRows { texts })
}

/// The same, at the type of the first input.
fn looked_up_any<A: ExecutionArgs>(
    alloc: Global,
    args: &A,
    dtype: &DType,
) -> VortexResult<Option<Column>>
    requires { 0 < length (A.inputs args.now) }
    ensures { AnswersUnlessMemory result (λ made. IfSome made (λ c. HasRows (type_of dtype.now)
        (A.rows args.now) (λ i. in_list (values_at (A.inputs args.now) i)) c)) }
{
    match args.get(0)?.dtype() {
        DType::Utf8(_) => looked_up_texts(alloc, args, dtype),
        DType::Primitive(ptype, _) => match ptype {
            PType::I8 => looked_up_ints::<i8, A>(alloc, args, dtype),
            PType::I16 => looked_up_ints::<i16, A>(alloc, args, dtype),
            PType::I32 => looked_up_ints::<i32, A>(alloc, args, dtype),
            PType::I64 => looked_up_ints::<i64, A>(alloc, args, dtype),
            PType::U8 => looked_up_ints::<u8, A>(alloc, args, dtype),
            PType::U16 => looked_up_ints::<u16, A>(alloc, args, dtype),
            PType::U32 => looked_up_ints::<u32, A>(alloc, args, dtype),
            PType::U64 => looked_up_ints::<u64, A>(alloc, args, dtype),
        },
        _ => Ok(None),
    }
}

/// The column of a call of `in_list`: where the items are constant integers or texts, each row is
/// looked up in a set of them.
pub fn execute_in_list<A: ExecutionArgs>(args: &A, ctx: &mut ExecutionCtx) -> VortexResult<Column>
    requires arity { IsTrue (fits in_list_row.arity (length (A.inputs args.now))) }
    requires accepted { IsSome (row_type in_list_row (types_in (A.inputs args.now))) }
    ensures { Answers result
        (HasCallRows (row_type in_list_row) (row_means in_list_row) (A.inputs args.now)
        (A.rows args.now))
        (IsCallFault (row_means in_list_row) (A.inputs args.now) (A.rows args.now)) }
{
    let alloc = ctx.alloc();
    let types = input_types(alloc, args)?;
    let dtype = row_dtype(alloc, &InList, &types)?;
    match looked_up_any(alloc, args, &dtype)? {
        Some(made) => Ok(made),
        None => execute_rows(&InList, args, ctx),
    }
}
