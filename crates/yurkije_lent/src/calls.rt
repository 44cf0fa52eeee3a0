//! Calls over operands: which are executed where rows lie, and how.
ghost use Rattle.std.specs.Prelude.{◌≡◌, IfSome, IsSome, IsTrue, is_some, length, map};
ghost use Rattle.std.specs.Cow.{cow_value};
ghost use Rattle.vortex_interface.specs.Args.{AreOfLength};
ghost use Rattle.vortex_interface.specs.Functions.{function_arity, function_type, function_means};
ghost use Rattle.vortex_interface.specs.Meaning.{fits};
ghost use Rattle.vortex_interface.specs.Outcomes.{HasCallRows, types_in};
ghost use Rattle.vortex_functions.specs.FunctionOf.{function_of};
ghost use Rattle.vortex_standard.specs.Standard.{standard_meaning};
ghost use Rattle.vortex_interface.specs.Functions.{ours, custom};
ghost use Rattle.vortex_interface.specs.Shipped.{Between, NullTest};
ghost use Rattle.vortex_operators.specs.Arithmetic.{numeric_operator_of};
ghost use Rattle.yurkije_lent.specs.Calls.{IsDirectCall, IsOperatorCall, is_direct_number};
ghost use Rattle.yurkije_lent.specs.Calls.{is_direct_function, float_operator_in};
ghost use Rattle.yurkije_lent.specs.Operands.{operand_column};

use crate::between::between_operands;
use crate::compare::compare_operands;
use crate::float_arithmetic::calculate_floats;
use crate::null_tests::test_nulls;
use crate::numeric::calculate_operands;
use crate::operand::Operand;
use std::alloc::Global;
use std::borrow::Cow;
use vortex_arrow::ArrowValues;
use vortex_columns::{Column, DType, ExecutionCtx, NumericOperator};
use vortex_functions::{ScalarFnRef, TypedScalarFnInstance, VecExecutionArgs};
use vortex_operators::{BetweenOptions, CompareOperator, Operator};
use vortex_sql_floats::floats::FloatOperator;
use vortex_standard::Standard;

/// A call that is executed over rows where they lie.
#[derive(Drop)]
pub(crate) enum DirectCall {
    Comparison(CompareOperator),
    Arithmetic(NumericOperator),
    FloatArithmetic(FloatOperator),
    Between(BetweenOptions),
    /// Whether a row is null, or, if negated, whether it is not.
    NullTest(bool),
    /// Of truth values, which are made columns first: bits are copied fast.
    OfTruths,
}

/// The call that an operator is; none for quotients, which the kernel of columns computes by ways of
/// its own.
fn operator_call(operator: Operator) -> Option<DirectCall>
    ensures call { IfSome result (IsOperatorCall operator) }
    ensures served { is_some result ≡ is_direct_number (numeric_operator_of operator) }
{
    match operator.to_numeric_operator() {
        Some(NumericOperator::Div) => None,
        Some(numeric) => Some(DirectCall::Arithmetic(numeric)),
        None => match operator.to_compare_operator() {
            Some(compare) => Some(DirectCall::Comparison(compare)),
            None => Some(DirectCall::OfTruths),
        },
    }
}

/// The operator of arithmetic of floats that a caller's function is.
fn float_operator(vtable: &Standard) -> Option<FloatOperator>
    ensures { result ≡ float_operator_in vtable.now }
{
    match vtable {
        Standard::FloatOperator(operator) => Some(*operator),
        _ => None,
    }
}

/// The call of a caller's function.
fn custom_call(function: &TypedScalarFnInstance<Standard>) -> Option<DirectCall>
    ensures call { IfSome result (λ call.
        IsDirectCall call (custom function.now.vtable function.now.options)) }
    ensures served { is_some result ≡ is_some (float_operator_in function.now.vtable) }
{
    let operator = float_operator(function.vtable())?;
    Some(DirectCall::FloatArithmetic(operator))
}

/// The call of a function that is executed over rows where they lie: comparisons, BETWEEN, null
/// tests, sums, differences and products, the arithmetic of floats, And, Or and Not. None for
/// another function.
pub(crate) fn direct_call(function: &ScalarFnRef<Standard>) -> Option<DirectCall>
    ensures call { IfSome result (λ call. IsDirectCall call (function_of function.now)) }
    ensures served { is_some result ≡ is_direct_function (function_of function.now) }
{
    match function {
        ScalarFnRef::Binary(operator) => operator_call(*operator),
        ScalarFnRef::Not => Some(DirectCall::OfTruths),
        ScalarFnRef::IsNull => Some(DirectCall::NullTest(false)),
        ScalarFnRef::IsNotNull => Some(DirectCall::NullTest(true)),
        ScalarFnRef::Between(options) => Some(DirectCall::Between(BetweenOptions {
            lower_strict: options.lower_strict,
            upper_strict: options.upper_strict,
        })),
        ScalarFnRef::Custom(function) => custom_call(function),
        ScalarFnRef::Cast | ScalarFnRef::Like(_) => None,
    }
}

/// The columns of the operands, in their order. None where memory is refused.
fn columns_of<'a>(inputs: Vec<Operand<'_>>, ctx: &mut ExecutionCtx) -> Option<Vec<Cow<'a, Column>>>
    ensures { IfSome result
        (λ columns. map cow_value columns.items ≡ map operand_column inputs.entry.items) }
{
    let alloc = ctx.alloc();
    let mut columns = Vec::new(alloc);
    for input in inputs {
        columns.push(Cow::Owned(input.into_column(alloc)?)).ok()?;
    }
    Some(columns)
}

/// The column of a call over the columns of its operands.
fn call_columns(
    function: &ScalarFnRef<Standard>,
    inputs: Vec<Operand<'_>>,
    rows: usize,
    ctx: &mut ExecutionCtx,
) -> Option<Column>
    requires arity { IsTrue
        (fits (function_arity standard_meaning (function_of function.now)) (length inputs.items)) }
    requires accepted { IsSome (function_type standard_meaning (function_of function.now)
        (types_in (map operand_column inputs.items))) }
    requires lengths { AreOfLength rows (map operand_column inputs.items) }
    ensures { IfSome result (HasCallRows (function_type standard_meaning (function_of function.now))
        (function_means standard_meaning (function_of function.now))
        (map operand_column inputs.entry.items) rows) }
{
    let columns = columns_of(inputs, ctx)?;
    let args = VecExecutionArgs::new(columns, rows);
    function.execute(&args, ctx).ok()
}

/// The column of a call of two operands by a kernel over their rows.
fn call_two(
    alloc: Global,
    function: &ScalarFnRef<Standard>,
    call: &DirectCall,
    inputs: &[Operand<'_>],
    rows: usize,
) -> Option<Column>
    requires call { IsDirectCall call.now (function_of function.now) }
    requires accepted { IsSome (function_type standard_meaning (function_of function.now)
        (types_in (map operand_column inputs.now))) }
    requires lengths { AreOfLength rows (map operand_column inputs.now) }
    ensures { IfSome result (HasCallRows (function_type standard_meaning (function_of function.now))
        (function_means standard_meaning (function_of function.now))
        (map operand_column inputs.now) rows) }
{
    if inputs.len() != 2 {
        return None;
    }
    match call {
        DirectCall::Comparison(operator) => {
            compare_operands(alloc, *operator, &inputs[0], &inputs[1])
        }
        DirectCall::Arithmetic(operator) => {
            calculate_operands(alloc, *operator, &inputs[0], &inputs[1])
        }
        DirectCall::FloatArithmetic(operator) => {
            calculate_floats(alloc, *operator, &inputs[0], &inputs[1])
        }
        _ => None,
    }
}

/// The column of BETWEEN of three operands.
fn call_between(
    alloc: Global,
    function: &ScalarFnRef<Standard>,
    options: &BetweenOptions,
    inputs: &[Operand<'_>],
    rows: usize,
) -> Option<Column>
    requires call { function_of function.now ≡ ours (Between options.now) }
    requires accepted { IsSome (function_type standard_meaning (function_of function.now)
        (types_in (map operand_column inputs.now))) }
    requires lengths { AreOfLength rows (map operand_column inputs.now) }
    ensures { IfSome result (HasCallRows (function_type standard_meaning (function_of function.now))
        (function_means standard_meaning (function_of function.now))
        (map operand_column inputs.now) rows) }
{
    if inputs.len() != 3 {
        return None;
    }
    between_operands(alloc, options, &inputs[0], &inputs[1], &inputs[2])
}

/// The column of a null test of an operand.
fn call_null_test(
    function: &ScalarFnRef<Standard>,
    negated: bool,
    inputs: &[Operand<'_>],
    rows: usize,
    ctx: &mut ExecutionCtx,
) -> Option<Column>
    requires call { function_of function.now ≡ ours (NullTest negated) }
    requires lengths { AreOfLength rows (map operand_column inputs.now) }
    ensures { IfSome result (HasCallRows (function_type standard_meaning (function_of function.now))
        (function_means standard_meaning (function_of function.now))
        (map operand_column inputs.now) rows) }
{
    if inputs.len() != 1 {
        return None;
    }
    test_nulls(negated, &inputs[0], ctx)
}

/// Whether the first operand is of truth values.
fn are_truths(inputs: &[Operand<'_>]) -> bool {
    match inputs.first() {
        Some(Operand::Lent(column)) => matches!(column.values, ArrowValues::Bool(_)),
        Some(Operand::Made(column)) => matches!(column.dtype(), DType::Bool(_)),
        None => false,
    }
}

/// The column of a call over its operands, none of whose values is copied, but for truth values.
/// None where a row may fault, an operand has another form than the kernels know, or memory is
/// refused.
pub(crate) fn call_rows(
    function: &ScalarFnRef<Standard>,
    call: &DirectCall,
    inputs: Vec<Operand<'_>>,
    rows: usize,
    ctx: &mut ExecutionCtx,
) -> Option<Column>
    requires call { IsDirectCall call.now (function_of function.now) }
    requires arity { IsTrue
        (fits (function_arity standard_meaning (function_of function.now)) (length inputs.items)) }
    requires accepted { IsSome (function_type standard_meaning (function_of function.now)
        (types_in (map operand_column inputs.items))) }
    requires lengths { AreOfLength rows (map operand_column inputs.items) }
    ensures { IfSome result (HasCallRows (function_type standard_meaning (function_of function.now))
        (function_means standard_meaning (function_of function.now))
        (map operand_column inputs.entry.items) rows) }
{
    match call {
        DirectCall::OfTruths => call_columns(function, inputs, rows, ctx),
        DirectCall::Comparison(_) if are_truths(&inputs) => {
            call_columns(function, inputs, rows, ctx)
        }
        DirectCall::NullTest(negated) => call_null_test(function, *negated, &inputs, rows, ctx),
        DirectCall::Between(options) => {
            call_between(ctx.alloc(), function, options, &inputs, rows)
        }
        _ => call_two(ctx.alloc(), function, call, &inputs, rows),
    }
}
