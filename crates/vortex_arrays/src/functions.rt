//! The shipped functions' calls over arrays.
ghost use Rattle.std.specs.Prelude.{◌∷◌, []};
ghost use Rattle.vortex_operators.specs.declared.operators.Operator.{Operator};
ghost use Rattle.vortex_operators.specs.declared.between.BetweenOptions.{BetweenOptions};
ghost use Rattle.vortex_like.specs.declared.options.LikeOptions.{LikeOptions};
ghost use Rattle.vortex_interface.specs.Shipped.{Shipped};
ghost use Rattle.vortex_arrays.specs.Words.{AnswersUnlessMemory, AnswersCallOfRows};
ghost use Rattle.vortex_arrays.specs.Words.{AnswersOperands};
ghost use Rattle.vortex_arrays.specs.Words.{IsArrayCall, function_of, ours, rows_in};

use crate::call::ScalarFnArray;
use std::alloc::Global;
use vortex_columns::VortexResult;
use vortex_functions::{ArrayRef, ScalarFnRef};
use vortex_interface::ScalarFnVTable;
use vortex_kernels::{BetweenOptions, Operator};
use vortex_like::LikeOptions;
use vortex_shipped::{Between, Binary, Cast, IsNotNull, IsNull, Like, Not};

/// A function of one argument that does not accept all types.
pub trait UnaryCall {
    ghost unary: { Shipped };

    /// The call on one array. E3 exactly if its type is not accepted.
    fn try_new<C: ScalarFnVTable>(
        alloc: Global,
        input: ArrayRef<C>,
    ) -> VortexResult<ScalarFnArray<C>>
        ensures { AnswersOperands C.meaning (ours unary) (input ∷ []) (rows_in input) result };
}

/// A function of one argument that accepts all types.
pub trait NullTestCall {
    ghost null_test: { Shipped };

    /// The call on one array. Fails only where memory runs out.
    fn new<C: ScalarFnVTable>(alloc: Global, input: ArrayRef<C>) -> VortexResult<ScalarFnArray<C>>
        ensures { AnswersUnlessMemory result
            (IsArrayCall C.meaning (ours null_test) (input ∷ []) (rows_in input)) };
}

/// A function of two arguments and an operator.
pub trait BinaryCall {
    ghost binary: { Operator → Shipped };

    /// The call on two arrays: E2 if the right one has another row count, then E3 if the types are
    /// not accepted.
    fn try_new<C: ScalarFnVTable>(
        alloc: Global,
        lhs: ArrayRef<C>,
        rhs: ArrayRef<C>,
        operator: Operator,
    ) -> VortexResult<ScalarFnArray<C>>
        ensures { AnswersOperands C.meaning (ours (binary operator)) (lhs ∷ rhs ∷ []) (rows_in lhs)
            result };
}

/// A function of a value and its bounds.
pub trait BetweenCall {
    ghost between: { BetweenOptions → Shipped };

    /// The call on three arrays: E2 if a bound has another row count than the first array, then E3
    /// if the types are not accepted.
    fn try_new<C: ScalarFnVTable>(
        alloc: Global,
        array: ArrayRef<C>,
        lower: ArrayRef<C>,
        upper: ArrayRef<C>,
        options: BetweenOptions,
    ) -> VortexResult<ScalarFnArray<C>>
        ensures { AnswersOperands C.meaning (ours (between options)) (array ∷ lower ∷ upper ∷ [])
            (rows_in array) result };
}

/// A function of a text and a pattern.
pub trait LikeCall {
    ghost like: { LikeOptions → Shipped };

    /// The call on two arrays: E2 if the pattern has another row count, then E3 if the types are
    /// not accepted.
    fn try_new<C: ScalarFnVTable>(
        alloc: Global,
        input: ArrayRef<C>,
        pattern: ArrayRef<C>,
        options: LikeOptions,
    ) -> VortexResult<ScalarFnArray<C>>
        ensures { AnswersOperands C.meaning (ours (like options)) (input ∷ pattern ∷ [])
            (rows_in input) result };
}

/// The call of a function of one argument.
fn call_of_one<C: ScalarFnVTable>(
    alloc: Global,
    function: ScalarFnRef<C>,
    input: ArrayRef<C>,
) -> VortexResult<ScalarFnArray<C>>
    ensures { AnswersCallOfRows C.meaning (function_of function) (input ∷ []) (rows_in input)
        result }
{
    let mut children = Vec::new(alloc);
    children.push(input)?;
    ScalarFnArray::try_new(alloc, function, children)
}

/// The call of a function of two arguments.
fn call_of_two<C: ScalarFnVTable>(
    alloc: Global,
    function: ScalarFnRef<C>,
    first: ArrayRef<C>,
    second: ArrayRef<C>,
) -> VortexResult<ScalarFnArray<C>>
    ensures { AnswersCallOfRows C.meaning (function_of function) (first ∷ second ∷ [])
        (rows_in first) result }
{
    let mut children = Vec::new(alloc);
    children.push(first)?;
    children.push(second)?;
    ScalarFnArray::try_new(alloc, function, children)
}

/// The call of a function of three arguments.
fn call_of_three<C: ScalarFnVTable>(
    alloc: Global,
    function: ScalarFnRef<C>,
    first: ArrayRef<C>,
    second: ArrayRef<C>,
    third: ArrayRef<C>,
) -> VortexResult<ScalarFnArray<C>>
    ensures { AnswersCallOfRows C.meaning (function_of function) (first ∷ second ∷ third ∷ [])
        (rows_in first) result }
{
    let mut children = Vec::new(alloc);
    children.push(first)?;
    children.push(second)?;
    children.push(third)?;
    ScalarFnArray::try_new(alloc, function, children)
}

impl UnaryCall for Not {
    ghost use Rattle.vortex_interface.specs.Shipped as shipped;

    ghost unary = { shipped.Not };

    fn try_new<C: ScalarFnVTable>(
        alloc: Global,
        input: ArrayRef<C>,
    ) -> VortexResult<ScalarFnArray<C>> {
        call_of_one(alloc, ScalarFnRef::Not, input)
    }
}

impl UnaryCall for Cast {
    ghost use Rattle.vortex_interface.specs.Shipped as shipped;

    ghost unary = { shipped.Cast };

    fn try_new<C: ScalarFnVTable>(
        alloc: Global,
        input: ArrayRef<C>,
    ) -> VortexResult<ScalarFnArray<C>> {
        call_of_one(alloc, ScalarFnRef::Cast, input)
    }
}

impl NullTestCall for IsNull {
    ghost use Rattle.vortex_interface.specs.Shipped as shipped;

    ghost null_test = { shipped.IsNull };

    fn new<C: ScalarFnVTable>(alloc: Global, input: ArrayRef<C>) -> VortexResult<ScalarFnArray<C>> {
        call_of_one(alloc, ScalarFnRef::IsNull, input)
    }
}

impl NullTestCall for IsNotNull {
    ghost use Rattle.vortex_interface.specs.Shipped as shipped;

    ghost null_test = { shipped.IsNotNull };

    fn new<C: ScalarFnVTable>(alloc: Global, input: ArrayRef<C>) -> VortexResult<ScalarFnArray<C>> {
        call_of_one(alloc, ScalarFnRef::IsNotNull, input)
    }
}

impl BinaryCall for Binary {
    ghost use Rattle.vortex_interface.specs.Shipped as shipped;

    ghost binary = { shipped.Binary };

    fn try_new<C: ScalarFnVTable>(
        alloc: Global,
        lhs: ArrayRef<C>,
        rhs: ArrayRef<C>,
        operator: Operator,
    ) -> VortexResult<ScalarFnArray<C>> {
        call_of_two(alloc, ScalarFnRef::Binary(operator), lhs, rhs)
    }
}

impl BetweenCall for Between {
    ghost use Rattle.vortex_interface.specs.Shipped as shipped;

    ghost between = { shipped.Between };

    fn try_new<C: ScalarFnVTable>(
        alloc: Global,
        array: ArrayRef<C>,
        lower: ArrayRef<C>,
        upper: ArrayRef<C>,
        options: BetweenOptions,
    ) -> VortexResult<ScalarFnArray<C>> {
        call_of_three(alloc, ScalarFnRef::Between(options), array, lower, upper)
    }
}

impl LikeCall for Like {
    ghost use Rattle.vortex_interface.specs.Shipped as shipped;

    ghost like = { shipped.Like };

    fn try_new<C: ScalarFnVTable>(
        alloc: Global,
        input: ArrayRef<C>,
        pattern: ArrayRef<C>,
        options: LikeOptions,
    ) -> VortexResult<ScalarFnArray<C>> {
        call_of_two(alloc, ScalarFnRef::Like(options), input, pattern)
    }
}
