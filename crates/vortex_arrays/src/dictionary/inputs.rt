//! The arguments of a call: a column, and others that are constants.
ghost use Rattle.std.specs.Prelude.{◌≡◌, ◌≤◌, ◌++◌, length, map};
ghost use Rattle.std.specs.Cow.{cow_value};
ghost use Rattle.vortex_arrays.specs.Words.{Answers, AnswersUnlessMemory, TakesInputs};
ghost use Rattle.vortex_arrays.specs.Words.{RefusesInputs, constants, function_of, inputs_of};
ghost use Rattle.vortex_arrays.specs.Words.{type_of, types_in};

use std::alloc::Global;
use std::borrow::Cow;
use vortex_columns::{Column, DType, Scalar, VortexError, VortexResult};
use vortex_functions::{ScalarFnRef, ScalarFnVTable};

/// Adds a column for each scalar, which is in each of that many rows.
fn push_constants<'a>(
    alloc: Global,
    scalars: &[Scalar],
    rows: usize,
    inputs: &mut Vec<Cow<'a, Column>>,
) -> VortexResult<()>
    ensures { AnswersUnlessMemory result (λ _. map cow_value inputs.new.items
        ≡ map cow_value inputs.old.items ++ constants rows scalars.now) }
{
    for scalar in scalars {
        let column = Column::constant(alloc, scalar.try_clone(alloc)?, rows)?;
        inputs.push(Cow::Owned(column))?;
    }
    Ok(())
}

/// The column, borrowed, at its index among the others.
pub(crate) fn inputs_of<'a>(
    alloc: Global,
    column: &'a Column,
    child_idx: usize,
    others: &[Scalar],
) -> VortexResult<Vec<Cow<'a, Column>>>
    requires { child_idx ≤ length others.now }
    ensures { AnswersUnlessMemory result
        (λ inputs. map cow_value inputs.items ≡ inputs_of child_idx column.now others.now) }
{
    let (before, behind) = others.split_at(child_idx);
    let mut inputs = Vec::new(alloc);
    push_constants(alloc, before, column.len(), &mut inputs)?;
    inputs.push(Cow::Borrowed(column))?;
    push_constants(alloc, behind, column.len(), &mut inputs)?;
    Ok(inputs)
}

/// The types of a call's arguments.
fn dtypes_of(alloc: Global, inputs: &[Cow<'_, Column>]) -> VortexResult<Vec<DType>>
    ensures { AnswersUnlessMemory result
        (λ dtypes. map type_of dtypes.items ≡ types_in (map cow_value inputs.now)) }
{
    let mut dtypes = Vec::new(alloc);
    for input in inputs {
        dtypes.push(input.dtype().try_clone(alloc)?)?;
    }
    Ok(dtypes)
}

/// Fails where binding a call fails. E6 exactly if the count of arguments does not fit the arity,
/// then E3 exactly if their types are not accepted.
pub(crate) fn check_inputs<C: ScalarFnVTable>(
    alloc: Global,
    function: &ScalarFnRef<C>,
    inputs: &[Cow<'_, Column>],
) -> VortexResult<()>
    ensures { Answers result
        (λ _. TakesInputs C.meaning (function_of function.now) (map cow_value inputs.now))
        (RefusesInputs C.meaning (function_of function.now) (map cow_value inputs.now)) }
{
    let arity = function.signature().arity;
    let given = inputs.len();
    if !arity.matches(given) {
        return Err(VortexError::ArityMismatch { arity, given });
    }
    let dtypes = dtypes_of(alloc, inputs)?;
    let _dtype = function.return_dtype(alloc, &dtypes)?;
    Ok(())
}
