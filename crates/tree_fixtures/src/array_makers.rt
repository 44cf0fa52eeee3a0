//! Array trees, from their parts, and their results.

use fixtures::{Made, bools, nullable_bools, rows_of, same};
use std::alloc::Global;
use vortex_arrays::*;
use vortex_columns::*;
use vortex_functions::*;
use vortex_operators::*;

/// An array on the heap, or why it could not be made.
pub type Held<C> = VortexResult<Box<ArrayRef<C>>>;

/// The array of a column.
pub fn held<C: ScalarFnVTable>(alloc: Global, column: Made) -> Held<C> {
    Ok(Box::new(alloc, ArrayRef::column(alloc, Box::into_inner(column?))?)?)
}

/// The array of a call.
pub fn made<C: ScalarFnVTable>(alloc: Global, call: VortexResult<ScalarFnArray<C>>) -> Held<C> {
    Ok(Box::new(alloc, call?.into_array())?)
}

/// An operator between two columns.
pub fn over_columns<C: ScalarFnVTable>(
    alloc: Global,
    left: Made,
    operator: Operator,
    right: Made,
) -> Held<C> {
    let left = Box::into_inner(held(alloc, left)?);
    let right = Box::into_inner(held(alloc, right)?);
    made(alloc, Binary::try_new(alloc, left, right, operator))
}

/// The rows of Bool of an array's copy.
pub fn array_rows<C: ScalarFnVTable>(
    alloc: Global,
    array: Held<C>,
) -> VortexResult<Vec<Option<bool>>> {
    let copy = array?.try_clone(alloc)?;
    let mut ctx = ExecutionCtx::new(alloc);
    let column = copy.execute(&mut ctx)?;
    rows_of(alloc, &*column)
}

/// Whether an array's copy has these rows.
pub fn array_answers<C: ScalarFnVTable>(
    rt: HostRuntime,
    array: Held<C>,
    expected: &[Option<bool>],
) -> VortexResult<bool> {
    Ok(same(rt, array_rows(rt.alloc(), array)?.as_slice(), expected))
}

/// True, true, null.
pub fn x(alloc: Global) -> Made {
    nullable_bools(alloc, &[Some(true), Some(true), None])
}

/// True, false, true.
pub fn y(alloc: Global) -> Made {
    bools(alloc, &[true, false, true])
}
