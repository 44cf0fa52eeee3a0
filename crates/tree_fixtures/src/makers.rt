//! Trees and their columns by their parts, and questions to trees. Each function over trees stays
//! generic in the caller's functions; the tests pick the one they run.

use fixtures::{Ask, fields, names, nullable_bools, rows_of, same};
use std::alloc::Global;
use vortex_columns::*;
use vortex_functions::*;
use vortex_operators::*;

pub const YES: Nullability = Nullability::Nullable;

pub const NO: Nullability = Nullability::NonNullable;

/// A tree on the heap, or why it could not be made.
pub type Bound<C> = VortexResult<Box<BoundExpression<C>>>;

/// A tree, put on the heap.
pub fn planted<C: ScalarFnVTable>(
    alloc: Global,
    tree: VortexResult<BoundExpression<C>>,
) -> Bound<C> {
    Ok(Box::new(alloc, tree?)?)
}

/// A list of one.
pub fn one<T: Drop>(alloc: Global, only: VortexResult<Box<T>>) -> VortexResult<Vec<T>> {
    let mut items = Vec::new(alloc);
    items.push(Box::into_inner(only?))?;
    Ok(items)
}

/// A list of two.
pub fn two<T: Drop>(
    alloc: Global,
    first: VortexResult<Box<T>>,
    second: VortexResult<Box<T>>,
) -> VortexResult<Vec<T>> {
    let mut items = Vec::new(alloc);
    items.push(Box::into_inner(first?))?;
    items.push(Box::into_inner(second?))?;
    Ok(items)
}

/// A list of three.
pub fn three<T: Drop>(
    alloc: Global,
    first: VortexResult<Box<T>>,
    second: VortexResult<Box<T>>,
    third: VortexResult<Box<T>>,
) -> VortexResult<Vec<T>> {
    let mut items = two(alloc, first, second)?;
    items.push(Box::into_inner(third?))?;
    Ok(items)
}

/// Columns `a` and `b` of nullable Bool.
pub fn scope(alloc: Global) -> VortexResult<StructFields> {
    fields(alloc, ("a", "b"), (DType::Bool(YES), DType::Bool(YES)))
}

/// The same nullable Bool in columns `a` and `b`.
pub fn twice(alloc: Global, rows: &[Option<bool>]) -> VortexResult<Vec<Column>> {
    two(
        alloc,
        nullable_bools(alloc, rows),
        nullable_bools(alloc, rows),
    )
}

/// The leaf of the column of that name.
pub fn leaf<C: ScalarFnVTable>(alloc: Global, name: &str) -> Bound<C> {
    let scope = scope(alloc)?;
    planted(alloc, BoundExpression::column(alloc, &scope, name))
}

/// The leaf of column `a` of that type, alone in its scope.
pub fn leaf_of<C: ScalarFnVTable>(alloc: Global, dtype: DType) -> Bound<C> {
    let mut dtypes = Vec::new(alloc);
    dtypes.push(dtype)?;
    let scope = StructFields::try_new(alloc, names(alloc, &["a"])?, dtypes)?;
    planted(alloc, BoundExpression::column(alloc, &scope, "a"))
}

/// The leaf of a scalar.
pub fn literal<C: ScalarFnVTable>(alloc: Global, scalar: VortexResult<Scalar>) -> Bound<C> {
    planted(alloc, Ok(BoundExpression::lit(alloc, scalar?)))
}

/// Not of a tree.
pub fn not_of<C: ScalarFnVTable>(alloc: Global, child: Bound<C>) -> Bound<C> {
    let children = one(alloc, child)?;
    planted(alloc, Not.try_new_bound_expr(alloc, EmptyOptions, children))
}

/// An operator between two trees.
pub fn between<C: ScalarFnVTable>(
    alloc: Global,
    left: Bound<C>,
    operator: Operator,
    right: Bound<C>,
) -> Bound<C> {
    let children = two(alloc, left, right)?;
    planted(alloc, Binary.try_new_bound_expr(alloc, operator, children))
}

/// A call over the first so many of the leaves `a`, `b`, `a`.
pub fn call_of_leaves<C: ScalarFnVTable>(
    alloc: Global,
    function: ScalarFnRef<C>,
    count: usize,
) -> Bound<C> {
    let mut children = Vec::new(alloc);
    for i in 0..count {
        let name = if i % 2 == 0 { "a" } else { "b" };
        children.push(Box::into_inner(leaf(alloc, name)?))?;
    }
    planted(alloc, BoundExpression::try_new(alloc, function, children))
}

/// A call of a function of one tree.
pub fn call_of<C: ScalarFnVTable>(
    alloc: Global,
    function: ScalarFnRef<C>,
    child: Bound<C>,
) -> Bound<C> {
    let children = one(alloc, child)?;
    planted(alloc, BoundExpression::try_new(alloc, function, children))
}

/// The rows of Bool that a tree answers over so many rows of those columns.
pub fn executed<C: ScalarFnVTable>(
    alloc: Global,
    tree: Bound<C>,
    columns: VortexResult<Vec<Column>>,
    row_count: usize,
) -> VortexResult<Vec<Option<bool>>> {
    let (tree, columns) = (tree?, columns?);
    let mut ctx = ExecutionCtx::new(alloc);
    let answer = Box::new(alloc, tree.execute(&columns, row_count, &mut ctx)?)?;
    rows_of(alloc, &**answer)
}

/// Whether a tree answers these rows over those columns.
pub fn answers<C: ScalarFnVTable>(
    rt: HostRuntime,
    tree: Bound<C>,
    columns: VortexResult<Vec<Column>>,
    expected: &[Option<bool>],
) -> VortexResult<bool> {
    let rows = executed(rt.alloc(), tree, columns, expected.len())?;
    Ok(same(rt, rows.as_slice(), expected))
}

/// Whether `sql_text` gives that text.
pub fn has_text<C: ScalarFnVTable>(
    rt: HostRuntime,
    tree: &BoundExpression<C>,
    expected: &str,
) -> VortexResult<bool> {
    Ok(same(rt, tree.sql_text(rt.alloc())?.as_str(), expected))
}

/// Whether a tree has that text, and Display writes the same bytes.
pub fn prints<C: ScalarFnVTable>(
    rt: HostRuntime,
    tree: Bound<C>,
    expected: &str,
) -> VortexResult<bool> {
    let tree = tree?;
    let shown = tree.to_string(rt.alloc())?;
    Ok(has_text(rt, &*tree, expected)? && same(rt, shown.as_str(), expected))
}

/// Whether a caller's function faults with that number.
pub fn is_fault<T: Drop>(rt: HostRuntime, answer: VortexResult<T>, expected: u64) -> bool {
    match answer {
        Err(VortexError::Custom(number)) => same(rt, number, expected),
        other => rt.is_refused(other, "Custom"),
    }
}
