//! The caller in the README.

use crate::questions::sure;
use fixtures::{are_rows, fields, numbers, same};
use std::alloc::Global;
use tree_fixtures::makers::one;
use vortex_row_fn::*;

/// `price < 10`, over columns of these fields.
fn below_ten<C: ScalarFnVTable>(
    alloc: Global,
    scope: &StructFields,
) -> VortexResult<BoundExpression<C>> {
    let mut operands = Vec::new(alloc);
    operands.push(BoundExpression::column(alloc, scope, "price")?)?;
    operands.push(BoundExpression::lit(alloc, Scalar::from(10i32)))?;
    Binary.try_new_bound_expr(alloc, Operator::Lt, operands)
}

/// Whether `price < 10` has these rows over those columns.
fn answers_below_ten<C: ScalarFnVTable>(
    rt: HostRuntime,
    scope: &StructFields,
    columns: &[Column],
    expected: &[Option<bool>],
) -> VortexResult<bool> {
    let alloc = rt.alloc();
    let tree = Box::new(alloc, below_ten::<C>(alloc, scope)?)?;
    let mut ctx = ExecutionCtx::new(alloc);
    let answer = Box::new(alloc, tree.execute(columns, expected.len(), &mut ctx)?)?;
    Ok(
        same(rt, answer.text(alloc)?.as_str(), "bool: true false")
            && are_rows(rt, &**answer, expected)?,
    )
}

/// Fields `price` of i32, and `name` of texts.
fn goods(alloc: Global) -> VortexResult<StructFields> {
    let price = DType::Primitive(PType::I32, Nullability::NonNullable);
    let name = DType::Utf8(Nullability::NonNullable);
    fields(alloc, ("price", "name"), (price, name))
}

/// Whether of 7 and 12 only the first is below 10.
fn first_is_below_ten<C: ScalarFnVTable>(rt: HostRuntime) -> VortexResult<bool> {
    let alloc = rt.alloc();
    let scope = goods(alloc)?;
    let prices = one(alloc, numbers(alloc, &[7i32, 12]))?;
    answers_below_ten::<C>(rt, &scope, &prices, &[Some(true), Some(false)])
}

#[test]
fn the_readme_says_what_happens(rt: HostRuntime) {
    sure(&rt, first_is_below_ten::<NoCustom>(rt));
}
