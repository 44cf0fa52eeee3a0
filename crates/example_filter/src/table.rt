//! The columns of two batches, and the scope that names and types them.

use std::alloc::Global;
use vortex_row_fn::*;

/// Columns of one row count.
#[derive(Drop)]
pub struct Batch {
    pub columns: Vec<Column>,
    pub row_count: usize,
}

/// A type of 32-bit integers.
fn number(nullability: Nullability) -> DType {
    DType::Primitive(PType::I32, nullability)
}

/// Prices, stock and orders: `price i32`, `stock i32?`, `ordered i32?`.
pub(crate) fn scope(alloc: Global) -> VortexResult<StructFields> {
    let fields = [
        ("price", number(Nullability::NonNullable)),
        ("stock", number(Nullability::Nullable)),
        ("ordered", number(Nullability::Nullable)),
    ];
    StructFields::of(alloc, &fields)
}

/// Three goods: their prices, stock and orders.
fn goods(
    alloc: Global,
    prices: [i32; 3],
    stock: [Option<i32>; 3],
    ordered: [Option<i32>; 3],
) -> VortexResult<Batch> {
    let mut columns = Vec::new(alloc);
    let prices = prices.to_vec(alloc)?;
    columns.push(Column::try_primitive(alloc, prices, Validity::NonNullable)?)?;
    columns.push(Column::of_ints(alloc, &stock)?)?;
    columns.push(Column::of_ints(alloc, &ordered)?)?;
    Ok(Batch {
        columns,
        row_count: 3,
    })
}

/// In the first batch one of three goods is cheap with known stock, in the second two.
pub(crate) fn batches(alloc: Global) -> VortexResult<Vec<Batch>> {
    let mut batches = Vec::new(alloc);
    batches.push(goods(
        alloc,
        [7, 12, 9],
        [Some(3), Some(5), None],
        [Some(1), Some(2), Some(4)],
    )?)?;
    batches.push(goods(
        alloc,
        [2, 3, 30],
        [Some(1), Some(0), Some(8)],
        [Some(9), Some(0), None],
    )?)?;
    Ok(batches)
}
