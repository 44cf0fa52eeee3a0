//! Calls that allocate nothing although they take an allocator, or can fail: their arguments are
//! made first, then the call itself must not run out of memory. Calls with neither cannot by their
//! type, and are not tested.

use crate::seen::{Tally, yes};
use crate::trees::CLOSED;
use fixtures::{Made, bools, boxed, fields};
use std::alloc::Global;
use std::borrow::Cow;
use std::mem;
use tree_fixtures::makers::*;
use vortex_columns::*;
use vortex_functions::*;
use vortex_kernels::*;
use vortex_rewriting::*;

/// Whether a lone leaf gives the column, borrowed.
fn lends<C: ScalarFnVTable>(alloc: Global, tree: Bound<C>, column: Made) -> VortexResult<bool> {
    let (tree, columns) = (tree?, one(alloc, column)?);
    Ok(yes(is_borrowed(alloc, &*tree, &columns)))
}

fn is_borrowed<C: ScalarFnVTable>(
    alloc: Global,
    tree: &BoundExpression<C>,
    columns: &[Column],
) -> VortexResult<bool> {
    let mut ctx = ExecutionCtx::new(alloc);
    match tree.execute(columns, 2, &mut ctx)? {
        Cow::Borrowed(column) => Ok(column.len() == 2),
        Cow::Owned(_) => Ok(false),
    }
}

/// Whether the child of a borrowed node is the leaf of column `a`.
fn lends_child<C: ScalarFnRules>(alloc: Global, tree: Bound<C>) -> VortexResult<bool> {
    let tree = tree?;
    Ok(yes(is_leaf(alloc, &*tree)))
}

fn is_leaf<C: ScalarFnRules>(alloc: Global, tree: &BoundExpression<C>) -> VortexResult<bool> {
    let node = ExpressionReduceNode::new(Cow::Borrowed(tree));
    if node.child_count() != 1 {
        return Ok(false);
    }
    let child = node.child(alloc, 0)?;
    Ok(child.expression().as_column() == Some(0))
}

/// A list of two types.
fn types(alloc: Global, dtypes: [DType; 2]) -> VortexResult<Vec<DType>> {
    Ok(Vec::from_array(alloc, dtypes)?)
}

fn two_bools(alloc: Global) -> VortexResult<Vec<DType>> {
    types(alloc, [DType::Bool(YES), DType::Bool(NO)])
}

fn two_utf8s(alloc: Global) -> VortexResult<Vec<DType>> {
    types(alloc, [DType::Utf8(YES), DType::Utf8(NO)])
}

fn three_bools(alloc: Global) -> VortexResult<Vec<DType>> {
    let mut dtypes = two_bools(alloc)?;
    dtypes.push(DType::Bool(NO))?;
    Ok(dtypes)
}

fn one_bool(alloc: Global) -> VortexResult<Vec<DType>> {
    let mut dtypes = Vec::new(alloc);
    dtypes.push(DType::Bool(YES))?;
    Ok(dtypes)
}

/// Whether a function returns Bool of that nullability for these types.
fn returns(
    alloc: Global,
    function: ScalarFnRef<NoCustom>,
    types: VortexResult<Vec<DType>>,
    nullability: Nullability,
) -> VortexResult<bool> {
    let types = types?;
    if !function.signature().arity.matches(types.len()) {
        return Ok(false);
    }
    let dtype = function.return_dtype(alloc, &types);
    Ok(yes(dtype.map(|dtype| dtype == DType::Bool(nullability))))
}

/// One borrowed input.
fn one_input(alloc: Global, column: &Column) -> VortexResult<VecExecutionArgs<'_>> {
    let mut inputs = Vec::new(alloc);
    inputs.push(Cow::Borrowed(column))?;
    Ok(VecExecutionArgs::new(inputs, column.len()))
}

/// Whether the first input is found, of that many rows.
fn has_rows<A: ExecutionArgs>(args: &A, row_count: usize) -> bool {
    match args.get(0) {
        Ok(column) => column.len() == row_count,
        Err(_) => false,
    }
}

fn finds(alloc: Global, column: Made) -> VortexResult<bool> {
    let column = column?;
    let args = one_input(alloc, &*column)?;
    Ok(has_rows(&args, 2))
}

/// Whether bits are those of the bytes, from the third on.
fn are_bits(bits: VortexResult<BitBuffer>) -> VortexResult<bool> {
    let bits = bits?;
    Ok(bits.len() == 3 && bits.value(0) && !bits.value(1) && bits.value(2))
}

fn takes_bits(alloc: Global) -> VortexResult<bool> {
    let bytes = Vec::from_array(alloc, [0b10100u8])?;
    Ok(yes(are_bits(BitBuffer::new(bytes, 2, 3))))
}

fn takes_views(alloc: Global) -> VortexResult<bool> {
    let mut views = Vec::new(alloc);
    views.push(BinaryView::new_inlined(b"a"))?;
    let values = BinaryViews::try_new(views, Vec::new(alloc));
    Ok(yes(values.map(|values| values.len() == 1)))
}

/// A list of two.
fn list(alloc: Global, first: ScalarValue, second: ScalarValue) -> VortexResult<ScalarValue> {
    let mut items = Vec::new(alloc);
    items.push(Some(first))?;
    items.push(Some(second))?;
    Ok(ScalarValue::List(items))
}

/// A record of two lists, of which the second has that truth value last.
fn record(alloc: Global, last: bool) -> VortexResult<ScalarValue> {
    let first = list(alloc, ScalarValue::Bool(true), ScalarValue::Bool(true))?;
    let second = list(alloc, ScalarValue::Bool(true), ScalarValue::Bool(last))?;
    list(alloc, first, second)
}

/// The type of such records.
fn record_type(alloc: Global) -> VortexResult<DType> {
    let first = DType::List(boxed(alloc, DType::Bool(NO))?, NO);
    let second = DType::List(boxed(alloc, DType::Bool(NO))?, NO);
    Ok(DType::Struct(fields(alloc, ("a", "b"), (first, second))?, NO))
}

/// Such a record, and its type.
fn typed_record(alloc: Global, last: bool) -> VortexResult<(DType, ScalarValue)> {
    Ok((record_type(alloc)?, record(alloc, last)?))
}

/// Whether records are typed, their types are equal, and they themselves compare.
fn compares(
    left: VortexResult<(DType, ScalarValue)>,
    right: VortexResult<(DType, ScalarValue)>,
) -> VortexResult<bool> {
    let (left, right) = (left?, right?);
    Ok(yes(is_below(left, right)))
}

fn is_below(left: (DType, ScalarValue), right: (DType, ScalarValue)) -> VortexResult<bool> {
    let left = Scalar::try_new(left.0, Some(left.1))?;
    let right = Scalar::try_new(right.0, Some(right.1))?;
    let answer = scalar_cmp(&left, &right, CompareOperator::Lt)?;
    let is_below = *left.dtype() == *right.dtype() && answer.as_bool_opt() == Some(true);
    // dropping them allocates, which is not allowed here
    mem::forget(left);
    mem::forget(right);
    Ok(is_below)
}

/// The types that functions return.
fn ask_types(alloc: Global, tally: &mut Tally) {
    let call = "return_dtype of Binary";
    let function = Binary.bind(Operator::Eq);
    tally.note(call, returns(alloc, function, two_utf8s(alloc), YES));
    let call = "return_dtype of Not";
    tally.note(call, returns(alloc, ScalarFnRef::Not, one_bool(alloc), YES));
    let call = "return_dtype of IsNull";
    tally.note(
        call,
        returns(alloc, ScalarFnRef::IsNull, one_bool(alloc), NO),
    );
    let call = "return_dtype of IsNotNull";
    let function = ScalarFnRef::IsNotNull;
    tally.note(call, returns(alloc, function, one_bool(alloc), NO));
    let call = "return_dtype of Cast";
    tally.note(
        call,
        returns(alloc, ScalarFnRef::Cast, one_bool(alloc), YES),
    );
    let call = "return_dtype of Between";
    let function = ScalarFnRef::Between(CLOSED);
    tally.note(call, returns(alloc, function, three_bools(alloc), YES));
    let call = "return_dtype of Like";
    let function = Like.bind(LikeOptions::default());
    tally.note(call, returns(alloc, function, two_utf8s(alloc), YES));
}

/// The arguments of the last two calls are made before `BitBuffer::new` is called, so that the last
/// allocation of all is not theirs: `tools/scarce_memory` makes it fail, and the calls show it.
pub fn ask(alloc: Global, tally: &mut Tally) {
    let column = bools(alloc, &[true, false]);
    let leaf_alone = leaf_of::<NoCustom>(alloc, DType::Bool(NO));
    tally.note("execute of a lone leaf", lends(alloc, leaf_alone, column));
    let tree = not_of::<NoCustom>(alloc, leaf(alloc, "a"));
    tally.note("child of a borrowed node", lends_child(alloc, tree));
    ask_types(alloc, tally);
    tally.note(
        "VecExecutionArgs::get",
        finds(alloc, bools(alloc, &[true, false])),
    );
    tally.note("BinaryViews::try_new", takes_views(alloc));
    let (left, right) = (typed_record(alloc, false), typed_record(alloc, true));
    tally.note("BitBuffer::new", takes_bits(alloc));
    tally.note("scalar_cmp", compares(left, right));
}
