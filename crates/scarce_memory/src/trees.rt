//! Trees: how calls are bound, their texts, and their results over columns, which are borrowed.

use crate::comparing::{Table, unless_changed};
use crate::seen::Tally;
use fixtures::{Made, bools, nullable_bools, nullable_ints, numbers, texts};
use std::alloc::Global;
use tree_fixtures::array_makers::{Held, array_rows, held, made};
use tree_fixtures::makers::*;
use tree_fixtures::rewritten::unknown_sum;
use vortex_arrays::*;
use vortex_columns::*;
use vortex_functions::*;
use vortex_operators::*;

/// Inclusive bounds.
pub const CLOSED: BetweenOptions = BetweenOptions {
    lower_strict: StrictComparison::NonStrict,
    upper_strict: StrictComparison::NonStrict,
};

/// The text of the tree that is executed and rewritten.
pub const UNKNOWN: &str = "vortex.is_null((($.a + $.b) = $.c))";

/// Whether `sql_text` gives that text.
pub fn has_text<C: ScalarFnVTable>(
    alloc: Global,
    tree: &BoundExpression<C>,
    expected: &str,
) -> VortexResult<bool> {
    Ok(tree.sql_text(alloc)?.as_str() == expected)
}

/// Whether an array's copy has these rows.
pub fn array_answers<C: ScalarFnVTable>(
    alloc: Global,
    array: Held<C>,
    expected: &[Option<bool>],
) -> VortexResult<bool> {
    Ok(array_rows(alloc, array)?.as_slice() == expected)
}

/// Two rows: 1, 2, 3 and null, 3, 3.
pub fn two_rows(alloc: Global) -> VortexResult<Table> {
    let columns = three(
        alloc,
        nullable_ints(alloc, &[Some(1), None]),
        nullable_ints(alloc, &[Some(2), Some(3)]),
        nullable_ints(alloc, &[Some(3), Some(3)]),
    );
    Table::new(alloc, columns)
}

/// The result of that tree over them.
pub fn missing(alloc: Global) -> Made {
    bools(alloc, &[false, true])
}

/// Whether a tree gives this column over those of a table, and neither is changed.
fn executes<C: ScalarFnVTable>(
    alloc: Global,
    tree: Bound<C>,
    expected: Made,
) -> VortexResult<bool> {
    let (tree, expected, table) = (tree?, expected?, two_rows(alloc)?);
    let mut ctx = ExecutionCtx::new(alloc);
    let answer = tree.execute(table.columns(), 2, &mut ctx);
    let answer = table.answer(alloc, answer, &*expected);
    unless_changed(has_text(alloc, &*tree, UNKNOWN), answer)
}

/// Whether a tree has that text.
fn is_written<C: ScalarFnVTable>(
    alloc: Global,
    tree: Bound<C>,
    expected: &str,
) -> VortexResult<bool> {
    has_text(alloc, &*tree?, expected)
}

fn is_null<C: ScalarFnVTable>(alloc: Global) -> Bound<C> {
    let children = one(alloc, leaf(alloc, "a"))?;
    planted(
        alloc,
        IsNull.try_new_bound_expr(alloc, EmptyOptions, children),
    )
}

fn is_not_null<C: ScalarFnVTable>(alloc: Global) -> Bound<C> {
    let children = one(alloc, leaf(alloc, "a"))?;
    planted(
        alloc,
        IsNotNull.try_new_bound_expr(alloc, EmptyOptions, children),
    )
}

fn cast<C: ScalarFnVTable>(alloc: Global) -> Bound<C> {
    let children = one(alloc, leaf(alloc, "a"))?;
    planted(alloc, Cast.try_new_bound_expr(alloc, CastOptions, children))
}

/// Whether column `a` of texts is LIKE itself.
fn like<C: ScalarFnVTable>(alloc: Global) -> Bound<C> {
    let dtype = DType::Utf8(YES);
    let children = two(
        alloc,
        leaf_of(alloc, dtype),
        leaf_of(alloc, DType::Utf8(NO)),
    )?;
    planted(
        alloc,
        Like.try_new_bound_expr(alloc, LikeOptions::default(), children),
    )
}

/// Whether column `a` is between `b` and `a`.
fn bounded<C: ScalarFnVTable>(alloc: Global) -> Bound<C> {
    let children = three(alloc, leaf(alloc, "a"), leaf(alloc, "b"), leaf(alloc, "a"))?;
    planted(alloc, Between.try_new_bound_expr(alloc, CLOSED, children))
}

/// How calls of trees are bound.
fn ask_bound<C: ScalarFnVTable>(alloc: Global, tally: &mut Tally) {
    let both = between::<C>(alloc, leaf(alloc, "a"), Operator::And, leaf(alloc, "b"));
    tally.note("bound Binary", is_written(alloc, both, "($.a and $.b)"));
    let turned = not_of::<C>(alloc, leaf(alloc, "a"));
    tally.note("bound Not", is_written(alloc, turned, "vortex.not($.a)"));
    let text = "vortex.is_null($.a)";
    tally.note("bound IsNull", is_written(alloc, is_null::<C>(alloc), text));
    let text = "is_not_null($.a)";
    tally.note(
        "bound IsNotNull",
        is_written(alloc, is_not_null::<C>(alloc), text),
    );
    let text = "vortex.cast($.a, opts=bool?)";
    tally.note("bound Cast", is_written(alloc, cast::<C>(alloc), text));
    let text = "$.a like $.a";
    tally.note("bound Like", is_written(alloc, like::<C>(alloc), text));
    let text = "($.b <= $.a <= $.a)";
    tally.note(
        "bound Between",
        is_written(alloc, bounded::<C>(alloc), text),
    );
}

/// True, null.
fn truths<C: ScalarFnVTable>(alloc: Global) -> Held<C> {
    held(alloc, nullable_bools(alloc, &[Some(true), None]))
}

/// Two numbers.
fn two_numbers<C: ScalarFnVTable>(alloc: Global, first: i32, second: i32) -> Held<C> {
    held(alloc, numbers(alloc, &[first, second]))
}

fn array_not<C: ScalarFnVTable>(alloc: Global) -> Held<C> {
    let input = Box::into_inner(truths(alloc)?);
    made(alloc, Not::try_new(alloc, input))
}

fn array_cast<C: ScalarFnVTable>(alloc: Global) -> Held<C> {
    let input = Box::into_inner(truths(alloc)?);
    made(alloc, Cast::try_new(alloc, input))
}

fn array_is_null<C: ScalarFnVTable>(alloc: Global) -> Held<C> {
    let input = Box::into_inner(truths(alloc)?);
    made(alloc, IsNull::new(alloc, input))
}

fn array_is_not_null<C: ScalarFnVTable>(alloc: Global) -> Held<C> {
    let input = Box::into_inner(truths(alloc)?);
    made(alloc, IsNotNull::new(alloc, input))
}

fn array_binary<C: ScalarFnVTable>(alloc: Global) -> Held<C> {
    let left = Box::into_inner(two_numbers(alloc, 1, 2)?);
    let right = Box::into_inner(two_numbers(alloc, 2, 2)?);
    made(alloc, Binary::try_new(alloc, left, right, Operator::Lt))
}

/// 1 and 2 between 2 and 3.
fn array_between<C: ScalarFnVTable>(alloc: Global) -> Held<C> {
    let input = Box::into_inner(two_numbers(alloc, 1, 2)?);
    let lower = Box::into_inner(two_numbers(alloc, 2, 2)?);
    let upper = Box::into_inner(two_numbers(alloc, 3, 3)?);
    made(alloc, Between::try_new(alloc, input, lower, upper, CLOSED))
}

fn two_texts<C: ScalarFnVTable>(alloc: Global, words: [&str; 2]) -> Held<C> {
    held(alloc, texts(alloc, &words, Validity::NonNullable))
}

fn array_like<C: ScalarFnVTable>(alloc: Global) -> Held<C> {
    let input = Box::into_inner(two_texts(alloc, ["hello", "world"])?);
    let pattern = Box::into_inner(two_texts(alloc, ["h%", "h%"])?);
    made(
        alloc,
        Like::try_new(alloc, input, pattern, LikeOptions::default()),
    )
}

/// How calls over arrays are made.
fn ask_arrays<C: ScalarFnVTable>(alloc: Global, tally: &mut Tally) {
    let turned = array_answers(alloc, array_not::<C>(alloc), &[Some(false), None]);
    tally.note("Not::try_new", turned);
    let cast = array_answers(alloc, array_cast::<C>(alloc), &[Some(true), None]);
    tally.note("Cast::try_new", cast);
    let second = [Some(false), Some(true)];
    let nulls = array_answers(alloc, array_is_null::<C>(alloc), &second);
    tally.note("IsNull::new", nulls);
    let first = [Some(true), Some(false)];
    let valid = array_answers(alloc, array_is_not_null::<C>(alloc), &first);
    tally.note("IsNotNull::new", valid);
    let below = array_answers(alloc, array_binary::<C>(alloc), &first);
    tally.note("Binary::try_new", below);
    let within = array_answers(alloc, array_between::<C>(alloc), &second);
    tally.note("Between::try_new", within);
    let like = array_answers(alloc, array_like::<C>(alloc), &first);
    tally.note("Like::try_new", like);
}

pub fn ask(alloc: Global, tally: &mut Tally) {
    ask_bound::<NoCustom>(alloc, tally);
    ask_arrays::<NoCustom>(alloc, tally);
    let tree = unknown_sum::<NoCustom>(alloc);
    tally.note("sql_text", is_written(alloc, tree, UNKNOWN));
    let tree = unknown_sum::<NoCustom>(alloc);
    tally.note(
        "BoundExpression::execute",
        executes(alloc, tree, missing(alloc)),
    );
}
