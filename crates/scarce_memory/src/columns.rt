//! Each call that makes a column.

use crate::seen::Tally;
use fixtures::{Made, integer, kept, names};
use std::alloc::Global;
use vortex_columns::*;

/// Longer than a view holds.
const LONG: &str = "a text of more than twelve bytes";

/// True, null.
fn first_is_valid(alloc: Global) -> VortexResult<Validity> {
    Ok(Validity::Array(BitBuffer::from_bools(alloc, &[true, false])?))
}

/// Whether a cell is that number, or null for none.
fn is_number(cell: Cell<'_>, expected: Option<i128>) -> bool {
    match (cell, expected) {
        (Cell::Int(number), Some(expected)) => number == expected,
        (Cell::Null, None) => true,
        _ => false,
    }
}

fn is_truth(cell: Cell<'_>, expected: Option<bool>) -> bool {
    match (cell, expected) {
        (Cell::Bool(truth), Some(expected)) => truth == expected,
        (Cell::Null, None) => true,
        _ => false,
    }
}

/// Whether a cell is that text, or its bytes.
fn is_text(cell: Cell<'_>, expected: Option<&str>) -> bool {
    match (cell, expected) {
        (Cell::Text(text), Some(expected)) => text == expected,
        (Cell::Bytes(bytes), Some(expected)) => bytes == expected.as_bytes(),
        (Cell::Null, None) => true,
        _ => false,
    }
}

/// Whether a column has these two numbers.
fn are_two(column: &Column, expected: [Option<i128>; 2]) -> bool {
    let [first, second] = expected;
    column.len() == 2 && is_number(column.cell(0), first) && is_number(column.cell(1), second)
}

fn are_numbers(column: Made, expected: [Option<i128>; 2]) -> VortexResult<bool> {
    Ok(are_two(&*column?, expected))
}

fn are_truths(column: Made, expected: [Option<bool>; 2]) -> VortexResult<bool> {
    let column = column?;
    let [first, second] = expected;
    Ok(column.len() == 2 && is_truth(column.cell(0), first) && is_truth(column.cell(1), second))
}

fn are_texts(column: Made, expected: [Option<&str>; 2]) -> VortexResult<bool> {
    let column = column?;
    let [first, second] = expected;
    Ok(column.len() == 2 && is_text(column.cell(0), first) && is_text(column.cell(1), second))
}

fn constant(alloc: Global) -> Made {
    kept(alloc, Column::constant(alloc, integer(PType::U8, 5)?, 2))
}

fn try_bool(alloc: Global) -> Made {
    let bits = BitBuffer::from_bools(alloc, &[true, false])?;
    kept(alloc, Column::try_bool(alloc, bits, first_is_valid(alloc)?))
}

fn try_primitive(alloc: Global, first: i32, second: i32) -> Made {
    let values = Vec::from_array(alloc, [first, second])?;
    kept(
        alloc,
        Column::try_primitive(alloc, values, Validity::NonNullable),
    )
}

fn try_utf8(alloc: Global) -> Made {
    let values = names(alloc, &[LONG, "a"])?;
    kept(
        alloc,
        Column::try_utf8(alloc, values, first_is_valid(alloc)?),
    )
}

fn try_texts(alloc: Global) -> Made {
    kept(
        alloc,
        Column::try_texts(alloc, &["a", LONG], Validity::NonNullable),
    )
}

fn try_binary(alloc: Global) -> Made {
    let mut values = Vec::new(alloc);
    values.push(b"a".to_vec(alloc)?)?;
    values.push(LONG.as_bytes().to_vec(alloc)?)?;
    kept(
        alloc,
        Column::try_binary(alloc, values, Validity::NonNullable),
    )
}

/// The views of `a` and of `hello, world!`, which is in a buffer.
fn two_views(alloc: Global) -> VortexResult<Vec<BinaryView>> {
    let short = BinaryView::new_inlined(b"a");
    let long = BinaryView::new_long(13, *b"hell", 0, 0);
    Ok(Vec::from_array(alloc, [short, long])?)
}

/// That buffer.
fn hello(alloc: Global) -> VortexResult<Vec<Vec<u8>>> {
    let mut buffers = Vec::new(alloc);
    buffers.push(b"hello, world!".to_vec(alloc)?)?;
    Ok(buffers)
}

fn try_utf8_views(alloc: Global) -> Made {
    let (views, buffers) = (two_views(alloc)?, hello(alloc)?);
    kept(
        alloc,
        Column::try_utf8_views(alloc, views, buffers, Validity::NonNullable),
    )
}

fn try_binary_views(alloc: Global) -> Made {
    let (views, buffers) = (two_views(alloc)?, hello(alloc)?);
    kept(
        alloc,
        Column::try_binary_views(alloc, views, buffers, Validity::NonNullable),
    )
}

/// `a` and a long text, made one by one.
fn built(alloc: Global) -> VortexResult<BinaryViews> {
    let mut builder = ViewsBuilder::new(alloc);
    builder.push(b"a")?;
    builder.push(LONG.as_bytes())?;
    builder.finish()
}

fn try_utf8_values(alloc: Global) -> Made {
    let values = built(alloc)?;
    kept(
        alloc,
        Column::try_utf8_values(alloc, values, first_is_valid(alloc)?),
    )
}

fn try_binary_values(alloc: Global) -> Made {
    let values = built(alloc)?;
    kept(
        alloc,
        Column::try_binary_values(alloc, values, Validity::NonNullable),
    )
}

/// Records of a number and a truth value.
fn try_struct(alloc: Global) -> Made {
    let mut fields = Vec::new(alloc);
    fields.push(Box::into_inner(try_primitive(alloc, 5, 6)?))?;
    fields.push(Box::into_inner(try_bool(alloc)?))?;
    let words = names(alloc, &["a", "b"])?;
    kept(
        alloc,
        Column::try_struct(alloc, words, fields, 2, first_is_valid(alloc)?),
    )
}

/// Whether the first field has 5 and 6, and the second record is null.
fn are_records(column: Made) -> VortexResult<bool> {
    let column = column?;
    let Some(field) = column.field(0) else {
        return Ok(false);
    };
    Ok(column.len() == 2 && !column.is_valid(1) && are_two(field, [Some(5), Some(6)]))
}

/// The lists of 6, and of none.
fn try_list(alloc: Global) -> Made {
    let elements = Box::into_inner(try_primitive(alloc, 5, 6)?);
    let offsets = Vec::from_array(alloc, [1, 0])?;
    let sizes = Vec::from_array(alloc, [1, 0])?;
    kept(
        alloc,
        Column::try_list(alloc, elements, offsets, sizes, Validity::NonNullable),
    )
}

fn are_lists(column: Made) -> VortexResult<bool> {
    let column = column?;
    let Some((elements, offsets, sizes)) = column.list_parts() else {
        return Ok(false);
    };
    let are_ranges = offsets == [1, 0].as_slice() && sizes == [1, 0].as_slice();
    Ok(are_ranges && are_two(elements, [Some(5), Some(6)]))
}

/// The lists of 5, and of 6.
fn try_fixed_size_list(alloc: Global) -> Made {
    let elements = Box::into_inner(try_primitive(alloc, 5, 6)?);
    kept(
        alloc,
        Column::try_fixed_size_list(alloc, elements, 1, 2, Validity::NonNullable),
    )
}

fn are_fixed(column: Made) -> VortexResult<bool> {
    let column = column?;
    let Some((elements, size)) = column.fixed_parts() else {
        return Ok(false);
    };
    Ok(size == 1 && column.len() == 2 && are_two(elements, [Some(5), Some(6)]))
}

/// The maps of 6 to 8, and of none.
fn try_map(alloc: Global) -> Made {
    let keys = Box::into_inner(try_primitive(alloc, 5, 6)?);
    let values = Box::into_inner(try_primitive(alloc, 7, 8)?);
    let offsets = Vec::from_array(alloc, [1, 0])?;
    let sizes = Vec::from_array(alloc, [1, 0])?;
    kept(
        alloc,
        Column::try_map(alloc, keys, values, offsets, sizes, Validity::NonNullable),
    )
}

fn are_maps(column: Made) -> VortexResult<bool> {
    let column = column?;
    let Some((keys, values, offsets, sizes)) = column.map_parts() else {
        return Ok(false);
    };
    let are_ranges = offsets == [1, 0].as_slice() && sizes == [1, 0].as_slice();
    let are_entries = are_two(keys, [Some(5), Some(6)]) && are_two(values, [Some(7), Some(8)]);
    Ok(are_ranges && are_entries)
}

fn of_bools(alloc: Global) -> Made {
    kept(alloc, Column::of_bools(alloc, &[Some(true), None]))
}

fn of_ints(alloc: Global) -> Made {
    kept(alloc, Column::of_ints(alloc, &[Some(5i32), None]))
}

fn of_texts(alloc: Global) -> Made {
    kept(alloc, Column::of_texts(alloc, &[Some(LONG), None]))
}

fn ask_plain(alloc: Global, tally: &mut Tally) {
    let numbers = [Some(5), Some(6)];
    let fives = [Some(5), Some(5)];
    let truths = [Some(true), None];
    tally.note("Column::constant", are_numbers(constant(alloc), fives));
    tally.note("Column::try_bool", are_truths(try_bool(alloc), truths));
    tally.note(
        "Column::try_primitive",
        are_numbers(try_primitive(alloc, 5, 6), numbers),
    );
    tally.note("Column::of_bools", are_truths(of_bools(alloc), truths));
    tally.note(
        "Column::of_ints",
        are_numbers(of_ints(alloc), [Some(5), None]),
    );
}

fn ask_texts(alloc: Global, tally: &mut Tally) {
    let values = [Some("a"), Some(LONG)];
    let views = [Some("a"), Some("hello, world!")];
    let first = [Some(LONG), None];
    tally.note("Column::try_utf8", are_texts(try_utf8(alloc), first));
    tally.note("Column::try_texts", are_texts(try_texts(alloc), values));
    tally.note("Column::try_binary", are_texts(try_binary(alloc), values));
    tally.note(
        "Column::try_utf8_views",
        are_texts(try_utf8_views(alloc), views),
    );
    tally.note(
        "Column::try_binary_views",
        are_texts(try_binary_views(alloc), views),
    );
    tally.note(
        "Column::try_utf8_values",
        are_texts(try_utf8_values(alloc), [Some("a"), None]),
    );
    tally.note(
        "Column::try_binary_values",
        are_texts(try_binary_values(alloc), values),
    );
    tally.note("Column::of_texts", are_texts(of_texts(alloc), first));
}

fn ask_nested(alloc: Global, tally: &mut Tally) {
    tally.note("Column::try_struct", are_records(try_struct(alloc)));
    tally.note("Column::try_list", are_lists(try_list(alloc)));
    tally.note(
        "Column::try_fixed_size_list",
        are_fixed(try_fixed_size_list(alloc)),
    );
    tally.note("Column::try_map", are_maps(try_map(alloc)));
}

pub fn ask(alloc: Global, tally: &mut Tally) {
    ask_plain(alloc, tally);
    ask_texts(alloc, tally);
    ask_nested(alloc, tally);
}
