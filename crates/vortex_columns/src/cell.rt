//! Values of scalars and columns, borrowed.
ghost use Rattle.std.specs.Prelude.{◌≡◌, ◌<◌, ◌≤◌, length};
ghost use Rattle.vortex_types.specs.Values.{list};
ghost use Rattle.vortex_types.specs.ValueOf.{values_or_null};
ghost use Rattle.vortex_columns.specs.Words.{cell_value, sequence_value, sequence_values};
ghost use Rattle.vortex_columns.specs.Words.{IsCell, IsSequence, value_of, value_or_null, row};
ghost use Rattle.vortex_columns.specs.Words.{compare_values, kind_rank, AnswersUnlessMemory};
ghost use Rattle.vortex_columns.specs.CellOrder.{single_order};
ghost use Rattle.vortex_columns.specs.SingleValue.{single_value};

mod order;

use crate::column::Column;
use order::Comparing;
use std::alloc::Global;
use std::cmp::Ordering;
use vortex_types::{ScalarValue, VortexResult};

/// The depth down to which values are walked recursively: deeper than known values, in about a
/// megabyte of stack.
pub(crate) const LEVELS: usize = 1_000;

/// A value, or null, borrowed. Allocates nothing.
#[derive(Clone, Copy)]
pub enum Cell<'a> {
    /// Null, of whatever type.
    Null,
    /// A truth value.
    Bool(bool),
    /// An integer of any of the eight types.
    Int(i128),
    /// A text, borrowed from the scalar or the column.
    Text(&'a str),
    /// Bytes, borrowed likewise.
    Bytes(&'a [u8]),
    /// A list, a record, a map or an entry of a map.
    Sequence(Sequence<'a>),
}

/// The values of a list, a record, a map or an entry of a map.
#[derive(Clone, Copy)]
pub enum Sequence<'a> {
    /// The values of a scalar.
    Items(&'a Vec<Option<ScalarValue>>),
    /// One row of a struct's fields.
    Fields(&'a Vec<Column>, usize),
    /// A range of a list's elements: its start and its length.
    Elements(&'a Column, usize, usize),
    /// A range of a map's keys and values: its start and its length.
    Entries(&'a Column, &'a Column, usize, usize),
    /// A key and its value, at one index.
    Entry(&'a Column, &'a Column, usize),
}

/// The value of a scalar: its text, bytes and inner values are borrowed. Allocates nothing.
pub fn cell_of(value: &ScalarValue) -> Cell<'_>
    ensures whole { IsCell result }
    ensures value { cell_value result ≡ value_of value.now }
{
    match value {
        ScalarValue::Bool(b) => Cell::Bool(*b),
        ScalarValue::Int(n) => Cell::Int(*n),
        ScalarValue::Utf8(text) => Cell::Text(text.as_str()),
        ScalarValue::Binary(bytes) => Cell::Bytes(bytes.as_slice()),
        ScalarValue::List(items) => Cell::Sequence(Sequence::Items(items)),
    }
}

impl<'a> Sequence<'a> {
    /// How many values there are.
    pub fn len(&self) -> usize
        requires { IsSequence self.now }
        ensures { result ≡ length (sequence_values self.now) }
    {
        match self {
            Sequence::Items(items) => items.len(),
            Sequence::Fields(fields, _) => fields.len(),
            Sequence::Elements(_, _, count) => *count,
            Sequence::Entries(_, _, _, count) => *count,
            Sequence::Entry(_, _, _) => 2,
        }
    }

    /// The value at index `k`.
    pub fn get(&self, k: usize) -> Cell<'a>
        requires whole { IsSequence self.now }
        requires k_in { k < length (sequence_values self.now) }
        ensures whole { IsCell result }
        ensures value { cell_value result ≡ row (sequence_values self.now) k }
    {
        match self {
            Sequence::Items(items) => match &items[k] {
                Some(value) => cell_of(value),
                None => Cell::Null,
            },
            Sequence::Fields(fields, i) => fields[k].cell(*i),
            Sequence::Elements(elements, start, _) => {
                // so that the index is known not to overflow
                let _ = elements.len();
                elements.cell(*start + k)
            }
            Sequence::Entries(keys, values, start, _) => {
                let _ = keys.len();
                Cell::Sequence(Sequence::Entry(keys, values, *start + k))
            }
            Sequence::Entry(keys, values, i) => {
                if k == 0 {
                    keys.cell(*i)
                } else {
                    values.cell(*i)
                }
            }
        }
    }
}

impl Cell<'_> {
    /// The position of the value's kind among the kinds.
    fn rank(&self) -> u8
        ensures { result ≡ kind_rank (cell_value self.now) }
    {
        match self {
            Cell::Null => 0,
            Cell::Bool(_) => 1,
            Cell::Int(_) => 2,
            Cell::Text(_) => 3,
            Cell::Bytes(_) => 4,
            Cell::Sequence(_) => 5,
        }
    }

    /// The order of two values, and `Equal` for two sequences, whose values are not read.
    fn compare_single(&self, other: &Cell<'_>) -> Ordering
        ensures { result ≡ single_order (cell_value self.now) (cell_value other.now) }
    {
        match (self, other) {
            (Cell::Bool(a), Cell::Bool(b)) => a.cmp(b),
            (Cell::Int(a), Cell::Int(b)) => a.cmp(b),
            (Cell::Text(a), Cell::Text(b)) => a.cmp(b),
            (Cell::Bytes(a), Cell::Bytes(b)) => a.cmp(b),
            _ => self.rank().cmp(&other.rank()),
        }
    }

    /// The order of two values: for two lists the order of their first different values, else the
    /// shorter one is less. Allocates nothing down to a thousand levels. For deeper lists the
    /// enclosing ones are kept in memory, or on the stack where an allocation fails.
    pub fn compare(&self, other: &Cell<'_>) -> Ordering
        requires self_whole { IsCell self.now }
        requires other_whole { IsCell other.now }
        ensures { result ≡ compare_values (cell_value self.now) (cell_value other.now) }
    {
        if let (Cell::Sequence(left), Cell::Sequence(right)) = (*self, *other) {
            let pair = Comparing {
                left,
                right,
                next: 0,
                on_equal: Ordering::Equal,
            };
            return pair.order(LEVELS);
        }
        self.compare_single(other)
    }
}

impl Cell<'_> {
    /// A copy that a scalar can hold; none for null.
    pub fn try_to_value(&self, alloc: Global) -> VortexResult<Option<ScalarValue>>
        requires { IsCell self.now }
        ensures { AnswersUnlessMemory result (λ v. value_or_null v ≡ cell_value self.now) }
    {
        match self {
            Cell::Sequence(values) => Ok(Some(ScalarValue::List(copy_values(alloc, values)?))),
            _ => self.copy_single(alloc),
        }
    }

    /// A copy of a value that is no sequence; none for null or a sequence.
    fn copy_single(&self, alloc: Global) -> VortexResult<Option<ScalarValue>>
        requires { IsCell self.now }
        ensures { AnswersUnlessMemory result
            (λ v. value_or_null v ≡ single_value (cell_value self.now)) }
    {
        match self {
            Cell::Null => Ok(None),
            Cell::Bool(b) => Ok(Some(ScalarValue::Bool(*b))),
            Cell::Int(n) => Ok(Some(ScalarValue::Int(*n))),
            Cell::Text(text) => Ok(Some(ScalarValue::Utf8(String::from_str(alloc, text)?))),
            Cell::Bytes(bytes) => Ok(Some(ScalarValue::Binary(bytes.to_vec(alloc)?))),
            Cell::Sequence(_) => Ok(None),
        }
    }
}

/// An enclosing sequence, and copies of its first values: the next is being copied.
#[derive(Drop)]
struct Copying<'a> {
    values: Sequence<'a>,
    copies: Vec<Option<ScalarValue>>,
}

/// Copies of the values. Enclosing sequences are kept in a list, so deep nesting uses no stack.
fn copy_values(alloc: Global, root: &Sequence<'_>) -> VortexResult<Vec<Option<ScalarValue>>>
    requires { IsSequence root.now }
    ensures { AnswersUnlessMemory result
        (λ copies. list (values_or_null copies.items) ≡ sequence_value root.now) }
{
    let mut above = Vec::new(alloc);
    let mut values = *root;
    let mut copies = Vec::new(alloc);
    loop {
        if copies.len() < values.len() {
            match values.get(copies.len()) {
                Cell::Sequence(inner) => {
                    above.push(Copying { values, copies })?;
                    values = inner;
                    copies = Vec::new(alloc);
                }
                single => copies.push(single.copy_single(alloc)?)?,
            }
        } else {
            let Some(parent) = above.pop() else {
                return Ok(copies);
            };
            let whole = ScalarValue::List(copies);
            values = parent.values;
            copies = parent.copies;
            copies.push(Some(whole))?;
        }
    }
}
