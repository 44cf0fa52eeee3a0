//! Values copied with a list of the enclosing lists, so deep nesting uses no stack.
ghost use Rattle.std.specs.Prelude.{◌≡◌, ◌≤◌, IfOk};
ghost use Rattle.vortex_types.specs.ValueOf.{value_of, values_or_null};
ghost use Rattle.vortex_types.specs.ValueParts.{value_weight};
ghost use Rattle.vortex_types.specs.ValueCopies.{begun_value, begun_weight};

use crate::scalar_value::ScalarValue;
use std::alloc::AllocError;

/// A started copy.
#[derive(Drop)]
pub(super) enum Begun<'a> {
    /// A copy of a value that is no list.
    Whole(ScalarValue),
    /// The values of a list, none copied yet.
    Items(&'a Vec<Option<ScalarValue>>),
}

/// An enclosing list: copies of its first values, and the values after the one that is being
/// copied.
#[derive(Drop)]
struct Copying<'a> {
    copies: Vec<Option<ScalarValue>>,
    rest: &'a [Option<ScalarValue>],
}

impl ScalarValue {
    /// Starts a copy, which is whole unless the value is a list.
    pub(super) fn begin_copy(&self) -> Result<Begun<'_>, AllocError>
        ensures value { IfOk result (λ begun. begun_value begun ≡ value_of self.now) }
        ensures weight { IfOk result (λ begun. begun_weight begun ≤ value_weight self.now) }
    {
        match self {
            ScalarValue::Bool(b) => Ok(Begun::Whole(ScalarValue::Bool(*b))),
            ScalarValue::Int(n) => Ok(Begun::Whole(ScalarValue::Int(*n))),
            ScalarValue::Utf8(text) => Ok(Begun::Whole(ScalarValue::Utf8(text.clone()?))),
            ScalarValue::Binary(bytes) => {
                let bytes = bytes.as_slice().to_vec(*bytes.allocator())?;
                Ok(Begun::Whole(ScalarValue::Binary(bytes)))
            }
            ScalarValue::List(items) => Ok(Begun::Items(items)),
        }
    }
}

/// Copies of the values. Enclosing lists are kept in a list.
pub(super) fn copy_items(
    root: &Vec<Option<ScalarValue>>,
) -> Result<Vec<Option<ScalarValue>>, AllocError>
    ensures { IfOk result
        (λ copies. values_or_null copies.items ≡ values_or_null root.now.items) }
{
    let mut above = Vec::new(*root.allocator());
    let mut copies = Vec::new(*root.allocator());
    let mut rest = root.as_slice();
    loop {
        if let Some((item, others)) = rest.split_first() {
            rest = others;
            match item {
                None => copies.push(None)?,
                Some(value) => match value.begin_copy()? {
                    Begun::Whole(copy) => copies.push(Some(copy))?,
                    Begun::Items(inner) => {
                        above.push(Copying { copies, rest })?;
                        copies = Vec::new(*inner.allocator());
                        rest = inner.as_slice();
                    }
                },
            }
        } else {
            let Some(around) = above.pop() else {
                return Ok(copies);
            };
            let whole = ScalarValue::List(copies);
            copies = around.copies;
            copies.push(Some(whole))?;
            rest = around.rest;
        }
    }
}
