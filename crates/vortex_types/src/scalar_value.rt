//! Values that are not null.
ghost use Rattle.std.specs.Prelude.{◌≡◌, ◌<◌, ◌≤◌, IfOk, IfSome};
ghost use Rattle.vortex_errors.specs.Answers.{AnswersUnlessMemory};
ghost use Rattle.vortex_types.specs.ValueParts.{value_weight, value_weights, deepest_value};
ghost use Rattle.vortex_types.specs.declared.scalar_value.ScalarValue.{size-ScalarValue};

mod copying;

use copying::{Begun, copy_items};
use std::alloc::{AllocError, Global};
use vortex_errors::VortexResult;

/// A value that is not null.
pub enum ScalarValue {
    /// A truth value.
    Bool(bool),
    /// An integer of any of the eight types, given by the type.
    Int(i128),
    /// A text.
    Utf8(String),
    /// Bytes.
    Binary(Vec<u8>),
    /// The values of a list; the fields of a struct in order; the entries of a map, each a list of
    /// key and value.
    List(Vec<Option<ScalarValue>>),
}

/// A value is dropped with a work list, so deep nesting uses no stack, and lists of one value each,
/// nested, allocate nothing. If the list cannot grow, the remaining values are dropped recursively.
impl Drop for ScalarValue {
    #[tactic(auto, using(crate::proofs::ValueWeights::weights))]
    fn drop(self) {
        let mut list = match self.items() {
            Some(items) => items,
            None => return,
        };
        while let Some(item) = list.pop() {
            if let Some(value) = item {
                if let Some(items) = value.items() {
                    let mut items = items;
                    // what did not fit is dropped with `items`
                    let _grown = list.append(&mut items);
                }
            }
        }
    }
}

impl ScalarValue {
    ghost use Rattle.vortex_types.specs.ValueOf.{value_of};

    /// Takes a value apart; no parts for a value without values inside.
    fn items(self) -> Option<Vec<Option<ScalarValue>>>
        ensures fewer { IfSome result (λ items. value_weights items.items ≤ value_weight self) }
        ensures falls { IfSome result
            (λ items. deepest_value items.items < size-ScalarValue self) }
    {
        match self {
            ScalarValue::Bool(_) => None,
            ScalarValue::Int(_) => None,
            ScalarValue::Utf8(_) => None,
            ScalarValue::Binary(_) => None,
            ScalarValue::List(items) => Some(items),
        }
    }

    /// A copy with the same view.
    pub fn try_clone(&self, _alloc: Global) -> VortexResult<ScalarValue>
        ensures { AnswersUnlessMemory result (λ v. value_of v ≡ value_of self.now) }
    {
        Ok(self.copy()?)
    }

    fn copy(&self) -> Result<ScalarValue, AllocError>
        ensures { IfOk result (λ v. value_of v ≡ value_of self.now) }
    {
        match self.begin_copy()? {
            Begun::Whole(copy) => Ok(copy),
            Begun::Items(items) => Ok(ScalarValue::List(copy_items(items)?)),
        }
    }
}

/// A copy with the same view.
impl Clone for ScalarValue {
    ghost use Rattle.vortex_types.specs.ValueOf.{value_of};

    ghost is_clone = { λ value copy. value_of copy ≡ value_of value };

    fn clone(&self) -> Result<ScalarValue, AllocError> {
        self.copy()
    }
}
