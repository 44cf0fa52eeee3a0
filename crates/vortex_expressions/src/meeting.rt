//! Where operands of two integer types meet.
ghost use Rattle.std.specs.Prelude.{◌≡◌, option_map};
ghost use Rattle.std.specs.List.{find};
ghost use Rattle.vortex_errors.specs.Answers.{AnswersUnlessMemory};
ghost use Rattle.vortex_types.specs.TypeOf.{type_of};
ghost use Rattle.vortex_expressions.specs.Meeting as specs;

use std::alloc::Global;
use vortex_columns::{DType, PType, VortexResult};
use vortex_standard::has_all_of;

/// The integer types, from the narrowest.
const INTEGERS: [PType; 8] = [
    PType::I8,
    PType::U8,
    PType::I16,
    PType::U16,
    PType::I32,
    PType::U32,
    PType::I64,
    PType::U64,
];

fn has_both(first: PType, second: PType, ptype: PType) -> bool
    ensures { result ≡ specs.has_both first second ptype }
{
    has_all_of(ptype, first) && has_all_of(ptype, second)
}

/// The first of the types that has every number of both.
fn first_with_both(first: PType, second: PType, types: &[PType]) -> Option<PType>
    ensures { result ≡ find (specs.has_both first second) types.now }
{
    for ptype in types {
        if has_both(first, second, *ptype) {
            return Some(*ptype);
        }
    }
    None
}

/// The narrowest type that has every number of both, or the first of both.
fn wider(first: PType, second: PType) -> PType
    ensures { result ≡ specs.wider first second }
{
    first_with_both(first, second, &INTEGERS).unwrap_or(first)
}

/// The type in which values of two types meet.
fn met(first: DType, second: &DType) -> DType
    ensures { type_of result ≡ specs.met (type_of first) (type_of second.now) }
{
    match (&first, second) {
        (DType::Primitive(ptype, nullability), DType::Primitive(other, _)) => {
            DType::Primitive(wider(*ptype, *other), *nullability)
        }
        _ => first,
    }
}

/// The type in which values of the types so far meet those of one more, if there is one.
pub(crate) fn met_next(
    alloc: Global,
    found: Option<DType>,
    next: Option<&DType>,
) -> VortexResult<Option<DType>>
    ensures { AnswersUnlessMemory result (λ t. option_map (λ t. type_of t) t
        ≡ specs.met_next (option_map (λ t. type_of t) found)
        (option_map (λ t. type_of t.now) next.entry)) }
{
    match (found, next) {
        (None, None) => Ok(None),
        (None, Some(dtype)) => Ok(Some(dtype.try_clone(alloc)?)),
        (Some(first), None) => Ok(Some(first)),
        (Some(first), Some(dtype)) => Ok(Some(met(first, dtype))),
    }
}

/// The integer type to which a value is cast where the other type is taken; none if it stays.
pub(crate) fn widened_to(taken: &DType, dtype: &DType) -> Option<PType>
    ensures { result ≡ specs.widened_to (type_of taken.now) (type_of dtype.now) }
{
    match (taken, dtype) {
        (DType::Primitive(wide, _), DType::Primitive(narrow, _)) => {
            let is_wider = has_all_of(*wide, *narrow) && !has_all_of(*narrow, *wide);
            if is_wider { Some(*wide) } else { None }
        }
        _ => None,
    }
}
