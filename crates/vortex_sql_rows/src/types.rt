//! Which types a function takes, and which it returns: data, so that no function proves it.
ghost use Rattle.std.specs.Prelude.{◌≡◌, ◌&&◌, None, Some, true, false, map, MatchOption};
ghost use Rattle.std.specs.List.{list_any, list_all};
ghost use Rattle.vortex_errors.specs.Answers.{Answers, AnswersUnlessMemory};
ghost use Rattle.vortex_types.specs.TypeOf.{type_of, allows_null};
ghost use Rattle.vortex_types.specs.LogicalTypes.{is_nullable, integer_type};
ghost use Rattle.vortex_types.specs.TypeEquality.{alike_types};
ghost use Rattle.vortex_interface.specs.Functions.{IsTypeMismatch};
ghost use Rattle.vortex_sql_rows.specs.Types.{is_kind, all_alike, after_first, are_cases};
ghost use Rattle.vortex_sql_rows.specs.Types.{are_taken, given_type, nullable_by, type_by};
ghost use Rattle.vortex_sql_rows.specs.Types.{ptype_in, main_type, lacks_last};
ghost use Rattle.vortex_sql_rows.specs.declared.types.Kind.TheVariants.{Any, Truth};

use crate::ranges::has_all_of;
use std::alloc::Global;
use vortex_columns::{DType, MismatchPlace, Nullability, PType, VortexError, VortexResult};

/// What an argument may be.
#[derive(Clone, Copy, Debug, PartialEq, Eq)]
pub enum Kind {
    /// A truth value, an integer or a text.
    Any,
    Truth,
    Integer,
    /// An integer whose every number this type has.
    Within(PType),
    Text,
}

/// Which arguments a function takes.
#[derive(Clone, Copy, Debug, PartialEq, Eq)]
pub enum Takes {
    /// The first is of that kind; the others are alike, apart from nullability.
    Alike(Kind),
    /// The first, the second, and each further one is of its own kind.
    Each(Kind, Kind, Kind),
    /// Conditions, each before its value; last a value alone, if their number is odd. Values are alike.
    Cases,
}

/// Where the result's type has null.
#[derive(Clone, Copy, Debug, PartialEq, Eq)]
pub enum Nulls {
    /// Where an argument's has.
    WhereAny,
    /// Where each argument's has.
    WhereAll,
    /// Where an argument's has, and where no value is alone at the end of cases.
    Cases,
    Always,
    Never,
}

/// The type of the result.
#[derive(Clone, Copy, Debug, PartialEq, Eq)]
pub enum Gives {
    /// The type of the first argument, or of the values of cases.
    Alike,
    Truth,
    Integer(PType),
    Text,
}

#[derive(Clone, Copy, Debug, PartialEq, Eq)]
pub struct Types {
    pub takes: Takes,
    pub nulls: Nulls,
    pub gives: Gives,
}

/// Whether integers of that type are of the kind.
fn is_integer_kind(kind: Kind, ptype: PType) -> bool
    ensures { result ≡ is_kind kind (integer_type ptype false) }
{
    match kind {
        Kind::Any => true,
        Kind::Integer => true,
        Kind::Within(wide) => has_all_of(wide, ptype),
        Kind::Truth => false,
        Kind::Text => false,
    }
}

fn is_kind(kind: Kind, dtype: &DType) -> bool
    ensures { result ≡ is_kind kind (type_of dtype.now) }
{
    match dtype {
        DType::Primitive(ptype, _) => is_integer_kind(kind, *ptype),
        DType::Bool(_) => match kind {
            Kind::Any => true,
            Kind::Truth => true,
            Kind::Integer => false,
            Kind::Within(_) => false,
            Kind::Text => false,
        },
        DType::Utf8(_) => match kind {
            Kind::Any => true,
            Kind::Text => true,
            Kind::Truth => false,
            Kind::Integer => false,
            Kind::Within(_) => false,
        },
        _ => false,
    }
}

fn all_alike(first: &DType, rest: &[DType]) -> bool
    ensures { result ≡ list_all (λ t. alike_types (type_of first.now) (type_of t)) rest.now }
{
    for dtype in rest {
        if !first.eq_ignore_nullability(dtype) {
            return false;
        }
    }
    true
}

fn all_of_kind(kind: Kind, types: &[DType]) -> bool
    ensures { result ≡ list_all (λ t. is_kind kind (type_of t)) types.now }
{
    for dtype in types {
        if !is_kind(kind, dtype) {
            return false;
        }
    }
    true
}

#[tactic(auto, using(crate::proofs::Maps::all_map))]
fn each_further(second: Kind, further: Kind, dtype: &DType, rest: &[DType]) -> bool
    ensures { result ≡ (is_kind second (type_of dtype.now)
        && list_all (is_kind further) (map type_of rest.now)) }
{
    is_kind(second, dtype) && all_of_kind(further, rest)
}

fn after_first(second: Kind, further: Kind, types: &[DType]) -> bool
    ensures { result ≡ after_first second further (map type_of types.now) }
{
    match types {
        [] => true,
        [dtype, rest @ ..] => each_further(second, further, dtype, rest),
    }
}

/// Whether the types after the first value's are those of cases.
fn are_cases(first: &DType, rest: &[DType]) -> bool
    ensures { result ≡ are_cases (type_of first.now) (map type_of rest.now) }
{
    match rest {
        [] => true,
        [last] => first.eq_ignore_nullability(last),
        [condition, value, more @ ..] => {
            is_kind(Kind::Truth, condition)
                && first.eq_ignore_nullability(value)
                && are_cases(first, more)
        }
    }
}

#[tactic(auto, using(crate::proofs::Maps::all_map))]
fn alike_taken(kind: Kind, first: &DType, rest: &[DType]) -> bool
    ensures { result ≡ (is_kind kind (type_of first.now)
        && all_alike (type_of first.now) (map type_of rest.now)) }
{
    is_kind(kind, first) && all_alike(first, rest)
}

fn each_taken(kinds: (Kind, Kind, Kind), first: &DType, rest: &[DType]) -> bool
    ensures { result ≡ (is_kind kinds.0 (type_of first.now)
        && after_first kinds.1 kinds.2 (map type_of rest.now)) }
{
    is_kind(kinds.0, first) && after_first(kinds.1, kinds.2, rest)
}

fn cases_taken(condition: &DType, first: &DType, rest: &[DType]) -> bool
    ensures { result ≡ (is_kind Truth (type_of condition.now) && (is_kind Any (type_of first.now)
        && are_cases (type_of first.now) (map type_of rest.now))) }
{
    is_kind(Kind::Truth, condition) && (is_kind(Kind::Any, first) && are_cases(first, rest))
}

fn are_taken(takes: Takes, types: &[DType]) -> bool
    ensures { result ≡ are_taken takes (map type_of types.now) }
{
    match (takes, types) {
        (Takes::Alike(kind), [first, rest @ ..]) => alike_taken(kind, first, rest),
        (Takes::Each(a, b, c), [first, rest @ ..]) => each_taken((a, b, c), first, rest),
        (Takes::Cases, [condition, first, rest @ ..]) => cases_taken(condition, first, rest),
        _ => false,
    }
}

fn any_nullable(types: &[DType]) -> bool
    ensures { result ≡ list_any (λ t. is_nullable (type_of t)) types.now }
{
    for dtype in types {
        if dtype.is_nullable() {
            return true;
        }
    }
    false
}

fn all_nullable(types: &[DType]) -> bool
    ensures { result ≡ list_all (λ t. is_nullable (type_of t)) types.now }
{
    for dtype in types {
        if !dtype.is_nullable() {
            return false;
        }
    }
    true
}

/// Whether no value is alone at the end of cases.
fn lacks_last(types: &[DType]) -> bool
    ensures { result ≡ lacks_last (map type_of types.now) }
{
    match types {
        [] => true,
        [_last] => false,
        [_condition, _value, more @ ..] => lacks_last(more),
    }
}

#[tactic(auto, using(crate::proofs::Maps::any_map, crate::proofs::Maps::all_map))]
fn nullable_by(nulls: Nulls, types: &[DType]) -> bool
    ensures { result ≡ nullable_by nulls (map type_of types.now) }
{
    match nulls {
        Nulls::WhereAny => any_nullable(types),
        Nulls::WhereAll => all_nullable(types),
        Nulls::Cases => any_nullable(types) || lacks_last(types),
        Nulls::Always => true,
        Nulls::Never => false,
    }
}

fn nullability_of(nullable: bool) -> Nullability
    ensures { allows_null result ≡ nullable }
{
    if nullable {
        Nullability::Nullable
    } else {
        Nullability::NonNullable
    }
}

/// The type that the result goes by, if there is one.
fn main_of<'a>(takes: Takes, types: &'a [DType]) -> Option<&'a DType>
    ensures { MatchOption result
        (are_taken takes (map type_of types.now) ≡ false)
        (λ t. main_type takes (map type_of types.now) ≡ type_of t.now) }
{
    match (takes, types) {
        (Takes::Alike(_), [first, ..]) => Some(first),
        (Takes::Each(_, _, _), [first, ..]) => Some(first),
        (Takes::Cases, [_condition, first, ..]) => Some(first),
        _ => None,
    }
}

fn ptype_in(dtype: &DType) -> PType
    ensures { result ≡ ptype_in (type_of dtype.now) }
{
    match dtype {
        DType::Primitive(ptype, _) => *ptype,
        _ => PType::I64,
    }
}

/// The integer type that a function is passed with these arguments.
pub fn main_ptype(takes: Takes, types: &[DType]) -> PType
    requires { are_taken takes (map type_of types.now) ≡ true }
    ensures { result ≡ ptype_in (main_type takes (map type_of types.now)) }
{
    match main_of(takes, types) {
        Some(dtype) => ptype_in(dtype),
        None => PType::I64,
    }
}

fn given_type(alloc: Global, gives: Gives, main: &DType) -> VortexResult<DType>
    ensures { AnswersUnlessMemory result (λ t. type_of t ≡ given_type gives (type_of main.now)) }
{
    match gives {
        Gives::Alike => main.try_clone(alloc),
        Gives::Truth => Ok(DType::Bool(Nullability::NonNullable)),
        Gives::Integer(ptype) => Ok(DType::Primitive(ptype, Nullability::NonNullable)),
        Gives::Text => Ok(DType::Utf8(Nullability::NonNullable)),
    }
}

/// The type of the result; E3 exactly where these types are not taken.
pub fn type_by(alloc: Global, types: Types, given: &[DType]) -> VortexResult<DType>
    ensures { Answers result (λ t. type_by types (map type_of given.now) ≡ Some (type_of t))
        (λ e. (type_by types (map type_of given.now) ≡ None) × IsTypeMismatch e) }
{
    if !are_taken(types.takes, given) {
        return Err(VortexError::TypeMismatch(MismatchPlace::Scalars));
    }
    let nullability = nullability_of(nullable_by(types.nulls, given));
    match main_of(types.takes, given) {
        Some(main) => Ok(given_type(alloc, types.gives, main)?.with_nullability(nullability)),
        None => Err(VortexError::TypeMismatch(MismatchPlace::Scalars)),
    }
}
