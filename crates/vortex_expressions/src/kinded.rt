//! Calls on values of kinds: dates, timestamps, decimals and floats.
ghost use Rattle.std.specs.Prelude.{◌≡◌, Some};
ghost use Rattle.vortex_types.specs.TypeOf.{type_of};
ghost use Rattle.vortex_lowering.specs.Rows.{lowered};
ghost use Rattle.vortex_expressions.specs.Kinded as specs;
ghost use Rattle.vortex_expressions.specs.Items.{item_in};
ghost use Rattle.vortex_expressions.specs.Literals as literals;
ghost use Rattle.vortex_expressions.specs.Literals.{literal_in};
ghost use Rattle.vortex_expressions.specs.Answering.{Gives};

use crate::item::{Item, Timespan, constant_at};
use crate::literal::Literal;
use crate::refusal::{BindStop, Refusal};
use std::alloc::Global;
use vortex_columns::{DType, MismatchPlace, Nullability, PType, VortexError};
use vortex_functions::BoundExpression;
use vortex_logical::kind::Kind;
use vortex_logical::operand::Operand;
use vortex_logical_calls as calls;
use vortex_logical_calls::{Lowered, kind_beside};
use vortex_operators::{BetweenOptions, StrictComparison};
use vortex_sql_kind_texts::from_texts::overflows;
use vortex_standard::Standard;

/// A tree that is not of the type of its operand's values, which no column is, is E3.
impl From<calls::Refusal> for BindStop {
    ghost from_gives = { λ r s. s ≡ specs.stop_of r };

    fn from(refusal: calls::Refusal) -> BindStop {
        match refusal {
            calls::Refusal::Binding(VortexError::OutOfMemory) => {
                BindStop::Refused(Refusal::Binding(VortexError::OutOfMemory))
            }
            calls::Refusal::Binding(_) => BindStop::Refused(Refusal::Binding(
                VortexError::TypeMismatch(MismatchPlace::Scalars),
            )),
            refusal => BindStop::Refused(Refusal::Kinds(refusal)),
        }
    }
}

/// Whether the item is a value of a kind, or has a meaning only next to one.
pub(crate) fn is_kinded(item: &Item) -> bool
    ensures { result ≡ specs.is_kinded (item_in item.now) }
{
    !matches!(item, Item::Literal(_) | Item::Bound(_))
}

pub(crate) fn is_interval(item: &Item) -> bool
    ensures { result ≡ specs.is_interval (item_in item.now) }
{
    matches!(item, Item::Interval(_))
}

pub(crate) fn is_plain(kind: &Kind) -> bool
    ensures { result ≡ specs.is_plain kind.now }
{
    matches!(kind, Kind::Plain)
}

/// Whether columns of the type store the kind.
pub(crate) fn stores(kind: &Kind, dtype: &DType) -> bool
    ensures { result ≡ specs.stores kind.now (Some (type_of dtype.now)) }
{
    match (kind.stored_ptype(), dtype) {
        (Some(stored), DType::Primitive(ptype, _)) => stored == *ptype,
        _ => false,
    }
}

/// The tree of a value's stored integers; any other item is unchanged.
pub(crate) fn stored_item(item: Item) -> Item
    ensures { item_in result ≡ specs.stored_item (item_in item) }
{
    match item {
        Item::Kinded(_, tree) => Item::Bound(tree),
        other => other,
    }
}

/// The kind of values, among which a number with a fraction is where the flag is true: where they
/// have none, that of floats.
pub(crate) fn fraction_kind(has_fraction: bool, kind: Kind) -> Kind
    ensures { result ≡ specs.fraction_kind has_fraction kind }
{
    match (has_fraction, kind) {
        (true, Kind::Plain) => Kind::F64,
        (_, kind) => kind,
    }
}

/// The kind of a value, or else the other kind; a difference is one of timestamps.
pub(crate) fn kind_or(item: &Item, kind: Kind) -> Kind
    ensures { result ≡ specs.kind_or (item_in item.now) kind }
{
    match item {
        Item::Kinded(found, _) => *found,
        Item::Fraction(_) => fraction_kind(true, kind),
        Item::Interval(Timespan::Elapsed(_)) => Kind::Timestamp,
        _ => kind,
    }
}

/// What a tree without a kind is.
pub(crate) fn plain_operand(dtype: &DType) -> Operand
    ensures { result ≡ specs.plain_operand (Some (type_of dtype.now)) }
{
    match dtype {
        DType::Primitive(ptype, _) => Operand::Whole(*ptype),
        _ => Operand::Of(Kind::Plain),
    }
}

/// The type of a number without a point next to a value of a kind: days next to a date.
fn whole_ptype(kind: &Kind) -> PType
    ensures { result ≡ specs.whole_ptype kind.now }
{
    match kind {
        Kind::Date => PType::I32,
        _ => PType::I64,
    }
}

/// A number without a point in an integer type.
pub(crate) fn whole_literal(
    alloc: Global,
    ptype: PType,
    literal: &Literal,
) -> Result<Lowered<Standard>, BindStop>
    ensures { Gives (λ x. lowered x.tree x.operand) result
        (specs.whole_literal ptype (literal_in literal.now)) }
{
    let dtype = DType::Primitive(ptype, Nullability::NonNullable);
    let tree = constant_at(alloc, literal, dtype)?;
    let operand = Operand::Whole(ptype);
    Ok(Lowered { tree, operand })
}

/// The value of a text of a kind; a number that is past all floats is none.
pub(crate) fn text_literal(
    alloc: Global,
    kind: Kind,
    text: &[u8],
) -> Result<Lowered<Standard>, BindStop>
    ensures { Gives (λ x. lowered x.tree x.operand) result (specs.text_literal kind text.now) }
{
    if overflows(kind, text) {
        return Err(BindStop::Refused(Refusal::Kinds(calls::Refusal::NotOfKind(kind))));
    }
    Ok(calls::literal(alloc, kind, text)?)
}

/// A number next to a value of a kind: the text of the literal.
fn number_literal(
    alloc: Global,
    kind: Kind,
    literal: &Literal,
    number: &[u8],
) -> Result<Lowered<Standard>, BindStop>
    requires { literal_in literal.now ≡ literals.number number.now }
    ensures { Gives (λ x. lowered x.tree x.operand) result
        (specs.literal_operand kind (literals.number number.now)) }
{
    let ptype = whole_ptype(&kind);
    let operand = Operand::Of(kind);
    let beside = kind_beside(&operand, number);
    match beside {
        Some(found) => text_literal(alloc, found, number),
        None => whole_literal(alloc, ptype, literal),
    }
}

/// Null next to a value of a kind.
pub(crate) fn null_literal(alloc: Global, kind: Kind) -> Result<Lowered<Standard>, BindStop>
    ensures { Gives (λ x. lowered x.tree x.operand) result (specs.null_literal kind) }
{
    match kind.stored_ptype() {
        Some(ptype) => {
            let dtype = DType::Primitive(ptype, Nullability::Nullable);
            let tree = constant_at(alloc, &Literal::Null, dtype)?;
            let operand = Operand::Of(kind);
            Ok(Lowered { tree, operand })
        }
        None => Err(BindStop::Refused(Refusal::UntypedNull)),
    }
}

/// A literal next to a value of a kind.
fn literal_operand(
    alloc: Global,
    kind: Kind,
    literal: &Literal,
) -> Result<Lowered<Standard>, BindStop>
    ensures { Gives (λ x. lowered x.tree x.operand) result
        (specs.literal_operand kind (literal_in literal.now)) }
{
    match literal {
        Literal::Number(word) => number_literal(alloc, kind, literal, word.as_bytes()),
        Literal::Text(text) => text_literal(alloc, kind, text.as_bytes()),
        Literal::Truth(_) => Err(BindStop::Refused(Refusal::NotHeld)),
        Literal::Null => null_literal(alloc, kind),
    }
}

/// An item next to a value of a kind.
pub(crate) fn item_operand(
    alloc: Global,
    kind: &Kind,
    item: Item,
) -> Result<Lowered<Standard>, BindStop>
    ensures { Gives (λ x. lowered x.tree x.operand) result
        (specs.item_operand kind.now (item_in item)) }
{
    match item {
        Item::Literal(literal) => literal_operand(alloc, *kind, &literal),
        Item::Bound(tree) => {
            let operand = plain_operand(tree.dtype());
            Ok(Lowered { tree, operand })
        }
        Item::Kinded(kind, tree) => {
            let operand = Operand::Of(kind);
            Ok(Lowered { tree, operand })
        }
        Item::Fraction(number) => literal_operand(alloc, *kind, &Literal::Number(number)),
        Item::Interval(_) => Err(BindStop::Refused(Refusal::NotHeld)),
    }
}

/// A tree of stored integers; whole numbers have no kind.
pub(crate) fn value_item(value: Lowered<Standard>) -> Item
    ensures { item_in result ≡ specs.value_item value.operand value.tree }
{
    let Lowered { tree, operand } = value;
    match operand {
        Operand::Whole(_) => Item::Bound(tree),
        Operand::Of(kind) => Item::Kinded(kind, tree),
    }
}

/// Both bounds are inclusive.
pub(crate) fn within_bounds() -> BetweenOptions
    ensures { result ≡ specs.within_bounds }
{
    BetweenOptions {
        lower_strict: StrictComparison::NonStrict,
        upper_strict: StrictComparison::NonStrict,
    }
}

/// BETWEEN of three, one of which has a kind.
pub(crate) fn kinded_between(
    alloc: Global,
    item: Item,
    lower: Item,
    upper: Item,
) -> Result<BoundExpression<Standard>, BindStop>
    ensures { Gives (λ t. t) result
        (specs.kinded_between (item_in item) (item_in lower) (item_in upper)) }
{
    let last = kind_or(&upper, Kind::Plain);
    let other = kind_or(&lower, last);
    let kind = kind_or(&item, other);
    let item = item_operand(alloc, &kind, item)?;
    let lower = item_operand(alloc, &kind, lower)?;
    let upper = item_operand(alloc, &kind, upper)?;
    Ok(calls::between(alloc, within_bounds(), item, lower, upper)?)
}
