//! Casts to decimals, and to `numeric` without digits.
ghost use Rattle.std.specs.Prelude.{◌≡◌, Some};
ghost use Rattle.vortex_logical.specs.declared.kind.Kind.TheVariants.{Decimal};
ghost use Rattle.vortex_logical.specs.Digits.{digits_of};
ghost use Rattle.vortex_expressions.specs.KindCasts as specs;
ghost use Rattle.vortex_expressions.specs.Items.{item_in, bound as bound_item};
ghost use Rattle.vortex_expressions.specs.Items.{kinded as kinded_item, literal as literal_item};
ghost use Rattle.vortex_expressions.specs.Literals.{literal_in};
ghost use Rattle.vortex_expressions.specs.Answering.{Gives};

use crate::item::Item;
use crate::kind_casts::{cast_to_kind, kind_by};
use crate::kind_words::is_word;
use crate::kinded::plain_operand;
use crate::literal::Literal;
use crate::refusal::BindStop;
use std::alloc::Global;
use vortex_functions::BoundExpression;
use vortex_logical::digits::DecimalDigits;
use vortex_logical::kind::Kind;
use vortex_logical::operand::Operand;
use vortex_logical_calls::Lowered;
use vortex_logical_calls::conversions::as_float;
use vortex_logical_casts::{decimal_steps, float_steps};
use vortex_standard::Standard;

/// A float as so many digits: its first 15, rounded from halfway away from zero.
fn decimal_of_float(
    alloc: Global,
    is_tried: bool,
    digits: DecimalDigits,
    found: Kind,
    tree: BoundExpression<Standard>,
) -> Result<Item, BindStop>
    ensures { Gives item_in result (specs.decimal_of_float is_tried digits found tree) }
{
    let operand = Operand::Of(found);
    let float = as_float(alloc, Lowered { tree, operand })?;
    let steps = Some(float_steps(is_tried, digits));
    kind_by(alloc, Kind::Decimal(digits), steps, float.tree)
}

/// A value of a kind as a decimal.
pub(crate) fn decimal_cast(
    alloc: Global,
    is_tried: bool,
    digits: DecimalDigits,
    found: Kind,
    tree: BoundExpression<Standard>,
) -> Result<Item, BindStop>
    ensures { Gives item_in result (specs.decimal_cast is_tried digits found tree) }
{
    match found {
        Kind::F64 | Kind::F32 => decimal_of_float(alloc, is_tried, digits, found, tree),
        _ => {
            let steps = decimal_steps(is_tried, digits, &Operand::Of(found));
            kind_by(alloc, Kind::Decimal(digits), steps, tree)
        }
    }
}

/// Whether it is the name of decimals, without digits.
pub(crate) fn is_numeric_name(name: &[u8], is_nullable: bool) -> bool
    ensures { result ≡ specs.is_numeric_name name.now is_nullable }
{
    !is_nullable && (is_word(name, b"numeric") || is_word(name, b"decimal"))
}

/// Decimals of 18 digits before the point.
fn longest_whole() -> Option<Kind>
    ensures { result ≡ Some (Decimal (digits_of 18 0)) }
{
    Some(Kind::Decimal(DecimalDigits::try_new(18, 0)?))
}

/// A whole number as a decimal, another value as a float.
fn whole_cast(
    alloc: Global,
    is_tried: bool,
    tree: BoundExpression<Standard>,
) -> Result<Item, BindStop>
    ensures { Gives item_in result (specs.numeric_cast is_tried (bound_item tree)) }
{
    match plain_operand(tree.dtype()) {
        Operand::Whole(_) => match longest_whole() {
            Some(kind) => cast_to_kind(alloc, is_tried, kind, Item::Bound(tree)),
            None => Err(BindStop::Missing),
        },
        Operand::Of(_) => cast_to_kind(alloc, is_tried, Kind::F64, Item::Bound(tree)),
    }
}

fn literal_numeric(alloc: Global, is_tried: bool, literal: Literal) -> Result<Item, BindStop>
    ensures { Gives item_in result
        (specs.numeric_cast is_tried (literal_item (literal_in literal))) }
{
    match literal {
        Literal::Number(number) => match longest_whole() {
            Some(kind) => {
                cast_to_kind(
                    alloc,
                    is_tried,
                    kind,
                    Item::Literal(Literal::Number(number)),
                )
            }
            None => Err(BindStop::Missing),
        },
        Literal::Text(text) => {
            cast_to_kind(
                alloc,
                is_tried,
                Kind::F64,
                Item::Literal(Literal::Text(text)),
            )
        }
        Literal::Truth(truth) => {
            cast_to_kind(
                alloc,
                is_tried,
                Kind::F64,
                Item::Literal(Literal::Truth(truth)),
            )
        }
        Literal::Null => cast_to_kind(alloc, is_tried, Kind::F64, Item::Literal(Literal::Null)),
    }
}

fn kinded_numeric(
    alloc: Global,
    is_tried: bool,
    kind: Kind,
    tree: BoundExpression<Standard>,
) -> Result<Item, BindStop>
    ensures { Gives item_in result (specs.numeric_cast is_tried (kinded_item kind tree)) }
{
    match kind {
        Kind::Decimal(digits) => Ok(Item::Kinded(Kind::Decimal(digits), tree)),
        Kind::Plain => cast_to_kind(alloc, is_tried, Kind::F64, Item::Kinded(Kind::Plain, tree)),
        Kind::Date => cast_to_kind(alloc, is_tried, Kind::F64, Item::Kinded(Kind::Date, tree)),
        Kind::Timestamp => {
            cast_to_kind(
                alloc,
                is_tried,
                Kind::F64,
                Item::Kinded(Kind::Timestamp, tree),
            )
        }
        Kind::F64 => cast_to_kind(alloc, is_tried, Kind::F64, Item::Kinded(Kind::F64, tree)),
        Kind::F32 => cast_to_kind(alloc, is_tried, Kind::F64, Item::Kinded(Kind::F32, tree)),
    }
}

/// A cast to `numeric` without digits: a decimal and a number with a fraction stay as they are.
pub(crate) fn numeric_cast(alloc: Global, is_tried: bool, item: Item) -> Result<Item, BindStop>
    ensures { Gives item_in result (specs.numeric_cast is_tried (item_in item)) }
{
    match item {
        Item::Fraction(number) => Ok(Item::Fraction(number)),
        Item::Kinded(kind, tree) => kinded_numeric(alloc, is_tried, kind, tree),
        Item::Bound(tree) => whole_cast(alloc, is_tried, tree),
        Item::Literal(literal) => literal_numeric(alloc, is_tried, literal),
        Item::Interval(span) => { cast_to_kind(alloc, is_tried, Kind::F64, Item::Interval(span)) }
    }
}
