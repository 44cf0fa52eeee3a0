//! Arithmetic of two literal numbers, one of them with a point.
ghost use Rattle.std.specs.Prelude.{◌≡◌, ◌≤◌, option_map, IfSome};
ghost use Rattle.vortex_errors.specs.Answers.{AnswersUnlessMemory};
ghost use Rattle.vortex_expressions.specs.Items.{item_in};
ghost use Rattle.vortex_expressions.specs.Folding as specs;

use crate::item::Item;
use crate::literal::Literal;
use std::alloc::Global;
use vortex_columns::VortexResult;
use vortex_logical::decimals::{read_decimal, rescale, within_digits, write_decimal};
use vortex_logical::digits::DecimalDigits;
use vortex_logical_calls::number_kind;
use vortex_types::NumericOperator;

/// An integer with so many of its digits after the point.
#[derive(Clone, Copy)]
pub(crate) struct Exact {
    integer: i64,
    scale: u32,
}

/// 18 digits, as many of them after the point as the number has.
fn number_digits(number: &[u8]) -> Option<DecimalDigits>
    ensures { result ≡ specs.number_digits number.now }
{
    let kind = number_kind(number)?;
    kind.decimal_digits()
}

/// The number of a text without an exponent, if 18 digits are enough.
#[tactic(auto, unfolding(crate::specs::Folding::exact_of))]
fn exact_of(number: &[u8]) -> Option<Exact>
    ensures { result ≡ specs.exact_of number.now }
{
    let digits = number_digits(number)?;
    let integer = read_decimal(digits, number)?;
    let scale = digits.scale();
    Some(Exact { integer, scale })
}

/// 18 digits, so many of them after the point.
fn digits_at(scale: u32) -> Option<DecimalDigits>
    ensures value { result ≡ specs.digits_at scale }
    ensures scale { IfSome result (λ d. d.scale ≡ scale) }
{
    DecimalDigits::try_new(18, scale)
}

fn within(scale: u32, integer: i128) -> Option<Exact>
    ensures { result ≡ specs.within scale integer }
{
    let integer = within_digits(integer, digits_at(scale)?)?;
    Some(Exact { integer, scale })
}

fn wider(left: u32, right: u32) -> u32
    ensures value { result ≡ specs.wider left right }
    ensures left { left ≤ result }
    ensures right { right ≤ result }
{
    if left <= right { right } else { left }
}

/// The integer with as many digits after the point, if 18 are enough.
fn integer_at(scale: u32, number: Exact) -> Option<i64>
    requires { number.scale ≤ scale }
    ensures { result ≡ specs.integer_at scale number }
{
    let from = digits_at(number.scale)?;
    let to = digits_at(scale)?;
    rescale(number.integer, from, to)
}

/// Two integers with so many of their digits after the point.
#[derive(Clone, Copy)]
pub(crate) struct Pair {
    left: i64,
    right: i64,
    scale: u32,
}

/// Both with as many digits after the point as the one that has more of them.
fn aligned(left: Exact, right: Exact) -> Option<Pair>
    ensures { result ≡ specs.aligned left right }
{
    let scale = wider(left.scale, right.scale);
    let left = integer_at(scale, left)?;
    let right = integer_at(scale, right)?;
    Some(Pair { left, right, scale })
}

fn sum_of(pair: Pair) -> Option<Exact>
    ensures { result ≡ specs.sum_of pair }
{
    within(pair.scale, pair.left as i128 + pair.right as i128)
}

fn difference_of(pair: Pair) -> Option<Exact>
    ensures { result ≡ specs.difference_of pair }
{
    within(pair.scale, pair.left as i128 - pair.right as i128)
}

/// The product, with as many digits after the point as both have.
fn product(left: Exact, right: Exact) -> Option<Exact>
    ensures { result ≡ specs.product left right }
{
    if left.scale <= 18 && right.scale <= 18 {
        let integer = left.integer as i128 * right.integer as i128;
        within(left.scale + right.scale, integer)
    } else {
        None
    }
}

/// The sum, the difference or the product, if it has at most 18 digits.
fn result_of(operator: NumericOperator, left: Exact, right: Exact) -> Option<Exact>
    ensures { result ≡ specs.result_of operator left right }
{
    match operator {
        NumericOperator::Add => sum_of(aligned(left, right)?),
        NumericOperator::Sub => difference_of(aligned(left, right)?),
        NumericOperator::Mul => product(left, right),
        NumericOperator::Div => None,
    }
}

/// The digits of a literal number.
fn digits_of_item(item: &Item) -> Option<&[u8]>
    ensures { option_map (λ w. w.now) result ≡ specs.digits_of_item (item_in item.now) }
{
    match item {
        Item::Literal(Literal::Number(number)) | Item::Fraction(number) => Some(number.as_bytes()),
        _ => None,
    }
}

/// A literal number.
fn number_of(item: &Item) -> Option<Exact>
    ensures { result ≡ specs.number_of (item_in item.now) }
{
    exact_of(digits_of_item(item)?)
}

/// The result of the operator on two literal numbers.
fn folded_number(operator: NumericOperator, left: &Item, right: &Item) -> Option<Exact>
    ensures { result ≡ specs.folded_number operator (item_in left.now) (item_in right.now) }
{
    let first = number_of(left)?;
    let second = number_of(right)?;
    result_of(operator, first, second)
}

/// The text of a number, with as many digits after the point as it has. E9 where an allocation fails.
fn exact_text(alloc: Global, number: Exact) -> VortexResult<Option<Vec<u8>>>
    ensures { AnswersUnlessMemory result
        (λ o. option_map (λ w. w.items) o ≡ specs.exact_text number) }
{
    let Some(digits) = digits_at(number.scale) else {
        return Ok(None);
    };
    let mut text = Vec::new(alloc);
    write_decimal(digits, number.integer, &mut text)?;
    Ok(Some(text))
}

/// The text of the result of the operator on two literal numbers, where it is exact: a sum, a
/// difference or a product of at most 18 digits. E9 where an allocation fails.
pub(crate) fn folded(
    alloc: Global,
    operator: NumericOperator,
    left: &Item,
    right: &Item,
) -> VortexResult<Option<Vec<u8>>>
    ensures { AnswersUnlessMemory result (λ o. option_map (λ w. w.items) o
        ≡ specs.folded operator (item_in left.now) (item_in right.now)) }
{
    match folded_number(operator, left, right) {
        Some(number) => exact_text(alloc, number),
        None => Ok(None),
    }
}
