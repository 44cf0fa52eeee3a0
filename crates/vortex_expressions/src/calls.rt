//! The result of each form of syntax for its parts.
ghost use Rattle.std.specs.Prelude.{◌≡◌, map, option_map, slice_get, MatchOption, Some, None};
ghost use Rattle.std.specs.Prelude.{string_bytes};
ghost use Rattle.vortex_errors.specs.Answers.{AnswersUnlessMemory};
ghost use Rattle.vortex_types.specs.TypeOf.{type_of, struct_fields};
ghost use Rattle.vortex_functions.specs.FunctionOf.{function_of};
ghost use Rattle.vortex_syntax.specs.Tokens.{token_in};
ghost use Rattle.vortex_expressions.specs.Calls as specs;
ghost use Rattle.vortex_expressions.specs.Items.{item_in};
ghost use Rattle.vortex_expressions.specs.Literals.{literal_in};
ghost use Rattle.vortex_expressions.specs.Answering.{Gives};

use crate::applied::function_call;
use crate::casts::type_of_name;
use crate::item::{Item, callable, called, common_type, constant_at};
use crate::joining::as_text;
use crate::kind_names::are_given;
use crate::kind_operators::kinded_joined;
use crate::kinded::{is_kinded, is_plain, stores};
use crate::literal::{Literal, has_fraction};
use crate::quotes::{between_quotes, text_of};
use crate::refusal::{BindStop, Refusal};
use crate::truths::as_truth;
use std::alloc::Global;
use vortex_columns::{DType, Nullability, StructFields, VortexResult};
use vortex_functions::{BoundExpression, ScalarFnRef};
use vortex_logical::kind::Kind;
use vortex_operators::Operator;
use vortex_standard::{BitOperator, PatternFunction, Shift, Standard};
use vortex_syntax::{Sign, Token, WrittenOperator as Written};

/// The kind at a place in a list.
fn listed_kind(kinds: &[Kind], place: usize) -> Option<&Kind>
    ensures { MatchOption result (slice_get kinds.now place ≡ None)
        (λ k. slice_get kinds.now place ≡ Some k.now) }
{
    kinds.get(place)
}

/// The kind of the column at a place: those behind the list are plain.
fn kind_at(kinds: &[Kind], place: usize) -> Kind
    ensures { result ≡ specs.kind_at kinds.now place }
{
    match listed_kind(kinds, place) {
        Some(kind) => *kind,
        None => Kind::Plain,
    }
}

/// A column of a kind, whose type stores the kind.
fn column_item(kind: Kind, tree: BoundExpression<Standard>) -> Result<Item, BindStop>
    ensures { Gives item_in result (specs.column_item kind tree) }
{
    if is_plain(&kind) {
        return Ok(Item::Bound(tree));
    }
    if stores(&kind, tree.dtype()) {
        Ok(Item::Kinded(kind, tree))
    } else {
        Err(BindStop::Refused(Refusal::Kinds(vortex_lowering::Refusal::NotStored(kind))))
    }
}

/// The column of that name, with its kind.
fn column_in(
    alloc: Global,
    scope: &StructFields,
    kinds: &[Kind],
    name: &str,
) -> Result<Item, BindStop>
    ensures { Gives item_in result (specs.column_in (struct_fields scope.now) kinds.now name.now) }
{
    let tree = BoundExpression::column(alloc, scope, name)?;
    match tree.as_column() {
        Some(place) => column_item(kind_at(kinds, place), tree),
        None => Ok(Item::Bound(tree)),
    }
}

fn sign_item(sign: Sign) -> Result<Item, BindStop>
    ensures { Gives item_in result (specs.sign_item sign) }
{
    match sign {
        Sign::True => Ok(Item::Literal(Literal::Truth(true))),
        Sign::False => Ok(Item::Literal(Literal::Truth(false))),
        Sign::Null => Ok(Item::Literal(Literal::Null)),
        _ => Err(BindStop::Missing),
    }
}

/// A number; with a fraction it is none of an integer type where columns have kinds.
fn number_item(has_kinds: bool, number: String) -> Item
    ensures { item_in result ≡ specs.number_item has_kinds (string_bytes number) }
{
    if has_kinds && has_fraction(number.as_str()) {
        Item::Fraction(number)
    } else {
        Item::Literal(Literal::Number(number))
    }
}

/// A column, or a literal.
pub(crate) fn operand_item(
    alloc: Global,
    scope: &StructFields,
    kinds: &[Kind],
    token: Token<'_>,
) -> Result<Item, BindStop>
    ensures { Gives item_in result
        (specs.operand_by (specs.names_in (struct_fields scope.now) kinds.now)
        (token_in token.entry)) }
{
    match token {
        Token::Name(name) => {
            let name = text_of(alloc, name)?;
            column_in(alloc, scope, kinds, name.as_str())
        }
        Token::Quoted(name) => {
            let name = between_quotes(alloc, b'"', name)?;
            column_in(alloc, scope, kinds, name.as_str())
        }
        Token::Number(digits) => {
            let digits = text_of(alloc, digits)?;
            Ok(number_item(are_given(kinds), digits))
        }
        Token::Text(text) => {
            let text = between_quotes(alloc, b'\'', text)?;
            Ok(Item::Literal(Literal::Text(text)))
        }
        Token::Sign(sign) => sign_item(sign),
        Token::Nullable(_) | Token::Function(_) => Err(BindStop::Missing),
    }
}

/// The number of these digits with a minus sign before them.
pub(crate) fn negative_item(alloc: Global, has_kinds: bool, digits: &[u8]) -> Result<Item, BindStop>
    ensures { Gives item_in result (specs.negative_item has_kinds digits.now) }
{
    let mut word = vec![in alloc; b'-']?;
    word.extend_from_slice(digits)?;
    let word = text_of(alloc, &word)?;
    Ok(number_item(has_kinds, word))
}

/// A literal of the type of that name.
pub(crate) fn typed_item(
    alloc: Global,
    name: &[u8],
    is_nullable: bool,
    item: Item,
) -> Result<Item, BindStop>
    ensures { Gives item_in result (specs.typed_item name.now is_nullable (item_in item)) }
{
    match item {
        Item::Bound(_) | Item::Kinded(_, _) | Item::Interval(_) => Err(BindStop::Missing),
        Item::Literal(literal) => {
            let dtype = type_of_name(alloc, name, is_nullable)?;
            Ok(Item::Bound(constant_at(alloc, &literal, dtype)?))
        }
        Item::Fraction(number) => {
            let dtype = type_of_name(alloc, name, is_nullable)?;
            Ok(Item::Bound(constant_at(alloc, &Literal::Number(number), dtype)?))
        }
    }
}

/// The function that an operator is.
fn written_function(written: Written) -> ScalarFnRef<Standard>
    ensures { function_of result ≡ specs.written_function written }
{
    match written {
        Written::Or => ScalarFnRef::Binary(Operator::Or),
        Written::And => ScalarFnRef::Binary(Operator::And),
        Written::Equal => ScalarFnRef::Binary(Operator::Eq),
        Written::NotEqual => ScalarFnRef::Binary(Operator::NotEq),
        Written::Less => ScalarFnRef::Binary(Operator::Lt),
        Written::LessOrEqual => ScalarFnRef::Binary(Operator::Lte),
        Written::Greater => ScalarFnRef::Binary(Operator::Gt),
        Written::GreaterOrEqual => ScalarFnRef::Binary(Operator::Gte),
        Written::Add => ScalarFnRef::Binary(Operator::Add),
        Written::Sub => ScalarFnRef::Binary(Operator::Sub),
        Written::Mul => ScalarFnRef::Binary(Operator::Mul),
        Written::Div => ScalarFnRef::Binary(Operator::Div),
        Written::Mod => callable(Standard::Remainder),
        Written::Concat => callable(Standard::Concat),
        Written::BitAnd => callable(Standard::BitOperator(BitOperator::And)),
        Written::BitOr => callable(Standard::BitOperator(BitOperator::Or)),
        Written::BitXor => callable(Standard::BitOperator(BitOperator::Xor)),
        Written::ShiftLeft => callable(Standard::Shift(Shift::Left)),
        Written::ShiftRight => callable(Standard::Shift(Shift::Right)),
        Written::Matches => callable(Standard::PatternFunction(PatternFunction::Like)),
        Written::MatchesAnyCase => callable(Standard::PatternFunction(PatternFunction::AnyCase)),
        Written::NotMatches => callable(Standard::PatternFunction(PatternFunction::NotLike)),
        Written::NotMatchesAnyCase => callable(Standard::PatternFunction(
            PatternFunction::NotAnyCase,
        )),
    }
}

/// The type that literals joined by the operator take.
fn joined_type(alloc: Global, written: Written, items: &[Item]) -> VortexResult<Option<DType>>
    ensures { AnswersUnlessMemory result (λ t. option_map (λ t. type_of t) t
        ≡ specs.joined_type written (map item_in items.now)) }
{
    match written {
        Written::Or | Written::And => Ok(Some(DType::Bool(Nullability::NonNullable))),
        _ => common_type(alloc, items),
    }
}

/// A tree, or NOT of it if the flag is true.
pub(crate) fn negated_if(
    alloc: Global,
    negated: bool,
    tree: BoundExpression<Standard>,
) -> Result<BoundExpression<Standard>, BindStop>
    ensures { Gives (λ t. t) result (specs.negated_if negated tree) }
{
    if negated {
        called(
            alloc,
            ScalarFnRef::Not,
            None,
            vec![in alloc; Item::Bound(tree)]?,
        )
    } else {
        Ok(tree)
    }
}

/// A truth value, or NOT of it if the flag is true.
pub(crate) fn negated_item(alloc: Global, negated: bool, item: Item) -> Result<Item, BindStop>
    ensures { Gives item_in result (specs.negated_item negated (item_in item)) }
{
    if !negated {
        return Ok(item);
    }
    let tree = called(alloc, ScalarFnRef::Not, None, vec![in alloc; item]?)?;
    Ok(Item::Bound(tree))
}

pub(crate) fn not_item(alloc: Global, item: Item) -> Result<Item, BindStop>
    ensures { Gives item_in result (specs.not_item (item_in item)) }
{
    let item = as_truth(alloc, item)?;
    let truth = DType::Bool(Nullability::NonNullable);
    let tree = called(alloc, ScalarFnRef::Not, Some(&truth), vec![in alloc; item]?)?;
    Ok(Item::Bound(tree))
}

/// What an operator joins: AND and OR take truth values.
fn as_part(alloc: Global, written: Written, item: Item) -> Result<Item, BindStop>
    ensures { Gives item_in result (specs.as_part written (item_in item)) }
{
    match written {
        Written::Or | Written::And => as_truth(alloc, item),
        _ => Ok(item),
    }
}

fn plain_joined(alloc: Global, written: Written, left: Item, right: Item) -> Result<Item, BindStop>
    ensures { Gives item_in result (specs.plain_joined written (item_in left) (item_in right)) }
{
    let left = as_part(alloc, written, left)?;
    let right = as_part(alloc, written, right)?;
    let items = vec![in alloc; left, right]?;
    let dtype = joined_type(alloc, written, &items)?;
    let tree = called(alloc, written_function(written), dtype.as_ref(), items)?;
    Ok(Item::Bound(tree))
}

fn is_concat(written: Written) -> bool
    ensures { result ≡ specs.is_concat written }
{
    matches!(written, Written::Concat)
}

/// One text after the other: what is no text becomes one.
fn concat_item(alloc: Global, left: Item, right: Item) -> Result<Item, BindStop>
    ensures { Gives item_in result (specs.concat_item (item_in left) (item_in right)) }
{
    let first = as_text(alloc, left)?;
    let second = as_text(alloc, right)?;
    plain_joined(alloc, Written::Concat, first, second)
}

pub(crate) fn joined_item(
    alloc: Global,
    written: Written,
    left: Item,
    right: Item,
) -> Result<Item, BindStop>
    ensures { Gives item_in result (specs.joined_item written (item_in left) (item_in right)) }
{
    if is_concat(written) {
        return concat_item(alloc, left, right);
    }
    if is_kinded(&left) || is_kinded(&right) {
        kinded_joined(alloc, written, left, right)
    } else {
        plain_joined(alloc, written, left, right)
    }
}

/// A minus sign: the difference from zero.
pub(crate) fn minus_item(alloc: Global, item: Item) -> Result<Item, BindStop>
    ensures { Gives item_in result (specs.minus_item (item_in item)) }
{
    let zero = Item::Literal(Literal::Number(String::from_str(alloc, "0")?));
    joined_item(alloc, Written::Sub, zero, item)
}

/// Whether the item is a literal number.
fn is_number(item: &Item) -> bool
    ensures { result ≡ specs.is_number (item_in item.now) }
{
    matches!(item, Item::Literal(Literal::Number(_)) | Item::Fraction(_))
}

/// A plus sign: a literal number stays, anything else is added to zero.
pub(crate) fn plus_item(alloc: Global, item: Item) -> Result<Item, BindStop>
    ensures { Gives item_in result (specs.plus_item (item_in item)) }
{
    if is_number(&item) {
        return Ok(item);
    }
    let zero = Item::Literal(Literal::Number(String::from_str(alloc, "0")?));
    joined_item(alloc, Written::Add, zero, item)
}

/// A tilde: the bits turned.
pub(crate) fn bit_not_item(alloc: Global, item: Item) -> Result<Item, BindStop>
    ensures { Gives item_in result (specs.bit_not_item (item_in item)) }
{
    let tree = function_call(alloc, Standard::BitNot, vec![in alloc; item]?)?;
    Ok(Item::Bound(tree))
}
