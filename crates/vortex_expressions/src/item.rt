//! Literals without a type yet, and trees; and calls of them.
ghost use Rattle.std.specs.Prelude.{◌≡◌, map, option_map, is_some, None, true};
ghost use Rattle.vortex_errors.specs.Answers.{AnswersUnlessMemory};
ghost use Rattle.vortex_types.specs.TypeOf.{type_of};
ghost use Rattle.vortex_functions.specs.FunctionOf.{function_of, instance_in};
ghost use Rattle.vortex_expressions.specs.Meeting as meetings;
ghost use Rattle.vortex_expressions.specs.Items as specs;
ghost use Rattle.vortex_expressions.specs.Items.{item_in, bound_type, literal_type};
ghost use Rattle.vortex_expressions.specs.Items.{common_type, constant_at, settled, all_settled};
ghost use Rattle.vortex_expressions.specs.Items.{call_of, called, bound};
ghost use Rattle.vortex_expressions.specs.Literals.{literal_in};
ghost use Rattle.vortex_expressions.specs.Binding.{ended, logical_in};
ghost use Rattle.vortex_expressions.specs.Answering.{Gives};

use crate::kinded::text_literal;
use crate::literal::Literal;
use crate::meeting::{met_next, widened_to};
use crate::refusal::{BindStop, Refusal};
use std::alloc::Global;
use vortex_columns::{DType, MismatchPlace, Nullability, PType, VortexError, VortexResult};
use vortex_functions::{BoundExpression, EmptyOptions, ScalarFnRef};
use vortex_logical::kind::Kind;
use vortex_logical_calls::Interval;
use vortex_standard::{Standard, Widen};

/// How long.
#[derive(Drop)]
pub(crate) enum Timespan {
    /// So many microseconds or months.
    Given(Interval),
    /// From one timestamp to another: the microseconds of a tree.
    Elapsed(BoundExpression<Standard>),
}

impl Timespan {
    /// A copy.
    fn try_clone(&self, alloc: Global) -> VortexResult<Timespan>
        ensures { AnswersUnlessMemory result (λ s. s ≡ self.now) }
    {
        match self {
            Timespan::Given(interval) => Ok(Timespan::Given(*interval)),
            Timespan::Elapsed(tree) => Ok(Timespan::Elapsed(tree.try_clone(alloc)?)),
        }
    }
}

/// What a part of an expression is.
#[derive(Drop)]
pub(crate) enum Item {
    /// A literal without a type yet.
    Literal(Literal),
    /// A tree.
    Bound(BoundExpression<Standard>),
    /// A tree of the stored integers of a kind.
    Kinded(Kind, BoundExpression<Standard>),
    /// A number with a point or an exponent, where columns have kinds.
    Fraction(String),
    /// How long: a literal, or from one timestamp to another.
    Interval(Timespan),
}

/// The literal of that type.
pub(crate) fn constant_at(
    alloc: Global,
    literal: &Literal,
    dtype: DType,
) -> Result<BoundExpression<Standard>, BindStop>
    ensures { Gives (λ t. t) result (constant_at (literal_in literal.now) (type_of dtype)) }
{
    match literal.value_at(alloc, dtype)? {
        Some(scalar) => Ok(BoundExpression::lit(alloc, scalar)),
        None => Err(BindStop::Refused(Refusal::NotHeld)),
    }
}

/// A tree, and the kind of its values.
#[derive(Drop)]
pub struct LogicalTree {
    pub tree: BoundExpression<Standard>,
    pub kind: Kind,
}

impl Item {
    /// The type of a tree.
    pub(crate) fn bound_type(&self) -> Option<&DType>
        ensures { option_map (λ t. type_of t.now) result ≡ bound_type (item_in self.now) }
    {
        match self {
            Item::Bound(tree) => Some(tree.dtype()),
            Item::Literal(_) | Item::Kinded(_, _) | Item::Fraction(_) | Item::Interval(_) => None,
        }
    }

    /// The default type of a literal.
    pub(crate) fn literal_type(&self) -> Option<DType>
        ensures { option_map (λ t. type_of t) result ≡ literal_type (item_in self.now) }
    {
        match self {
            Item::Literal(literal) => literal.own_type(),
            Item::Bound(_) | Item::Kinded(_, _) | Item::Fraction(_) | Item::Interval(_) => None,
        }
    }

    /// A copy.
    pub(crate) fn try_clone(&self, alloc: Global) -> VortexResult<Item>
        ensures { AnswersUnlessMemory result (λ i. item_in i ≡ item_in self.now) }
    {
        match self {
            Item::Bound(tree) => Ok(Item::Bound(tree.try_clone(alloc)?)),
            Item::Literal(literal) => Ok(Item::Literal(literal.try_clone(alloc)?)),
            Item::Kinded(kind, tree) => Ok(Item::Kinded(*kind, tree.try_clone(alloc)?)),
            Item::Fraction(number) => {
                Ok(Item::Fraction(String::from_str(alloc, number.as_str())?))
            }
            Item::Interval(timespan) => Ok(Item::Interval(timespan.try_clone(alloc)?)),
        }
    }

    /// Its tree where that type is taken: a tree of a narrower integer type is cast, and a literal
    /// takes the type. A value of a kind has none, nor has a number with a fraction, or an interval.
    pub(crate) fn settle(
        &self,
        alloc: Global,
        beside: Option<&DType>,
    ) -> Result<BoundExpression<Standard>, BindStop>
        ensures { Gives (λ t. t) result
            (settled (option_map (λ t. type_of t.now) beside.entry) (item_in self.now)) }
    {
        let literal = match self {
            Item::Bound(tree) => return meeting(alloc, beside, tree.try_clone(alloc)?),
            Item::Literal(literal) => literal,
            Item::Kinded(kind, _) => return Err(BindStop::Refused(Refusal::OfKind(*kind))),
            Item::Fraction(_) => return Err(BindStop::Refused(Refusal::OfKind(Kind::F64))),
            Item::Interval(_) => return Err(BindStop::Refused(Refusal::NotHeld)),
        };
        match literal.type_beside(alloc, beside)? {
            Some(dtype) => constant_at(alloc, literal, dtype),
            None => Err(BindStop::Refused(Refusal::UntypedNull)),
        }
    }

    /// Its tree, with the kind of its values; a literal has its default type, and a number with a
    /// fraction is a float.
    pub(crate) fn end(self, alloc: Global) -> Result<LogicalTree, BindStop>
        ensures { Gives logical_in result (ended (item_in self)) }
    {
        match self {
            Item::Kinded(kind, tree) => Ok(LogicalTree { tree, kind }),
            Item::Fraction(number) => {
                let tree = text_literal(alloc, Kind::F64, number.as_bytes())?.tree;
                let kind = Kind::F64;
                Ok(LogicalTree { tree, kind })
            }
            other => {
                let tree = other.settle(alloc, None)?;
                let kind = Kind::Plain;
                Ok(LogicalTree { tree, kind })
            }
        }
    }
}

/// The type in which trees meet, after those so far.
pub(crate) fn meeting_type(
    alloc: Global,
    found: Option<DType>,
    items: &[Item],
) -> VortexResult<Option<DType>>
    ensures { AnswersUnlessMemory result (λ t. option_map (λ t. type_of t) t
        ≡ meetings.meeting_type (option_map (λ t. type_of t) found)
        (map bound_type (map item_in items.now))) }
{
    let mut met = found;
    for item in items {
        met = met_next(alloc, met, item.bound_type())?;
    }
    Ok(met)
}

fn is_numeral(item: &Item) -> bool
    ensures { result ≡ specs.is_numeral (item_in item.now) }
{
    matches!(item, Item::Literal(Literal::Number(_)))
}

/// The default type of a literal number, or else the one before, or else that of a literal.
pub(crate) fn next_literal(found: Option<DType>, item: &Item) -> Option<DType>
    ensures { option_map (λ t. type_of t) result
        ≡ specs.next_literal (option_map (λ t. type_of t) found) (item_in item.now) }
{
    if is_numeral(item) {
        return Some(DType::Primitive(PType::I64, Nullability::NonNullable));
    }
    match found {
        Some(dtype) => Some(dtype),
        None => item.literal_type(),
    }
}

/// The type of literals, after the one before: that of a number, or of the first with a default type.
pub(crate) fn literals_type(found: Option<DType>, items: &[Item]) -> Option<DType>
    ensures { option_map (λ t. type_of t) result
        ≡ specs.literals_type (option_map (λ t. type_of t) found) (map item_in items.now) }
{
    let mut taken = found;
    for item in items {
        taken = next_literal(taken, item);
    }
    taken
}

/// The type of items next to each other. E9 where an allocation fails.
pub(crate) fn common_type(alloc: Global, items: &[Item]) -> VortexResult<Option<DType>>
    ensures { AnswersUnlessMemory result (λ t. option_map (λ t. type_of t) t
        ≡ common_type (map item_in items.now)) }
{
    match meeting_type(alloc, None, items)? {
        Some(dtype) => Ok(Some(dtype)),
        None => Ok(literals_type(None, items)),
    }
}

/// The function without options.
pub(crate) fn callable(function: Standard) -> ScalarFnRef<Standard>
    ensures { function_of result ≡ specs.callable function }
{
    ScalarFnRef::custom(function, EmptyOptions)
}

/// The call of a shipped function on trees.
fn shipped_call(
    alloc: Global,
    function: ScalarFnRef<Standard>,
    trees: Vec<BoundExpression<Standard>>,
) -> Result<BoundExpression<Standard>, BindStop>
    requires { instance_in function ≡ None }
    ensures { Gives (λ t. t) result (call_of (function_of function) trees.items) }
{
    match BoundExpression::try_new(alloc, function, trees) {
        Ok(tree) => Ok(tree),
        Err(VortexError::ArityMismatch { .. }) => Err(BindStop::Missing),
        Err(error) => Err(BindStop::Refused(Refusal::Binding(error))),
    }
}

/// The call of one of SQL's functions on trees. Which of its arguments has another type is not told.
fn named_call(
    alloc: Global,
    function: ScalarFnRef<Standard>,
    trees: Vec<BoundExpression<Standard>>,
) -> Result<BoundExpression<Standard>, BindStop>
    requires { is_some (instance_in function) ≡ true }
    ensures { Gives (λ t. t) result (call_of (function_of function) trees.items) }
{
    match BoundExpression::try_new(alloc, function, trees) {
        Ok(tree) => Ok(tree),
        Err(VortexError::TypeMismatch(_)) => Err(BindStop::Refused(Refusal::Binding(
            VortexError::TypeMismatch(MismatchPlace::Scalars),
        ))),
        Err(error) => Err(BindStop::Refused(Refusal::Binding(error))),
    }
}

/// The call of a function on trees.
pub(crate) fn call_of(
    alloc: Global,
    function: ScalarFnRef<Standard>,
    trees: Vec<BoundExpression<Standard>>,
) -> Result<BoundExpression<Standard>, BindStop>
    ensures { Gives (λ t. t) result (call_of (function_of function) trees.items) }
{
    if function.as_custom().is_some() {
        named_call(alloc, function, trees)
    } else {
        shipped_call(alloc, function, trees)
    }
}

/// What one of SQL's functions makes of a tree.
pub(crate) fn made_by(
    alloc: Global,
    function: Standard,
    tree: BoundExpression<Standard>,
) -> Result<Item, BindStop>
    ensures { Gives item_in result (specs.made_by function tree) }
{
    let tree = call_of(alloc, callable(function), vec![in alloc; tree]?)?;
    Ok(Item::Bound(tree))
}

/// A tree, cast to the integer type if there is one.
fn widened(
    alloc: Global,
    ptype: Option<PType>,
    tree: BoundExpression<Standard>,
) -> Result<BoundExpression<Standard>, BindStop>
    ensures { Gives (λ t. t) result (specs.widened ptype tree) }
{
    match ptype {
        Some(ptype) => {
            let widen = callable(Standard::Widen(Widen { ptype }));
            call_of(alloc, widen, vec![in alloc; tree]?)
        }
        None => Ok(tree),
    }
}

/// A tree where that type is taken.
fn meeting(
    alloc: Global,
    beside: Option<&DType>,
    tree: BoundExpression<Standard>,
) -> Result<BoundExpression<Standard>, BindStop>
    ensures { Gives (λ t. t) result
        (settled (option_map (λ t. type_of t.now) beside.entry) (bound tree)) }
{
    match beside {
        Some(taken) => {
            let ptype = widened_to(taken, tree.dtype());
            widened(alloc, ptype, tree)
        }
        None => Ok(tree),
    }
}

/// All of them with their types, from left to right.
pub(crate) fn settle_all(
    alloc: Global,
    beside: Option<&DType>,
    items: &[Item],
) -> Result<Vec<BoundExpression<Standard>>, BindStop>
    ensures { Gives (λ ts. ts.items) result
        (all_settled (option_map (λ t. type_of t.now) beside.entry) (map item_in items.now)) }
{
    let mut trees = Vec::new(alloc);
    for item in items {
        trees.push(item.settle(alloc, beside)?)?;
    }
    Ok(trees)
}

/// The call of a function on items, which take that type.
pub(crate) fn called(
    alloc: Global,
    function: ScalarFnRef<Standard>,
    beside: Option<&DType>,
    items: Vec<Item>,
) -> Result<BoundExpression<Standard>, BindStop>
    ensures { Gives (λ t. t) result (called (function_of function)
        (option_map (λ t. type_of t.now) beside.entry) (map item_in items.items)) }
{
    let trees = settle_all(alloc, beside, &items)?;
    call_of(alloc, function, trees)
}
