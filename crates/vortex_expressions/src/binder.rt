//! Binding: the steps of a syntax tree, one after another, over a stack of items.
ghost use Rattle.std.specs.Prelude.{◌≡◌, ◌<◌, [], ◌∷◌, suc, map, option_map, MatchResult};
ghost use Rattle.std.specs.Prelude.{MatchOption, None};
ghost use Rattle.vortex_types.specs.TypeOf.{struct_fields};
ghost use Rattle.vortex_syntax.specs.Postfix.{step_in};
ghost use Rattle.vortex_expressions.specs.declared.refusal.BindStop.TheVariants.{Missing};
ghost use Rattle.vortex_expressions.specs.Items.{item_in, settled};
ghost use Rattle.vortex_expressions.specs.Binding.{ended, logical_in};
ghost use Rattle.vortex_expressions.specs.Stacks.{stack_in, call_made, stepped, tree_left, left_as};
ghost use Rattle.vortex_expressions.specs.Stacks.{logical_left, RunsTo};
ghost use Rattle.vortex_expressions.specs.Stacks.{with_one, with_two, last_items, with_last};
ghost use Rattle.vortex_expressions.specs.Stacks.{case_count};
ghost use Rattle.vortex_expressions.specs.Functions.{applied_by, trimmed_item, trimmed_by_item};
ghost use Rattle.vortex_expressions.specs.Outcomes.{answers};
ghost use Rattle.vortex_expressions.specs.Calls.{matched_item, listed_item, chosen_item, names_in};
ghost use Rattle.vortex_expressions.specs.Answering.{Gives, StopsBy};

use crate::bounds::between_item;
use crate::calls::{
    bit_not_item, joined_item, minus_item, negative_item, not_item, operand_item, plus_item,
};
use crate::cases::chosen_item;
use crate::item::{Item, LogicalTree};
use crate::kind_casts::cast_by;
use crate::kind_names::{are_given, typed_by};
use crate::named_calls::{applied_by, trim_word};
use crate::patterns::matched_item;
use crate::predicates::{distinct_item, listed_item, tested_item};
use crate::refusal::BindStop;
use std::alloc::Global;
use vortex_columns::StructFields;
use vortex_functions::BoundExpression;
use vortex_logical::kind::Kind;
use vortex_standard::Standard;
use vortex_syntax::{Call, LikeKind, Step, TrimSide};

/// The items left so far, the last item at the end.
#[derive(Drop)]
struct Stack {
    items: Vec<Item>,
}

/// Why steps leave no tree, and the number of the step that stops.
#[derive(Drop)]
pub(crate) struct Stopped {
    pub(crate) step: usize,
    pub(crate) stop: BindStop,
}

/// How many parts a CASE has; none where that is no `usize`.
fn part_count(has_operand: bool, count: usize, has_else: bool) -> Option<usize>
    ensures { MatchOption result (18446744073709551615 < case_count has_operand count has_else)
        (λ n. n ≡ case_count has_operand count has_else) }
{
    let pairs = count.checked_mul(2)?;
    let with_operand = pairs.checked_add(if has_operand { 1 } else { 0 })?;
    with_operand.checked_add(if has_else { 1 } else { 0 })
}

impl Stack {
    fn pop(&mut self) -> Result<Item, BindStop>
        ensures { MatchResult result
            (λ i. stack_in self.old.items.items ≡ item_in i ∷ stack_in self.new.items.items)
            (λ e. (e ≡ Missing) × (stack_in self.old.items.items ≡ [])) }
    {
        match self.items.pop() {
            Some(item) => Ok(item),
            None => Err(BindStop::Missing),
        }
    }

    fn push(&mut self, item: Item) -> Result<(), BindStop>
        ensures { Gives (λ _. stack_in self.new.items.items) result
            (answers (item_in item ∷ stack_in self.old.items.items)) }
    {
        self.items.push(item)?;
        Ok(())
    }

    /// LIKE of the last two.
    fn like(&mut self, alloc: Global, kind: LikeKind, escape: Option<&[u8]>) -> Result<(), BindStop>
        ensures { Gives (λ _. stack_in self.new.items.items) result
            (with_two (matched_item kind (option_map (λ e. e.now) escape.entry))
            (stack_in self.old.items.items)) }
    {
        let pattern = self.pop()?;
        let item = self.pop()?;
        self.push(matched_item(alloc, kind, escape, item, pattern)?)
    }

    fn call(&mut self, alloc: Global, call: Call) -> Result<(), BindStop>
        ensures { Gives (λ _. stack_in self.new.items.items) result
            (call_made call (stack_in self.old.items.items)) }
    {
        match call {
            Call::Like(kind) => self.like(alloc, kind, None),
            Call::Not => {
                let item = self.pop()?;
                self.push(not_item(alloc, item)?)
            }
            Call::Minus => {
                let item = self.pop()?;
                self.push(minus_item(alloc, item)?)
            }
            Call::Plus => {
                let item = self.pop()?;
                self.push(plus_item(alloc, item)?)
            }
            Call::BitNot => {
                let item = self.pop()?;
                self.push(bit_not_item(alloc, item)?)
            }
            Call::Is(test, negated) => {
                let item = self.pop()?;
                self.push(tested_item(alloc, test, negated, item)?)
            }
            Call::Distinct(negated) => {
                let right = self.pop()?;
                let left = self.pop()?;
                self.push(distinct_item(alloc, negated, left, right)?)
            }
            Call::Join(operator) => {
                let right = self.pop()?;
                let left = self.pop()?;
                self.push(joined_item(alloc, operator, left, right)?)
            }
            Call::Between(kind) => {
                let upper = self.pop()?;
                let lower = self.pop()?;
                let item = self.pop()?;
                self.push(between_item(alloc, kind, item, lower, upper)?)
            }
        }
    }

    /// So many of the last items, in their order.
    fn take(&mut self, count: usize) -> Result<Vec<Item>, BindStop>
        ensures { Gives (λ is. (map item_in is.items, stack_in self.new.items.items)) result
            (last_items count (stack_in self.old.items.items)) }
    {
        match self.items.len().checked_sub(count) {
            Some(kept) => Ok(self.items.split_off(kept)?),
            None => Err(BindStop::Missing),
        }
    }

    /// The call of the function of that name on so many of the last items.
    fn apply(
        &mut self,
        alloc: Global,
        has_kinds: bool,
        name: &[u8],
        count: usize,
    ) -> Result<(), BindStop>
        ensures { Gives (λ _. stack_in self.new.items.items) result
            (with_last (applied_by has_kinds name.now) count (stack_in self.old.items.items)) }
    {
        let items = self.take(count)?;
        self.push(applied_by(alloc, has_kinds, name, items)?)
    }

    /// The last, a text, without blanks at that side.
    fn trim(&mut self, alloc: Global, has_kinds: bool, side: TrimSide) -> Result<(), BindStop>
        ensures { Gives (λ _. stack_in self.new.items.items) result
            (with_one (trimmed_item has_kinds side) (stack_in self.old.items.items)) }
    {
        let text = self.pop()?;
        let items = vec![in alloc; text]?;
        self.push(applied_by(alloc, has_kinds, trim_word(side).as_bytes(), items)?)
    }

    /// The last, a text, without the characters of the one before it.
    fn trim_by(&mut self, alloc: Global, has_kinds: bool, side: TrimSide) -> Result<(), BindStop>
        ensures { Gives (λ _. stack_in self.new.items.items) result
            (with_two (trimmed_by_item has_kinds side) (stack_in self.old.items.items)) }
    {
        let text = self.pop()?;
        let characters = self.pop()?;
        let items = vec![in alloc; text, characters]?;
        self.push(applied_by(alloc, has_kinds, trim_word(side).as_bytes(), items)?)
    }

    /// IN of an operand and so many items after it, or NOT IN.
    fn list(&mut self, alloc: Global, negated: bool, count: usize) -> Result<(), BindStop>
        ensures { Gives (λ _. stack_in self.new.items.items) result
            (with_last (listed_item negated) (suc count) (stack_in self.old.items.items)) }
    {
        let Some(taken) = count.checked_add(1) else {
            return Err(BindStop::Missing);
        };
        let items = self.take(taken)?;
        self.push(listed_item(alloc, negated, items)?)
    }

    /// CASE of its parts.
    fn case(
        &mut self,
        alloc: Global,
        has_operand: bool,
        count: usize,
        has_else: bool,
    ) -> Result<(), BindStop>
        ensures { Gives (λ _. stack_in self.new.items.items) result
            (with_last (chosen_item has_operand) (case_count has_operand count has_else)
            (stack_in self.old.items.items)) }
    {
        let Some(taken) = part_count(has_operand, count, has_else) else {
            return Err(BindStop::Missing);
        };
        let items = self.take(taken)?;
        self.push(chosen_item(alloc, has_operand, items)?)
    }

    fn step(
        &mut self,
        alloc: Global,
        scope: &StructFields,
        kinds: &[Kind],
        step: Step<'_>,
    ) -> Result<(), BindStop>
        ensures { Gives (λ _. stack_in self.new.items.items) result
            (stepped (names_in (struct_fields scope.now) kinds.now) (step_in step.entry)
            (stack_in self.old.items.items)) }
    {
        match step {
            Step::Operand(token) => self.push(operand_item(alloc, scope, kinds, token)?),
            Step::Negative(digits) => { self.push(negative_item(alloc, are_given(kinds), digits)?) }
            Step::Typed(name, is_nullable) => {
                let item = self.pop()?;
                let typed = typed_by(alloc, are_given(kinds), name, is_nullable, item)?;
                self.push(typed)
            }
            Step::Cast(is_tried, name, is_nullable) => {
                let item = self.pop()?;
                let has_kinds = are_given(kinds);
                self.push(cast_by(alloc, has_kinds, is_tried, name, is_nullable, item)?)
            }
            Step::Escaped(kind, escape) => self.like(alloc, kind, Some(escape)),
            Step::Apply(name, count) => self.apply(alloc, are_given(kinds), name, count),
            Step::In(negated, count) => self.list(alloc, negated, count),
            Step::Case(has_operand, count, has_else) => {
                self.case(alloc, has_operand, count, has_else)
            }
            Step::Trim(side, false) => self.trim(alloc, are_given(kinds), side),
            Step::Trim(side, true) => self.trim_by(alloc, are_given(kinds), side),
            Step::Call(call) => self.call(alloc, call),
        }
    }

    /// The only item that is left.
    fn only(mut self) -> Result<Item, BindStop>
        ensures { Gives item_in result (left_as answers (stack_in self.items.items)) }
    {
        let item = self.pop()?;
        if !self.items.is_empty() {
            return Err(BindStop::Missing);
        }
        Ok(item)
    }

    /// The only tree that is left.
    fn finish(self, alloc: Global) -> Result<BoundExpression<Standard>, BindStop>
        ensures { Gives (λ t. t) result
            (left_as (settled None) (stack_in self.items.items)) }
    {
        let item = self.only()?;
        item.settle(alloc, None)
    }

    /// The only tree that is left, and the kind of its values.
    fn finish_logical(self, alloc: Global) -> Result<LogicalTree, BindStop>
        ensures { Gives logical_in result (left_as ended (stack_in self.items.items)) }
    {
        let item = self.only()?;
        item.end(alloc)
    }
}

/// The stack that the steps leave over the columns of a scope, with their kinds.
fn run(
    alloc: Global,
    scope: &StructFields,
    kinds: &[Kind],
    steps: &[Step<'_>],
) -> Result<Stack, Stopped>
    ensures { RunsTo (struct_fields scope.now) kinds.now (map step_in steps.now) result }
{
    let mut stack = Stack {
        items: Vec::new(alloc),
    };
    for (number, step) in steps.iter().enumerate() {
        if let Err(stop) = stack.step(alloc, scope, kinds, *step) {
            return Err(Stopped { step: number, stop });
        }
    }
    Ok(stack)
}

/// The tree that the steps leave over the columns of a scope.
pub(crate) fn bind(
    alloc: Global,
    scope: &StructFields,
    steps: &[Step<'_>],
) -> Result<BoundExpression<Standard>, Stopped>
    ensures { MatchResult result
        (λ t. tree_left (struct_fields scope.now) (map step_in steps.now) ≡ answers t)
        (λ s. StopsBy (tree_left (struct_fields scope.now) (map step_in steps.now)) s.stop) }
{
    let stack = run(alloc, scope, &[], steps)?;
    match stack.finish(alloc) {
        Ok(tree) => Ok(tree),
        Err(stop) => Err(Stopped {
            step: steps.len(),
            stop,
        }),
    }
}

/// The tree that the steps leave over the columns of a scope with kinds, and the kind of its values.
pub(crate) fn bind_logical(
    alloc: Global,
    scope: &StructFields,
    kinds: &[Kind],
    steps: &[Step<'_>],
) -> Result<LogicalTree, Stopped>
    ensures { MatchResult result
        (λ t. logical_left (struct_fields scope.now) kinds.now (map step_in steps.now)
        ≡ answers (logical_in t))
        (λ s. StopsBy (logical_left (struct_fields scope.now) kinds.now (map step_in steps.now))
        s.stop) }
{
    let stack = run(alloc, scope, kinds, steps)?;
    match stack.finish_logical(alloc) {
        Ok(tree) => Ok(tree),
        Err(stop) => Err(Stopped {
            step: steps.len(),
            stop,
        }),
    }
}

/// What the first `count` steps leave.
pub(crate) fn operands(
    alloc: Global,
    scope: &StructFields,
    kinds: &[Kind],
    steps: &[Step<'_>],
    count: usize,
) -> Vec<Item> {
    let mut stack = Stack {
        items: Vec::new(alloc),
    };
    for step in steps.iter().take(count) {
        if stack.step(alloc, scope, kinds, *step).is_err() {
            return stack.items;
        }
    }
    stack.items
}
