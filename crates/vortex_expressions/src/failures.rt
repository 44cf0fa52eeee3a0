//! Reports of errors that are no syntax errors, in words.
use crate::applied::common_value_type;
use crate::binder::operands;
use crate::calls::joined_item;
use crate::casts::type_of_name;
use crate::forms::{
    arguments_hint, count_hint, function_in, function_text, push_accepted, push_unnamed,
    takes_only_texts, text_hint,
};
use crate::hints::missing_type;
use crate::item::{Item, common_type};
use crate::item_texts::{is_no_text, push_operands, push_types, push_unread};
use crate::meeting::met_next;
use crate::refusal::Refusal;
use crate::unheld::{INTERVAL_PLACES, has_interval, push_fractions, push_unheld, push_untyped};
use crate::unknown_columns::column_text;
use crate::words::found_at;
use std::alloc::Global;
use std::fmt::Write;
use vortex_columns::{DType, MismatchPlace, StructFields, VortexError, VortexResult};
use vortex_logical::kind::Kind;
use vortex_logical_calls as calls;
use vortex_standard::{Takes, has_all_of};
use vortex_syntax::{Call, Step, SyntaxTree, WrittenOperator};

/// The names of types without a kind.
const TYPES: &str = "bool, utf8, i8, i16, i32, i64, u8, u16, u32 and u64, or SQL's int, text, ..";

/// How many items a step takes; the end takes all that are left.
fn operand_count(step: Option<&Step<'_>>) -> usize {
    match step {
        Some(Step::Operand(_)) | Some(Step::Negative(_)) => 0,
        Some(Step::Apply(_, count)) => *count,
        Some(Step::In(_, count)) => count.saturating_add(1),
        Some(Step::Trim(_, has_characters)) => 1 + *has_characters as usize,
        Some(Step::Case(has_operand, count, has_else)) => {
            let pairs = count.saturating_mul(2);
            pairs.saturating_add(*has_operand as usize + *has_else as usize)
        }
        Some(Step::Call(Call::Join(_) | Call::Like(_) | Call::Distinct(_))) => 2,
        Some(Step::Escaped(_, _)) => 2,
        Some(Step::Call(Call::Between(_))) => 3,
        _ => 1,
    }
}

/// What a call accepts that does not accept types at that place.
fn taken_at(place: MismatchPlace) -> &'static str {
    match place {
        MismatchPlace::Arithmetic => "two whole numbers",
        MismatchPlace::Compare => "two values of one type",
        MismatchPlace::Boolean => "two truth values",
        MismatchPlace::Not => "a truth value",
        MismatchPlace::BetweenLower | MismatchPlace::BetweenUpper => "three values of one type",
        MismatchPlace::LikeInput | MismatchPlace::LikePattern => "two texts",
        MismatchPlace::Cast => "a truth value",
        MismatchPlace::Scalars => "values of one type",
    }
}

/// That no integer type has the numbers of all of these types, if they are integer types.
fn push_apart(out: &mut String, alloc: Global, types: &[DType]) -> VortexResult<()> {
    let mut met = None;
    for dtype in types {
        met = met_next(alloc, met, Some(dtype))?;
    }
    let Some(DType::Primitive(wide, _)) = &met else {
        return Ok(());
    };
    for dtype in types {
        match dtype {
            DType::Primitive(other, _) if has_all_of(*wide, *other) => {}
            DType::Primitive(other, _) => {
                let (wide, other) = (wide.text(), other.text());
                write!(out, "; no type has every number of {wide} and {other}")?;
                return Ok(());
            }
            _ => return Ok(()),
        }
    }
    Ok(())
}

/// The operand of cases and the first value that it does not compare with, if there is one.
fn unequal_items(alloc: Global, operand: &Item, cases: &[Item]) -> VortexResult<Option<Vec<Item>>> {
    let mut rest = cases;
    while let [case, _value, more @ ..] = rest {
        let (left, right) = (operand.try_clone(alloc)?, case.try_clone(alloc)?);
        if joined_item(alloc, WrittenOperator::Equal, left, right).is_err() {
            let pair = vec![in alloc; operand.try_clone(alloc)?, case.try_clone(alloc)?]?;
            return Ok(Some(pair));
        }
        rest = more;
    }
    Ok(None)
}

fn copies(alloc: Global, items: &[Item]) -> VortexResult<Vec<Item>> {
    let mut copied = Vec::new(alloc);
    for item in items {
        copied.push(item.try_clone(alloc)?)?;
    }
    Ok(copied)
}

/// The types of the trees that are to be alike: of cases the values.
fn alike_types(alloc: Global, items: &[Item], are_cases: bool) -> VortexResult<Vec<DType>> {
    let mut types = Vec::new(alloc);
    for (place, item) in items.iter().enumerate() {
        let is_value = !are_cases || place % 2 == 1 || place + 1 == items.len();
        if let (true, Some(dtype)) = (is_value, item.bound_type()) {
            types.push(dtype.try_clone(alloc)?)?;
        }
    }
    Ok(types)
}

/// The report for a text without syntax errors.
#[derive(Clone, Copy)]
pub(crate) struct TextFailure<'a> {
    pub(crate) alloc: Global,
    pub(crate) scope: &'a StructFields,
    pub(crate) kinds: &'a [Kind],
    pub(crate) text: &'a str,
    pub(crate) tree: &'a SyntaxTree<'a>,
    pub(crate) step: usize,
    pub(crate) byte: usize,
}

impl<'a> TextFailure<'a> {
    fn failing_step(&self) -> Option<&Step<'a>> {
        self.tree.steps.get(self.step)
    }

    /// The items that the step takes.
    fn items(&self) -> VortexResult<Vec<Item>> {
        let mut items = operands(
            self.alloc,
            self.scope,
            self.kinds,
            &self.tree.steps,
            self.step,
        );
        let count = operand_count(self.failing_step());
        let kept = items.len().saturating_sub(count);
        Ok(items.split_off(kept)?)
    }

    /// The items that do not fit, and whether they are cases: of a CASE with an operand, the operand
    /// and the value that it does not compare with, or else the cases.
    fn failing_items(&self) -> VortexResult<(Vec<Item>, bool)> {
        let items = self.items()?;
        match (self.failing_step(), items.as_slice()) {
            (Some(Step::Case(true, _, _)), [operand, cases @ ..]) => {
                match unequal_items(self.alloc, operand, cases)? {
                    Some(pair) => Ok((pair, false)),
                    None => Ok((copies(self.alloc, cases)?, true)),
                }
            }
            (step, _) => {
                let are_cases = matches!(step, Some(Step::Case(_, _, _)));
                Ok((items, are_cases))
            }
        }
    }

    /// The type that literals take there.
    fn taken_type(&self, items: &[Item], are_cases: bool) -> VortexResult<Option<DType>> {
        let alloc = self.alloc;
        if are_cases {
            return common_value_type(alloc, items);
        }
        let step = self.failing_step();
        if let Some(Step::Cast(true, _, _)) = step {
            return Ok(None);
        }
        if let Some(Step::Cast(_, name, is_nullable)) = step {
            return Ok(type_of_name(alloc, *name, *is_nullable).ok());
        }
        match function_in(step) {
            Some(function) if matches!(function.takes(), Takes::Each(_, _, _)) => Ok(None),
            _ => common_type(alloc, items),
        }
    }

    /// The types of the items, and that no integer type has the numbers of all.
    fn push_given(&self, out: &mut String, items: &[Item], are_cases: bool) -> VortexResult<()> {
        push_types(out, items)?;
        push_apart(out, self.alloc, &alike_types(self.alloc, items, are_cases)?)
    }

    /// That the call does not accept these types.
    fn types_text(&self, place: MismatchPlace) -> VortexResult<String> {
        let alloc = self.alloc;
        let (found, name, taken) = (
            found_at(self.text, self.byte),
            place.name(),
            taken_at(place),
        );
        let (items, are_cases) = self.failing_items()?;
        let mut out = format!(in alloc; "E3 {name}: {found} takes {taken}, not ")?;
        self.push_given(&mut out, &items, are_cases)?;
        if matches!(place, MismatchPlace::LikeInput) && items.iter().any(is_no_text) {
            out.push_str("; n::text is n as a text")?;
        }
        Ok(out)
    }

    /// That the function does not accept these types.
    fn arguments_text(&self) -> VortexResult<String> {
        let alloc = self.alloc;
        let (items, are_cases) = self.failing_items()?;
        let found = found_at(self.text, self.byte);
        let mut out = format!(in alloc; "E3 Scalars: {found} takes ")?;
        push_accepted(&mut out, self.failing_step(), items.len())?;
        out.push_str(", not ")?;
        self.push_given(&mut out, &items, are_cases)?;
        out.push_str(arguments_hint(self.failing_step(), &items))?;
        Ok(out)
    }

    fn held_text(&self) -> VortexResult<String> {
        let mut out = String::new(self.alloc);
        let (items, are_cases) = self.failing_items()?;
        if let Some(Step::Typed(name, _)) = self.failing_step() {
            push_untyped(&mut out, name, &items)?;
            return Ok(out);
        }
        if push_unnamed(&mut out, self.failing_step(), &items)? {
            return Ok(out);
        }
        if has_interval(&items) {
            out.push_str(INTERVAL_PLACES)?;
            return Ok(out);
        }
        if push_fractions(&mut out, &items)? {
            return Ok(out);
        }
        if takes_only_texts(self.failing_step()) && items.iter().any(is_no_text) {
            return self.arguments_text();
        }
        let taken = self.taken_type(&items, are_cases)?;
        if !push_unheld(&mut out, self.alloc, taken.as_ref(), &items)? {
            out.push_str("a literal is none of its type")?;
        }
        Ok(out)
    }

    fn binding_text(&self, error: &VortexError) -> VortexResult<String> {
        let alloc = self.alloc;
        match error {
            VortexError::TypeMismatch(MismatchPlace::Scalars) => self.arguments_text(),
            VortexError::TypeMismatch(place) => self.types_text(*place),
            VortexError::ArityMismatch { arity, given } => {
                let found = found_at(self.text, self.byte);
                let hint = count_hint(self.failing_step());
                Ok(format!(in alloc;
                    "E6 ArityMismatch: {found} takes {arity} arguments, not {given}{hint}"
                )?)
            }
            VortexError::ScopeMismatch => { column_text(alloc, self.scope, self.failing_step()) }
            error => {
                let (number, name) = (error.number(), error.name());
                Ok(format!(in alloc; "E{number} {name}")?)
            }
        }
    }

    /// That no type has that name.
    fn type_text(&self) -> VortexResult<String> {
        let found = found_at(self.text, self.byte);
        let missing = missing_type(self.text, self.byte);
        if !missing.is_empty() && !self.kinds.is_empty() {
            return Ok(format!(in self.alloc; "no type {found}; {missing}")?);
        }
        let mut out = format!(in self.alloc;
            "no type {found}; types are {TYPES}, with ? where they have null"
        )?;
        if !self.kinds.is_empty() {
            out.push_str("; and f64, f32, date, timestamp, decimal(12,2) and interval")?;
        }
        Ok(out)
    }

    /// That a value of the kind does not go there.
    fn kind_text(&self, kind: Kind) -> VortexResult<String> {
        let found = found_at(self.text, self.byte);
        let mut out = format!(in self.alloc; "{found} takes no values of kind {kind}")?;
        out.push_str(text_hint(self.alloc, self.failing_step(), kind))?;
        Ok(out)
    }

    /// That values of kinds do not go together.
    fn kinds_text(&self, refusal: &calls::Refusal) -> VortexResult<String> {
        let alloc = self.alloc;
        let found = found_at(self.text, self.byte);
        if has_interval(&self.items()?) {
            return Ok(String::from_str(alloc, INTERVAL_PLACES)?);
        }
        match refusal {
            calls::Refusal::NoCommonKind(left, right) | calls::Refusal::NotShipped(left, right) => {
                let mut out = format!(in alloc; "{found} takes no ")?;
                push_operands(&mut out, left, right)?;
                Ok(out)
            }
            calls::Refusal::NotOfKind(kind) => {
                let mut out = String::new(alloc);
                if !push_unread(&mut out, kind, &self.items()?)? {
                    out.push_str("a literal")?;
                }
                write!(out, " is no {kind}")?;
                Ok(out)
            }
            calls::Refusal::NotStored(kind) => {
                Ok(format!(in alloc; "the type of the column does not store the kind {kind}")?)
            }
            calls::Refusal::Binding(error) => {
                let (number, name) = (error.number(), error.name());
                Ok(format!(in alloc; "E{number} {name}")?)
            }
        }
    }

    /// That there is no such function, or none of these types.
    fn unknown_text(&self) -> VortexResult<String> {
        let (items, are_cases) = self.failing_items()?;
        let mut given = String::new(self.alloc);
        self.push_given(&mut given, &items, are_cases)?;
        function_text(self.alloc, self.failing_step(), given.as_str())
    }

    pub(crate) fn told(&self, refusal: &Refusal) -> VortexResult<String> {
        let alloc = self.alloc;
        let text = match refusal {
            Refusal::Binding(error) => return self.binding_text(error),
            Refusal::NotHeld => return self.held_text(),
            Refusal::UnknownType => return self.type_text(),
            Refusal::OfKind(kind) => return self.kind_text(*kind),
            Refusal::Kinds(refusal) => return self.kinds_text(refusal),
            Refusal::NoFunction => return self.unknown_text(),
            Refusal::NotUtf8 => "a text is not UTF-8",
            Refusal::UntypedNull => "null has no type here; give it one, as null::i64?",
            Refusal::NoEscape => "an escape is one character, or none",
            Refusal::NoCast => "no cast leads from that type to this one",
        };
        Ok(String::from_str(alloc, text)?)
    }
}
