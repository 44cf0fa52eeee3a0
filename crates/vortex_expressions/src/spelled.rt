//! How columns and literals are written, and the levels of trees.
ghost use Rattle.std.specs.Prelude.{◌≡◌, ◌≢◌, ◌∷◌, [], ◌++◌, List, ℕ, codes, option_map};
ghost use Rattle.std.specs.Prelude.{MatchOption, string_bytes};
ghost use Rattle.vortex_errors.specs.Answers.{AnswersUnlessMemory};
ghost use Rattle.vortex_types.specs.TypeOf.{type_of};
ghost use Rattle.vortex_functions.specs.FunctionOf.{function_of};
ghost use Rattle.vortex_syntax.specs.declared.token.Sign.TheVariants as sign;
ghost use Rattle.vortex_syntax.specs.Tokens as seen;
ghost use Rattle.vortex_syntax.specs.Spelling as spelling;
ghost use Rattle.vortex_syntax.specs.Writing.{text_token};
ghost use Rattle.vortex_expressions.specs.Writing as specs;
ghost use Rattle.vortex_expressions.specs.WritingSteps as steps;
ghost use Rattle.vortex_expressions.specs.WritingSteps.{Pushes, PushesIf, column_tokens};

use std::alloc::Global;
use vortex_columns::{DType, PType, Scalar, ScalarValue, VortexResult};
use vortex_functions::{BoundExpression, ScalarFnRef};
use vortex_operators::{BetweenOptions, Operator, StrictComparison};
use vortex_standard::Standard;
use vortex_syntax::levels::{ATOM, IS, LITERAL, NOT, PREDICATE, TYPED, own};
use vortex_syntax::{Sign, Writer, WrittenOperator as Written};

/// The operator as written.
pub(crate) fn written_operator(operator: Operator) -> Written
    ensures { result ≡ specs.written_operator operator }
{
    match operator {
        Operator::Or => Written::Or,
        Operator::And => Written::And,
        Operator::Eq => Written::Equal,
        Operator::NotEq => Written::NotEqual,
        Operator::Lt => Written::Less,
        Operator::Lte => Written::LessOrEqual,
        Operator::Gt => Written::Greater,
        Operator::Gte => Written::GreaterOrEqual,
        Operator::Add => Written::Add,
        Operator::Sub => Written::Sub,
        Operator::Mul => Written::Mul,
        Operator::Div => Written::Div,
    }
}

/// Its sign.
pub(crate) fn operator_sign(operator: Written) -> Sign
    ensures { result ≡ spelling.operator_sign operator }
{
    match operator {
        Written::Or => Sign::Or,
        Written::And => Sign::And,
        Written::Equal => Sign::Equal,
        Written::NotEqual => Sign::NotEqual,
        Written::Less => Sign::Less,
        Written::LessOrEqual => Sign::LessOrEqual,
        Written::Greater => Sign::Greater,
        Written::GreaterOrEqual => Sign::GreaterOrEqual,
        Written::Add => Sign::Plus,
        Written::Sub => Sign::Minus,
        Written::Mul => Sign::Times,
        Written::Div => Sign::Divide,
        Written::Mod => Sign::Modulo,
        Written::Concat => Sign::Concat,
        Written::BitAnd => Sign::BitAnd,
        Written::BitOr => Sign::BitOr,
        Written::BitXor => Sign::BitXor,
        Written::ShiftLeft => Sign::ShiftLeft,
        Written::ShiftRight => Sign::ShiftRight,
        Written::Matches => Sign::BitNot,
        Written::MatchesAnyCase => Sign::MatchAnyCase,
        Written::NotMatches => Sign::NotMatch,
        Written::NotMatchesAnyCase => Sign::NotMatchAnyCase,
    }
}

fn is_non_strict(comparison: StrictComparison) -> bool
    ensures { result ≡ specs.is_non_strict comparison }
{
    matches!(comparison, StrictComparison::NonStrict)
}

/// Whether both bounds are inclusive.
pub(crate) fn is_within(options: &BetweenOptions) -> bool
    ensures { result ≡ specs.is_within options.now }
{
    is_non_strict(options.lower_strict) && is_non_strict(options.upper_strict)
}

/// Whether it is the escape that is not written.
pub(crate) fn is_own_escape(escape: Option<char>) -> bool
    ensures { result ≡ specs.is_own_escape escape }
{
    match escape {
        Some(c) => c == '\\',
        None => false,
    }
}

/// The escape as a text.
pub(crate) fn escape_text(alloc: Global, escape: Option<char>) -> VortexResult<String>
    ensures { AnswersUnlessMemory result
        (λ text. string_bytes text ≡ specs.escape_text escape) }
{
    let mut text = String::new(alloc);
    if let Some(c) = escape {
        text.push(c)?;
        return Ok(text);
    }
    Ok(text)
}

/// The name of a type that literals have.
fn type_name(dtype: &DType) -> Option<&'static str>
    ensures { option_map (λ t. t.now) result ≡ specs.type_name (type_of dtype.now) }
{
    match dtype {
        DType::Bool(_) => Some("bool"),
        DType::Primitive(ptype, _) => Some(ptype.text()),
        DType::Utf8(_) => Some("utf8"),
        _ => None,
    }
}

fn is_i64(ptype: PType) -> bool
    ensures { result ≡ specs.is_i64 ptype }
{
    matches!(ptype, PType::I64)
}

/// Whether literals that are not null have the type by default.
fn is_own_type(dtype: &DType) -> bool
    ensures { result ≡ specs.is_own_type (type_of dtype.now) }
{
    match dtype {
        DType::Bool(nullability) => !nullability.is_nullable(),
        DType::Primitive(ptype, nullability) => is_i64(*ptype) && !nullability.is_nullable(),
        DType::Utf8(nullability) => !nullability.is_nullable(),
        _ => false,
    }
}

fn function_level(function: &ScalarFnRef<Standard>) -> u8
    ensures { result ≡ steps.function_level (function_of function.now) }
{
    match function {
        ScalarFnRef::Binary(operator) => own(written_operator(*operator)),
        ScalarFnRef::Not => NOT,
        ScalarFnRef::IsNull => IS,
        ScalarFnRef::IsNotNull => IS,
        ScalarFnRef::Between(_) => PREDICATE,
        ScalarFnRef::Like(_) => PREDICATE,
        ScalarFnRef::Cast => ATOM,
        ScalarFnRef::Custom(_) => ATOM,
    }
}

fn leaf_level(tree: &BoundExpression<Standard>) -> u8
    ensures { result ≡ steps.leaf_level tree.now }
{
    match tree.as_literal() {
        Some(scalar) => if is_own_type(scalar.dtype()) {
            LITERAL
        } else {
            TYPED
        },
        None => ATOM,
    }
}

/// How tightly a tree binds.
pub(crate) fn tree_level(tree: &BoundExpression<Standard>) -> u8
    ensures { result ≡ steps.tree_level tree.now }
{
    match tree.as_scalar() {
        Some(function) => function_level(function),
        None => leaf_level(tree),
    }
}

/// A whole number.
fn write_number(writer: &mut Writer, alloc: Global, number: i128) -> VortexResult<()>
    ensures { AnswersUnlessMemory result
        (λ _. Pushes (spelling.spelling (specs.number_syntax number)) writer.old writer.new) }
{
    let digits = number.unsigned_abs().to_string(alloc)?;
    if number < 0 {
        writer.push_sign(Sign::Minus)?;
        writer.push_number(digits.as_str())?;
        return Ok(());
    }
    writer.push_number(digits.as_str())?;
    Ok(())
}

fn truth_sign(truth: bool) -> Sign
    ensures { result ≡ specs.truth_sign truth }
{
    if truth { Sign::True } else { Sign::False }
}

/// A sign.
fn write_sign(writer: &mut Writer, sign: Sign) -> VortexResult<bool>
    ensures { AnswersUnlessMemory result
        (PushesIf (Some (seen.sign sign ∷ [])) writer.old writer.new) }
{
    writer.push_sign(sign)?;
    Ok(true)
}

/// A text.
fn write_text(writer: &mut Writer, text: &str) -> VortexResult<bool>
    ensures { AnswersUnlessMemory result
        (PushesIf (Some (text_token text.now ∷ [])) writer.old writer.new) }
{
    writer.push_text(text)?;
    Ok(true)
}

/// A literal without its type; returns whether it is one.
fn write_value(writer: &mut Writer, alloc: Global, scalar: &Scalar) -> VortexResult<bool>
    ensures { AnswersUnlessMemory result
        (PushesIf (steps.value_tokens scalar.now.value) writer.old writer.new) }
{
    match scalar.value() {
        None => write_sign(writer, Sign::Null),
        Some(ScalarValue::Bool(truth)) => write_sign(writer, truth_sign(*truth)),
        Some(ScalarValue::Int(number)) => {
            write_number(writer, alloc, *number)?;
            Ok(true)
        }
        Some(ScalarValue::Utf8(text)) => write_text(writer, text.as_str()),
        Some(_) => Ok(false),
    }
}

/// The type of a literal.
fn write_type(writer: &mut Writer, name: &str, nullable: bool) -> VortexResult<()>
    ensures { AnswersUnlessMemory result
        (λ _. Pushes (seen.sign sign.Typed ∷ spelling.type_token name.now nullable ∷ [])
        writer.old writer.new) }
{
    writer.push_sign(Sign::Typed)?;
    writer.push_type(name, nullable)?;
    Ok(())
}

/// A literal, with its type if that must be written; returns whether it has a text.
pub(crate) fn write_literal(
    writer: &mut Writer,
    alloc: Global,
    scalar: &Scalar,
) -> VortexResult<bool>
    ensures { AnswersUnlessMemory result
        (PushesIf (steps.literal_tokens scalar.now) writer.old writer.new) }
{
    let Some(name) = type_name(scalar.dtype()) else {
        return Ok(false);
    };
    if !write_value(writer, alloc, scalar)? {
        return Ok(false);
    }
    if is_own_type(scalar.dtype()) {
        return Ok(true);
    }
    write_type(writer, name, scalar.dtype().is_nullable())?;
    Ok(true)
}

/// The name in the text of a column leaf, which is `$.` and the name.
fn name_in(text: &str) -> Option<&str>
    ensures { MatchOption result ((name : List ℕ) → text.now ≢ codes "$." ++ name)
        (λ name. text.now ≡ codes "$." ++ name.now) }
{
    match text.strip_prefix('$') {
        Some(rest) => rest.strip_prefix('.'),
        None => None,
    }
}

/// A column; returns whether it is one.
pub(crate) fn write_column(
    writer: &mut Writer,
    alloc: Global,
    tree: &BoundExpression<Standard>,
) -> VortexResult<bool>
    ensures { AnswersUnlessMemory result
        (PushesIf (column_tokens tree.now) writer.old writer.new) }
{
    let Some(_place) = tree.as_column() else {
        return Ok(false);
    };
    let text = tree.sql_text(alloc)?;
    match name_in(text.as_str()) {
        Some(name) => {
            writer.push_name(name)?;
            Ok(true)
        }
        None => Ok(false),
    }
}
