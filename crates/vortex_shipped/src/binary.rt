//! The operators of two operands.
ghost use Rattle.std.specs.Prelude.{◌≡◌, Some, length, map};
ghost use Rattle.vortex_interface.specs.Shipped as shipped;
ghost use Rattle.vortex_shipped.specs.Words.{no_rules, AnswersUnlessMemory};
ghost use Rattle.vortex_shipped.specs.Words.{type_of, WritesBefore, AppendsCall, binary_id};
ghost use Rattle.vortex_shipped.specs.Words.{both_bool, compared_type, arithmetic_type};
ghost use Rattle.vortex_shipped.specs.Words.{operator_type};
ghost use Rattle.vortex_shipped.specs.Words.{operator_place, shipped_meaning, shipped_lawful};
ghost use Rattle.vortex_shipped.specs.Words.{AnswersShippedType, IsTypeFound};
ghost use Rattle.vortex_shipped.specs.Words.{shipped_parts, WritesBytes, ReadsOptions};
ghost use Rattle.vortex_shipped.specs.Words.{operator_bytes, operator_read};

use crate::option_bytes::write_byte;
use crate::texts::{CallText, write_spaced};
use std::alloc::Global;
use vortex_columns::{
    Arity, Column, DType, ExecutionCtx, MismatchPlace, VortexError, VortexResult,
};
use vortex_interface::{ChildName, ExecutionArgs, ScalarFnId, ScalarFnVTable};
use vortex_kernels::{Operator, execute_boolean, execute_compare, execute_numeric};

/// And and Or of two Bool, by Kleene's tables; the comparisons of two types that agree apart from
/// nullability, by the order of values; and exact arithmetic of two operands of one integer type
/// apart from nullability, which is E7 if in some row both are present and the type does not hold
/// the result. The result is nullable if either operand is.
#[derive(Clone, Drop)]
pub struct Binary;

/// The place in E3 for the types of an operator.
fn mismatch_place(operator: Operator) -> MismatchPlace
    ensures { result ≡ operator_place operator }
{
    match operator {
        Operator::And => MismatchPlace::Boolean,
        Operator::Or => MismatchPlace::Boolean,
        Operator::Add => MismatchPlace::Arithmetic,
        Operator::Sub => MismatchPlace::Arithmetic,
        Operator::Mul => MismatchPlace::Arithmetic,
        Operator::Div => MismatchPlace::Arithmetic,
        _ => MismatchPlace::Compare,
    }
}

/// Bool for two Bool, nullable if either is.
fn boolean_dtype(types: &[DType]) -> Option<DType>
    ensures { IsTypeFound (both_bool (map type_of types.now)) result }
{
    match types {
        [DType::Bool(left), DType::Bool(right)] => Some(DType::Bool(*left | *right)),
        _ => None,
    }
}

/// Bool for two types that agree apart from nullability, nullable if either is.
fn comparison_dtype(types: &[DType]) -> Option<DType>
    ensures { IsTypeFound (compared_type (map type_of types.now)) result }
{
    match types {
        [left, right] => {
            if !left.eq_ignore_nullability(right) {
                return None;
            }
            Some(DType::Bool(left.nullability() | right.nullability()))
        }
        _ => None,
    }
}

/// The integer type of two operands, nullable if either is.
fn arithmetic_dtype(types: &[DType]) -> Option<DType>
    ensures { IsTypeFound (arithmetic_type (map type_of types.now)) result }
{
    match types {
        [DType::Primitive(left, one), DType::Primitive(right, other)] => {
            if *left != *right {
                return None;
            }
            Some(DType::Primitive(*left, *one | *other))
        }
        _ => None,
    }
}

/// The return type of an operator, if it accepts the operands.
fn operator_dtype(operator: Operator, types: &[DType]) -> Option<DType>
    ensures { IsTypeFound (operator_type operator (map type_of types.now)) result }
{
    match operator {
        Operator::And => boolean_dtype(types),
        Operator::Or => boolean_dtype(types),
        Operator::Add => arithmetic_dtype(types),
        Operator::Sub => arithmetic_dtype(types),
        Operator::Mul => arithmetic_dtype(types),
        Operator::Div => arithmetic_dtype(types),
        _ => comparison_dtype(types),
    }
}

impl ScalarFnVTable for Binary {
    type Options = Operator;

    ghost meaning = { shipped_meaning binary_id shipped.Binary };

    ghost rules = { no_rules };

    ghost option_bytes = { λ f operator. Some (operator_bytes operator) };

    ghost options_read = { λ f bytes. operator_read bytes };

    ghost own_parts = { λ f operator. shipped_parts (shipped.Binary operator) };

    fn id(&self) -> ScalarFnId {
        "vortex.binary"
    }

    /// The operator's byte.
    fn serialize(&self, alloc: Global, operator: &Operator) -> VortexResult<Option<Vec<u8>>>
        ensures { AnswersUnlessMemory result (WritesBytes (Some (operator_bytes operator.now))) }
    {
        write_byte(alloc, operator.to_byte())
    }

    /// E8 exactly if no options are written as these bytes; allocates nothing.
    fn deserialize(&self, _alloc: Global, bytes: &[u8]) -> VortexResult<Operator>
        ensures { ReadsOptions (operator_read bytes.now) result }
    {
        Operator::from_bytes(bytes).ok_or(VortexError::BadOptions)
    }

    fn arity(&self, _operator: &Operator) -> Arity {
        Arity::Exact(2)
    }

    fn child_name(&self, _operator: &Operator, index: usize) -> ChildName {
        if index == 0 { "lhs" } else { "rhs" }
    }

    fn return_dtype(
        &self,
        _alloc: Global,
        operator: &Operator,
        types: &[DType],
    ) -> VortexResult<DType>
        ensures { AnswersShippedType (shipped.Binary operator.now) types.now result }
    {
        operator_dtype(*operator, types).ok_or(VortexError::TypeMismatch(mismatch_place(*operator)))
    }

    fn execute<A: ExecutionArgs>(
        &self,
        operator: &Operator,
        args: &A,
        ctx: &mut ExecutionCtx,
    ) -> VortexResult<Column> {
        let lhs = args.get(0)?;
        let rhs = args.get(1)?;
        if let Some(compare) = operator.to_compare_operator() {
            return execute_compare(lhs, rhs, compare, ctx);
        }
        match operator.to_numeric_operator() {
            Some(numeric) => execute_numeric(lhs, rhs, numeric, ctx),
            None => execute_boolean(lhs, rhs, *operator, ctx),
        }
    }

    /// `(a op b)`.
    fn write_before(
        &self,
        _alloc: Global,
        operator: &Operator,
        index: usize,
        _count: usize,
        out: &mut String,
    ) -> VortexResult<usize>
        ensures { AnswersUnlessMemory result
            (WritesBefore (shipped.Binary operator.now) index out.old out.new) }
    {
        self.write_part(operator, index, out)
    }

    /// `(a op b)`.
    fn fmt_sql(
        &self,
        _alloc: Global,
        operator: &Operator,
        children: &[String],
        out: &mut String,
    ) -> VortexResult<()>
        ensures { AnswersUnlessMemory result
            (λ _. AppendsCall (shipped.Binary operator.now) children.now out.old out.new) }
    {
        self.write_call(operator, children, out)
    }

    fn is_strict(&self, operator: &Operator) -> bool {
        !operator.is_boolean()
    }

    fn is_infallible(&self, operator: &Operator) -> bool {
        !operator.is_arithmetic()
    }

    fn try_clone(&self, _alloc: Global) -> VortexResult<Binary> {
        Ok(Binary)
    }

    fn clone_options(&self, _alloc: Global, operator: &Operator) -> VortexResult<Operator> {
        Ok(*operator)
    }

    ghost lawful = { shipped_lawful binary_id shipped.Binary };
}

/// `(a op b)`.
impl CallText<Operator> for Binary {
    ghost call = { shipped.Binary };

    fn write_part(
        &self,
        operator: &Operator,
        index: usize,
        out: &mut String,
    ) -> VortexResult<usize> {
        match index {
            0 => out.push_str("(")?,
            1 => write_spaced(out, operator.text())?,
            _ => out.push_str(")")?,
        }
        Ok(index)
    }
}
