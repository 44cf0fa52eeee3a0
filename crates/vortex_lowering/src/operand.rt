//! A tree over stored integers, and what its values are.
ghost use Rattle.std.specs.Prelude.{◌≡◌, ◌<◌, Some, None, MatchResult};
ghost use Rattle.std.specs.Prelude.{FitsSigned};
ghost use Rattle.std.specs.Int.{w32};
ghost use Rattle.vortex_types.specs.declared.dtype.PType.TheVariants.{I32};
ghost use Rattle.vortex_types.specs.TypeOf.{type_of, struct_fields};
ghost use Rattle.vortex_types.specs.LogicalTypes.{field_count, field_type};
ghost use Rattle.vortex_columns.specs.ScalarOf.{int_scalar};
ghost use Rattle.vortex_logical.specs.Kinds.{stored_ptype};
ghost use Rattle.vortex_logical.specs.Cells.{stored_of_text, IsStored};
ghost use Rattle.vortex_lowering.specs.declared.refusal.Refusal.TheVariants.{NotOfKind};
ghost use Rattle.vortex_lowering.specs.Rows.{lowered};
ghost use Rattle.vortex_lowering.specs.Leaves.{is_ptype, column_operand, IsColumn, IsLiteral};
ghost use Rattle.vortex_lowering.specs.Leaves.{IsConstantOf, RefusesColumn};

use crate::refusal::Refusal;
use std::alloc::Global;
use vortex_columns::{DType, PType, Scalar, StructFields};
use vortex_functions::BoundExpression;
use vortex_interface::ScalarFnVTable;
use vortex_logical::cells::read_cell;
use vortex_logical::dates::dated_days;
use vortex_logical::kind::Kind;
use vortex_logical::operand::Operand;

/// A tree over stored integers, and what its values are.
#[derive(Drop)]
pub struct Lowered<C: ScalarFnVTable> {
    pub tree: BoundExpression<C>,
    pub operand: Operand,
}

/// Whether the type stores the kind.
fn is_stored_in(kind: &Kind, ptype: PType) -> bool
    ensures { result ≡ is_ptype (stored_ptype kind.now) ptype }
{
    match kind.stored_ptype() {
        Some(stored) => stored == ptype,
        None => false,
    }
}

/// What the values of a column are, if its type stores the kind.
fn column_operand(kind: Kind, dtype: &DType) -> Result<Operand, Refusal>
    ensures { MatchResult result (λ a. column_operand kind (type_of dtype.now) ≡ Some a)
        (RefusesColumn kind (type_of dtype.now)) }
{
    match (kind, dtype) {
        (Kind::Plain, DType::Primitive(ptype, _)) => Ok(Operand::Whole(*ptype)),
        (Kind::Plain, _) => Ok(Operand::Of(Kind::Plain)),
        (_, DType::Primitive(ptype, _)) if is_stored_in(&kind, *ptype) => Ok(Operand::Of(kind)),
        _ => Err(Refusal::NotStored(kind)),
    }
}

fn narrow(number: i64) -> i32
    requires { FitsSigned w32 number }
    ensures { result ≡ number }
{
    number as i32
}

fn day_scalar(number: i64) -> Scalar
    requires { IsStored Kind.Date number }
    ensures { result ≡ int_scalar I32 number }
{
    dated_days();
    Scalar::from(narrow(number))
}

fn narrow_float_scalar(number: i64) -> Scalar
    requires { IsStored Kind.F32 number }
    ensures { result ≡ int_scalar I32 number }
{
    Scalar::from(narrow(number))
}

/// The constant of the stored integer of a value of a kind.
fn stored_scalar(kind: &Kind, number: i64) -> Scalar
    requires { IsStored kind.now number }
    ensures { IsConstantOf kind.now number result }
{
    match kind {
        Kind::Date => day_scalar(number),
        Kind::F32 => narrow_float_scalar(number),
        _ => Scalar::from(number),
    }
}

impl<C: ScalarFnVTable> Lowered<C> {
    /// The column at that place of the scope, whose stored integers are of the kind; a plain column
    /// of an integer type is whole numbers. Refused (`NotStored`) exactly if its type does not
    /// store the kind. E9 where an allocation fails.
    pub fn column(
        alloc: Global,
        scope: &StructFields,
        place: usize,
        kind: Kind,
    ) -> Result<Lowered<C>, Refusal>
        requires { place < field_count (struct_fields scope.now) }
        ensures { MatchResult result
            (λ x. IsColumn kind place (struct_fields scope.now) (lowered x.tree x.operand))
            (RefusesColumn kind (field_type place (struct_fields scope.now))) }
    {
        let operand = column_operand(kind, scope.dtype(place))?;
        let tree = BoundExpression::column_at(alloc, scope, place)?;
        Ok(Lowered { tree, operand })
    }

    /// The literal of a text of the kind, as `2024-01-01` of a date. Refused (`NotOfKind`) exactly
    /// if the text is none of the kind. Allocates nothing.
    pub fn literal(alloc: Global, kind: Kind, text: &[u8]) -> Result<Lowered<C>, Refusal>
        ensures { MatchResult result
            (λ x. IsLiteral kind text.now (lowered x.tree x.operand))
            (λ e. (e ≡ NotOfKind kind) × (stored_of_text kind text.now ≡ None)) }
    {
        match read_cell(kind, text) {
            Some(number) => Ok(Lowered {
                tree: BoundExpression::lit(alloc, stored_scalar(&kind, number)),
                operand: Operand::Of(kind),
            }),
            None => Err(Refusal::NotOfKind(kind)),
        }
    }
}
