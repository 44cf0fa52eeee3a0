//! Operands beside each other.
ghost use Rattle.std.specs.Prelude.{◌≡◌, ◌≤◌};
ghost use Rattle.vortex_lowering.specs.Operands.{are_shipped, scale_of, common_scale, lacking};

use vortex_logical::kind::Kind;
use vortex_logical::operand::Operand;
use vortex_types::PType;

/// The count of digits after the point.
pub(crate) fn scale_of(operand: &Operand) -> u32
    ensures value { result ≡ scale_of operand.now }
    ensures few { result ≤ 18 }
{
    match operand {
        Operand::Of(Kind::Decimal(digits)) => digits.scale(),
        _ => 0,
    }
}

/// The larger of two scales.
pub(crate) fn common_scale(left: &Operand, right: &Operand) -> u32
    ensures value { result ≡ common_scale left.now right.now }
    ensures few { result ≤ 18 }
{
    scale_of(left).max(scale_of(right))
}

/// How many digits after the point a number lacks at a scale.
pub(crate) fn lacking(scale: u32, operand: &Operand) -> u32
    ensures value { result ≡ lacking scale operand.now }
    ensures few { result ≤ scale }
{
    match operand {
        Operand::Of(Kind::Decimal(digits)) => scale.saturating_sub(digits.scale()),
        Operand::Whole(_) => scale,
        Operand::Of(_) => 0,
    }
}

/// Whether shipped functions compare the two.
pub(crate) fn are_shipped(left: &Operand, right: &Operand) -> bool
    ensures { result ≡ are_shipped left.now right.now }
{
    match (left, right) {
        (Operand::Whole(left), Operand::Whole(right)) => left == right,
        (Operand::Of(Kind::Decimal(_)), Operand::Of(Kind::Decimal(_))) => true,
        (Operand::Of(Kind::Decimal(_)), Operand::Whole(ptype))
        | (Operand::Whole(ptype), Operand::Of(Kind::Decimal(_))) => *ptype == PType::I64,
        (Operand::Of(Kind::Plain), Operand::Of(Kind::Plain)) => true,
        (Operand::Of(Kind::Date), Operand::Of(Kind::Date)) => true,
        (Operand::Of(Kind::Timestamp), Operand::Of(Kind::Timestamp)) => true,
        (Operand::Of(Kind::F64), Operand::Of(Kind::F64)) => true,
        (Operand::Of(Kind::F32), Operand::Of(Kind::F32)) => true,
        _ => false,
    }
}
