//! Literals next to values of a kind.
ghost use Rattle.std.specs.Prelude.{◌≡◌, option_and_then};
ghost use Rattle.vortex_logical.specs.declared.kind.Kind.TheVariants.{Date, Timestamp};
ghost use Rattle.vortex_logical.specs.Kinds.{stored_ptype};
ghost use Rattle.vortex_logical.specs.Cells.{stored_of_text};
ghost use Rattle.vortex_lowering.specs.Rows.{lowered};
ghost use Rattle.vortex_logical_calls.specs.Outcomes.{Makes};
ghost use Rattle.vortex_logical_calls.specs.Literals as specs;

use std::alloc::Global;
use vortex_columns::Scalar;
use vortex_functions::BoundExpression;
use vortex_logical::cells::read_cell;
use vortex_logical::digits::DecimalDigits;
use vortex_logical::kind::Kind;
use vortex_logical::operand::Operand;
use vortex_lowering::{Lowered, Refusal};
use vortex_standard::Standard;

/// What follows the first point of a number.
fn behind_point(number: &[u8]) -> &[u8]
    ensures { result.now ≡ specs.behind_point number.now }
{
    let mut rest = number;
    while let [byte, more @ ..] = rest {
        if *byte == b'.' {
            return more;
        }
        rest = more;
    }
    rest
}

/// The kind of decimals of 18 digits, as many of them after the point as the number has; none for
/// more than 18.
pub fn number_kind(number: &[u8]) -> Option<Kind>
    ensures { result ≡ specs.number_kind number.now }
{
    let scale = behind_point(number).len();
    if scale > 18 {
        return None;
    }
    Some(Kind::Decimal(DecimalDigits::try_new(18, scale as u32)?))
}

/// The kind that a number takes next to an operand: a decimal with its own digits after the point
/// next to a decimal, so that nothing is rounded, and a float next to a float; else none.
pub fn kind_beside(operand: &Operand, number: &[u8]) -> Option<Kind>
    ensures { result ≡ specs.kind_beside operand.now number.now }
{
    match operand {
        Operand::Of(Kind::Decimal(_)) => number_kind(number),
        Operand::Of(Kind::F64) => Some(Kind::F64),
        Operand::Of(Kind::F32) => Some(Kind::F32),
        _ => None,
    }
}

/// The microseconds of a day's midnight, if 64 bits hold them.
fn midnight(days: i64) -> Option<i64>
    ensures { result ≡ specs.midnight days }
{
    days.checked_mul(86_400_000_000)
}

/// The microseconds of a date's midnight.
fn midnight_of(text: &[u8]) -> Option<i64>
    ensures { result ≡ option_and_then specs.midnight (stored_of_text Date text.now) }
{
    midnight(read_cell(Kind::Date, text)?)
}

/// The literal of a text that is of the kind as it is.
fn literal_of_kind(alloc: Global, kind: Kind, text: &[u8]) -> Result<Lowered<Standard>, Refusal>
    ensures { Makes (λ x. lowered x.tree x.operand) result
        (specs.constant_of kind (stored_of_text kind text.now) (stored_ptype kind)) }
{
    Lowered::literal(alloc, kind, text)
}

/// The literal of a text for a timestamp.
fn timestamp_literal(alloc: Global, text: &[u8]) -> Result<Lowered<Standard>, Refusal>
    ensures { Makes (λ x. lowered x.tree x.operand) result (specs.literal_of Timestamp text.now) }
{
    match midnight_of(text) {
        Some(micros) => {
            let tree = BoundExpression::lit(alloc, Scalar::from(micros));
            let operand = Operand::Of(Kind::Timestamp);
            Ok(Lowered { tree, operand })
        }
        None => literal_of_kind(alloc, Kind::Timestamp, text),
    }
}

/// The literal of a text of a kind, as `2024-01-01` of a date; a date is midnight where a timestamp
/// is wanted. Fails with `NotOfKind` exactly if the text is none of the kind. Allocates nothing.
pub fn literal(alloc: Global, kind: Kind, text: &[u8]) -> Result<Lowered<Standard>, Refusal>
    ensures { Makes (λ x. lowered x.tree x.operand) result (specs.literal_of kind text.now) }
{
    match kind {
        Kind::Timestamp => timestamp_literal(alloc, text),
        kind => literal_of_kind(alloc, kind, text),
    }
}
