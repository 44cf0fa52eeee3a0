//! Which functions casts from and to kinds are.
ghost use Rattle.std.specs.Prelude.{◌≡◌};
ghost use Rattle.vortex_logical_casts.specs.Casts as specs;

use crate::steps::{More, Step, Steps};
use vortex_logical::digits::DecimalDigits;
use vortex_logical::kind::Kind;
use vortex_logical::operand::Operand;
use vortex_standard::{
    Cast, DecimalRound, FloatToInt, FloatToText, KindToText, Rounding, Standard, StoredKind,
    TextToKind, Widen, Width, WrittenKind, has_all_of,
};
use vortex_types::PType;

fn alone(function: Standard) -> Step
    ensures { result ≡ specs.alone function }
{
    let more = More::Nothing;
    Step { function, more }
}

/// A text as a value of a kind; null where it is none, if the flag is true.
fn reading(is_tried: bool, kind: StoredKind) -> Steps
    ensures { result ≡ specs.reading is_tried kind }
{
    let function = TextToKind { kind };
    if is_tried {
        Steps::One(alone(Standard::TryTextToKind(function)))
    } else {
        Steps::One(alone(Standard::TextToKind(function)))
    }
}

/// A text as a decimal.
fn reading_digits(is_tried: bool, digits: DecimalDigits) -> Steps
    ensures { result ≡ specs.reading_digits is_tried digits }
{
    let more = More::Two(digits.precision(), digits.scale());
    let function = if is_tried {
        Standard::TryTextToDecimal
    } else {
        Standard::TextToDecimal
    };
    Steps::One(Step { function, more })
}

/// The function from a text to a value of the kind; with the flag, what is null where that faults.
pub fn text_steps(is_tried: bool, kind: &Kind) -> Option<Steps>
    ensures { result ≡ specs.text_steps is_tried kind.now }
{
    match kind {
        Kind::Plain => None,
        Kind::Date => Some(reading(is_tried, StoredKind::Date)),
        Kind::Timestamp => Some(reading(is_tried, StoredKind::Timestamp)),
        Kind::Decimal(digits) => Some(reading_digits(is_tried, *digits)),
        Kind::F64 => Some(reading(is_tried, StoredKind::F64)),
        Kind::F32 => Some(reading(is_tried, StoredKind::F32)),
    }
}

/// A whole number with so many zeros more, as a decimal of the precision.
fn scaling(is_tried: bool, places: u32, precision: u32) -> Step
    ensures { result ≡ specs.scaling is_tried places precision }
{
    let more = More::Two(places, precision);
    let function = if is_tried {
        Standard::TryDecimalScaled
    } else {
        Standard::DecimalScaled
    };
    Step { function, more }
}

/// A decimal's digits without the last ones.
pub(crate) fn rounding(rounding: Rounding, places: u32) -> Step
    ensures { result ≡ specs.rounding rounding places }
{
    let function = Standard::DecimalRound(DecimalRound { rounding });
    let more = More::One(places);
    Step { function, more }
}

/// A decimal of one scale as one of another.
fn rescaling(is_tried: bool, from: DecimalDigits, to: DecimalDigits) -> Steps
    ensures { result ≡ specs.rescaling is_tried from to }
{
    let (old, new) = (from.scale(), to.scale());
    if old <= new {
        Steps::One(scaling(is_tried, new - old, to.precision()))
    } else {
        let shorter = rounding(Rounding::Half, old - new);
        Steps::Two(shorter, scaling(is_tried, 0, to.precision()))
    }
}

/// From a whole number or a decimal to a decimal: rounded from halfway away from zero where it has
/// fewer places.
pub fn decimal_steps(is_tried: bool, digits: DecimalDigits, from: &Operand) -> Option<Steps>
    ensures { result ≡ specs.decimal_steps is_tried digits from.now }
{
    match from {
        Operand::Whole(_) => Some(Steps::One(scaling(
            is_tried,
            digits.scale(),
            digits.precision(),
        ))),
        Operand::Of(Kind::Decimal(old)) => Some(rescaling(is_tried, *old, digits)),
        Operand::Of(_) => None,
    }
}

fn narrowed(is_tried: bool, ptype: PType) -> Standard
    ensures { result ≡ specs.narrowed is_tried ptype }
{
    if is_tried {
        Standard::TryCast(Cast { ptype })
    } else {
        Standard::Cast(Cast { ptype })
    }
}

/// An integer of 64 bits in the type.
fn narrowing(is_tried: bool, ptype: PType) -> Step
    ensures { result ≡ specs.narrowing is_tried ptype }
{
    if has_all_of(ptype, PType::I64) {
        alone(Standard::Widen(Widen { ptype }))
    } else {
        alone(narrowed(is_tried, ptype))
    }
}

fn nearest(is_tried: bool, ptype: PType) -> Step
    ensures { result ≡ specs.nearest is_tried ptype }
{
    if is_tried {
        alone(Standard::TryFloatToInt(FloatToInt { ptype }))
    } else {
        alone(Standard::FloatToInt(FloatToInt { ptype }))
    }
}

/// From a number of a kind to the nearest integer: of a float from halfway the even one, of a
/// decimal that away from zero.
pub fn integer_steps(is_tried: bool, kind: &Kind, ptype: PType) -> Option<Steps>
    ensures { result ≡ specs.integer_steps is_tried kind.now ptype }
{
    match kind {
        Kind::Decimal(digits) => {
            let whole = rounding(Rounding::Half, digits.scale());
            Some(Steps::Two(whole, narrowing(is_tried, ptype)))
        }
        Kind::F64 => Some(Steps::One(nearest(is_tried, ptype))),
        Kind::F32 => Some(Steps::Two(alone(Standard::WidenFloat), nearest(is_tried, ptype))),
        _ => None,
    }
}

/// From a float of 64 bits to a decimal of these digits: its first 15 digits, rounded from halfway away
/// from zero.
pub fn float_steps(is_tried: bool, digits: DecimalDigits) -> Steps
    ensures { result ≡ specs.float_steps is_tried digits }
{
    let more = More::Two(digits.scale(), digits.precision());
    let function = if is_tried {
        Standard::TryFloatToDecimal
    } else {
        Standard::FloatToDecimal
    };
    Steps::One(Step { function, more })
}

fn writing(kind: WrittenKind) -> Steps
    ensures { result ≡ specs.writing kind }
{
    Steps::One(alone(Standard::KindToText(KindToText { kind })))
}

fn float_writing(width: Width) -> Steps
    ensures { result ≡ specs.float_writing width }
{
    Steps::One(alone(Standard::FloatToText(FloatToText { width })))
}

/// The function that writes values of the kind.
pub fn written_steps(kind: &Kind) -> Option<Steps>
    ensures { result ≡ specs.written_steps kind.now }
{
    match kind {
        Kind::Date => Some(writing(WrittenKind::Date)),
        Kind::Timestamp => Some(writing(WrittenKind::Timestamp)),
        Kind::Decimal(digits) => {
            let function = Standard::DecimalToText;
            let more = More::One(digits.scale());
            Some(Steps::One(Step { function, more }))
        }
        Kind::F64 => Some(float_writing(Width::F64)),
        Kind::F32 => Some(float_writing(Width::F32)),
        Kind::Plain => None,
    }
}
