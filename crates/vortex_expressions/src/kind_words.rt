//! What names mean where an argument is a value of a kind.
ghost use Rattle.std.specs.Prelude.{◌≡◌};
ghost use Rattle.vortex_syntax.specs.Keywords.{same_word};
ghost use Rattle.vortex_expressions.specs.KindWords as specs;

use vortex_standard::{FloatFunction, Part, Unit};

/// A function of one value of a kind.
#[derive(Clone, Copy, Debug, PartialEq, Eq)]
pub(crate) enum KindFunction {
    /// Of a number, as a float of 64 bits.
    OfFloat(FloatFunction),
    /// That part of a date or a timestamp.
    OfPart(Part),
    /// A date or a timestamp, truncated to that unit.
    ToUnit(Unit),
    /// That name of a date or a timestamp.
    ToName(Named),
}

/// What of a date or a timestamp has a name.
#[derive(Clone, Copy, Debug, PartialEq, Eq)]
pub(crate) enum Named {
    /// The day of the week.
    Day,
    Month,
}

/// What a name means where an argument is a value of a kind.
#[derive(Clone, Copy, Debug, PartialEq, Eq)]
pub(crate) enum KindName {
    /// That function, of one argument.
    Single(KindFunction),
    /// The part that a text before the value names.
    PartByText,
    /// The value, truncated to the unit that a text before it names.
    UnitByText,
    /// A date or a timestamp, so many months later.
    AddMonths,
    /// The text of a date or a timestamp by a format.
    ToChar,
}

pub(crate) fn is_word(word: &[u8], other: &[u8]) -> bool
    ensures { result ≡ same_word word.now other.now }
{
    word.eq_ignore_ascii_case(other)
}

/// The function on floats of that name.
fn float_word(word: &[u8]) -> Option<FloatFunction>
    ensures { result ≡ specs.float_word word.now }
{
    if is_word(word, b"round") {
        Some(FloatFunction::Round)
    } else if is_word(word, b"floor") {
        Some(FloatFunction::Floor)
    } else if is_word(word, b"ceil") || is_word(word, b"ceiling") {
        Some(FloatFunction::Ceil)
    } else if is_word(word, b"trunc") {
        Some(FloatFunction::Trunc)
    } else if is_word(word, b"sqrt") {
        Some(FloatFunction::Sqrt)
    } else if is_word(word, b"abs") {
        Some(FloatFunction::Abs)
    } else if is_word(word, b"sign") {
        Some(FloatFunction::Sign)
    } else {
        None
    }
}

/// The part of a date of that name.
fn date_word(word: &[u8]) -> Option<Part>
    ensures { result ≡ specs.date_word word.now }
{
    if is_word(word, b"year") {
        Some(Part::Year)
    } else if is_word(word, b"quarter") {
        Some(Part::Quarter)
    } else if is_word(word, b"month") {
        Some(Part::Month)
    } else if is_word(word, b"week") || is_word(word, b"weekofyear") {
        Some(Part::Week)
    } else if is_word(word, b"day") || is_word(word, b"dayofmonth") {
        Some(Part::Day)
    } else if is_word(word, b"dow") {
        Some(Part::DayOfWeek)
    } else if is_word(word, b"isodow") {
        Some(Part::IsoDayOfWeek)
    } else if is_word(word, b"doy") || is_word(word, b"dayofyear") {
        Some(Part::DayOfYear)
    } else {
        None
    }
}

/// The part of a time of that name.
fn time_word(word: &[u8]) -> Option<Part>
    ensures { result ≡ specs.time_word word.now }
{
    if is_word(word, b"epoch") {
        Some(Part::Epoch)
    } else if is_word(word, b"hour") {
        Some(Part::Hour)
    } else if is_word(word, b"minute") {
        Some(Part::Minute)
    } else if is_word(word, b"second") {
        Some(Part::Second)
    } else if is_word(word, b"milliseconds") {
        Some(Part::Millisecond)
    } else if is_word(word, b"microseconds") {
        Some(Part::Microsecond)
    } else {
        None
    }
}

/// The part of that name.
pub(crate) fn part_word(word: &[u8]) -> Option<Part>
    ensures { result ≡ specs.part_word word.now }
{
    date_word(word).or(time_word(word))
}

/// The unit of that name.
pub(crate) fn unit_word(word: &[u8]) -> Option<Unit>
    ensures { result ≡ specs.unit_word word.now }
{
    if is_word(word, b"year") {
        Some(Unit::Year)
    } else if is_word(word, b"quarter") {
        Some(Unit::Quarter)
    } else if is_word(word, b"month") {
        Some(Unit::Month)
    } else if is_word(word, b"week") {
        Some(Unit::Week)
    } else if is_word(word, b"day") {
        Some(Unit::Day)
    } else if is_word(word, b"hour") {
        Some(Unit::Hour)
    } else if is_word(word, b"minute") {
        Some(Unit::Minute)
    } else if is_word(word, b"second") {
        Some(Unit::Second)
    } else {
        None
    }
}

/// The name of a day of the week or of a month.
fn name_word(word: &[u8]) -> Option<KindName>
    ensures { result ≡ specs.name_word word.now }
{
    if is_word(word, b"dayname") {
        Some(KindName::Single(KindFunction::ToName(Named::Day)))
    } else if is_word(word, b"monthname") {
        Some(KindName::Single(KindFunction::ToName(Named::Month)))
    } else {
        None
    }
}

/// The function of that name of a text and a value, or of a value and a number of months or a
/// format.
fn texted_word(word: &[u8]) -> Option<KindName>
    ensures { result ≡ specs.texted_word word.now }
{
    if is_word(word, b"extract") || is_word(word, b"date_part") {
        Some(KindName::PartByText)
    } else if is_word(word, b"date_trunc") {
        Some(KindName::UnitByText)
    } else if is_word(word, b"add_months") {
        Some(KindName::AddMonths)
    } else if is_word(word, b"to_char") {
        Some(KindName::ToChar)
    } else {
        name_word(word)
    }
}

/// The function of that name on values of kinds, in either case.
pub(crate) fn kind_word(word: &[u8]) -> Option<KindName>
    ensures { result ≡ specs.kind_word word.now }
{
    match (float_word(word), part_word(word)) {
        (Some(function), _) => Some(KindName::Single(KindFunction::OfFloat(function))),
        (None, Some(part)) => Some(KindName::Single(KindFunction::OfPart(part))),
        (None, None) => texted_word(word),
    }
}
