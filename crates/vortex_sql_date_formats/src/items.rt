//! The items that formats of dates and timestamps are made of.

/// A number of a date or of a time.
#[derive(Clone, Copy, Debug, PartialEq, Eq)]
pub enum FormatPart {
    /// `YYYY`: the year, four digits.
    Year,
    /// `YY`: the last two digits of the year.
    ShortYear,
    /// `IYYY`: the year of the ISO week, four digits.
    IsoYear,
    /// `Q`: the quarter.
    Quarter,
    /// `MM`: the month, two digits.
    Month,
    /// `IW`: the week of ISO 8601, two digits.
    IsoWeek,
    /// `DD`: the day of the month, two digits.
    Day,
    /// `DDD`: the day of the year, three digits.
    DayOfYear,
    /// `D`: the day of the week, from 1 for Sunday to 7.
    DayOfWeek,
    /// `ID`: the day of the week, from 1 for Monday to 7.
    IsoDayOfWeek,
    /// `HH24`: the hour from 0 to 23, two digits.
    Hour,
    /// `HH12`, `HH`: the hour from 1 to 12, two digits.
    HalfDayHour,
    /// `MI`: the minute, two digits.
    Minute,
    /// `SS`: the second, two digits.
    Second,
    /// `MS`: the thousandths of the second, three digits.
    Millisecond,
    /// `US`: the millionths of the second, six digits.
    Microsecond,
}

/// The letters that a name is written in.
#[derive(Clone, Copy, Debug, PartialEq, Eq)]
pub enum Letters {
    /// As the name is, as in `Feb`.
    Title,
    /// As in `FEB`.
    Capital,
    /// As in `feb`.
    Small,
}

/// An item of a format.
#[derive(Clone, Copy, Debug, PartialEq, Eq)]
pub enum FormatItem {
    /// A number with all its digits.
    Part(FormatPart),
    /// `FM` and a number: without zeros at the beginning.
    BarePart(FormatPart),
    /// `Month`: the month's English name, with blanks after it up to nine letters.
    Month(Letters),
    /// `FMMonth`: the same without blanks.
    BareMonth(Letters),
    /// `Mon`: its first three letters.
    ShortMonth(Letters),
    /// `Day`: the English name of the day of the week, with blanks after it up to nine letters.
    Weekday(Letters),
    /// `FMDay`: the same without blanks.
    BareWeekday(Letters),
    /// `Dy`: its first three letters.
    ShortWeekday(Letters),
    /// `AM`, `PM`: the half of the day.
    HalfDay(Letters),
    /// A byte that stands for itself, in double quotes or not.
    Literal(u8),
    /// What is no item that is known.
    Unknown,
}
