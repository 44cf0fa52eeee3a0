//! The calendar of this crate and that of `jiff_core`.
ghost use Rattle.vortex_sql_dates.specs.CalendarLaws.{DatesAreCounted};

/// In the years -9999 to 9999, year, month and day of a number are those of the date that has it.
pub fn dates_are_counted()
    ensures { DatesAreCounted }
{}
