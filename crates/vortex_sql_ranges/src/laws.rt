//! The laws of the ranges. The functions are empty: their contracts are the laws, proved.
ghost use Rattle.vortex_sql_ranges.specs.DatesSound.{AdmitDates};
ghost use Rattle.vortex_sql_ranges.specs.Sound.{AdmitSql};

/// The range of a call admits its outcome, whatever arguments the ranges of these admit: of IN, IS
/// DISTINCT FROM, IS TRUE and the like, `coalesce`; and of a widening cast, whose range is that of
/// its argument.
#[tactic(auto, using(crate::proofs::Admitted::sql_admitted))]
pub fn calls_are_admitted()
    ensures { AdmitSql }
{}

/// So do the ranges of years and seconds of dates and timestamps, of their truncations, and of casts
/// between them.
#[tactic(auto, using(crate::proofs::DatesAdmitted::dates_admitted))]
pub fn dates_are_admitted()
    ensures { AdmitDates }
{}
