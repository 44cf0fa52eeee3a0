//! Microseconds since 1970-01-01T00:00:00, from texts of ISO 8601 and back.
ghost use Rattle.std.specs.Prelude.{◌≡◌, ◌≤◌, ◌+◌, ◌*◌, ◌<◌, ◌^◌, ℕ, ℤ, IfSome, IfOk, Some, None};
ghost use Rattle.std.specs.Prelude.{pos, neg_ℤ};
ghost use Rattle.std.specs.Prelude.{◌+ℤ◌, ◌*ℤ◌, ◌++◌, List, [], ◌∷◌};
ghost use Rattle.std.specs.Bool.{MatchBool};
ghost use Rattle.std.specs.Option.{option_map};
ghost use Rattle.std.specs.Int.{int_div_euclid, int_rem_euclid};
ghost use Rattle.jiff_core.specs.Calendar.{IsWithin, IsEpochDay};
ghost use Rattle.vortex_logical.specs.TimestampTexts.{signed_offset, offset_of_text, fraction_from};
ghost use Rattle.vortex_logical.specs.TimestampTexts.{fraction_of_text, zoned, after_seconds};
ghost use Rattle.vortex_logical.specs.TimestampTexts.{after_minutes, clock_seconds, time_of_text};
ghost use Rattle.vortex_logical.specs.TimestampTexts.{in_years};
ghost use Rattle.vortex_logical.specs.TimestampTexts.{timestamp_of_text, fraction_text, time_text};
ghost use Rattle.vortex_logical.specs.TimestampTexts.{instant_at, IsTimed, IsTimestampText};
ghost use Rattle.vortex_logical.specs.TimestampTexts.{TimestampsAreReadBack};
ghost use Rattle.vortex_logical.specs.Written.{Appends};

use crate::dates::{push_padded, read_date, two_digits, write_date};
use crate::decimals::{power_u64, write_fraction};
use std::alloc::AllocError;

/// The minutes that a zone is ahead, at most a day.
fn signed_offset(sign: u8, hours: u8, minutes: u8) -> Option<i64>
    ensures value { result ≡ signed_offset sign (Some hours) (Some minutes) }
    ensures small { IfSome result (IsWithin 1440) }
{
    if hours > 23 || minutes > 59 {
        return None;
    }
    let ahead = hours as i64 * 60 + minutes as i64;
    match sign {
        b'+' => Some(ahead),
        b'-' => Some(-ahead),
        _ => None,
    }
}

/// The same of the text behind a time: nothing, `Z`, `+hh`, `+hhmm` or `+hh:mm`.
fn read_offset(text: &[u8]) -> Option<i64>
    ensures value { result ≡ offset_of_text text.now }
    ensures small { IfSome result (IsWithin 1440) }
{
    match text {
        [] | [b'Z'] => Some(0),
        [s, h, i] => signed_offset(*s, two_digits(*h, *i)?, 0),
        [s, h, i, m, n] | [s, h, i, b':', m, n] => {
            signed_offset(*s, two_digits(*h, *i)?, two_digits(*m, *n)?)
        }
        _ => None,
    }
}

fn zoned(micros: u64, text: &[u8]) -> Option<i64>
    requires { micros < 86400000000 }
    ensures value { result ≡ zoned micros text.now }
    ensures small { IfSome result (IsWithin 172800000000) }
{
    Some(micros as i64 - read_offset(text)? * 60000000)
}

/// The number with `left` more digits, all 0.
fn scaled(number: u64, left: u32) -> u64
    requires places { left ≤ 6 }
    requires small { number * 10 ^ left < 1000000 }
    ensures { result ≡ number * 10 ^ left }
{
    number * power_u64(left)
}

/// The millionths that up to six digits write, and what follows them.
fn fraction_from(text: &[u8]) -> Option<(u64, &[u8])>
    ensures value { option_map (λ p. (p.0, p.1.now)) result ≡ fraction_from 6 0 text.now }
    ensures small { IfSome result (λ p. p.0 < 1000000) }
{
    let mut number = 0u64;
    let mut left = 6u32;
    for i in 0..text.len() {
        let byte = text[i];
        if !byte.is_ascii_digit() {
            return Some((scaled(number, left), &text[i..]));
        }
        if left == 0 {
            return None;
        }
        left -= 1;
        number = number * 10 + (byte - b'0') as u64;
    }
    Some((scaled(number, left), &text[text.len()..]))
}

/// The same of at least one digit.
fn read_fraction(text: &[u8]) -> Option<(u64, &[u8])>
    ensures value { option_map (λ p. (p.0, p.1.now)) result ≡ fraction_of_text text.now }
    ensures small { IfSome result (λ p. p.0 < 1000000) }
{
    match text {
        [byte, ..] if byte.is_ascii_digit() => fraction_from(text),
        _ => None,
    }
}

/// What follows the seconds of a time.
fn after_seconds(seconds: u64, text: &[u8]) -> Option<i64>
    requires { seconds < 86400 }
    ensures value { result ≡ after_seconds seconds text.now }
    ensures small { IfSome result (IsWithin 172800000000) }
{
    match text {
        [b'.', digits @ ..] => {
            let (micros, rest) = read_fraction(digits)?;
            zoned(seconds * 1000000 + micros, rest)
        }
        _ => zoned(seconds * 1000000, text),
    }
}

fn clock_seconds(hours: u8, minutes: u8, seconds: u8) -> Option<u64>
    ensures value { result ≡ clock_seconds (Some hours) (Some minutes) (Some seconds) }
    ensures small { IfSome result (λ s. s < 86400) }
{
    if hours <= 23 && minutes <= 59 && seconds <= 59 {
        Some(hours as u64 * 3600 + minutes as u64 * 60 + seconds as u64)
    } else {
        None
    }
}

/// What follows the minutes of a time: seconds, or none.
fn after_minutes(hours: u8, minutes: u8, text: &[u8]) -> Option<i64>
    ensures value { result ≡ after_minutes hours minutes text.now }
    ensures small { IfSome result (IsWithin 172800000000) }
{
    match text {
        [b':', s, u, rest @ ..] => {
            after_seconds(clock_seconds(hours, minutes, two_digits(*s, *u)?)?, rest)
        }
        _ => zoned(clock_seconds(hours, minutes, 0)? * 1000000, text),
    }
}

/// What follows the date, in microseconds from its first one.
fn read_time(text: &[u8]) -> Option<i64>
    ensures value { result ≡ time_of_text text.now }
    ensures small { IfSome result (IsWithin 172800000000) }
{
    match text {
        [b'T' | b' ', h, i, b':', m, n, rest @ ..] => {
            after_minutes(two_digits(*h, *i)?, two_digits(*m, *n)?, rest)
        }
        _ => None,
    }
}

#[tactic(auto, using(crate::proofs::DatedDays::instant_timed))]
fn in_years(micros: i64) -> Option<i64>
    ensures value { result ≡ in_years micros }
    ensures dated { IfSome result IsTimed }
{
    if -62167219200000000 <= micros && micros <= 253402300799999999 {
        Some(micros)
    } else {
        None
    }
}

fn instant(day: i32, time: i64) -> i64
    requires day { IsEpochDay day }
    requires time { IsWithin 172800000000 time }
    ensures { result ≡ day *ℤ pos 86400000000 +ℤ time }
{
    day as i64 * 86400000000 + time
}

fn instant_in_years(day: i32, time: i64) -> Option<i64>
    requires day { IsEpochDay day }
    requires time { IsWithin 172800000000 time }
    ensures value { result ≡ instant_at (Some day) (Some time) }
    ensures dated { IfSome result IsTimed }
{
    in_years(instant(day, time))
}

/// The instant of a text: `YYYY-MM-DD`, `T` or a blank, `HH:MM:SS`, or that with a point and one to
/// six digits, and then nothing, `Z`, or the offset of a zone, as `+05:30`, `+0530` or `+05`, which
/// is read to UTC. None of any other text, and of an instant outside the years 0000 to 9999.
pub fn read_timestamp(text: &[u8]) -> Option<i64>
    ensures value { result ≡ timestamp_of_text text.now }
    ensures dated { IfSome result IsTimed }
{
    if text.len() < 10 {
        return None;
    }
    let (date, time) = text.split_at(10);
    let day = read_date(date)?;
    instant_in_years(day, read_time(time)?)
}

fn day_of(micros: i64) -> i32
    ensures { result ≡ int_div_euclid micros (pos 86400000000) }
{
    micros.div_euclid(86400000000) as i32
}

fn time_of(micros: i64) -> u64
    ensures value { pos result ≡ int_rem_euclid micros (pos 86400000000) }
    ensures small { result < 86400000000 }
{
    micros.rem_euclid(86400000000) as u64
}

fn push_fraction(micros: u64, out: &mut Vec<u8>) -> Result<(), AllocError>
    requires { micros < 10 ^ 6 }
    ensures { IfOk result (λ _. out.new.items ≡ out.old.items ++ fraction_text micros) }
{
    if micros == 0 {
        return Ok(());
    }
    out.push(b'.')?;
    write_fraction(6, micros, out)?;
    Ok(())
}

/// Appends the text of a time of the day, in microseconds.
fn push_time(time: u64, out: &mut Vec<u8>) -> Result<(), AllocError>
    requires { time < 86400000000 }
    ensures { IfOk result (λ _. out.new.items ≡ out.old.items ++ time_text time) }
{
    out.push(b'T')?;
    push_padded((time / 3600000000) as u8, out)?;
    out.push(b':')?;
    push_padded((time / 60000000 % 60) as u8, out)?;
    out.push(b':')?;
    push_padded((time / 1000000 % 60) as u8, out)?;
    push_fraction(time % 1000000, out)?;
    Ok(())
}

/// Appends the text of an instant as `2024-02-29T12:34:56`, or with six digits after the point if
/// some is not 0; false, and nothing, for an instant outside the years 0000 to 9999. Refused only
/// for want of memory, and then part of the text may stand.
pub fn write_timestamp(micros: i64, out: &mut Vec<u8>) -> Result<bool, AllocError>
    ensures { IfOk result (λ written. MatchBool written
        (Appends (IsTimestampText micros) out.old.items out.new.items)
        (¬ (IsTimed micros) × (out.new.items ≡ out.old.items))) }
{
    if !write_date(day_of(micros), out)? {
        return Ok(false);
    }
    push_time(time_of(micros), out)?;
    Ok(true)
}

/// What is written of an instant is read back.
pub fn timestamps_are_read_back()
    ensures { TimestampsAreReadBack }
{}
