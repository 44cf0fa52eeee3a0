//! The text of a float.
ghost use Rattle.std.specs.Prelude.{◌≡◌, ◌≤◌, ◌<◌, ◌∷◌, ◌++◌, IfOk, MatchOption, Some, None, ℕ, List, Option};
ghost use Rattle.vortex_float_texts.specs.FloatTexts as specs;
ghost use Rattle.vortex_float_texts.specs.Layout.{decimal_text};
ghost use Rattle.vortex_float_texts.specs.Scaled as scaled;
ghost use Rattle.vortex_float_texts.specs.Widths.{infinity};

use crate::candidates::{nearest, other};
use crate::layout::put_decimal;
use crate::scaled::{exponent, halves_at, power_at, significand};
use crate::width::Width;
use std::alloc::{AllocError, Global};
use vortex_logical::cells::read_cell;

/// Whether the text is read as the stored float.
fn reads_as(width: Width, text: &[u8], number: i64) -> bool
    ensures { result ≡ specs.reads_as width text.now number }
{
    match read_cell(width.kind(), text) {
        Some(read) => read == number,
        None => false,
    }
}

/// The text, if it is read as the stored float.
fn read_back(width: Width, number: i64, text: Vec<u8>) -> Option<Vec<u8>>
    ensures { MatchOption result (specs.read_back width number text.items ≡ None)
        (λ out. specs.read_back width number text.items ≡ Some out.items) }
{
    if reads_as(width, &text, number) {
        Some(text)
    } else {
        None
    }
}

fn signed(alloc: Global, number: i64) -> Result<Vec<u8>, AllocError>
    ensures { IfOk result (λ out. (text : List ℕ)
        → out.items ++ text ≡ specs.with_sign number text) }
{
    let mut out = Vec::new(alloc);
    if number < 0 {
        out.push(b'-')?;
    }
    Ok(out)
}

fn word_text(
    alloc: Global,
    width: Width,
    number: i64,
    word: &[u8],
) -> Result<Option<Vec<u8>>, AllocError>
    ensures { IfOk result (λ text.
        MatchOption text (specs.word_text width number word.now ≡ None)
        (λ out. specs.word_text width number word.now ≡ Some out.items)) }
{
    let mut out = signed(alloc, number)?;
    out.extend_from_slice(word)?;
    Ok(read_back(width, number, out))
}

/// The text of a decimal next to the float, if it is read back.
fn candidate(
    alloc: Global,
    width: Width,
    number: i64,
    decimal: u128,
    power: u64,
) -> Result<Option<Vec<u8>>, AllocError>
    requires { power ≤ 1000 }
    ensures { IfOk result (λ text.
        MatchOption text (specs.candidate width number decimal power ≡ None)
        (λ out. specs.candidate width number decimal power ≡ Some out.items)) }
{
    let mut out = signed(alloc, number)?;
    put_decimal(width, decimal, power, &mut out)?;
    Ok(read_back(width, number, out))
}

/// The text with so many digits left out, if it is read back.
fn candidate_at(
    alloc: Global,
    width: Width,
    number: i64,
    halves: u128,
    power: u64,
    place: u32,
) -> Result<Option<Vec<u8>>, AllocError>
    requires { (power ≤ 700) × (place ≤ 18) }
    ensures { IfOk result (λ text.
        MatchOption text (specs.candidate_at width number halves power place ≡ None)
        (λ out. specs.candidate_at width number halves power place ≡ Some out.items)) }
{
    let at = power + place as u64;
    match candidate(alloc, width, number, nearest(halves, place), at)? {
        Some(text) => Ok(Some(text)),
        None => candidate(alloc, width, number, other(halves, place), at),
    }
}

/// The first text that is read back, from so many digits that are left out down to one.
fn first_from(
    alloc: Global,
    width: Width,
    number: i64,
    halves: u128,
    power: u64,
    places: u32,
) -> Result<Option<Vec<u8>>, AllocError>
    requires { (power ≤ 700) × (places ≤ 18) }
    ensures { IfOk result (λ text.
        MatchOption text (specs.first_from width number halves power places ≡ None)
        (λ out. specs.first_from width number halves power places ≡ Some out.items)) }
{
    let mut place = places;
    while place > 0 {
        match candidate_at(alloc, width, number, halves, power, place)? {
            Some(text) => return Ok(Some(text)),
            None => place -= 1,
        }
    }
    Ok(None)
}

fn digits_text(
    alloc: Global,
    width: Width,
    number: i64,
    size: u64,
) -> Result<Option<Vec<u8>>, AllocError>
    requires { size < infinity width }
    ensures { IfOk result (λ text.
        MatchOption text (specs.digits_text width number size ≡ None)
        (λ out. specs.digits_text width number size ≡ Some out.items)) }
{
    let exponent = exponent(width, size);
    let halves = halves_at(significand(width, size), exponent);
    first_from(
        alloc,
        width,
        number,
        halves,
        power_at(exponent),
        width.places(),
    )
}

/// The text of the float that an integer stands for, with the fewest digits that are read back as it:
/// of the decimals next to the float the first such, and of two as short the nearer; `NaN`, `inf` or
/// `-inf`, and `0.0`. None of an integer that stands for no float. Refused only for want of memory.
pub fn float_text(alloc: Global, width: Width, number: i64) -> Result<Option<Vec<u8>>, AllocError>
    ensures { IfOk result (λ text. MatchOption text (specs.float_text width number ≡ None)
        (λ out. specs.float_text width number ≡ Some out.items)) }
{
    let size = number.unsigned_abs();
    if size == 0 {
        word_text(alloc, width, number, b"0.0")
    } else if size < width.infinity() {
        digits_text(alloc, width, number, size)
    } else if size == width.infinity() {
        word_text(alloc, width, number, b"inf")
    } else {
        word_text(alloc, width, number, b"NaN")
    }
}
