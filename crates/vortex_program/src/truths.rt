//! Whether each row of a column has one truth value.
ghost use Rattle.std.specs.Prelude.{◌≡◌, ◌<◌, ◌≤◌, ◌+◌, ◌*◌, ℕ, IsTrue, length};
ghost use Rattle.vortex_columns.specs.ValidRows.{valid_view};
ghost use Rattle.vortex_bits.specs.Bits.{bit};
ghost use Rattle.vortex_types.specs.Values.{truth};
ghost use Rattle.vortex_program.specs.Deciding.{AllValid, AreAll, AreAllBetween, IsTruth};

use vortex_columns::{BitBuffer, Column, Scalar, ValidRows};

/// How many rows a word has.
const WORD: usize = 64;

/// A word in which each bit is that truth value.
fn word_of(truth: bool) -> u64
    ensures { (j : ℕ) → j < 64 → bit result j ≡ truth }
{
    if truth { u64::MAX } else { 0 }
}

/// Whether each bit of the first words is that one truth value.
fn words_are(bits: &BitBuffer, words: usize, truth: bool) -> bool
    requires { 64 * words ≤ length bits.now }
    ensures { IsTrue result → AreAllBetween truth 0 (64 * words) bits.now }
{
    let expected = word_of(truth);
    let view = bits.slice(0, bits.len());
    for k in 0..words {
        if view.word(k) != expected {
            return false;
        }
    }
    true
}

/// Whether each bit from that one on is that truth value.
fn rest_is(bits: &BitBuffer, from: usize, truth: bool) -> bool
    ensures { IsTrue result → AreAllBetween truth from (length bits.now) bits.now }
{
    for i in from..bits.len() {
        if bits.value(i) != truth {
            return false;
        }
    }
    true
}

/// Whether each bit is that truth value. Reads 64 at a time, and no more than up to the first word
/// with another.
fn bits_are(bits: &BitBuffer, truth: bool) -> bool
    ensures { IsTrue result → AreAll truth bits.now }
{
    let words = bits.len() / WORD;
    if !words_are(bits, words, truth) {
        return false;
    }
    rest_is(bits, WORD * words, truth)
}

/// Whether no row is null.
fn are_valid(valid: &ValidRows<'_>) -> bool
    ensures { IsTrue result → AllValid (valid_view valid.now) }
{
    match valid {
        ValidRows::Every => true,
        ValidRows::No => false,
        ValidRows::Listed(bits) => bits_are(bits, true),
    }
}

/// Whether a scalar is that truth value.
fn is_truth_scalar(scalar: &Scalar, wanted: bool) -> bool
    ensures { IsTrue result → scalar.now.value ≡ truth wanted }
{
    match scalar.as_bool_opt() {
        Some(value) => value == wanted,
        None => false,
    }
}

/// Whether each row is known to be that truth value: none is null. Takes no memory.
pub(crate) fn is_truth(column: &Column, wanted: bool) -> bool
    ensures { IsTrue result → IsTruth wanted column.now }
{
    if let Some(scalar) = column.as_constant() {
        return is_truth_scalar(scalar, wanted);
    }
    match column.bits() {
        Some(bits) => {
            if !are_valid(&column.valid_rows()) {
                return false;
            }
            bits_are(bits, wanted)
        }
        None => false,
    }
}
