//! Texts filtered by their first byte: it excludes most texts that tokens do not match.
ghost use Rattle.std.specs.Prelude.{◌≡◌, ◌<◌, ◌≤◌, ℕ, List, true, length};
ghost use Rattle.std.specs.Prelude.{slice_index, slice_index_or};
ghost use Rattle.vortex_errors.specs.Answers.{AnswersUnlessMemory};
ghost use Rattle.vortex_like.specs.FirstBytes.{admits, AreFirstBytes};

use crate::token::{LikeToken, Looks};
use std::alloc::Global;
use vortex_types::VortexResult;
use vortex_views::{Row, ValueTest, WordsOfBytes};

/// Whether the first of the tokens accepts a text that begins with that character.
fn admits(tokens: &[LikeToken], c: char, case_insensitive: bool) -> bool
    ensures { result ≡ admits case_insensitive tokens.now c }
{
    if tokens.is_empty() {
        return true;
    }
    let mut looks = Looks::new();
    tokens[0].accepts(c, case_insensitive, &mut looks)
}

/// Whether a text that tokens match may begin with that byte. True for a byte that is not ASCII,
/// which may begin any character.
fn may_begin(tokens: &[LikeToken], b: usize, case_insensitive: bool) -> bool
    ensures ascii { b < 128 → result ≡ admits case_insensitive tokens.now b }
    ensures others { 128 ≤ b → result ≡ true }
{
    if b >= 128 {
        return true;
    }
    admits(tokens, char::from(b as u8), case_insensitive)
}

/// The same for each byte.
fn first_bytes(
    alloc: Global,
    tokens: &[LikeToken],
    case_insensitive: bool,
) -> VortexResult<Vec<bool>>
    ensures { AnswersUnlessMemory result
        (λ may. AreFirstBytes case_insensitive tokens.now may.items) }
{
    let mut may = Vec::with_capacity(alloc, 256)?;
    for b in 0..256usize {
        may.push_reserved(may_begin(tokens, b, case_insensitive));
    }
    Ok(may)
}

/// Bytes are below 256.
#[inline(always)]
fn learn_bytes(bytes: &[u8])
    ensures { (i : ℕ) → slice_index bytes.now i < 256 }
{}

/// Whether tokens may match a text, by its first byte; an empty text counts as one with a zero
/// byte.
#[derive(Drop)]
pub(crate) struct FirstByte {
    may: Vec<bool>,
    ghost count: { length may.items ≡ 256 },
}

impl FirstByte {
    pub(crate) fn new(
        alloc: Global,
        tokens: &[LikeToken],
        case_insensitive: bool,
    ) -> VortexResult<FirstByte>
        ensures { AnswersUnlessMemory result
            (λ t. AreFirstBytes case_insensitive tokens.now t.may.items) }
    {
        let may = first_bytes(alloc, tokens, case_insensitive)?;
        Ok(FirstByte { may })
    }
}

impl ValueTest for FirstByte {
    ghost can_read = { λ t bytes. Unit {0} };

    ghost said = { λ t bytes. slice_index_or t.may.items (slice_index bytes 0) true };

    #[inline(always)]
    fn passes(&self, row: &Row<'_>) -> bool {
        learn_bytes(row.value_bytes());
        let first = row.order_prefix() >> 24;
        self.may.as_slice()[first as usize]
    }
}
