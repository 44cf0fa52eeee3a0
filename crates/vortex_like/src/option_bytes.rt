//! The bytes that options are written as and read from. No other byte string is read.
ghost use Rattle.std.specs.Prelude.{◌≡◌, ◌+◌, ◌∷◌, ◌++◌, []};
ghost use Rattle.vortex_like.specs.Words.{AnswersUnlessMemory};
ghost use Rattle.vortex_like.specs.OptionBytes.{like_bytes, like_read, with_bits, escape_read};
ghost use Rattle.vortex_errors.specs.OptionBytes.{two_bits};
ghost use Rattle.std.specs.Int.{w32, to_be_bytes};

use crate::options::LikeOptions;
use std::alloc::Global;
use vortex_types::VortexResult;

/// The options of two bits: bit 0 if negated, bit 1 if case insensitive. None for a greater number.
fn with_bits(bits: u8, escape: Option<char>) -> Option<LikeOptions>
    ensures { result ≡ with_bits bits escape }
{
    let (negated, case_insensitive) = match bits {
        0 => (false, false),
        1 => (true, false),
        2 => (false, true),
        3 => (true, true),
        _ => return None,
    };
    Some(LikeOptions {
        negated,
        case_insensitive,
        escape,
    })
}

/// The escape of four bytes, big-endian: a character, unless it is the backslash.
fn escape_of(number: [u8; 4]) -> Option<char>
    ensures { result ≡ escape_read number }
{
    match char::from_u32(u32::from_be_bytes(number)) {
        Some('\\') => None,
        escape => escape,
    }
}

/// One byte.
fn one_byte(alloc: Global, byte: u8) -> VortexResult<Vec<u8>>
    ensures { AnswersUnlessMemory result (λ bytes. bytes.items ≡ byte ∷ []) }
{
    let mut bytes = Vec::new(alloc);
    bytes.push(byte)?;
    Ok(bytes)
}

/// A byte, and a character after it as four bytes.
fn byte_and_character(alloc: Global, byte: u8, c: char) -> VortexResult<Vec<u8>>
    ensures { AnswersUnlessMemory result (λ bytes. bytes.items ≡ byte ∷ to_be_bytes w32 c) }
{
    let mut bytes = Vec::new(alloc);
    bytes.push(byte)?;
    bytes.extend_from_slice(&u32::from(c).to_be_bytes())?;
    Ok(bytes)
}

impl LikeOptions {
    /// Bit 0 if negated, bit 1 if case insensitive.
    fn bits(&self) -> u8
        ensures { result ≡ two_bits self.now.negated self.now.case_insensitive }
    {
        match (self.negated, self.case_insensitive) {
            (false, false) => 0,
            (true, false) => 1,
            (false, true) => 2,
            (true, true) => 3,
        }
    }

    /// The bytes of the options: one byte, bit 0 if negated, bit 1 if case insensitive. An escape
    /// other than the backslash sets bit 2 and follows as four bytes, big-endian; no escape sets
    /// bit 3. Fails only where memory runs out (E9).
    pub fn to_bytes(&self, alloc: Global) -> VortexResult<Vec<u8>>
        ensures { AnswersUnlessMemory result (λ bytes. bytes.items ≡ like_bytes self.now) }
    {
        let bits = self.bits();
        match self.escape {
            Some('\\') => one_byte(alloc, bits),
            Some(c) => byte_and_character(alloc, bits + 4, c),
            None => one_byte(alloc, bits + 8),
        }
    }

    /// The options with these bytes, if there are any.
    pub fn from_bytes(bytes: &[u8]) -> Option<LikeOptions>
        ensures { result ≡ like_read bytes.now }
    {
        match bytes {
            [bits] if *bits < 8 => with_bits(*bits, Some('\\')),
            [bits] => with_bits(*bits - 8, None),
            [bits, a, b, c, d] if *bits >= 4 => {
                let escape = escape_of([*a, *b, *c, *d])?;
                with_bits(*bits - 4, Some(escape))
            }
            _ => None,
        }
    }
}
