//! The bytes of options.
ghost use Rattle.std.specs.Prelude.{[], ◌∷◌, Some};
ghost use Rattle.vortex_shipped.specs.Words.{AnswersUnlessMemory, WritesBytes};

use std::alloc::Global;
use vortex_columns::VortexResult;

/// One byte.
pub(crate) fn write_byte(alloc: Global, byte: u8) -> VortexResult<Option<Vec<u8>>>
    ensures { AnswersUnlessMemory result (WritesBytes (Some (byte ∷ []))) }
{
    let mut bytes = Vec::new(alloc);
    bytes.push(byte)?;
    Ok(Some(bytes))
}
