//! Views of separate texts and byte strings.
ghost use Rattle.std.specs.Prelude.{◌≡◌, List, ℕ, map, string_bytes};
ghost use Rattle.vortex_errors.specs.Answers.{AnswersWhere};
ghost use Rattle.vortex_errors.specs.declared.error.VortexError.TheVariants.{InvalidColumn};
ghost use Rattle.vortex_views.specs.Collected.{HaveRoom};

use crate::builder::ViewsBuilder;
use crate::values::BinaryViews;
use std::alloc::Global;
use vortex_errors::VortexResult;

/// A text or a byte string that can be borrowed as bytes.
pub trait ByteString: Drop {
    ghost bytes: { Self → List ℕ };

    /// The bytes, borrowed.
    fn borrow_bytes(&self) -> &[u8]
        ensures { result.now ≡ bytes self.now };
}

impl ByteString for String {
    ghost bytes = { string_bytes };

    fn borrow_bytes(&self) -> &[u8] {
        self.as_bytes()
    }
}

impl ByteString for &str {
    ghost bytes = { λ s. s.now };

    fn borrow_bytes(&self) -> &[u8] {
        self.as_bytes()
    }
}

impl ByteString for Vec<u8> {
    ghost bytes = { λ b. b.items };

    fn borrow_bytes(&self) -> &[u8] {
        self.as_slice()
    }
}

/// The views of values. E12 exactly where a value is longer than 4,294,967,295 bytes, or the longer
/// ones take more than 4,294,967,296 buffers of that many bytes.
pub fn collect_views<T: ByteString>(alloc: Global, values: &[T]) -> VortexResult<BinaryViews>
    ensures { AnswersWhere result
        (HaveRoom (map T.bytes values.now))
        (λ v. v ≡ map T.bytes values.now)
        InvalidColumn }
{
    let mut builder = ViewsBuilder::with_capacity(alloc, values.len())?;
    for value in values {
        builder.push(value.borrow_bytes())?;
    }
    builder.finish()
}
