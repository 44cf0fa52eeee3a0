//! The codes of a dictionary's rows: how they are stored, and which values they refer to.
ghost use Rattle.std.specs.Prelude.{◌≡◌, ◌<◌, ◌↔◌, ℕ, All, IsTrue, false, length, slice_index_or};
ghost use Rattle.std.specs.Prelude.{true};
ghost use Rattle.vortex_arrays.specs.Words.{AnswersUnlessMemory, AreCoded, Contains};
ghost use Rattle.vortex_arrays.specs.Words.{AreKnown, codes_in};

use std::alloc::Global;
use std::rc::Rc;
use vortex_columns::VortexResult;

/// A code for each row, as stored.
#[derive(Drop)]
pub(crate) enum Codes {
    /// As passed.
    Owned(Vec<u32>),
    /// Shared among dictionaries, and whether each of their values has a code.
    Shared(Rc<Vec<u32>>, bool),
}

impl Codes {
    /// The codes, borrowed.
    pub(crate) fn codes(&self) -> &[u32]
        ensures { result.now ≡ codes_in self.now }
    {
        match self {
            Codes::Owned(codes) => codes.as_slice(),
            Codes::Shared(codes, _) => codes.as_slice(),
        }
    }

    /// Whether each of that many values has a code: computed here, but stored for shared codes.
    pub(crate) fn all_coded(&self, alloc: Global, count: usize) -> VortexResult<bool>
        requires below { All (λ code. code < count) (codes_in self.now) }
        requires known { AreKnown count self.now }
        ensures { AnswersUnlessMemory result (λ b. IsTrue b ↔ AreCoded count (codes_in self.now)) }
    {
        match self {
            Codes::Owned(codes) => are_coded(alloc, codes, count),
            Codes::Shared(_, all_coded) => Ok(*all_coded),
        }
    }

    /// The same codes, made shared.
    pub(crate) fn share(self, alloc: Global, count: usize) -> VortexResult<Codes>
        requires below { All (λ code. code < count) (codes_in self) }
        requires known { AreKnown count self }
        ensures { AnswersUnlessMemory result
            (λ codes. (codes_in codes ≡ codes_in self) × AreKnown count codes) }
    {
        match self {
            Codes::Owned(codes) => {
                let all_coded = are_coded(alloc, &codes, count)?;
                Ok(Codes::Shared(Rc::new(alloc, codes)?, all_coded))
            }
            Codes::Shared(codes, all_coded) => Ok(Codes::Shared(codes, all_coded)),
        }
    }

    /// The same codes again: a copy, or for shared ones the same.
    pub(crate) fn try_clone(&self, alloc: Global) -> VortexResult<Codes>
        ensures { AnswersUnlessMemory result (λ codes. (codes_in codes ≡ codes_in self.now)
            × ((count : ℕ) → AreKnown count self.now → AreKnown count codes)) }
    {
        match self {
            Codes::Owned(codes) => Ok(Codes::Owned(codes.as_slice().to_vec(alloc)?)),
            Codes::Shared(codes, all_coded) => Ok(Codes::Shared(codes.clone()?, *all_coded)),
        }
    }
}

/// Whether each code is below the count.
pub(crate) fn are_below(codes: &[u32], count: usize) -> bool
    ensures { IsTrue result ↔ All (λ code. code < count) codes.now }
{
    for code in codes {
        if *code as usize >= count {
            return false;
        }
    }
    true
}

/// A mark for each of that many values: whether a code refers to it.
fn marks_of(alloc: Global, codes: &[u32], count: usize) -> VortexResult<Vec<bool>>
    requires { All (λ code. code < count) codes.now }
    ensures { AnswersUnlessMemory result (λ marks. (length marks.items ≡ count)
        × ((k : ℕ) → k < count
        → (slice_index_or marks.items k false ≡ true) ↔ Contains codes.now k)) }
{
    let mut marks = vec![in alloc; false; count]?;
    for code in codes {
        marks[*code as usize] = true;
    }
    Ok(marks)
}

/// Whether each mark is set.
fn are_set(marks: &[bool]) -> bool
    ensures { IsTrue result ↔ All (λ mark. mark ≡ true) marks.now }
{
    for mark in marks {
        if !*mark {
            return false;
        }
    }
    true
}

/// Whether each of that many values has a code.
fn are_coded(alloc: Global, codes: &[u32], count: usize) -> VortexResult<bool>
    requires { All (λ code. code < count) codes.now }
    ensures { AnswersUnlessMemory result (λ b. IsTrue b ↔ AreCoded count codes.now) }
{
    let marks = marks_of(alloc, codes, count)?;
    Ok(are_set(&marks))
}
