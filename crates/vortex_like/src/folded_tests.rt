//! Case-insensitive tests of ASCII texts, by their bytes, one for each form with folding.
ghost use Rattle.std.specs.Prelude.{◌≡◌, ◌↔◌, ℕ, List, IsTrue, length, string_bytes};
ghost use Rattle.std.specs.Str.{chars};
ghost use Rattle.vortex_like.specs.Words.{AnswersUnlessMemory, AreAsciiFolds, folded};
ghost use Rattle.vortex_like.specs.Words.{folded_bytes, folds_alike, front_folds_alike};
ghost use Rattle.vortex_like.specs.Words.{end_folds_alike};

use crate::characters::split_first;
use crate::text_tests::TextTest;
use std::alloc::Global;
use std::marker::Model;
use unicode::case::simple_fold;
use vortex_types::VortexResult;

/// The folding of each of the 128 characters of ASCII.
fn ascii_folds(alloc: Global) -> VortexResult<Vec<char>>
    ensures { AnswersUnlessMemory result (λ folds. AreAsciiFolds folds.items) }
{
    let mut folds = Vec::with_capacity(alloc, 128)?;
    for c in 0..128u8 {
        folds.push_reserved(simple_fold(char::from(c)));
    }
    Ok(folds)
}

/// The folding of each character of a text.
fn folded_characters(alloc: Global, text: &str) -> VortexResult<Vec<char>>
    ensures { AnswersUnlessMemory result (λ own. own.items ≡ folded (chars text.now)) }
{
    let mut own = Vec::new(alloc);
    let mut rest = text;
    while let Some((c, behind)) = split_first(rest) {
        own.push(simple_fold(c))?;
        rest = behind;
    }
    Ok(own)
}

/// Whether ASCII characters fold to these, one by one. Bytes that are not ASCII are read as other
/// characters, so any bytes are allowed.
fn fold_to(folds: &[char], bytes: &[u8], own: &[char]) -> bool
    requires { AreAsciiFolds folds.now }
    ensures { IsTrue result ↔ (folded_bytes bytes.now ≡ own.now) }
{
    if bytes.len() != own.len() {
        return false;
    }
    for i in 0..bytes.len() {
        if folds[usize::from(bytes[i] % 128)] != own[i] {
            return false;
        }
    }
    true
}

/// A text to be compared with ASCII texts, ignoring case.
#[derive(Drop)]
pub(crate) struct FoldedText {
    text: String,
    own: Vec<char>,
    folds: Vec<char>,
}

impl Model for FoldedText {
    ghost use Rattle.std.specs.Prelude.{◌≡◌, ℕ, List, string_bytes};
    ghost use Rattle.std.specs.Str.{chars};
    ghost use Rattle.vortex_like.specs.AsciiFolds.{AreAsciiFolds, folded};

    ghost Value = { List ℕ };

    ghost view = { λ t. chars (string_bytes t.text) };

    ghost invariant = { λ t. (t.own.items ≡ folded (chars (string_bytes t.text)))
        × AreAsciiFolds t.folds.items };
}

impl FoldedText {
    pub(crate) fn new(alloc: Global, text: &str) -> VortexResult<FoldedText>
        ensures { AnswersUnlessMemory result (λ t. t ≡ chars text.now) }
    {
        let own = folded_characters(alloc, text)?;
        let folds = ascii_folds(alloc)?;
        let text = String::from_str(alloc, text)?;
        Ok(FoldedText { text, own, folds })
    }

    /// How many characters there are.
    pub(crate) fn len(&self) -> usize
        ensures { result ≡ length self.now }
    {
        self.own.len()
    }

    /// Whether bytes have the same foldings.
    pub(crate) fn equals(&self, bytes: &[u8]) -> bool
        ensures { result ≡ folds_alike self.now bytes.now }
    {
        fold_to(self.folds.as_slice(), bytes, self.own.as_slice())
    }
}

/// Whether an ASCII text is this one, ignoring case.
#[derive(Drop)]
pub(crate) struct FoldedWholeTest {
    pub(crate) text: FoldedText,
}

impl TextTest for FoldedWholeTest {
    ghost can_read = { λ t bytes. Unit {0} };

    ghost said = { λ t bytes. folds_alike t.text bytes };

    fn passes(&self, haystack: &[u8]) -> bool {
        self.text.equals(haystack)
    }
}

/// Whether an ASCII text begins with this one, ignoring case.
#[derive(Drop)]
pub(crate) struct FoldedFrontTest {
    pub(crate) text: FoldedText,
}

impl TextTest for FoldedFrontTest {
    ghost can_read = { λ t bytes. Unit {0} };

    ghost said = { λ t bytes. front_folds_alike t.text bytes };

    fn passes(&self, haystack: &[u8]) -> bool {
        let len = self.text.len();
        if haystack.len() < len {
            return false;
        }
        self.text.equals(&haystack[..len])
    }
}

/// Whether an ASCII text ends with this one, ignoring case.
#[derive(Drop)]
pub(crate) struct FoldedEndTest {
    pub(crate) text: FoldedText,
}

impl TextTest for FoldedEndTest {
    ghost can_read = { λ t bytes. Unit {0} };

    ghost said = { λ t bytes. end_folds_alike t.text bytes };

    fn passes(&self, haystack: &[u8]) -> bool {
        let len = self.text.len();
        if haystack.len() < len {
            return false;
        }
        self.text.equals(&haystack[haystack.len() - len..])
    }
}
