//! Which texts contain a needle: texts are concatenated, so that one search covers many.
ghost use Rattle.std.specs.Prelude.{◌≡◌, ◌≤◌, ◌<◌, ◌+◌, ◌-◌, ◌↔◌, ℕ, length, slice_index, map};
ghost use Rattle.std.specs.Prelude.{IsTrue};
ghost use Rattle.std.specs.Vec.{vec_len, vec_capacity};
ghost use Rattle.memchr.specs.Find.{OccursAt};
ghost use Rattle.vortex_like.specs.Words.{AnswersUnlessMemory, AreTold, texts_of, text_at};
ghost use Rattle.vortex_like.specs.SmallLetters.{cased};
ghost use Rattle.vortex_like.specs.Words.{IsBatch, ArePlaces, IsNext, IsHeldAt, AreHeld};

use crate::text_tests::InsideTest;
use crate::texts::{RowTexts, Texts};
use std::alloc::Global;
use vortex_columns::VortexResult;

/// The most bytes that are gathered at once.
const ROOM: usize = 65_536;

/// The most texts that are gathered at once.
const MOST: usize = 4_096;

/// Gathers the texts of a column from row `first` on, as many as fit, at least one. Replaces the
/// gathered ones.
fn gather(
    texts: &Texts<'_>,
    first: usize,
    bytes: &mut Vec<u8>,
    places: &mut Vec<usize>,
) -> VortexResult<()>
    requires { first < length (texts_of texts.now) }
    ensures { AnswersUnlessMemory result
        (λ _. IsBatch (texts_of texts.now) first bytes.new.items places.new.items) }
{
    bytes.clear();
    places.clear();
    places.push(0)?;
    let most = first + MOST.min(texts.len() - first);
    for end in first..most {
        if end > first && texts.text_len(end) > ROOM.saturating_sub(bytes.len()) {
            return Ok(());
        }
        texts.append(end, bytes)?;
        places.push(bytes.len())?;
    }
    Ok(())
}

/// A needle to be searched in gathered texts; each text is between two consecutive offsets.
#[derive(Clone, Copy)]
struct Search<'a> {
    bytes: &'a [u8],
    places: &'a [usize],
    test: &'a InsideTest,
}

impl Search<'_> {
    /// How many texts there are.
    fn len(&self) -> usize
        requires { 0 < length self.now.places.now }
        ensures { result + 1 ≡ length self.now.places.now }
    {
        self.places.len() - 1
    }

    /// Where the needle is next from an offset on; past the bytes where there is none.
    fn next_place(&self, from: usize) -> usize
        requires { from ≤ length self.now.bytes.now }
        ensures { IsNext self.now.bytes.now self.now.test.now.finder from result }
    {
        match self.test.find(&self.bytes[from..]) {
            Some(at) => from + at,
            None => self.bytes.len() + 1,
        }
    }

    /// Whether a needle at that offset ends within this text.
    fn ends_by(&self, place: usize, text: usize) -> bool
        requires { text + 1 < length self.now.places.now }
        ensures { IsTrue result ↔ (place + length self.now.test.now.finder
            ≤ slice_index self.now.places.now (text + 1)) }
    {
        let end = self.places[text + 1];
        let count = self.test.len();
        count <= end && place <= end - count
    }

    /// Records that the next texts do not contain the needle, up to the first in which a needle at
    /// that offset may end.
    fn pass_over(&self, place: usize, held: &mut Vec<bool>)
        requires places { ArePlaces self.now.bytes.now self.now.places.now }
        requires room { length self.now.places.now ≤ vec_capacity held.old + 1 }
        requires within { length held.old.items + 1 < length self.now.places.now }
        requires next { IsNext self.now.bytes.now self.now.test.now.finder
            (slice_index self.now.places.now (length held.old.items)) place }
        requires told { AreTold (length held.old.items)
            (IsHeldAt self.now.bytes.now self.now.test.now.finder self.now.places.now)
            held.old.items }
        ensures room { vec_capacity held.new ≡ vec_capacity held.old }
        ensures low { length held.old.items ≤ length held.new.items }
        ensures high { length held.new.items + 1 ≤ length self.now.places.now }
        ensures told { AreTold (length held.new.items)
            (IsHeldAt self.now.bytes.now self.now.test.now.finder self.now.places.now)
            held.new.items }
        ensures ends { length held.new.items + 1 < length self.now.places.now
            → place + length self.now.test.now.finder
            ≤ slice_index self.now.places.now (length held.new.items + 1) }
    {
        while held.len() < self.len() && !self.ends_by(place, held.len()) {
            held.push_reserved(false);
        }
    }

    /// Records for each text whether it contains the needle.
    fn run(&self, held: &mut Vec<bool>)
        requires places { ArePlaces self.now.bytes.now self.now.places.now }
        requires none { length held.old.items ≡ 0 }
        requires room { length self.now.places.now ≤ vec_capacity held.old + 1 }
        ensures room { vec_capacity held.new ≡ vec_capacity held.old }
        ensures told { AreTold (length self.now.places.now - 1)
            (IsHeldAt self.now.bytes.now self.now.test.now.finder self.now.places.now)
            held.new.items }
    {
        while held.len() < self.len() {
            let place = self.next_place(self.places[held.len()]);
            self.pass_over(place, held);
            if held.len() < self.len() && self.places[held.len()] <= place {
                held.push_reserved(true);
            }
        }
    }
}

/// Turns ASCII letters to lower case if requested.
fn turn_small(bytes: &mut Vec<u8>, in_small: bool)
    ensures { bytes.new.items ≡ cased in_small bytes.old.items }
{
    if in_small {
        bytes.as_mut_slice().make_ascii_lowercase();
    }
}

/// Whether each text, or its lower case, contains the needle.
pub(crate) fn held_rows(
    alloc: Global,
    texts: &Texts<'_>,
    test: &InsideTest,
    in_small: bool,
) -> VortexResult<Vec<bool>>
    ensures { AnswersUnlessMemory result (λ held. AreHeld
        (map (cased in_small) (texts_of texts.now)) test.now.finder
        (length (texts_of texts.now)) held.items) }
{
    let len = texts.len();
    let mut all = Vec::with_capacity(alloc, len)?;
    let most = len.min(MOST);
    let mut held = Vec::with_capacity(alloc, most)?;
    let mut bytes = Vec::with_capacity(alloc, 16 * most)?;
    let mut places = Vec::with_capacity(alloc, most + 1)?;
    while all.len() < len {
        gather(texts, all.len(), &mut bytes, &mut places)?;
        turn_small(&mut bytes, in_small);
        let search = Search {
            bytes: bytes.as_slice(),
            places: places.as_slice(),
            test,
        };
        search.run(&mut held);
        all.append(&mut held)?;
    }
    Ok(all)
}
