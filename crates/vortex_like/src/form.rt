//! The forms of patterns: how each is matched.
ghost use Rattle.std.specs.Prelude.{◌≡◌, ◌↔◌, IsTrue};
ghost use Rattle.std.specs.Str.{chars};
ghost use Rattle.vortex_like.specs.Words.{is_percent, IsFrontOf, IsPercentOf, IsShapeOf};

use crate::characters::{is_escape, split_first};
use crate::cuts::cut_at_special;

/// How a pattern is matched. A literal part holds no `%`, no `_` and no escape; a pattern has the
/// first form that fits. A `%` that is the escape is no `%` of a form.
#[derive(Clone, Copy, Debug, PartialEq, Eq)]
pub enum LikeForm {
    /// A literal part: only that text.
    Eq,
    /// A literal part and `%`: texts that begin with it.
    StartsWith,
    /// `%` and a literal part: texts that end with it.
    EndsWith,
    /// A literal part between two `%`: texts that contain it.
    Contains,
    /// As `Eq`, ignoring case: the pattern and each text to match are ASCII.
    IEqAscii,
    /// As `StartsWith`, ignoring case: the pattern and each text to match are ASCII.
    IStartsWithAscii,
    /// As `EndsWith`, ignoring case: the pattern and each text to match are ASCII.
    IEndsWithAscii,
    /// Everything else: token by token.
    Tokens,
}

/// A pattern, by its literal part if it has one.
#[derive(Clone, Copy)]
pub(crate) enum PatternShape<'a> {
    Whole(&'a str),
    Front(&'a str),
    End(&'a str),
    Inside(&'a str),
    Other,
}

impl PatternShape<'_> {
    /// Whether the pattern has no literal part.
    pub(crate) fn is_other(&self) -> bool
        ensures { IsTrue result ↔ (self.now ≡ PatternShape.Other) }
    {
        match self {
            PatternShape::Other => true,
            _ => false,
        }
    }
}

/// Whether a character is a `%` that is not the escape.
fn is_percent(escape: Option<char>, c: char) -> bool
    ensures { result ≡ is_percent escape c }
{
    c == '%' && !is_escape(escape, c)
}

/// The shape of a pattern that is a literal part, or one and `%`.
fn prefix_shape(pattern: &str, escape: Option<char>) -> PatternShape<'_>
    ensures { IsFrontOf escape (chars pattern.now) result }
{
    let cut = cut_at_special(pattern, escape);
    match split_first(cut.rest) {
        None => PatternShape::Whole(cut.front),
        Some((c, behind)) => {
            if is_percent(escape, c) && behind.is_empty() {
                PatternShape::Front(cut.front)
            } else {
                PatternShape::Other
            }
        }
    }
}

/// The shape of a pattern that is `%` and a literal part, or that and `%`.
fn percent_shape(pattern: &str, escape: Option<char>) -> PatternShape<'_>
    ensures { IsPercentOf escape (chars pattern.now) result }
{
    let Some((c, behind)) = split_first(pattern) else {
        return PatternShape::Other;
    };
    if !is_percent(escape, c) {
        return PatternShape::Other;
    }
    match prefix_shape(behind, escape) {
        PatternShape::Whole(literal) => PatternShape::End(literal),
        PatternShape::Front(literal) => PatternShape::Inside(literal),
        _ => PatternShape::Other,
    }
}

/// The shape of a pattern: the first that fits.
pub(crate) fn shape_of(pattern: &str, escape: Option<char>) -> PatternShape<'_>
    ensures { IsShapeOf escape (chars pattern.now) result }
{
    match prefix_shape(pattern, escape) {
        PatternShape::Other => percent_shape(pattern, escape),
        shape => shape,
    }
}
