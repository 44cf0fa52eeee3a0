//! Frames that wait for an operand while a text is read.
ghost use Rattle.std.specs.Prelude.{◌≡◌};
ghost use Rattle.vortex_syntax.specs.Postfix.{called};
ghost use Rattle.vortex_syntax.specs.Frames.{frame_in};
ghost use Rattle.vortex_syntax.specs.Frames as specs;

use crate::levels::{
    ATOM, BIT_NOT, COMPARISON, CONCAT, DISTINCT, LITERAL, NOT, OR, PREDICATE, SIGN, first_level,
    own, right,
};
use crate::step::{BetweenKind, Call, LikeKind, WrittenOperator};
use crate::token::TrimSide;

/// The part of a CASE that comes next.
#[derive(Clone, Copy, Debug, PartialEq, Eq)]
pub enum CasePart {
    /// Its operand.
    Operand,
    /// The condition after `when`.
    When,
    /// The value after `then`.
    Then,
    /// The value after `else`.
    Else,
}

/// A frame that waits for its last operand.
#[derive(Clone, Copy, Debug, PartialEq, Eq)]
pub enum Frame<'a> {
    /// An opening bracket.
    Open,
    /// The bracket after `cast`, or after `try_cast`.
    Cast(bool),
    Not,
    /// A minus sign before what is no literal.
    Minus,
    /// A plus sign before an operand.
    Plus,
    BitNot,
    Join(WrittenOperator),
    /// IS DISTINCT FROM, or IS NOT DISTINCT FROM.
    Distinct(bool),
    /// BETWEEN before its `and`.
    Between(BetweenKind),
    /// BETWEEN after its `and`.
    Bounded(BetweenKind),
    Like(LikeKind),
    /// A call of the function of that name, after as many arguments.
    Arguments(&'a [u8], usize),
    /// A call of the function of that name, `extract`, after a word and `from`.
    Extract(&'a [u8]),
    /// A call of the function of that name, which takes `from`, after an argument and `from`.
    From(&'a [u8]),
    /// The same after one more argument and `for`.
    For(&'a [u8]),
    /// A call of the function of that name, which takes `in`, after an argument and `in`.
    Place(&'a [u8]),
    /// A call of `trim` after a side.
    Trim(TrimSide),
    /// The same after a side and `from`.
    TrimFrom(TrimSide),
    /// The same after what it trims by and `from`.
    TrimBy(TrimSide),
    /// The bracket of IN, or of NOT IN, after as many items.
    Items(bool, usize),
    /// A CASE with an operand if the flag is true, after as many values.
    Case(CasePart, bool, usize),
}

/// What may come next.
#[derive(Clone, Copy, Debug, PartialEq, Eq)]
pub enum Mode {
    /// An operand.
    Want,
    /// The digits after a minus sign, or what else it is before.
    Signed,
    /// What follows an operand of that level.
    Have(u8),
    /// What follows a bare name: a bracket makes a call of it, a text is a literal of that type,
    /// digits are an interval's, and `from` makes a text of it, the first argument of a call.
    Named,
    /// The unit after digits behind `interval`.
    Unit,
    /// The type after two colons that follow a literal without a type.
    Typing,
    /// The type after two colons that follow another operand of that level, which cast it.
    Converting(u8),
    /// What follows `is`, or `is not`.
    Is(bool),
    /// The `from` after `is distinct`, or after `is not distinct`.
    Distinct(bool),
    /// The bracket after `in`, or after `not in`.
    Listing(bool),
    /// What follows a `not` after an operand of that level.
    Negating(u8),
    /// The bracket after `cast`, or after `try_cast`.
    Casting(bool),
    /// The type after the `as` of `cast`, or of `try_cast`.
    CastType(bool),
    /// The bracket after that type.
    CastEnd,
    /// The text after `escape`.
    Escaping(LikeKind),
}

/// The least level of an operand that the frame waits for.
pub fn hole(frame: Frame<'_>) -> u8
    ensures { result ≡ specs.hole (frame_in frame.entry) }
{
    match frame {
        Frame::Arguments(function, 0) => first_level(function),
        Frame::Open
        | Frame::Cast(_)
        | Frame::Arguments(..)
        | Frame::Extract(_)
        | Frame::From(_)
        | Frame::For(_)
        | Frame::Place(_)
        | Frame::Trim(_)
        | Frame::TrimFrom(_)
        | Frame::TrimBy(_)
        | Frame::Items(..)
        | Frame::Case(..) => OR,
        Frame::Not => NOT,
        Frame::Join(operator) => right(operator),
        Frame::Minus | Frame::Plus => SIGN,
        Frame::BitNot => BIT_NOT,
        Frame::Distinct(_) => COMPARISON,
        Frame::Between(_) | Frame::Bounded(_) | Frame::Like(_) => CONCAT,
    }
}

/// The frame is closed before a sign of a lower level than this.
pub fn guard(frame: Frame<'_>) -> u8
    ensures { result ≡ specs.guard (frame_in frame.entry) }
{
    match frame {
        Frame::Between(_) | Frame::Arguments(..) => OR,
        _ => hole(frame),
    }
}

/// The highest level of an operand that the frame waits for.
pub fn ceiling(frame: Frame<'_>) -> u8
    ensures { result ≡ specs.ceiling (frame_in frame.entry) }
{
    match frame {
        Frame::Minus => ATOM,
        _ => LITERAL,
    }
}

/// The level of the frame with its operand.
pub fn whole(frame: Frame<'_>) -> u8
    ensures { result ≡ specs.whole (frame_in frame.entry) }
{
    match frame {
        Frame::Open
        | Frame::Cast(_)
        | Frame::Arguments(..)
        | Frame::Extract(_)
        | Frame::From(_)
        | Frame::For(_)
        | Frame::Place(_)
        | Frame::Trim(_)
        | Frame::TrimFrom(_)
        | Frame::TrimBy(_)
        | Frame::Case(..) => ATOM,
        Frame::Not => NOT,
        Frame::Join(operator) => own(operator),
        Frame::Minus | Frame::Plus => SIGN,
        Frame::BitNot => BIT_NOT,
        Frame::Distinct(_) => DISTINCT,
        Frame::Between(_) | Frame::Bounded(_) | Frame::Like(_) | Frame::Items(..) => PREDICATE,
    }
}

pub fn closing(frame: Frame<'_>) -> Call
    ensures { called result ≡ specs.closing (frame_in frame.entry) }
{
    match frame {
        Frame::Open
        | Frame::Cast(_)
        | Frame::Not
        | Frame::Arguments(..)
        | Frame::Extract(_)
        | Frame::From(_)
        | Frame::For(_)
        | Frame::Place(_)
        | Frame::Trim(_)
        | Frame::TrimFrom(_)
        | Frame::TrimBy(_)
        | Frame::Items(..)
        | Frame::Case(..) => Call::Not,
        Frame::Join(operator) => Call::Join(operator),
        Frame::Minus => Call::Minus,
        Frame::Plus => Call::Plus,
        Frame::BitNot => Call::BitNot,
        Frame::Distinct(negated) => Call::Distinct(negated),
        Frame::Between(kind) | Frame::Bounded(kind) => Call::Between(kind),
        Frame::Like(kind) => Call::Like(kind),
    }
}
