//! Trees in postfix order.
use crate::token::{Token, TrimSide};

/// An operator between two operands.
#[derive(Clone, Copy, Debug, PartialEq, Eq)]
pub enum WrittenOperator {
    Or,
    And,
    Equal,
    NotEqual,
    Less,
    LessOrEqual,
    Greater,
    GreaterOrEqual,
    Add,
    Sub,
    Mul,
    Div,
    Mod,
    Concat,
    BitAnd,
    BitOr,
    BitXor,
    ShiftLeft,
    ShiftRight,
    /// `~`.
    Matches,
    /// `~*`.
    MatchesAnyCase,
    /// `!~`.
    NotMatches,
    /// `!~*`.
    NotMatchesAnyCase,
}

/// What IS tests for.
#[derive(Clone, Copy, Debug, PartialEq, Eq)]
pub enum Test {
    Null,
    True,
    False,
    /// The null of truth values.
    Unknown,
}

/// Which LIKE is meant.
#[derive(Clone, Copy, Debug, PartialEq, Eq)]
pub struct LikeKind {
    pub negated: bool,
    pub case_insensitive: bool,
}

/// Which BETWEEN is meant.
#[derive(Clone, Copy, Debug, PartialEq, Eq)]
pub struct BetweenKind {
    pub negated: bool,
    /// Whether either bound may be the lower one.
    pub symmetric: bool,
}

/// A call of the trees before it.
#[derive(Clone, Copy, Debug, PartialEq, Eq)]
pub enum Call {
    Not,
    /// Minus before a tree that is no literal.
    Minus,
    /// Plus before a tree.
    Plus,
    BitNot,
    Join(WrittenOperator),
    /// IS of a test, or IS NOT.
    Is(Test, bool),
    /// IS DISTINCT FROM of two trees, or IS NOT DISTINCT FROM.
    Distinct(bool),
    /// BETWEEN of three trees.
    Between(BetweenKind),
    /// LIKE without an escape.
    Like(LikeKind),
}

/// A step of a tree in postfix order.
#[derive(Clone, Copy, Debug, PartialEq, Eq)]
pub enum Step<'a> {
    /// A column or a literal, by its token.
    Operand(Token<'a>),
    /// The literal of that number with a minus sign before it.
    Negative(&'a [u8]),
    /// The literal before it is of the type of that name, nullable if the flag is true.
    Typed(&'a [u8], bool),
    /// The tree before it, cast to the type of that name, nullable if the second flag is true; null
    /// where the cast fails if the first flag is true.
    Cast(bool, &'a [u8], bool),
    /// LIKE of the two trees before it, with the escape as written.
    Escaped(LikeKind, &'a [u8]),
    /// The function of that name, of as many trees before it.
    Apply(&'a [u8], usize),
    /// IN of a tree and as many items after it, or NOT IN.
    In(bool, usize),
    /// CASE with an operand if the first flag is true, of as many pairs of a condition and a value
    /// after it, and of what follows `else` if the second flag is true.
    Case(bool, usize, bool),
    /// A text is trimmed there: the tree before it, by the characters of the tree before that one
    /// if the flag is true, else by blanks.
    Trim(TrimSide, bool),
    Call(Call),
}
