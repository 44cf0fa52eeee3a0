//! Tokens of expressions.

/// Where a text is trimmed.
#[derive(Clone, Copy, Debug, PartialEq, Eq)]
pub enum TrimSide {
    Both,
    Leading,
    Trailing,
}

/// A keyword or a sign.
#[derive(Clone, Copy, Debug, PartialEq, Eq)]
pub enum Sign {
    And,
    Or,
    Not,
    Is,
    Null,
    Between,
    Like,
    Ilike,
    Escape,
    True,
    False,
    Cast,
    TryCast,
    As,
    Distinct,
    From,
    In,
    Case,
    When,
    Then,
    Else,
    End,
    IsNull,
    NotNull,
    Symmetric,
    /// `both`, `leading` or `trailing`.
    Side(TrimSide),
    Equal,
    NotEqual,
    Less,
    LessOrEqual,
    Greater,
    GreaterOrEqual,
    Plus,
    Minus,
    Times,
    Divide,
    /// The percent sign.
    Modulo,
    /// Two bars.
    Concat,
    BitAnd,
    BitOr,
    /// The number sign.
    BitXor,
    /// The tilde, which is an operator between two operands too; so are `regexp` and `rlike`.
    BitNot,
    ShiftLeft,
    ShiftRight,
    /// `~*`.
    MatchAnyCase,
    /// `!~`.
    NotMatch,
    /// `!~*`.
    NotMatchAnyCase,
    Open,
    Close,
    Comma,
    /// Two colons.
    Typed,
}

/// A token, by its bytes in the text.
#[derive(Clone, Copy, Debug, PartialEq, Eq)]
pub enum Token<'a> {
    /// A word that is no keyword; after `decimal`, `numeric` and `varchar` with sizes, as in `decimal(12, 2)`.
    Name(&'a [u8]),
    /// A word with a question mark after it, which the bytes leave out.
    Nullable(&'a [u8]),
    /// A word that is no keyword, with an opening bracket after it, which the bytes leave out.
    Function(&'a [u8]),
    /// The bytes in double quotes, as written.
    Quoted(&'a [u8]),
    /// Digits, a point and digits, and an exponent, each where it is there, as written.
    Number(&'a [u8]),
    /// The bytes in single quotes, as written.
    Text(&'a [u8]),
    /// A keyword or a sign.
    Sign(Sign),
}
