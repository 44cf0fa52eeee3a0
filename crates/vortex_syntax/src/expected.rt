//! What was expected where a text is no expression.
ghost use Rattle.std.specs.Prelude.{◌≡◌};
ghost use Rattle.vortex_syntax.specs.Expected.{words};

use std::fmt;

/// What was expected at a byte where no expression continues.
#[derive(Clone, Copy, Debug, PartialEq, Eq)]
pub enum Expected {
    /// An operand, or `not`.
    Operand,
    /// After the opening bracket of a call.
    ArgumentOrClose,
    /// An operand that binds tighter than `not`.
    TightOperand,
    /// At `~` where an operand has to bind tighter.
    BitNotBrackets,
    /// After a minus sign.
    SignedOperand,
    /// After two minus signs.
    UnsignedOperand,
    /// After an operand outside of brackets.
    OperatorOrEnd,
    /// The same in a list of answers.
    OperatorOrName,
    /// After an operand in brackets.
    OperatorOrClose,
    /// After an operand in the brackets of a call or of `in`.
    OperatorOrComma,
    /// The same after the first one of a function that takes `from`.
    OperatorOrFrom,
    /// After an operand that follows `from` in a call, where `for` may come.
    OperatorOrFor,
    /// After the first operand in the brackets of a function that takes `in`.
    OperatorOrIn,
    /// After a side.
    OperandOrFrom,
    /// After a side and an operand.
    OperatorOrFromOnly,
    /// After an operand in the brackets of `cast`.
    OperatorOrAs,
    /// After `case`.
    OperandOrWhen,
    /// After the operand of a CASE.
    OperatorOrWhen,
    /// After an operand that follows `when`.
    OperatorOrThen,
    /// After an operand that follows `then`.
    OperatorOrBranch,
    /// After an operand that follows `else`.
    OperatorOrCaseEnd,
    /// After an operand that follows `between`.
    OperatorOrAnd,
    /// At a comparison, `is`, `between`, `in`, `like`, or `not` before one, after an operand that
    /// binds no tighter: a comparison, a test by `is`, `between`, `in` or `like`.
    Brackets,
    /// At two colons after an operand that binds less tightly.
    BracketsBeforeType,
    /// After two colons, and after the `as` of `cast`.
    TypeName,
    /// After digits behind `interval`.
    IntervalUnit,
    /// After `is`.
    TestOrNot,
    /// After `is not`.
    Test,
    /// After `is distinct`, or after `is not distinct`.
    From,
    /// After an operand and `not`.
    PredicateWord,
    /// After `cast`, and after `in`.
    OpenBracket,
    /// After the type of `cast`.
    CloseBracket,
    /// After `escape`.
    EscapeText,
    /// At the `as` of an answer that no name follows, or more than a name.
    AnswerName,
}

impl Expected {
    /// The words for what was expected.
    pub fn text(&self) -> &'static str
        ensures { result.now ≡ words self.now }
    {
        match self {
            Expected::Operand => "a column, a literal, not, case, cast or (",
            Expected::ArgumentOrClose => "an expression or )",
            Expected::TightOperand =>
                "a column, a literal, case, cast or ( (a not needs brackets here)",
            Expected::BitNotBrackets =>
                "a column, a literal, case, cast or ( (a ~ needs brackets here)",
            Expected::SignedOperand => "digits, a column, case, cast or (",
            Expected::UnsignedOperand => "a column, case, cast or (",
            Expected::OperatorOrEnd => "an operator or the end",
            Expected::OperatorOrName => "an operator, as and a name, a comma or the end",
            Expected::OperatorOrClose => "an operator or )",
            Expected::OperatorOrComma => "an operator, a comma or )",
            Expected::OperatorOrFrom => "an operator, from, a comma or )",
            Expected::OperatorOrFor => "an operator, for or )",
            Expected::OperatorOrIn => "an operator that binds tighter, in, a comma or )",
            Expected::OperandOrFrom => "an expression or from",
            Expected::OperatorOrFromOnly => "an operator or from",
            Expected::OperatorOrAs => "an operator, or as and a type",
            Expected::OperandOrWhen => "an expression or when",
            Expected::OperatorOrWhen => "an operator or when",
            Expected::OperatorOrThen => "an operator or then",
            Expected::OperatorOrBranch => "an operator, when, else or end",
            Expected::OperatorOrCaseEnd => "an operator or end",
            Expected::OperatorOrAnd => "an operator that binds tighter, or the and of between",
            Expected::Brackets =>
                "brackets round the comparison, is, between, in or like before it",
            Expected::BracketsBeforeType => "brackets round what is before ::",
            Expected::TypeName => "the name of a type",
            Expected::IntervalUnit => "a unit: year, month, week, day, hour, minute or second",
            Expected::TestOrNot => "null, true, false, unknown, distinct from or not",
            Expected::Test => "null, true, false, unknown or distinct from",
            Expected::From => "from",
            Expected::PredicateWord => "between, in, like or ilike",
            Expected::OpenBracket => "(",
            Expected::CloseBracket => ")",
            Expected::EscapeText => "a text in single quotes",
            Expected::AnswerName => "one name after as, and then a comma or the end",
        }
    }
}

/// The words.
impl fmt::Display for Expected {
    ghost use Rattle.std.specs.Prelude.{Some};

    ghost output = { λ expected. Some (words expected) };

    fn fmt<W: fmt::Write>(&self, f: &mut fmt::Formatter<W>) -> fmt::Result {
        f.write_str(self.text())
    }
}
