//! What was expected where reading stops.
use crate::expected::Expected;
use crate::frame::{CasePart, Frame, Mode, hole};
use crate::levels::{NOT, takes_from, takes_in, takes_side};
use crate::reading::Reading;
use crate::token::{Sign, Token};

/// Comparisons, `is`, `between`, `in` and `like`, and `not` before one.
fn is_unchained(sign: Sign) -> bool {
    matches!(
        sign,
        Sign::Equal
            | Sign::NotEqual
            | Sign::Less
            | Sign::LessOrEqual
            | Sign::Greater
            | Sign::GreaterOrEqual
            | Sign::Is
            | Sign::IsNull
            | Sign::NotNull
            | Sign::Between
            | Sign::In
            | Sign::Like
            | Sign::Ilike
            | Sign::Not
    )
}

/// What was expected instead of a sign after an operand: `expected`, with some exceptions.
fn in_place_of(sign: Sign, expected: Expected) -> Expected {
    match (sign, expected) {
        (_, Expected::OperatorOrAnd | Expected::OperatorOrIn) => expected,
        (Sign::As, Expected::OperatorOrName) => Expected::AnswerName,
        (Sign::Typed, _) => Expected::BracketsBeforeType,
        _ => {
            if is_unchained(sign) {
                Expected::Brackets
            } else {
                expected
            }
        }
    }
}

/// What may follow an operand in that part of a CASE.
fn expected_in(part: CasePart) -> Expected {
    match part {
        CasePart::Operand => Expected::OperatorOrWhen,
        CasePart::When => Expected::OperatorOrThen,
        CasePart::Then => Expected::OperatorOrBranch,
        CasePart::Else => Expected::OperatorOrCaseEnd,
    }
}

impl<'a> Reading<'a> {
    /// What may follow an operand, by the brackets and the CASE that are open.
    fn expected_after(&self, whole: Expected) -> Expected {
        for frame in self.frames.iter().rev() {
            match frame {
                Frame::Open
                | Frame::Extract(_)
                | Frame::For(_)
                | Frame::Place(_)
                | Frame::TrimFrom(_)
                | Frame::TrimBy(_) => return Expected::OperatorOrClose,
                Frame::Trim(_) => return Expected::OperatorOrFromOnly,
                Frame::From(_) => return Expected::OperatorOrFor,
                Frame::Arguments(function, 0) if takes_from(function) || takes_side(function) => {
                    return Expected::OperatorOrFrom;
                }
                Frame::Arguments(function, 0) if takes_in(function) => {
                    return Expected::OperatorOrIn;
                }
                Frame::Cast(_) => return Expected::OperatorOrAs,
                Frame::Arguments(..) | Frame::Items(..) => return Expected::OperatorOrComma,
                Frame::Case(part, ..) => return expected_in(*part),
                Frame::Between(_) => return Expected::OperatorOrAnd,
                _ => {}
            }
        }
        whole
    }

    fn operand_expected(&self) -> Expected {
        match self.top() {
            Some(Frame::Arguments(_, 0)) => Expected::ArgumentOrClose,
            Some(Frame::Trim(_)) => Expected::OperandOrFrom,
            Some(Frame::Case(CasePart::Operand, ..)) => Expected::OperandOrWhen,
            Some(frame) if NOT < hole(frame) => Expected::TightOperand,
            _ => Expected::Operand,
        }
    }

    fn signed_expected(&self) -> Expected {
        match self.top() {
            Some(Frame::Minus) => Expected::UnsignedOperand,
            _ => Expected::SignedOperand,
        }
    }

    /// What was expected in place of that token, or of the end if there is none. After a whole tree
    /// it is what the caller passes.
    pub(crate) fn expected(
        &self,
        mode: Mode,
        found: Option<Token<'_>>,
        whole: Expected,
    ) -> Expected {
        match (mode, found) {
            (Mode::Want, Some(Token::Sign(Sign::BitNot))) => Expected::BitNotBrackets,
            (Mode::Want, _) => self.operand_expected(),
            (Mode::Signed, _) => self.signed_expected(),
            (Mode::Have(_) | Mode::Named, Some(Token::Sign(sign))) => {
                in_place_of(sign, self.expected_after(whole))
            }
            (Mode::Have(_) | Mode::Named, _) => self.expected_after(whole),
            (Mode::Typing | Mode::Converting(_) | Mode::CastType(_), _) => Expected::TypeName,
            (Mode::Unit, _) => Expected::IntervalUnit,
            (Mode::Is(false), _) => Expected::TestOrNot,
            (Mode::Is(true), _) => Expected::Test,
            (Mode::Distinct(_), _) => Expected::From,
            (Mode::Negating(_), _) => Expected::PredicateWord,
            (Mode::Casting(_) | Mode::Listing(_), _) => Expected::OpenBracket,
            (Mode::CastEnd, _) => Expected::CloseBracket,
            (Mode::Escaping(_), _) => Expected::EscapeText,
        }
    }
}
