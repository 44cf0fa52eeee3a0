//! What a sign after an operand does to what is read.
ghost use Rattle.std.specs.Prelude.{◌≡◌, nat_le, ◌&&◌, suc, option_map, IfOk};
ghost use Rattle.vortex_syntax.specs.Tokens.{token_in};
ghost use Rattle.vortex_syntax.specs.Levels.{predicate_level, concat_level};
ghost use Rattle.vortex_syntax.specs.Spelling as spelling;
ghost use Rattle.vortex_syntax.specs.Frames.{top_hole};
ghost use Rattle.vortex_syntax.specs.Reading as specs;
ghost use Rattle.vortex_syntax.specs.Reading.{frames_in, steps_in, seen, Gives, and_behind};

use crate::frame::{Frame, Mode};
use crate::levels::{AND, ATOM, CONCAT, IS, LITERAL, OR, PREDICATE, left, own};
use crate::reading::Reading;
use crate::step::{BetweenKind, Call, LikeKind, Step, Test, WrittenOperator};
use crate::token::{Sign, Token};
use std::alloc::AllocError;

/// The operators except And, by their signs.
fn operator_of(sign: Sign) -> Option<WrittenOperator>
    ensures { result ≡ spelling.operator_of sign }
{
    match sign {
        Sign::Or => Some(WrittenOperator::Or),
        Sign::Equal => Some(WrittenOperator::Equal),
        Sign::NotEqual => Some(WrittenOperator::NotEqual),
        Sign::Less => Some(WrittenOperator::Less),
        Sign::LessOrEqual => Some(WrittenOperator::LessOrEqual),
        Sign::Greater => Some(WrittenOperator::Greater),
        Sign::GreaterOrEqual => Some(WrittenOperator::GreaterOrEqual),
        Sign::Plus => Some(WrittenOperator::Add),
        Sign::Minus => Some(WrittenOperator::Sub),
        Sign::Times => Some(WrittenOperator::Mul),
        Sign::Divide => Some(WrittenOperator::Div),
        Sign::Modulo => Some(WrittenOperator::Mod),
        Sign::Concat => Some(WrittenOperator::Concat),
        Sign::BitAnd => Some(WrittenOperator::BitAnd),
        Sign::BitOr => Some(WrittenOperator::BitOr),
        Sign::BitXor => Some(WrittenOperator::BitXor),
        Sign::ShiftLeft => Some(WrittenOperator::ShiftLeft),
        Sign::ShiftRight => Some(WrittenOperator::ShiftRight),
        Sign::BitNot => Some(WrittenOperator::Matches),
        Sign::MatchAnyCase => Some(WrittenOperator::MatchesAnyCase),
        Sign::NotMatch => Some(WrittenOperator::NotMatches),
        Sign::NotMatchAnyCase => Some(WrittenOperator::NotMatchesAnyCase),
        _ => None,
    }
}

/// What follows two colons after an operand of that level.
fn type_of(level: u8) -> Option<Mode>
    ensures { result ≡ specs.typed_mode level }
{
    if level >= LITERAL {
        Some(Mode::Typing)
    } else if level >= ATOM {
        Some(Mode::Converting(level))
    } else {
        None
    }
}

/// The count after one more argument, item or value. Memory runs out before counts do.
pub(crate) fn one_more(count: usize) -> Result<usize, AllocError>
    ensures { IfOk result (λ n. n ≡ suc count) }
{
    match count.checked_add(1) {
        Some(more) => Ok(more),
        None => Err(AllocError),
    }
}

impl<'a> Reading<'a> {
    /// `and`, which ends the lower bound of a pending BETWEEN, or else joins.
    fn join_or_bound(&mut self, level: u8) -> Result<Option<Mode>, AllocError>
        ensures { Gives result self.new
            (and_behind level (frames_in self.old) (steps_in self.old)) }
    {
        if let Some(Frame::Between(kind)) = self.top() {
            self.at = self.top_sign();
            self.drop_top();
            self.wait(Frame::Bounded(kind))?;
            return Ok(Some(Mode::Want));
        }
        self.wait_if(AND, AND, Frame::Join(WrittenOperator::And), level)
    }

    fn is_of(&mut self, level: u8) -> Option<Mode>
        ensures { option_map (seen self.new) result
            ≡ specs.is_behind level (frames_in self.old) (steps_in self.old) }
    {
        if level < IS || IS < self.top_hole() {
            None
        } else {
            Some(Mode::Is(false))
        }
    }

    /// `isnull`, or `notnull` if the flag is true.
    fn null_test_of(&mut self, negated: bool, level: u8) -> Result<Option<Mode>, AllocError>
        ensures { Gives result self.new
            (specs.null_test_behind negated level (frames_in self.old) (steps_in self.old)) }
    {
        if level < IS || IS < self.top_hole() {
            return Ok(None);
        }
        self.emit(Step::Call(Call::Is(Test::Null, negated)))?;
        Ok(Some(Mode::Have(IS)))
    }

    /// Whether BETWEEN, IN or LIKE may follow an operand of that level.
    fn takes_predicate(&self, level: u8) -> bool
        ensures { result ≡ (nat_le concat_level level
            && nat_le (top_hole (frames_in self.now)) predicate_level) }
    {
        level >= CONCAT && self.top_hole() <= PREDICATE
    }

    /// `not`, which BETWEEN, IN or LIKE may follow.
    fn not_of(&mut self, level: u8) -> Option<Mode>
        ensures { option_map (seen self.new) result
            ≡ specs.not_behind level (frames_in self.old) (steps_in self.old) }
    {
        if self.takes_predicate(level) {
            Some(Mode::Negating(level))
        } else {
            None
        }
    }

    fn close_of(&mut self) -> Result<Option<Mode>, AllocError>
        ensures { Gives result self.new
            (specs.close_behind (frames_in self.old) (steps_in self.old)) }
    {
        match self.top() {
            Some(Frame::Open) => {
                self.drop_top();
                Ok(Some(Mode::Have(ATOM)))
            }
            Some(Frame::Arguments(name, count)) => {
                self.at = self.top_sign();
                self.drop_top();
                self.emit(Step::Apply(name, one_more(count)?))?;
                Ok(Some(Mode::Have(ATOM)))
            }
            Some(Frame::Extract(name) | Frame::From(name) | Frame::Place(name)) => {
                self.at = self.top_sign();
                self.drop_top();
                self.emit(Step::Apply(name, 2))?;
                Ok(Some(Mode::Have(ATOM)))
            }
            Some(Frame::For(name)) => {
                self.at = self.top_sign();
                self.drop_top();
                self.emit(Step::Apply(name, 3))?;
                Ok(Some(Mode::Have(ATOM)))
            }
            Some(Frame::TrimFrom(side)) => {
                self.at = self.top_sign();
                self.drop_top();
                self.emit(Step::Trim(side, false))?;
                Ok(Some(Mode::Have(ATOM)))
            }
            Some(Frame::TrimBy(side)) => {
                self.at = self.top_sign();
                self.drop_top();
                self.emit(Step::Trim(side, true))?;
                Ok(Some(Mode::Have(ATOM)))
            }
            Some(Frame::Items(negated, count)) => {
                self.at = self.top_sign();
                self.drop_top();
                self.emit(Step::In(negated, one_more(count)?))?;
                Ok(Some(Mode::Have(PREDICATE)))
            }
            _ => Ok(None),
        }
    }

    /// A comma, which ends an argument or an item.
    fn comma_of(&mut self) -> Result<Option<Mode>, AllocError>
        ensures { Gives result self.new
            (specs.comma_behind (frames_in self.old) (steps_in self.old)) }
    {
        match self.top() {
            Some(Frame::Arguments(name, count)) => {
                self.at = self.top_sign();
                self.drop_top();
                self.wait(Frame::Arguments(name, one_more(count)?))?;
                Ok(Some(Mode::Want))
            }
            Some(Frame::Items(negated, count)) => {
                self.at = self.top_sign();
                self.drop_top();
                self.wait(Frame::Items(negated, one_more(count)?))?;
                Ok(Some(Mode::Want))
            }
            _ => Ok(None),
        }
    }

    fn as_of(&mut self) -> Option<Mode>
        ensures { option_map (seen self.new) result
            ≡ specs.as_behind (frames_in self.old) (steps_in self.old) }
    {
        match self.top() {
            Some(Frame::Cast(tried)) => {
                self.drop_top();
                Some(Mode::CastType(tried))
            }
            _ => None,
        }
    }

    fn escape_of(&mut self) -> Option<Mode>
        ensures { option_map (seen self.new) result
            ≡ specs.escape_behind (frames_in self.old) (steps_in self.old) }
    {
        match self.top() {
            Some(Frame::Like(kind)) => {
                self.at = self.top_sign();
                self.drop_top();
                Some(Mode::Escaping(kind))
            }
            _ => None,
        }
    }

    /// `in`, which a bracket has to follow.
    pub(crate) fn in_of(&mut self, negated: bool, level: u8) -> Option<Mode>
        ensures { option_map (seen self.new) result
            ≡ specs.in_behind negated level (frames_in self.old) (steps_in self.old) }
    {
        if self.takes_predicate(level) {
            Some(Mode::Listing(negated))
        } else {
            None
        }
    }

    /// BETWEEN, IN or LIKE after an operand.
    #[tactic(auto, unfolding(crate::specs::Reading::predicate))]
    fn predicate(
        &mut self,
        negated: bool,
        level: u8,
        sign: Sign,
    ) -> Result<Option<Mode>, AllocError>
        ensures { Gives result self.new
            (specs.predicate negated level (frames_in self.old) (steps_in self.old) sign) }
    {
        let frame = match sign {
            Sign::Between => Frame::Between(BetweenKind {
                negated,
                symmetric: false,
            }),
            Sign::Like => Frame::Like(LikeKind {
                negated,
                case_insensitive: false,
            }),
            Sign::Ilike => Frame::Like(LikeKind {
                negated,
                case_insensitive: true,
            }),
            Sign::In => {
                let level = self.settle(PREDICATE, level)?;
                return Ok(self.in_of(negated, level));
            }
            _ => return Ok(None),
        };
        self.shift(PREDICATE, CONCAT, frame, level)
    }

    /// A sign after an operand that is no operator.
    #[tactic(auto, unfolding(crate::specs::Reading::word_after))]
    fn word_after(&mut self, level: u8, sign: Sign) -> Result<Option<Mode>, AllocError>
        ensures { Gives result self.new
            (specs.word_after level (frames_in self.old) (steps_in self.old) sign) }
    {
        match sign {
            Sign::And => {
                let level = self.settle(AND, level)?;
                self.join_or_bound(level)
            }
            Sign::Is => {
                let level = self.settle(IS, level)?;
                Ok(self.is_of(level))
            }
            Sign::IsNull => {
                let level = self.settle(IS, level)?;
                self.null_test_of(false, level)
            }
            Sign::NotNull => {
                let level = self.settle(IS, level)?;
                self.null_test_of(true, level)
            }
            Sign::Not => {
                let level = self.settle(PREDICATE, level)?;
                Ok(self.not_of(level))
            }
            Sign::In => {
                let level = self.settle(PREDICATE, level)?;
                self.place_or_list(level)
            }
            Sign::Close => {
                let _level = self.settle(OR, level)?;
                self.close_of()
            }
            Sign::Comma => {
                let _level = self.settle(OR, level)?;
                self.comma_of()
            }
            Sign::From => {
                let _level = self.settle(OR, level)?;
                self.from_of()
            }
            Sign::As => {
                let _level = self.settle(OR, level)?;
                Ok(self.as_of())
            }
            Sign::Escape => {
                let _level = self.settle(CONCAT, level)?;
                Ok(self.escape_of())
            }
            Sign::When | Sign::Then | Sign::Else | Sign::End => {
                let _level = self.settle(OR, level)?;
                self.case_word(sign)
            }
            Sign::Typed => Ok(type_of(level)),
            _ => self.predicate(false, level, sign),
        }
    }

    fn sign_after(&mut self, level: u8, sign: Sign) -> Result<Option<Mode>, AllocError>
        ensures { Gives result self.new (specs.operator_or_word level (frames_in self.old)
            (steps_in self.old) sign (spelling.operator_of sign)) }
    {
        match operator_of(sign) {
            Some(operator) => {
                let frame = Frame::Join(operator);
                self.shift(own(operator), left(operator), frame, level)
            }
            None => self.word_after(level, sign),
        }
    }

    /// A token after an operand.
    pub fn behind(&mut self, level: u8, token: Token<'a>) -> Result<Option<Mode>, AllocError>
        ensures { Gives result self.new
            (specs.behind level (frames_in self.old) (steps_in self.old) (token_in token.entry)) }
    {
        match token {
            Token::Sign(sign) => self.sign_after(level, sign),
            Token::Name(word) => {
                let _level = self.settle(OR, level)?;
                self.for_of(word)
            }
            _ => Ok(None),
        }
    }

    /// A token after an operand and `not`.
    pub fn negating(&mut self, level: u8, token: Token<'a>) -> Result<Option<Mode>, AllocError>
        ensures { Gives result self.new
            (specs.negating level (frames_in self.old) (steps_in self.old) (token_in token.entry)) }
    {
        match token {
            Token::Sign(sign) => self.predicate(true, level, sign),
            _ => Ok(None),
        }
    }
}
