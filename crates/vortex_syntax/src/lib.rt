//! SQL expressions as people write them: texts, tokens, and trees in postfix order.
#![tactic(auto)]

mod after_name;
mod after_operand;
pub mod answer_list;
mod before_operand;
mod branches;
mod error;
mod expected;
mod frame;
mod gaps;
pub mod laws;
pub mod levels;
mod lexing;
mod named;
pub mod nesting;
mod parts;
mod pieces;
mod places;
mod reader;
mod reading;
mod refusing;
mod signs;
mod sizes;
mod step;
pub mod syntax;
mod texts;
mod token;
mod tree;
mod writing;

pub use answer_list::{SyntaxAnswer, read_answer_list};
pub use error::SyntaxError;
pub use expected::Expected;
pub use lexing::{Tokens, read_tokens};
pub use nesting::DEPTH;
pub use sizes::{sizes_of, text_size_of};
pub use step::{BetweenKind, Call, LikeKind, Step, Test, WrittenOperator};
pub use syntax::read_syntax;
pub use texts::answer_texts;
pub use token::{Sign, Token, TrimSide};
pub use tree::SyntaxTree;
pub use writing::{Writer, is_bare};
