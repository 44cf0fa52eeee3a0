//! What a handle has a box of.

use crate::content::Content;
use std::marker::Model;
use vortex_columns::Column;
use vortex_logical::kind::Kind;
use yurkije_core::Expression;

/// An expression, or the answers of one over a batch.
#[derive(Drop)]
pub struct Held {
    content: Content,
}

impl Model for Held {
    ghost use Rattle.yurkije.specs.Views.{HeldView, content_view};
    ghost use Rattle.yurkije.specs.ViewCodes.{coded_held};

    ghost Value = { HeldView };

    ghost coded = { coded_held };

    ghost view = { λ h. content_view h.content };
}

impl Held {
    ghost use Rattle.std.specs.Prelude.{◌≡◌, option_map};
    ghost use Rattle.yurkije.specs.Views.{program_view, program_held, answers_held};

    pub fn of_expression(expression: Expression) -> Held
        ensures { result ≡ program_held (program_view expression) }
    {
        Held {
            content: Content::Expression(expression),
        }
    }

    /// Answers, whose values are of these kinds, by place.
    pub fn of_answers(columns: Vec<Column>, kinds: Vec<Kind>) -> Held
        ensures { result ≡ answers_held columns.items kinds.items }
    {
        Held {
            content: Content::Answers(columns, kinds),
        }
    }

    /// The expression; none where answers are held.
    pub fn expression(&self) -> Option<&Expression>
        ensures { option_map (λ e. program_view e.now) result ≡ self.now.program }
    {
        match &self.content {
            Content::Expression(expression) => Some(expression),
            Content::Answers(_, _) => None,
        }
    }

    /// The columns of the answers; none where an expression is held.
    pub fn columns(&self) -> Option<&[Column]>
        ensures { option_map (λ cs. cs.now) result ≡ self.now.answers }
    {
        match &self.content {
            Content::Expression(_) => None,
            Content::Answers(columns, _) => Some(columns),
        }
    }

    /// The kinds of the answers' values, by place; none where an expression is held.
    pub fn kinds(&self) -> &[Kind]
        ensures { result.now ≡ self.now.kinds }
    {
        match &self.content {
            Content::Expression(_) => &[],
            Content::Answers(_, kinds) => kinds,
        }
    }
}
