//! Parsed texts, bound over the columns that they read.
ghost use Rattle.std.specs.Prelude.{◌≡◌, MatchResult, map, string_bytes};
ghost use Rattle.vortex_errors.specs.Answers.{AnswersUnlessMemory};
ghost use Rattle.rowfn_queries.specs.Columns.{gathered_in, kinds_or_plain};
ghost use Rattle.vortex_program.specs.Programs.{trees_of};
ghost use Rattle.rowfn_queries.specs.Bindings.{all_in, named_in, read_in, IsAskedIn, RefusesIn};
ghost use Rattle.rowfn_queries.specs.Bindings.{IsBoundIn, AreBoundIn, RefusesWhere, RefusesBound};
ghost use Rattle.rowfn_queries.specs.Bindings.{IsReadWhere, AreRead};
ghost use Rattle.vortex_program.specs.Texts.{IsRead};
ghost use Rattle.rowfn_queries.specs.Queries.{IsTruth, IsTruthFor};
ghost use Rattle.rowfn_queries.specs.Refusals.{IsNoTruth, RefusesTruth};

use crate::advice::mixed_among;
use crate::column_type::ColumnType;
use crate::columns::{Gathered, Scope};
use crate::declared::Declared;
use crate::error::QueryError;
use crate::mixed::MixedColumn;
use crate::places::places_of;
use crate::query::Words;
use crate::question::Question;
use crate::scopes::{add_all, add_needed};
use crate::texts::{Texts, place_of};
use std::alloc::Global;
use vortex_columns::VortexResult;
use vortex_logical::kind::Kind;
use vortex_program::{Answer, Form, Parsed, Program};

/// The columns that texts may read: some are declared, others have the types of their fields.
#[derive(Clone, Copy)]
pub(crate) struct Binding<'a> {
    pub(crate) alloc: Global,
    pub(crate) words: Words<'a>,
    pub(crate) declared: &'a Declared,
    /// The declared columns, or more, where a text is refused over those.
    pub(crate) columns: Scope<'a>,
    pub(crate) sampled: Scope<'a>,
    /// The sampled columns that have numbers, and are text.
    pub(crate) mixed: &'a [MixedColumn],
}

/// Fails where an answer is no truth value.
fn check_answer(alloc: Global, answer: &Answer) -> Result<(), QueryError>
    ensures { MatchResult result (λ _. IsTruth answer.now.tree) (IsNoTruth answer.now) }
{
    let dtype = answer.tree.dtype();
    if dtype.is_boolean() {
        return Ok(());
    }
    let dtype = dtype.try_clone(alloc)?;
    Err(QueryError::NoTruth(ColumnType {
        dtype,
        kind: answer.kind,
    }))
}

/// Fails where a condition is no truth value.
fn check_truth(alloc: Global, form: Form, answers: &[Answer]) -> Result<(), QueryError>
    ensures { MatchResult result (λ _. IsTruthFor form (trees_of answers.now))
        (RefusesTruth form answers.now) }
{
    if form != Form::Condition {
        return Ok(());
    }
    for answer in answers {
        match check_answer(alloc, answer) {
            Ok(()) => {}
            Err(error) => return Err(error),
        }
    }
    Ok(())
}

/// Adds a plain kind where there is no kind.
fn add_plain(kinds: &mut Vec<Kind>) -> VortexResult<()>
    ensures { AnswersUnlessMemory result (λ _. kinds.new.items ≡ kinds_or_plain kinds.old.items) }
{
    if kinds.is_empty() {
        kinds.push(Kind::Plain)?;
    }
    Ok(())
}

impl Binding<'_> {
    /// The declared columns, and those of these names.
    fn all_columns(&self, names: &[String]) -> VortexResult<Gathered>
        ensures { AnswersUnlessMemory result (λ columns. gathered_in columns
            ≡ all_in self.now (map string_bytes names.now)) }
    {
        let mut columns = Gathered::none(self.alloc);
        add_all(self.alloc, &mut columns, self.columns)?;
        add_needed(self.alloc, &mut columns, self.sampled, names)?;
        Ok(columns)
    }

    /// The columns of these names.
    fn named_columns(&self, names: &[String]) -> VortexResult<Gathered>
        ensures { AnswersUnlessMemory result (λ columns. gathered_in columns
            ≡ named_in self.now (map string_bytes names.now)) }
    {
        let mut columns = Gathered::none(self.alloc);
        add_needed(self.alloc, &mut columns, self.columns, names)?;
        add_needed(self.alloc, &mut columns, self.sampled, names)?;
        Ok(columns)
    }

    /// The columns that a text of that form reads: answers next to a condition read those that they
    /// name, else all that are declared are read too. Where there are none, one kind is given, so
    /// that literals may have kinds.
    fn columns_read(&self, form: Form, names: &[String]) -> VortexResult<Gathered>
        ensures { AnswersUnlessMemory result (λ columns. gathered_in columns
            ≡ read_in self.now form (map string_bytes names.now)) }
    {
        let mut columns = if form == Form::Answers && self.words.condition.is_some() {
            self.named_columns(names)?
        } else {
            self.all_columns(names)?
        };
        add_plain(&mut columns.kinds)?;
        Ok(columns)
    }

    /// The question that a parsed text asks.
    fn ask(&self, parsed: &Parsed<'_>) -> Result<Question, QueryError>
        ensures { IsRead parsed.now
            → MatchResult result (IsAskedIn self.now parsed.now.form parsed.now.text.now)
            (RefusesIn self.now parsed.now.form parsed.now.text.now) }
    {
        let form = parsed.form;
        let names = parsed.names(self.alloc)?;
        let columns = self.columns_read(form, &names)?;
        let answers = match parsed.bind(self.alloc, &columns.fields, &columns.kinds) {
            Ok(answers) => answers,
            Err(error) => {
                let mixed = mixed_among(self.alloc, self.mixed, &names, parsed.text, &error);
                return Err(QueryError::Unread(place_of(form), error, mixed));
            }
        };
        match check_truth(self.alloc, form, &answers) {
            Ok(()) => {}
            Err(error) => return Err(error),
        }
        let places = places_of(
            self.alloc,
            self.declared,
            self.words.header,
            &columns.fields,
        )?;
        let program = Program::of(self.alloc, columns.fields, columns.kinds, answers)?;
        Ok(Question { program, places })
    }

    /// The question that a parsed text asks, where there is one.
    fn condition_question(
        &self,
        parsed: &Option<Parsed<'_>>,
    ) -> Result<Option<Question>, QueryError>
        ensures { IsReadWhere parsed.now → MatchResult result (IsBoundIn self.now parsed.now)
            (RefusesWhere self.now parsed.now) }
    {
        let Some(parsed) = parsed else {
            return Ok(None);
        };
        match self.ask(parsed) {
            Ok(question) => Ok(Some(question)),
            Err(error) => Err(error),
        }
    }

    /// The answers, and the condition, which is bound first.
    pub(crate) fn bind(
        &self,
        texts: &Texts<'_>,
    ) -> Result<(Option<Question>, Option<Question>), QueryError>
        ensures { AreRead texts.now → MatchResult result
            (λ p. AreBoundIn self.now texts.now p.0 p.1) (RefusesBound self.now texts.now) }
    {
        let condition = match self.condition_question(&texts.condition) {
            Ok(condition) => condition,
            Err(error) => return Err(error),
        };
        match self.condition_question(&texts.answers) {
            Ok(answers) => Ok((answers, condition)),
            Err(error) => Err(error),
        }
    }
}
