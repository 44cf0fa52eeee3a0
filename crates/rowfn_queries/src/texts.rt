//! The texts that ask, parsed before the columns that they name are known.
ghost use Rattle.std.specs.Prelude.{◌≡◌, IfOk, IfErr};
ghost use Rattle.vortex_program.specs.declared.form.Form.TheVariants.{Answers, Condition};
ghost use Rattle.rowfn_queries.specs.Bindings.{IsParsedBy};
ghost use Rattle.rowfn_queries.specs.Refusals.{place_of, RefusesParsing, RefusesTexts};

use crate::error::{QueryError, TextPlace};
use crate::query::Words;
use std::alloc::Global;
use vortex_columns::{StructFields, VortexResult};
use vortex_program::{Form, Parsed, parse_answers, parse_condition};

/// The texts that ask, parsed.
#[derive(Drop)]
pub(crate) struct Texts<'a> {
    pub(crate) answers: Option<Parsed<'a>>,
    pub(crate) condition: Option<Parsed<'a>>,
}

/// Where a text of that form stands among the words of a program.
pub(crate) fn place_of(form: Form) -> TextPlace
    ensures { result ≡ place_of form }
{
    match form {
        Form::Answers => TextPlace::Expression,
        Form::Condition => TextPlace::Where,
    }
}

fn answers_of<'a>(alloc: Global, text: Option<&'a str>) -> Result<Option<Parsed<'a>>, QueryError>
    ensures parsed { IfOk result (IsParsedBy Answers text.entry) }
    ensures refused { IfErr result (RefusesParsing Answers text.entry) }
{
    let Some(text) = text else {
        return Ok(None);
    };
    match parse_answers(alloc, text) {
        Ok(parsed) => Ok(Some(parsed)),
        Err(error) => Err(QueryError::Unread(place_of(Form::Answers), error, None)),
    }
}

fn condition_of<'a>(alloc: Global, text: Option<&'a str>) -> Result<Option<Parsed<'a>>, QueryError>
    ensures parsed { IfOk result (IsParsedBy Condition text.entry) }
    ensures refused { IfErr result (RefusesParsing Condition text.entry) }
{
    let Some(text) = text else {
        return Ok(None);
    };
    match parse_condition(alloc, text) {
        Ok(parsed) => Ok(Some(parsed)),
        Err(error) => Err(QueryError::Unread(place_of(Form::Condition), error, None)),
    }
}

/// Adds the columns that a text names and a scope lacks.
fn push_lacking(
    alloc: Global,
    parsed: &Option<Parsed<'_>>,
    columns: &StructFields,
    lacking: &mut Vec<String>,
) -> VortexResult<()> {
    let Some(parsed) = parsed else {
        return Ok(());
    };
    for name in parsed.names(alloc)? {
        if columns.find(name.as_str()).is_none() {
            lacking.push(name)?;
        }
    }
    Ok(())
}

impl<'a> Texts<'a> {
    /// Parses the answers, then the condition: a syntax error is reported before anything is read
    /// of the input.
    pub(crate) fn parse(alloc: Global, words: &Words<'a>) -> Result<Texts<'a>, QueryError>
        ensures answers { IfOk result (λ t. IsParsedBy Answers words.now.answers t.answers) }
        ensures condition { IfOk result (λ t. IsParsedBy Condition words.now.condition t.condition) }
        ensures refused { IfErr result (RefusesTexts words.now) }
    {
        let answers = match answers_of(alloc, words.answers) {
            Ok(answers) => answers,
            Err(error) => return Err(error),
        };
        match condition_of(alloc, words.condition) {
            Ok(condition) => Ok(Texts { answers, condition }),
            Err(error) => Err(error),
        }
    }

    /// The columns that the texts name and a scope lacks.
    pub(crate) fn lacking(
        &self,
        alloc: Global,
        columns: &StructFields,
    ) -> VortexResult<Vec<String>> {
        let mut lacking = Vec::new(alloc);
        push_lacking(alloc, &self.answers, columns, &mut lacking)?;
        push_lacking(alloc, &self.condition, columns, &mut lacking)?;
        Ok(lacking)
    }
}
