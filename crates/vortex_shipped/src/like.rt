//! LIKE and ILIKE of a text and a pattern.
ghost use Rattle.std.specs.Prelude.{◌≡◌, Some};
ghost use Rattle.vortex_interface.specs.Shipped as shipped;
ghost use Rattle.vortex_shipped.specs.Words.{no_rules, AnswersUnlessMemory};
ghost use Rattle.vortex_shipped.specs.Words.{WritesBefore, AppendsCall, like_id, like_words};
ghost use Rattle.vortex_shipped.specs.Words.{escape_text, Appends};
ghost use Rattle.vortex_shipped.specs.Words.{shipped_meaning, shipped_lawful, AnswersShippedType};
ghost use Rattle.vortex_shipped.specs.Words.{shipped_parts, WritesBytes, ReadsOptions};
ghost use Rattle.vortex_shipped.specs.Words.{like_bytes, like_read};

use crate::texts::CallText;
use std::alloc::Global;
use vortex_columns::{
    Arity, Column, DType, ExecutionCtx, MismatchPlace, VortexError, VortexResult,
};
use vortex_interface::{ChildName, ExecutionArgs, ScalarFnId, ScalarFnVTable};
use vortex_like::{LikeOptions, execute_like};

/// Whether a text matches a pattern of SQL's LIKE, whose `escape` is the backslash by default,
/// another character or none; with `case_insensitive` ILIKE, by Unicode's simple case folding, one
/// character at a time; negated if `negated`. Bool for two Utf8, nullable if either is, and null
/// where either is. A null row's pattern is not read.
#[derive(Clone, Drop)]
pub struct Like;

/// The words between the two arguments, as ` not like `.
fn words(options: &LikeOptions) -> &'static str
    ensures { result.now ≡ like_words options.now }
{
    match (options.negated, options.case_insensitive) {
        (false, false) => " like ",
        (true, false) => " not like ",
        (false, true) => " ilike ",
        (true, true) => " not ilike ",
    }
}

/// Writes what follows the two arguments: nothing if the escape is the backslash, else the escape
/// in quotes, unchanged.
fn write_escape(out: &mut String, escape: Option<char>) -> VortexResult<()>
    ensures { AnswersUnlessMemory result (λ _. Appends out.old (escape_text escape) out.new) }
{
    match escape {
        Some('\\') => {}
        Some(c) => {
            out.push_str(" escape '")?;
            out.push(c)?;
            out.push_str("'")?;
        }
        None => out.push_str(" escape ''")?,
    }
    Ok(())
}

impl ScalarFnVTable for Like {
    type Options = LikeOptions;

    ghost meaning = { shipped_meaning like_id shipped.Like };

    ghost rules = { no_rules };

    ghost option_bytes = { λ f options. Some (like_bytes options) };

    ghost options_read = { λ f bytes. like_read bytes };

    ghost own_parts = { λ f options. shipped_parts (shipped.Like options) };

    fn id(&self) -> ScalarFnId {
        "vortex.like"
    }

    /// One byte: bit 0 if negated, bit 1 if case insensitive. An escape other than the backslash
    /// sets bit 2 and follows as four bytes, big-endian; no escape sets bit 3.
    fn serialize(&self, alloc: Global, options: &LikeOptions) -> VortexResult<Option<Vec<u8>>>
        ensures { AnswersUnlessMemory result (WritesBytes (Some (like_bytes options.now))) }
    {
        Ok(Some(options.to_bytes(alloc)?))
    }

    /// E8 exactly if no options are written as these bytes; allocates nothing.
    fn deserialize(&self, _alloc: Global, bytes: &[u8]) -> VortexResult<LikeOptions>
        ensures { ReadsOptions (like_read bytes.now) result }
    {
        LikeOptions::from_bytes(bytes).ok_or(VortexError::BadOptions)
    }

    fn arity(&self, _options: &LikeOptions) -> Arity {
        Arity::Exact(2)
    }

    fn child_name(&self, _options: &LikeOptions, index: usize) -> ChildName {
        if index == 0 { "child" } else { "pattern" }
    }

    fn return_dtype(
        &self,
        _alloc: Global,
        options: &LikeOptions,
        types: &[DType],
    ) -> VortexResult<DType>
        ensures { AnswersShippedType (shipped.Like options.now) types.now result }
    {
        match types {
            [DType::Utf8(input), DType::Utf8(pattern)] => Ok(DType::Bool(*input | *pattern)),
            [DType::Utf8(..), ..] => Err(VortexError::TypeMismatch(MismatchPlace::LikePattern)),
            _ => Err(VortexError::TypeMismatch(MismatchPlace::LikeInput)),
        }
    }

    fn execute<A: ExecutionArgs>(
        &self,
        options: &LikeOptions,
        args: &A,
        ctx: &mut ExecutionCtx,
    ) -> VortexResult<Column> {
        let input = args.get(0)?;
        let pattern = args.get(1)?;
        execute_like(input, pattern, *options, ctx)
    }

    /// `a like p`, `a not like p`, `a ilike p` or `a not ilike p`, with ` escape '!'` or ` escape
    /// ''` after it if the escape is not the backslash.
    fn write_before(
        &self,
        _alloc: Global,
        options: &LikeOptions,
        index: usize,
        _count: usize,
        out: &mut String,
    ) -> VortexResult<usize>
        ensures { AnswersUnlessMemory result
            (WritesBefore (shipped.Like options.now) index out.old out.new) }
    {
        self.write_part(options, index, out)
    }

    /// `a like p`, `a not like p`, `a ilike p` or `a not ilike p`, with ` escape '!'` or ` escape
    /// ''` after it if the escape is not the backslash.
    fn fmt_sql(
        &self,
        _alloc: Global,
        options: &LikeOptions,
        children: &[String],
        out: &mut String,
    ) -> VortexResult<()>
        ensures { AnswersUnlessMemory result
            (λ _. AppendsCall (shipped.Like options.now) children.now out.old out.new) }
    {
        self.write_call(options, children, out)
    }

    fn is_strict(&self, _options: &LikeOptions) -> bool {
        true
    }

    fn is_infallible(&self, _options: &LikeOptions) -> bool {
        true
    }

    fn try_clone(&self, _alloc: Global) -> VortexResult<Like> {
        Ok(Like)
    }

    fn clone_options(&self, _alloc: Global, options: &LikeOptions) -> VortexResult<LikeOptions> {
        Ok(*options)
    }

    ghost lawful = { shipped_lawful like_id shipped.Like };
}

/// `a like p`, `a not like p`, `a ilike p` or `a not ilike p`, with ` escape '!'` or ` escape
/// ''` after it if the escape is not the backslash.
impl CallText<LikeOptions> for Like {
    ghost call = { shipped.Like };

    fn write_part(
        &self,
        options: &LikeOptions,
        index: usize,
        out: &mut String,
    ) -> VortexResult<usize> {
        match index {
            0 => {}
            1 => out.push_str(words(options))?,
            _ => write_escape(out, options.escape)?,
        }
        Ok(index)
    }
}
