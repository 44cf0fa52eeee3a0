//! A function with its options: a shipped one or a caller's.
ghost use Rattle.std.specs.Prelude.{◌≡◌, Some, None, IsTrue, IsSome, MatchResult, length, map};
ghost use Rattle.vortex_functions.specs.Words.{types_in, fits, function_of, function_id};
ghost use Rattle.vortex_functions.specs.Words.{function_arity, function_child_name, function_type};
ghost use Rattle.vortex_functions.specs.Words.{function_strict, function_infallible};
ghost use Rattle.vortex_functions.specs.Words.{AnswersUnlessMemory, AnswersFunctionType};
ghost use Rattle.vortex_functions.specs.Words.{AnswersFunction, added, WritesBeforeOf};

use crate::ext::ScalarFnVTableExt;
use crate::typed::TypedScalarFnInstance;
use std::alloc::Global;
use vortex_columns::{Arity, Column, DType, ExecutionCtx, VortexResult};
use vortex_interface::{ChildName, ExecutionArgs, ScalarFnId, ScalarFnVTable};
use vortex_kernels::{BetweenOptions, Operator};
use vortex_like::LikeOptions;
use vortex_shipped::{Between, Binary, Cast, IsNotNull, IsNull, Like, Not};

/// The list of the functions, each with its interface and its options.
macro_rules! with_function {
    ($function:expr, $f:ident, $options:ident => $body:expr) => {
        match $function {
            ScalarFnRef::Binary(operator) => {
                let $f = &vortex_shipped::Binary;
                let $options = operator;
                $body
            }
            ScalarFnRef::Not => {
                let $f = &vortex_shipped::Not;
                let $options = &vortex_interface::EmptyOptions;
                $body
            }
            ScalarFnRef::IsNull => {
                let $f = &vortex_shipped::IsNull;
                let $options = &vortex_interface::EmptyOptions;
                $body
            }
            ScalarFnRef::IsNotNull => {
                let $f = &vortex_shipped::IsNotNull;
                let $options = &vortex_interface::EmptyOptions;
                $body
            }
            ScalarFnRef::Cast => {
                let $f = &vortex_shipped::Cast;
                let $options = &vortex_shipped::CastOptions;
                $body
            }
            ScalarFnRef::Between(between_options) => {
                let $f = &vortex_shipped::Between;
                let $options = between_options;
                $body
            }
            ScalarFnRef::Like(like) => {
                let $f = &vortex_shipped::Like;
                let $options = like;
                $body
            }
            ScalarFnRef::Custom(custom) => {
                let $f = custom.vtable();
                let $options = custom.options();
                $body
            }
        }
    };
}

pub(crate) use with_function;

/// A function with its options: a shipped one, or a caller's of type `C`.
///
/// Two are equal where they are the same shipped function with the same options, or two of a
/// caller's with one identity and equal options. Equal ones hash equally.
#[derive(Drop)]
#[derive_where(PartialEq, Eq, Hash)]
pub enum ScalarFnRef<C: ScalarFnVTable> {
    Binary(Operator),
    Not,
    IsNull,
    IsNotNull,
    Cast,
    Between(BetweenOptions),
    Like(LikeOptions),
    Custom(TypedScalarFnInstance<C>),
}

/// Functions, before they are called.
#[derive(Clone, Copy, Debug, PartialEq, Eq)]
pub struct ScalarFnSignature {
    pub arity: Arity,
    pub is_strict: bool,
    pub is_infallible: bool,
}

impl<C: ScalarFnVTable> ScalarFnRef<C> {
    ghost use Rattle.std.specs.Option.{option_copied, option_map};
    ghost use Rattle.vortex_interface.specs.Functions.{ours};
    ghost use Rattle.vortex_interface.specs.Shipped.{shipped_named, shipped_called};
    ghost use Rattle.vortex_functions.specs.FunctionOf.{escaped_function};
    ghost use Rattle.vortex_functions.specs.FunctionOf.{operator_in, between_in, like_in};
    ghost use Rattle.vortex_functions.specs.FunctionOf.{instance_in};
    ghost use Rattle.vortex_functions.specs.FunctionOf.{is_not, is_is_null, is_is_not_null};
    ghost use Rattle.vortex_functions.specs.FunctionOf.{is_cast};

    /// A caller's function with its options.
    pub fn custom(vtable: C, options: C::Options) -> ScalarFnRef<C>
        ensures { result ≡ ScalarFnRef.Custom (record { vtable = vtable; options = options }) }
    {
        ScalarFnRef::Custom(TypedScalarFnInstance::new(vtable, options))
    }

    /// The identity, as `vortex.binary`.
    pub fn id(&self) -> ScalarFnId
        ensures { result.now ≡ function_id C.meaning (function_of self.now) }
    {
        with_function!(self, f, _options => f.id())
    }

    /// The operator, if it is Binary.
    pub fn as_binary(&self) -> Option<Operator>
        ensures { result ≡ operator_in self.now }
    {
        match self {
            ScalarFnRef::Binary(operator) => Some(*operator),
            _ => None,
        }
    }

    /// Whether it is Not.
    pub fn is_not(&self) -> bool
        ensures { result ≡ is_not self.now }
    {
        match self {
            ScalarFnRef::Not => true,
            _ => false,
        }
    }

    /// Whether it is IsNull.
    pub fn is_is_null(&self) -> bool
        ensures { result ≡ is_is_null self.now }
    {
        match self {
            ScalarFnRef::IsNull => true,
            _ => false,
        }
    }

    /// Whether it is IsNotNull.
    pub fn is_is_not_null(&self) -> bool
        ensures { result ≡ is_is_not_null self.now }
    {
        match self {
            ScalarFnRef::IsNotNull => true,
            _ => false,
        }
    }

    /// Whether it is Cast.
    pub fn is_cast(&self) -> bool
        ensures { result ≡ is_cast self.now }
    {
        match self {
            ScalarFnRef::Cast => true,
            _ => false,
        }
    }

    /// The options, if it is Between.
    pub fn as_between(&self) -> Option<BetweenOptions>
        ensures { result ≡ between_in self.now }
    {
        match self {
            ScalarFnRef::Between(options) => Some(BetweenOptions {
                lower_strict: options.lower_strict,
                upper_strict: options.upper_strict,
            }),
            _ => None,
        }
    }

    /// The options, if it is Like.
    pub fn as_like(&self) -> Option<LikeOptions>
        ensures { result ≡ like_in self.now }
    {
        match self {
            ScalarFnRef::Like(options) => Some(*options),
            _ => None,
        }
    }

    /// The caller's function with its options, borrowed.
    pub fn as_custom(&self) -> Option<&TypedScalarFnInstance<C>>
        ensures { option_copied result ≡ instance_in self.now }
    {
        match self {
            ScalarFnRef::Custom(f) => Some(f),
            _ => None,
        }
    }

    /// The caller's function with its options; else the shipped function is returned.
    pub fn into_custom(self) -> Result<TypedScalarFnInstance<C>, ScalarFnRef<C>>
        ensures { MatchResult result
            (λ f. instance_in self ≡ Some f) (λ f. (f ≡ self) × (instance_in self ≡ None)) }
    {
        match self {
            ScalarFnRef::Custom(f) => Ok(f),
            f => Err(f),
        }
    }

    /// How many arguments it takes, and its marks.
    pub fn signature(&self) -> ScalarFnSignature
        ensures arity { result.arity ≡ function_arity C.meaning (function_of self.now) }
        ensures strict { result.is_strict ≡ function_strict C.meaning (function_of self.now) }
        ensures infallible { result.is_infallible
            ≡ function_infallible C.meaning (function_of self.now) }
    {
        with_function!(self, f, options => ScalarFnSignature {
            arity: f.arity(options),
            is_strict: f.is_strict(options),
            is_infallible: f.is_infallible(options),
        })
    }

    /// What a call of it adds to the weight of its children, if the call is nullable or not.
    pub fn added_weight(&self, nullable: bool) -> u64
        ensures { result ≡ added (function_of self.now) nullable }
    {
        match self {
            ScalarFnRef::Binary(Operator::And) | ScalarFnRef::Binary(Operator::Or) => {
                if nullable { 3 } else { 1 }
            }
            ScalarFnRef::Binary(_) => 5,
            ScalarFnRef::Not => if nullable { 2 } else { 1 },
            ScalarFnRef::IsNull | ScalarFnRef::IsNotNull => 2,
            ScalarFnRef::Cast | ScalarFnRef::Between(_) | ScalarFnRef::Custom(_) => 1,
            ScalarFnRef::Like(_) => 5,
        }
    }

    /// The name of an argument, as `lhs`; past the arguments of a call any name.
    pub fn child_name(&self, index: usize) -> ChildName
        ensures { result.now ≡ function_child_name C.meaning (function_of self.now) index }
    {
        with_function!(self, f, options => f.child_name(options, index))
    }

    /// The return type for argument types of a fitting count; E3 exactly if they are not accepted.
    /// A shipped function allocates nothing.
    pub fn return_dtype(&self, alloc: Global, types: &[DType]) -> VortexResult<DType>
        requires { IsTrue (fits (function_arity C.meaning (function_of self.now))
            (length types.now)) }
        ensures { AnswersFunctionType C.meaning (function_of self.now) types.now result }
    {
        with_function!(self, f, options => f.return_dtype(alloc, options, types))
    }

    /// The result over inputs of accepted types: a column of the return type, with each row's
    /// value, or the fault of a row.
    pub fn execute<A: ExecutionArgs>(
        &self,
        args: &A,
        ctx: &mut ExecutionCtx,
    ) -> VortexResult<Column>
        requires arity { IsTrue
            (fits (function_arity C.meaning (function_of self.now)) (length (A.inputs args.now))) }
        requires accepted { IsSome
            (function_type C.meaning (function_of self.now) (types_in (A.inputs args.now))) }
        ensures { AnswersFunction C.meaning (function_of self.now)
            (A.inputs args.now) (A.rows args.now) result }
    {
        with_function!(self, f, options => f.execute(options, args, ctx))
    }

    /// Appends the text of a call of `count` arguments that comes before the one that is printed
    /// `index`-th, and returns which argument that is; at the end, where `index` is `count`,
    /// returns `count`. The text of a caller's function is unspecified. Fails only where memory
    /// runs out.
    pub(crate) fn write_before(
        &self,
        alloc: Global,
        index: usize,
        count: usize,
        out: &mut String,
    ) -> VortexResult<usize>
        ensures { AnswersUnlessMemory result
            (WritesBeforeOf (function_of self.now) index out.old out.new) }
    {
        with_function!(self, f, options => f.write_before(alloc, options, index, count, out))
    }

    /// The shipped function that words of a script name, as `and`, or `between`, `<` and `<=`.
    pub fn named(words: &[&str]) -> Option<ScalarFnRef<C>>
        ensures { option_map function_of result
            ≡ option_map ours (shipped_named (map (λ w. w.now) words.now)) }
    {
        if let Some(operator) = Binary.named(words) {
            return Some(Binary.bind(operator));
        }
        if let Some(options) = Not.named(words) {
            return Some(Not.bind(options));
        }
        if let Some(options) = IsNull.named(words) {
            return Some(IsNull.bind(options));
        }
        if let Some(options) = IsNotNull.named(words) {
            return Some(IsNotNull.bind(options));
        }
        if let Some(options) = Cast.named(words) {
            return Some(Cast.bind(options));
        }
        if let Some(options) = Between.named(words) {
            return Some(Between.bind(options));
        }
        if let Some(options) = Like.named(words) {
            return Some(Like.bind(options));
        }
        None
    }

    /// The same function with that escape, which only Like has.
    fn with_escape(self, escape: Option<char>) -> Option<ScalarFnRef<C>>
        ensures { option_map function_of result ≡ escaped_function escape (function_of self) }
    {
        match self {
            ScalarFnRef::Like(options) => Some(ScalarFnRef::Like(LikeOptions {
                escape,
                ..options
            })),
            _ => None,
        }
    }

    /// The shipped function that a script calls: the one that the words name, with the escape if
    /// one is given.
    pub fn called(words: &[&str], escape: Option<Option<char>>) -> Option<ScalarFnRef<C>>
        ensures { option_map function_of result
            ≡ option_map ours (shipped_called (map (λ w. w.now) words.now) escape) }
    {
        let function = ScalarFnRef::<C>::named(words)?;
        match escape {
            Some(escape) => function.with_escape(escape),
            None => Some(function),
        }
    }

    /// A copy that equals its source.
    pub fn try_clone(&self, alloc: Global) -> VortexResult<ScalarFnRef<C>>
        ensures { AnswersUnlessMemory result (λ f. f ≡ self.now) }
    {
        match self {
            ScalarFnRef::Binary(operator) => Ok(ScalarFnRef::Binary(*operator)),
            ScalarFnRef::Not => Ok(ScalarFnRef::Not),
            ScalarFnRef::IsNull => Ok(ScalarFnRef::IsNull),
            ScalarFnRef::IsNotNull => Ok(ScalarFnRef::IsNotNull),
            ScalarFnRef::Cast => Ok(ScalarFnRef::Cast),
            ScalarFnRef::Between(options) => Ok(ScalarFnRef::Between(options.clone()?)),
            ScalarFnRef::Like(options) => Ok(ScalarFnRef::Like(*options)),
            ScalarFnRef::Custom(f) => {
                let options = f.vtable().clone_options(alloc, f.options())?;
                let vtable = f.vtable().try_clone(alloc)?;
                Ok(ScalarFnRef::custom(vtable, options))
            }
        }
    }
}
