//! What is asked of a text and a pattern.
ghost use Rattle.std.specs.Prelude.{◌≡◌, IsTrue, IsSome, Some, None, length, map};
ghost use Rattle.vortex_errors.specs.Answers.{Answers};
ghost use Rattle.vortex_errors.specs.Arities.{fits};
ghost use Rattle.vortex_types.specs.TypeOf.{type_of};
ghost use Rattle.vortex_interface.specs.Functions.{IsTypeMismatch};
ghost use Rattle.vortex_interface.specs.Outcomes.{types_in, HasCallRows, IsCallFault};
ghost use Rattle.vortex_sql_rows.specs.Row.{row_type, row_means};
ghost use Rattle.vortex_sql_rows.specs.Signatures.{Describes};
ghost use Rattle.vortex_sql_patterns.specs.PatternFunctions.{gives_of, nulls_of, pattern_row};

use crate::lookups::Lookup;
use crate::matched::matched_cells;
use std::alloc::Global;
use vortex_columns::{Arity, Column, DType, ExecutionCtx, PType, VortexResult};
use vortex_interface::ExecutionArgs;
use vortex_sql_calls::call::{input_types, typed_inputs};
use vortex_sql_calls::column::column_of;
use vortex_sql_rows::row::Signature;
use vortex_sql_rows::types::{Gives, Kind, Nulls, Takes, Types, type_by};

/// A function of a text and a pattern. Case counts unless it says otherwise, and the syntax is that of the toolchain's crate
/// `regex`. A text that is no pattern is a fault.
#[derive(Clone, Copy, Debug, PartialEq, Eq)]
pub enum PatternFunction {
    /// `regexp_like(a, b)`: whether a part of the text `a` matches the pattern `b`.
    Like,
    /// `regexp_substr(a, b)`: the first part that matches; null where none does.
    Substr,
    /// `regexp_instr(a, b)`: with which character, from 1 on, that part begins; 0 where none does.
    Instr,
    /// `regexp_count(a, b)`: how many parts match, one after the other.
    Count,
    /// `a ~* b`: whether a part of the text `a` matches the pattern `b` where case does not count.
    AnyCase,
    /// `a !~ b`: whether no part matches.
    NotLike,
    /// `a !~* b`: whether no part matches where case does not count.
    NotAnyCase,
    /// `textregexsubstr(a, b)`, SQL's `substring(a from b)`: what the first group of the pattern
    /// takes in the first match, or the first part that matches where the pattern has no group.
    /// Null where none does, and where the group takes no part.
    Part,
}

impl PatternFunction {
    /// The type of the result, but for null.
    fn gives(&self) -> Gives
        ensures { result ≡ gives_of self.now }
    {
        match self {
            PatternFunction::Like => Gives::Truth,
            PatternFunction::AnyCase => Gives::Truth,
            PatternFunction::NotLike => Gives::Truth,
            PatternFunction::NotAnyCase => Gives::Truth,
            PatternFunction::Substr => Gives::Text,
            PatternFunction::Part => Gives::Text,
            PatternFunction::Instr => Gives::Integer(PType::I64),
            PatternFunction::Count => Gives::Integer(PType::I64),
        }
    }

    /// Where the result's type has null.
    fn nulls(&self) -> Nulls
        ensures { result ≡ nulls_of self.now }
    {
        match self {
            PatternFunction::Substr => Nulls::Always,
            PatternFunction::Part => Nulls::Always,
            PatternFunction::Like => Nulls::WhereAny,
            PatternFunction::Instr => Nulls::WhereAny,
            PatternFunction::Count => Nulls::WhereAny,
            PatternFunction::AnyCase => Nulls::WhereAny,
            PatternFunction::NotLike => Nulls::WhereAny,
            PatternFunction::NotAnyCase => Nulls::WhereAny,
        }
    }

    /// What the function says of itself.
    pub fn signature(&self) -> Signature
        ensures { Describes (pattern_row self.now) result }
    {
        let id = match self {
            PatternFunction::Like => "sql.regexp_like",
            PatternFunction::Substr => "sql.regexp_substr",
            PatternFunction::Instr => "sql.regexp_instr",
            PatternFunction::Count => "sql.regexp_count",
            PatternFunction::AnyCase => "sql.texticregexeq",
            PatternFunction::NotLike => "sql.textregexne",
            PatternFunction::NotAnyCase => "sql.texticregexne",
            PatternFunction::Part => "sql.textregexsubstr",
        };
        Signature {
            id,
            arity: Arity::Exact(2),
            types: Types {
                takes: Takes::Alike(Kind::Text),
                nulls: self.nulls(),
                gives: self.gives(),
            },
            is_strict: true,
            is_infallible: false,
        }
    }

    /// The type that a call returns; E3 exactly where the types are not taken.
    pub fn return_dtype(&self, alloc: Global, types: &[DType]) -> VortexResult<DType>
        requires { IsTrue (fits (pattern_row self.now).arity (length types.now)) }
        ensures { Answers result
            (λ t. row_type (pattern_row self.now) (map type_of types.now) ≡ Some (type_of t))
            (λ e. (row_type (pattern_row self.now) (map type_of types.now) ≡ None)
            × IsTypeMismatch e) }
    {
        type_by(alloc, self.signature().types, types)
    }

    /// The column of a call. A pattern is compiled once while it stays the same from row to row, so
    /// a constant one once a call.
    pub fn execute<A: ExecutionArgs>(
        &self,
        args: &A,
        ctx: &mut ExecutionCtx,
    ) -> VortexResult<Column>
        requires arity { IsTrue (fits (pattern_row self.now).arity (length (A.inputs args.now))) }
        requires accepted { IsSome
            (row_type (pattern_row self.now) (types_in (A.inputs args.now))) }
        ensures { Answers result
            (HasCallRows (row_type (pattern_row self.now)) (row_means (pattern_row self.now))
            (A.inputs args.now) (A.rows args.now))
            (IsCallFault (row_means (pattern_row self.now)) (A.inputs args.now)
            (A.rows args.now)) }
    {
        let alloc = ctx.alloc();
        typed_inputs(args)?;
        let types = input_types(alloc, args)?;
        let dtype = self.return_dtype(alloc, &types)?;
        let rows = matched_cells(alloc, Lookup::Function(*self), args)?;
        column_of(alloc, &dtype, &rows)
    }
}
