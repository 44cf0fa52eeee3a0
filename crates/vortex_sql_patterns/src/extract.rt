//! The part of a text that a group of a pattern takes: `regexp_extract`.
ghost use Rattle.std.specs.Prelude.{◌≡◌, IsTrue, IsSome, Some, None, length, map};
ghost use Rattle.vortex_errors.specs.Answers.{Answers};
ghost use Rattle.vortex_errors.specs.Arities.{fits};
ghost use Rattle.vortex_types.specs.TypeOf.{type_of};
ghost use Rattle.vortex_interface.specs.Functions.{IsTypeMismatch};
ghost use Rattle.vortex_interface.specs.Outcomes.{types_in, HasCallRows, IsCallFault};
ghost use Rattle.vortex_sql_rows.specs.Row.{row_type, row_means};
ghost use Rattle.vortex_sql_rows.specs.Signatures.{Describes};
ghost use Rattle.vortex_sql_patterns.specs.RegexpExtract.{regexp_extract_row};

use crate::lookups::Lookup;
use crate::matched::matched_cells;
use std::alloc::Global;
use vortex_columns::{Arity, Column, DType, ExecutionCtx, VortexResult};
use vortex_interface::ExecutionArgs;
use vortex_sql_calls::call::{input_types, typed_inputs};
use vortex_sql_calls::column::column_of;
use vortex_sql_rows::row::Signature;
use vortex_sql_rows::types::{Gives, Kind, Nulls, Takes, Types, type_by};

/// `regexp_extract(a, pattern, n)`: the part of the text `a` that group `n` of the pattern takes in
/// the first match, where group 0 is the match. Null where nothing matches, where the group takes no
/// part, and where the pattern has no such group.
pub struct RegexpExtract;

impl RegexpExtract {
    /// What the function says of itself.
    pub fn signature(&self) -> Signature
        ensures { Describes regexp_extract_row result }
    {
        Signature {
            id: "sql.regexp_extract",
            arity: Arity::Exact(3),
            types: Types {
                takes: Takes::Each(Kind::Text, Kind::Text, Kind::Integer),
                nulls: Nulls::Always,
                gives: Gives::Text,
            },
            is_strict: true,
            is_infallible: false,
        }
    }

    /// The type that a call returns; E3 exactly where the types are not taken.
    pub fn return_dtype(&self, alloc: Global, types: &[DType]) -> VortexResult<DType>
        requires { IsTrue (fits regexp_extract_row.arity (length types.now)) }
        ensures { Answers result
            (λ t. row_type regexp_extract_row (map type_of types.now) ≡ Some (type_of t))
            (λ e. (row_type regexp_extract_row (map type_of types.now) ≡ None) × IsTypeMismatch e) }
    {
        type_by(alloc, self.signature().types, types)
    }

    /// The column of a call. A pattern is compiled once while it stays the same from row to row, so
    /// a constant one once a call.
    pub fn execute<A: ExecutionArgs>(
        &self,
        args: &A,
        ctx: &mut ExecutionCtx,
    ) -> VortexResult<Column>
        requires arity { IsTrue (fits regexp_extract_row.arity (length (A.inputs args.now))) }
        requires accepted { IsSome (row_type regexp_extract_row (types_in (A.inputs args.now))) }
        ensures { Answers result
            (HasCallRows (row_type regexp_extract_row) (row_means regexp_extract_row)
            (A.inputs args.now) (A.rows args.now))
            (IsCallFault (row_means regexp_extract_row) (A.inputs args.now) (A.rows args.now)) }
    {
        let alloc = ctx.alloc();
        typed_inputs(args)?;
        let types = input_types(alloc, args)?;
        let dtype = self.return_dtype(alloc, &types)?;
        let rows = matched_cells(alloc, Lookup::Group, args)?;
        column_of(alloc, &dtype, &rows)
    }
}
