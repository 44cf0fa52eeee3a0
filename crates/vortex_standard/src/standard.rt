//! The list of the functions.
ghost use Rattle.std.specs.Prelude.{◌≡◌};
ghost use Rattle.vortex_interface.specs.ValidityRules.{default_rules};
ghost use Rattle.vortex_standard.specs.Standard.{row_of, standard_meaning};
ghost use Rattle.vortex_standard.specs.StandardLaws.{standard_lawful, standard_rules_lawful};
ghost use Rattle.vortex_standard.specs.StandardLaws.{standard_identity};

use crate::dispatch::with_row;
use crate::scales::DecimalScale;
use std::alloc::Global;
use vortex_columns::{Arity, Column, DType, ExecutionCtx, VortexResult};
use vortex_functions::{
    BoundExpression, ChildName, EmptyOptions, ExecutionArgs, ScalarFnId, ScalarFnRef,
    ScalarFnVTable,
};
use vortex_rewriting::{ReduceNodeValidity, ReduceTree, ScalarFnRules, default_validity};
use vortex_sql_calls::call::{execute_rows, row_dtype};
use vortex_sql_calls::maker::{execute_texts, text_dtype};
use vortex_sql_choices::extremes::Extreme;
use vortex_sql_choices::truth_tests::TruthTest;
use vortex_sql_date_formats::from_texts::{TextToDateBy, TextToTimestampBy};
use vortex_sql_dates::parts::{DatePart, TimestampPart};
use vortex_sql_dates::truncations::{DateTrunc, TimestampTrunc};
use vortex_sql_float_columns::execute_float_operator;
use vortex_sql_float_functions::functions::FloatFunction;
use vortex_sql_float_functions::places::FloatPlaces;
use vortex_sql_floats::decimals::DecimalToFloat;
use vortex_sql_floats::floats::FloatOperator;
use vortex_sql_floats::integers::FloatToInt;
use vortex_sql_in_list::execute_in_list;
use vortex_sql_kind_texts::decimals::DecimalRound;
use vortex_sql_kind_texts::float_decimals::FloatToDecimal;
use vortex_sql_kind_texts::float_texts::FloatToText;
use vortex_sql_kind_texts::from_texts::{TextToDecimal, TextToKind};
use vortex_sql_kind_texts::scales::DecimalScaled;
use vortex_sql_kind_texts::to_texts::KindToText;
use vortex_sql_numbers::bits::{BitOperator, Shift};
use vortex_sql_numbers::integer_casts::{Cast, Widen};
use vortex_sql_numbers::truth_casts::TruthToInt;
use vortex_sql_pads::pads::Pad;
use vortex_sql_patterns::functions::PatternFunction;
use vortex_sql_rows::row::{RowFn, TextFn};
use vortex_sql_rows::types::Takes;
use vortex_sql_texts::letters::Letters;
use vortex_sql_texts::parts::Side;
use vortex_sql_texts::text_casts::{TextToInt, TextToTruth};
use vortex_sql_texts::texts::Measure;
use vortex_sql_texts::trims::Trim;
use vortex_sql_try_casts::try_fn::Try;

/// A function of SQL.
#[derive(Clone, Copy, Debug, PartialEq, Eq)]
pub enum Standard {
    Coalesce,
    NullIf,
    Case,
    InList,
    IsDistinct,
    Remainder,
    Sign,
    Abs,
    BitNot,
    IntToTruth,
    TruthToText,
    StartsWith,
    Substr,
    StrPos,
    TextToTruth,
    Concat,
    IntToText,
    SplitPart,
    Replace,
    Repeat,
    Reverse,
    ConcatAll,
    Initcap,
    RegexpReplace,
    RegexpExtract,
    ConcatWs,
    Ascii,
    Chr,
    ToHex,
    BitLength,
    Translate,
    Overlay,
    Space,
    TryTextToTruth,
    FloatNegate,
    IntToFloat,
    WidenFloat,
    DateToTimestamp,
    TimestampToDate,
    MakeDate,
    DateAddMonths,
    TimestampAddMonths,
    DateToChar,
    TimestampToChar,
    TextToDateBy,
    TextToTimestampBy,
    TryTextToDateBy,
    TryTextToTimestampBy,
    TextToDecimal,
    TryTextToDecimal,
    DecimalToText,
    DecimalScaled,
    TryDecimalScaled,
    FloatToDecimal,
    TryFloatToDecimal,
    Extreme(Extreme),
    TruthTest(TruthTest),
    BitOperator(BitOperator),
    Shift(Shift),
    Cast(Cast),
    Widen(Widen),
    TruthToInt(TruthToInt),
    Measure(Measure),
    Side(Side),
    Trim(Trim),
    TextToInt(TextToInt),
    TryCast(Cast),
    TryTextToInt(TextToInt),
    Letters(Letters),
    Pad(Pad),
    FloatOperator(FloatOperator),
    DecimalToFloat(DecimalScale),
    FloatToInt(FloatToInt),
    TryFloatToInt(FloatToInt),
    FloatFunction(FloatFunction),
    FloatPlaces(FloatPlaces),
    DatePart(DatePart),
    TimestampPart(TimestampPart),
    DateTrunc(DateTrunc),
    TimestampTrunc(TimestampTrunc),
    TextToKind(TextToKind),
    TryTextToKind(TextToKind),
    KindToText(KindToText),
    FloatToText(FloatToText),
    DecimalRound(DecimalRound),
    PatternFunction(PatternFunction),
}

impl Standard {
    /// Which arguments the function takes.
    pub fn takes(&self) -> Takes
        ensures { result ≡ (row_of self.now).types.takes }
    {
        with_row!(self, f => f.signature().types.takes, f.signature().types.takes)
    }
}

impl ScalarFnVTable for Standard {
    type Options = EmptyOptions;

    ghost meaning = { standard_meaning };

    ghost rules = { default_rules standard_meaning };

    fn id(&self) -> ScalarFnId {
        with_row!(self, f => f.signature().id, f.signature().id)
    }

    fn arity(&self, _options: &EmptyOptions) -> Arity {
        with_row!(self, f => f.signature().arity, f.signature().arity)
    }

    fn child_name(&self, _options: &EmptyOptions, _index: usize) -> ChildName {
        "input"
    }

    fn return_dtype(
        &self,
        alloc: Global,
        _options: &EmptyOptions,
        types: &[DType],
    ) -> VortexResult<DType> {
        with_row!(
            self,
            f => row_dtype(alloc, f, types),
            text_dtype(alloc, f, types),
            f.return_dtype(alloc, types)
        )
    }

    fn execute<A: ExecutionArgs>(
        &self,
        _options: &EmptyOptions,
        args: &A,
        ctx: &mut ExecutionCtx,
    ) -> VortexResult<Column> {
        if let Standard::InList = self {
            return execute_in_list(args, ctx);
        }
        if let Standard::FloatOperator(operator) = self {
            return execute_float_operator(*operator, args, ctx);
        }
        with_row!(
            self,
            f => execute_rows(f, args, ctx),
            execute_texts(f, args, ctx),
            f.execute(args, ctx)
        )
    }

    fn is_strict(&self, _options: &EmptyOptions) -> bool {
        with_row!(self, f => f.signature().is_strict, f.signature().is_strict)
    }

    fn is_infallible(&self, _options: &EmptyOptions) -> bool {
        with_row!(self, f => f.signature().is_infallible, f.signature().is_infallible)
    }

    fn try_clone(&self, _alloc: Global) -> VortexResult<Standard> {
        Ok(*self)
    }

    fn clone_options(&self, _alloc: Global, _options: &EmptyOptions) -> VortexResult<EmptyOptions> {
        Ok(EmptyOptions)
    }

    ghost lawful = { standard_lawful };
}

impl ScalarFnRules for Standard {
    fn reduce<T: ReduceTree<Standard>>(
        &self,
        _alloc: Global,
        _options: &EmptyOptions,
        _node: &T,
    ) -> VortexResult<Option<T>> {
        Ok(None)
    }

    fn validity<T: ReduceTree<Standard>>(
        &self,
        alloc: Global,
        options: &EmptyOptions,
        node: &T,
    ) -> VortexResult<ReduceNodeValidity<T>> {
        let options = self.clone_options(alloc, options)?;
        let function = ScalarFnRef::custom(self.try_clone(alloc)?, options);
        default_validity(alloc, &function, node)
    }

    fn simplify(
        &self,
        _alloc: Global,
        _options: &EmptyOptions,
        _expression: &BoundExpression<Standard>,
    ) -> VortexResult<Option<BoundExpression<Standard>>> {
        Ok(None)
    }

    ghost rules_lawful = { standard_rules_lawful };

    ghost own_identity = { standard_identity };
}
