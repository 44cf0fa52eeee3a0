//! The range of a call.
ghost use Rattle.std.specs.Prelude.{◌≡◌, map};
ghost use Rattle.std.specs.List.{list_any};
ghost use Rattle.vortex_functions.specs.Words.{AnswersUnlessMemory, function_of, function_type};
ghost use Rattle.vortex_functions.specs.Words.{function_means, type_of};
ghost use Rattle.vortex_ranges.specs.BoundViews.{range_of};
ghost use Rattle.vortex_ranges.specs.Calls.{AdmitsCalls};
ghost use Rattle.vortex_pruning.specs.Knowing.{with_faults};
ghost use Rattle.vortex_pruning.specs.Exact.{IsCallRange};

use crate::functions::ScalarFnRanges;
use std::alloc::Global;
use vortex_columns::{DType, VortexResult};
use vortex_functions::ScalarFnRef;
use vortex_ranges::{
    Range, between_range, binary_range, cast_range, like_range, not_range, null_test_range,
};

/// The range of a call of that type, from those of its arguments, which do not fault.
pub(crate) fn call_range<'a, C: ScalarFnRanges>(
    alloc: Global,
    function: &ScalarFnRef<C>,
    dtype: &DType,
    inputs: &[Range<'a>],
) -> VortexResult<Range<'a>>
    ensures admits { AnswersUnlessMemory result (λ r. AdmitsCalls
        (function_type C.meaning (function_of function.now))
        (function_means C.meaning (function_of function.now)) (type_of dtype.now)
        (map range_of inputs.now) (range_of r)) }
    ensures shape { AnswersUnlessMemory result (λ r. IsCallRange (function_of function.now)
        (type_of dtype.now) (map range_of inputs.now) (range_of r)) }
{
    match function {
        ScalarFnRef::Binary(operator) => Ok(binary_range(*operator, dtype, inputs)),
        ScalarFnRef::Not => Ok(not_range(inputs)),
        ScalarFnRef::IsNull => Ok(null_test_range(false, inputs)),
        ScalarFnRef::IsNotNull => Ok(null_test_range(true, inputs)),
        ScalarFnRef::Cast => Ok(cast_range(inputs)),
        ScalarFnRef::Between(options) => Ok(between_range(options, inputs)),
        ScalarFnRef::Like(options) => like_range(alloc, *options, dtype, inputs),
        ScalarFnRef::Custom(custom) => {
            Ok(custom.vtable().range(custom.options(), dtype, inputs))
        }
    }
}

/// Whether some argument may fault.
pub(crate) fn any_may_fault(inputs: &[Range<'_>]) -> bool
    ensures { result ≡ list_any (λ r. r.may_fault) inputs.now }
{
    for input in inputs {
        if input.may_fault {
            return true;
        }
    }
    false
}

/// The same range, of what may fault if `faulty`.
pub(crate) fn with_faults<'a>(own: Range<'a>, faulty: bool) -> Range<'a>
    ensures { range_of result ≡ with_faults faulty (range_of own.entry) }
{
    Range {
        may_fault: faulty || own.may_fault,
        may_be_null: own.may_be_null,
        may_be_value: own.may_be_value,
        low: own.low,
        high: own.high,
    }
}
