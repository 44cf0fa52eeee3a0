//! What the marks of a function say of its calls.
ghost use Rattle.std.specs.Prelude.{◌≡◌, not, map};
ghost use Rattle.std.specs.List.{list_any};
ghost use Rattle.vortex_types.specs.TypeOf.{type_of};
ghost use Rattle.vortex_ranges.specs.BoundViews.{range_of};
ghost use Rattle.vortex_ranges.specs.Calls.{AdmitsCalls};

use crate::range::Range;
use vortex_interface::ScalarFnVTable;
use vortex_types::DType;

/// Whether some argument is null in each row.
fn any_is_null(inputs: &[Range<'_>]) -> bool
    ensures { result ≡ list_any (λ r. not r.may_be_value) inputs.now }
{
    for input in inputs {
        if !input.may_be_value {
            return true;
        }
    }
    false
}

/// What the marks of a function and the type of a call say: null alone where the function is strict
/// and an argument is always null, else any value of the type; and no fault where it is infallible.
pub fn default_range<'a, C: ScalarFnVTable>(
    function: &C,
    options: &C::Options,
    dtype: &DType,
    inputs: &[Range<'_>],
) -> Range<'a>
    ensures { AdmitsCalls (C.meaning.return_type function.now options.now)
        (C.meaning.means function.now options.now) (type_of dtype.now)
        (map range_of inputs.now) (range_of result) }
{
    let may_fault = !function.is_infallible(options);
    if function.is_strict(options) && any_is_null(inputs) {
        return Range {
            may_fault,
            may_be_null: true,
            may_be_value: false,
            low: None,
            high: None,
        };
    }
    Range::of_type(dtype, may_fault)
}
