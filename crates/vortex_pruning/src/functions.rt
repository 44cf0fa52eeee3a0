//! The ranges of callers' functions.
ghost use Rattle.std.specs.Prelude.{map};
ghost use Rattle.vortex_types.specs.TypeOf.{type_of};
ghost use Rattle.vortex_ranges.specs.BoundViews.{range_of};
ghost use Rattle.vortex_ranges.specs.Calls.{AdmitsCalls};

use vortex_columns::DType;
use vortex_functions::NoCustom;
use vortex_interface::ScalarFnVTable;
use vortex_ranges::{Range, default_range};

/// A caller's function that knows the ranges of its calls.
pub trait ScalarFnRanges: ScalarFnVTable {
    /// The range of a call of that type, from the ranges of its arguments: it admits the outcome
    /// of the call, whatever arguments they admit. The default is what the function's marks and
    /// the type say.
    fn range<'a>(&self, options: &Self::Options, dtype: &DType, inputs: &[Range<'a>]) -> Range<'a>
        ensures { AdmitsCalls (Self.meaning.return_type self.now options.now)
            (Self.meaning.means self.now options.now) (type_of dtype.now)
            (map range_of inputs.now) (range_of result) }
    {
        default_range(self, options, dtype, inputs)
    }
}

/// No caller's function: its marks say that it does not fault.
impl ScalarFnRanges for NoCustom {}
