//! Laws of the meaning of array trees, and of push-down. The functions are empty: their contracts
//! are the laws, proved.
ghost use Rattle.vortex_arrays.specs.Words.{ArraysErrWhereArithmeticDoes};
ghost use Rattle.vortex_arrays.specs.Words.{ErrsWhereRowsFault, RowsAreOfRows};

use vortex_functions::ScalarFnVTable;

/// When executing an array fails: for an array tree of only shipped functions, `ArrayRef::execute`
/// fails, unless memory runs out, exactly where in some row a call of arithmetic has two operands
/// that are not null, whose exact result their type does not hold: an overflow, or a division by
/// zero. The error is E7 of such a call. It never fails over no rows.
pub fn arrays_err_where_arithmetic_does<C: ScalarFnVTable>()
    ensures { ArraysErrWhereArithmeticDoes C.meaning }
{}

/// The rows of a push-down's result are the function of the rows of the dictionary.
pub fn rows_are_of_rows<C: ScalarFnVTable>()
    ensures { RowsAreOfRows C.meaning }
{}

/// None, E3, E6 and E9 aside, a push-down fails exactly where the function of one of the rows
/// faults, and its error is the fault of a row.
pub fn errs_where_rows_fault<C: ScalarFnVTable>()
    ensures { ErrsWhereRowsFault C.meaning }
{}
