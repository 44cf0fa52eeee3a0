//! Laws of the meaning of trees. The functions are empty: their contracts are the laws, proved.
ghost use Rattle.vortex_interface.specs.ComparisonTrees.{InverseNegates, SwapTurns};
ghost use Rattle.vortex_interface.specs.ArithmeticFaults.{ErrsWhereArithmeticDoes};
ghost use Rattle.vortex_interface.specs.Batches.{BatchesAnswerAsOne};

use crate::vtable::ScalarFnVTable;

/// `not (a op b)` and `a inverse b` have the same outcome in every row, for each comparison and all
/// trees `a` and `b`.
pub fn inverse_negates<C: ScalarFnVTable>()
    ensures { InverseNegates C.meaning }
{}

/// `a op b` and `b swap a` have the same value or both fault, in every row, for each operator that
/// can be swapped and all trees `a` and `b`.
pub fn swap_turns<C: ScalarFnVTable>()
    ensures { SwapTurns C.meaning }
{}

/// When executing fails: for a tree of shipped functions whose leaves match columns of one length,
/// `BoundExpression::execute` fails, unless memory runs out, exactly where in some row a call of
/// arithmetic has two operands that are not null, whose exact result their type does not hold: an
/// overflow, or a division by zero. The error is then E7 of such a call, and the fault of the first
/// call that faults, children before their parent and from left to right. It never fails over no
/// rows.
pub fn errs_where_arithmetic_does<C: ScalarFnVTable>()
    ensures { ErrsWhereArithmeticDoes C.meaning }
{}

/// A table in batches: for an expression whose leaves match columns of one length, the rows that
/// `BoundExpression::execute` returns over batches, one after another, are the rows that it returns
/// over the whole; and some batch fails, unless memory runs out, exactly where the whole does. The
/// rows may be cut anywhere, and a batch may be empty.
pub fn batches_answer_as_one<C: ScalarFnVTable>()
    ensures { BatchesAnswerAsOne C.meaning }
{}
