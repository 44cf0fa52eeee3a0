//! Laws of texts and their trees.
ghost use Rattle.std.specs.Prelude.{◌≡◌, Some, ℕ, List};
ghost use Rattle.vortex_types.specs.LogicalTypes.{Fields};
ghost use Rattle.vortex_expressions.specs.Items as items;
ghost use Rattle.vortex_expressions.specs.Binding.{Expresses};
ghost use Rattle.vortex_expressions.specs.Writing.{IsOver, text_of_tree};
ghost use Rattle.vortex_logical.specs.declared.kind.Kind.{Kind};
ghost use Rattle.vortex_expressions.specs.RowLaws.{TextsMeanTheirRows};

use vortex_logical_calls::laws::{
    bounds_go_by_order, comparisons_go_by_order, computations_are_exact, instants_elapse,
    instants_move, intervals_move, kinds_meet, spans_compute, values_are_aligned,
};

/// The text of a tree over the columns of a scope means that tree.
pub fn text_back()
    ensures { (scope : Fields) (tree : items.Tree) (text : List ℕ) → IsOver scope tree
        → text_of_tree tree ≡ Some text → Expresses scope text tree }
{}

/// The tree that a text means fits the scope.
pub fn over_scope()
    ensures { (scope : Fields) (text : List ℕ) (tree : items.Tree) → Expresses scope text tree
        → IsOver scope tree }
{}

/// The text of a tree that a text means, means that tree.
pub fn text_is_read_back()
    ensures { (scope : Fields) (text other : List ℕ) (tree : items.Tree)
        → Expresses scope text tree → text_of_tree tree ≡ Some other
        → Expresses scope other tree }
{}

/// Each comparison, each BETWEEN and each operator of arithmetic between values of kinds in a text
/// means in each row what its operands mean there: dates, timestamps, decimals and floats in their
/// order, and exact sums, differences and products. Operands are as they become next to each other: a
/// whole number next to a float is the nearest float. An interval moves a date or a timestamp by its
/// days or its microseconds, and the difference of two timestamps is that of their microseconds; so
/// are sums of such, and whole numbers times them. Two literal numbers, one of them with a point, are
/// one number. A function that chooses among values or compares them, as IN, CASE, `coalesce` and
/// `greatest`, is called on integers, each of which stores in the kind in which the values meet what
/// its value means; what is chosen has that kind.
pub fn texts_mean_their_rows()
    ensures { (scope : Fields) (kinds : List Kind) → TextsMeanTheirRows scope kinds }
{
    comparisons_go_by_order();
    bounds_go_by_order();
    computations_are_exact();
    intervals_move();
    instants_elapse();
    values_are_aligned();
    kinds_meet();
    spans_compute();
    instants_move();
}
