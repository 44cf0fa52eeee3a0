//! The leaves of trees.
ghost use Rattle.std.specs.Prelude.{◌≡◌, List, Option, None, Some, All, IfOk, map};
ghost use Rattle.vortex_types.specs.TypeOf.{type_of};
ghost use Rattle.vortex_interface.specs.Functions.{Function};
ghost use Rattle.vortex_interface.specs.Meaning.{Meaning};
ghost use Rattle.vortex_interface.specs.Trees.{Tree, call, trees_of, children_of, called};
ghost use Rattle.vortex_interface.specs.Eval.{tree_type};
ghost use Rattle.vortex_interface.specs.Driver.{step};

use std::alloc::{AllocError, Global};
use std::marker::{Model, PhantomData};
use vortex_columns::DType;
use vortex_interface::ScalarFnVTable;

/// A kind of leaf, of trees over a caller's functions `C` with their options `O`, and the context
/// of such a tree: its row count, or none.
///
/// Its laws say that the view of a tree is a pair of its meaning and its context, that its
/// children have the same context, and that a leaf is no call.
pub trait Leaf<C, O>: Sized + Drop {
    /// The context of a tree.
    type Context: Copy + Drop;

    /// The view of a tree.
    type Seen;

    ghost tree_of: { Self.Seen → Tree C O };

    ghost context_of: { Self.Seen → Self.Context };

    ghost see: { Tree C O → Self.Context → Self.Seen };

    ghost tree_of_see: { (t : Tree C O) (b : Self.Context) → tree_of (see t b) ≡ t };

    ghost context_of_see: { (t : Tree C O) (b : Self.Context) → context_of (see t b) ≡ b };

    ghost see_of: { (a : Self.Seen) → see (tree_of a) (context_of a) ≡ a };

    /// The rule that a mark is about.
    ghost rule: { Tree C O → Option (Tree C O) };

    /// The view of a leaf.
    ghost seen: { Self → Tree C O };

    /// Whether a leaf may be present.
    ghost fits: { Self.Context → Self → Type 0 };

    /// The invariant of each tree: its contents have values of their types.
    ghost whole: { Self.Seen → Type 0 };

    /// The views of the children of a tree.
    ghost children: { Self.Seen → List Self.Seen };

    ghost children_are: { (a : Self.Seen)
        → children a ≡ map (λ t. see t (context_of a)) (children_of (tree_of a)) };

    /// A call is well formed if everything below it is.
    ghost whole_call: { (f : Function C O) (b : Self.Context) (xs : List Self.Seen)
        → All whole xs → All (λ a. context_of a ≡ b) xs
        → whole (see (call f (trees_of (map tree_of xs))) b) };

    ghost not_called: { (l : Self) → called (seen l) ≡ None };

    ghost leaf_settles: { (l : Self) → step rule (seen l) ≡ None };

    /// A leaf that replaces a call that was taken out.
    fn blank(alloc: Global, context: Self::Context) -> Self
        ensures fits { Self.fits context result }
        ensures whole { Self.whole (Self.see (Self.seen result) context) };

    /// A copy, valid wherever the leaf is.
    fn share(&self) -> Result<Self, AllocError>
        ensures seen { IfOk result (λ l. Self.seen l ≡ Self.seen self.now) }
        ensures fits { IfOk result
            (λ l. (b : Self.Context) → Self.fits b self.now → Self.fits b l) };

    /// The type of the values of a leaf that may be present somewhere.
    fn dtype(&self) -> &DType
        ensures { (m : Meaning C O) (b : Self.Context) → Self.fits b self.now
            → tree_type m (Self.seen self.now) ≡ Some (type_of result.now) };

    // the same laws again, where a proof finds them: a Model can name only those above
    ghost sees_tree: { (t : Tree C O) (b : Self.Context) → tree_of (see t b) ≡ t } = { tree_of_see };

    ghost sees_context: { (t : Tree C O) (b : Self.Context) → context_of (see t b) ≡ b } = { context_of_see };
}

/// Never made: its values are trees.
pub struct Placeholder<C: ScalarFnVTable> {
    of: PhantomData<C>,
}

impl<C: ScalarFnVTable> Model for Placeholder<C> {
    ghost use Rattle.vortex_interface.specs.Trees.{Tree};
    ghost use Rattle.vortex_interface.specs.TreeCodes.{coded_tree};
    ghost use Rattle.vortex_functions.specs.Nodes.{placeholder};

    ghost Value = { Tree C C.Options };

    ghost coded = { coded_tree C.code C.Options.code };

    ghost view = { λ _. placeholder };
}
