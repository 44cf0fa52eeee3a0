//! The validity of a call that depends only on the types of its children.
ghost use Rattle.std.specs.Prelude.{◌≡◌, IsTrue, Some, length, map};
ghost use Rattle.std.specs.List.{list_any};
ghost use Rattle.std.specs.Option.{option_map};
ghost use Rattle.vortex_interface.specs.Rules.{may_be_null};
ghost use Rattle.vortex_interface.specs.ValidityRules.{is_null_type, without_null};
ghost use Rattle.vortex_interface.specs.ValidityRules.{default_validity};
ghost use Rattle.vortex_functions.specs.Words.{type_of, fits, function_arity, function_type};
ghost use Rattle.vortex_functions.specs.Words.{function_of};
ghost use Rattle.vortex_functions.specs.Words.{called, trees_of, children_of, tree_types};
ghost use Rattle.vortex_functions.specs.Words.{AnswersUnlessMemory};
ghost use Rattle.vortex_rewriting.specs.Told.{IsTold};

use crate::node::{ReduceNodeValidity, ReduceTree};
use crate::union::union_child_validities;
use std::alloc::Global;
use vortex_columns::{DType, VortexError, VortexResult};
use vortex_functions::ScalarFnRef;
use vortex_interface::ScalarFnVTable;

/// The types of the node's children, each made non-nullable at the top.
fn child_dtypes<C: ScalarFnVTable, T: ReduceTree<C>>(
    alloc: Global,
    node: &T,
) -> VortexResult<Vec<DType>>
    ensures { AnswersUnlessMemory result (λ dtypes.
        option_map without_null (tree_types C.meaning (trees_of (children_of (T.seen node.now).tree)))
        ≡ Some (map type_of dtypes.items)) }
{
    let mut dtypes = Vec::new(alloc);
    for index in 0..node.child_count() {
        let child = node.child(alloc, index)?;
        let dtype = child.node_dtype().try_clone(alloc)?;
        dtypes.push(dtype.as_nonnullable())?;
    }
    Ok(dtypes)
}

/// Whether the type is Null.
fn is_null_type(dtype: &DType) -> bool
    ensures { result ≡ is_null_type (type_of dtype.now) }
{
    match dtype {
        DType::Null => true,
        _ => false,
    }
}

/// Whether one of the types is Null.
fn any_is_null_type(dtypes: &[DType]) -> bool
    ensures { result ≡ list_any (λ t. is_null_type (type_of t)) dtypes.now }
{
    for dtype in dtypes {
        if is_null_type(dtype) {
            return true;
        }
    }
    false
}

/// Whether a call over arguments of these types may be null: its type is nullable, or the types are
/// not accepted.
fn may_be_null<C: ScalarFnVTable>(
    alloc: Global,
    function: &ScalarFnRef<C>,
    dtypes: &[DType],
) -> VortexResult<bool>
    requires { IsTrue
        (fits (function_arity C.meaning (function_of function.now)) (length dtypes.now)) }
    ensures { AnswersUnlessMemory result (λ may. may ≡ may_be_null
        (function_type C.meaning (function_of function.now) (map type_of dtypes.now))) }
{
    match function.return_dtype(alloc, dtypes) {
        Ok(dtype) => Ok(dtype.is_nullable()),
        Err(VortexError::OutOfMemory) => Err(VortexError::OutOfMemory),
        Err(_) => Ok(true),
    }
}

/// The validity of a call of a strict function: the union of its children's, unless a child's type
/// is Null, or the call may be null though no child is. To know this the function is called with
/// the children's types made non-nullable. Irreducible for any other call. E9 where an allocation
/// fails.
pub fn default_validity<C: ScalarFnVTable, T: ReduceTree<C>>(
    alloc: Global,
    function: &ScalarFnRef<C>,
    node: &T,
) -> VortexResult<ReduceNodeValidity<T>>
    requires { called (T.seen node.now).tree ≡ Some (function_of function.now) }
    ensures { AnswersUnlessMemory result (IsTold (T.seen node.now) T.seen (default_validity
        C.meaning (function_of function.now) (trees_of (children_of (T.seen node.now).tree)))) }
{
    let _typed = node.node_dtype();
    if !function.signature().is_strict {
        return Ok(ReduceNodeValidity::Irreducible);
    }
    let dtypes = child_dtypes(alloc, node)?;
    if any_is_null_type(&dtypes) {
        return Ok(ReduceNodeValidity::Irreducible);
    }
    if may_be_null(alloc, function, &dtypes)? {
        return Ok(ReduceNodeValidity::Irreducible);
    }
    let made = union_child_validities(alloc, node)?;
    Ok(ReduceNodeValidity::Reduced(made))
}
