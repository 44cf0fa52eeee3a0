//! The leaves of array trees, as rules see them. Array trees are rewritten only by Reduce.
ghost use Rattle.std.specs.Prelude.{◌≡◌, refl};
ghost use Rattle.vortex_functions.specs.Words.{AnswersUnlessMemory};
ghost use Rattle.vortex_rewriting.specs.ColumnValidity.{validity_as_column};
ghost use Rattle.vortex_rewriting.specs.Rules.{array_rule, array_sound, array_lightens};

use crate::leaf::{RewriteLeaf, RuleLeaf};
use crate::rule::{Rule, reduce_tree};
use crate::rules::ScalarFnRules;
use std::alloc::Global;
use vortex_columns::{Column, Nullability, Scalar, Validity, VortexResult};
use vortex_functions::ArrayRef;
use vortex_functions::array::ArrayLeaf;
use vortex_interface::ScalarFnVTable;

/// Whether each row of a column is not null: a constant column if the form of the validity is the
/// same for all rows, else its bits.
fn column_validity(alloc: Global, column: &Column) -> VortexResult<Column>
    ensures { AnswersUnlessMemory result (λ valid. valid ≡ validity_as_column column.now) }
{
    if let Some(bits) = column.valid_bits() {
        return Column::try_bool(alloc, bits.try_clone(alloc)?, Validity::NonNullable);
    }
    let every = match column.validity(alloc)? {
        Validity::AllInvalid => false,
        _ => true,
    };
    let every = Scalar::bool(every, Nullability::NonNullable);
    Column::constant(alloc, every, column.len())
}

impl<C: ScalarFnVTable> RuleLeaf<C> for ArrayLeaf {
    fn as_constant(tree: &ArrayRef<C>) -> Option<&Scalar> {
        tree.as_constant()
    }

    fn new_constant(alloc: Global, scalar: Scalar, rows: usize) -> VortexResult<ArrayRef<C>> {
        let column = Column::constant(alloc, scalar, rows)?;
        let array = ArrayRef::column(alloc, column)?;
        Ok(array)
    }

    /// A column has its own rows, so its validity is a column.
    fn leaf_validity(alloc: Global, tree: &ArrayRef<C>) -> VortexResult<Option<ArrayRef<C>>> {
        match tree.as_column() {
            Some(column) => {
                let valid = column_validity(alloc, column)?;
                Ok(Some(ArrayRef::column(alloc, valid)?))
            }
            None => Ok(None),
        }
    }
}

impl<C: ScalarFnRules> RewriteLeaf<C> for ArrayLeaf {
    ghost applied = { array_rule C.meaning C.rules };

    fn apply(alloc: Global, tree: &ArrayRef<C>, rule: Rule) -> VortexResult<Option<ArrayRef<C>>> {
        let Some(function) = tree.as_scalar() else {
            return Ok(None);
        };
        match rule {
            Rule::Simplify => Ok(None),
            Rule::Reduce => reduce_tree(alloc, function, tree),
        }
    }

    ghost rule_is = { refl };

    ghost sound = { array_sound C.meaning C.rules C.ScalarFnVTable.lawful
        C.ScalarFnRules.rules_lawful };

    ghost lightens = { array_lightens C.meaning C.rules C.ScalarFnVTable.lawful };
}
