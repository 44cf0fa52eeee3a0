//! The words in which groups that are not pruned are told.
ghost use Rattle.std.specs.Prelude.{◌≡◌, string_bytes};
ghost use Rattle.vortex_errors.specs.Answers.{AnswersUnlessMemory};
ghost use Rattle.vortex_types.specs.TypeOf.{struct_fields};
ghost use Rattle.yurkije_columns.specs.Messages.{name_of_field};
ghost use Rattle.yurkije_pruning.specs.Messages.{part_name, part_words, group_words, prune_words};

use crate::error::{Part, PartFault, PruneError};
use std::alloc::Global;
use vortex_columns::{StructFields, VortexResult};
use vortex_pruning::GroupError;

/// The name of a field, or none where there is no such field.
fn field_named(scope: &StructFields, field: usize) -> &str
    ensures { result.now ≡ name_of_field (struct_fields scope.now) field }
{
    if field < scope.len() {
        scope.name(field)
    } else {
        ""
    }
}

fn part_name(part: Part) -> &'static str
    ensures { result.now ≡ part_name part }
{
    match part {
        Part::Low => "low",
        Part::High => "high",
        Part::Nulls => "nulls",
    }
}

/// The words for a column of a field's statistics.
fn part_words(
    alloc: Global,
    field: usize,
    name: &str,
    part: &str,
    fault: PartFault,
    groups: usize,
) -> VortexResult<String>
    ensures { AnswersUnlessMemory result
        (λ words. string_bytes words ≡ part_words field name.now part.now groups fault) }
{
    match fault {
        PartFault::UnknownKind => Ok(format!(in alloc;
            "field {field} ({name}), {part}: no kind has that number"
        )?),
        PartFault::OtherType => Ok(format!(in alloc;
            "field {field} ({name}), {part}: of another type"
        )?),
        PartFault::OtherLength { rows } => Ok(format!(in alloc;
            "field {field} ({name}), {part}: {rows} items for {groups} groups"
        )?),
        PartFault::Unread(error) => Ok(format!(in alloc;
            "field {field} ({name}), {part}: {error}"
        )?),
    }
}

/// The words for statistics that contradict themselves, or for what pruning refuses.
fn group_words(alloc: Global, scope: &StructFields, error: &GroupError) -> VortexResult<String>
    ensures { AnswersUnlessMemory result
        (λ words. string_bytes words ≡ group_words (struct_fields scope.now) error.now) }
{
    match error {
        GroupError::Statistics { group, field } => {
            let (field, group) = (*field, *group);
            let name = field_named(scope, field);
            Ok(format!(in alloc;
                "field {field} ({name}), group {group}: statistics contradict themselves"
            )?)
        }
        GroupError::Refused(error) => Ok(format!(in alloc; "{error}")?),
    }
}

/// The words for so many groups that are not pruned over the fields of a scope. E9 where an
/// allocation fails.
pub fn prune_words(
    alloc: Global,
    scope: &StructFields,
    error: &PruneError,
    groups: usize,
) -> VortexResult<String>
    ensures { AnswersUnlessMemory result
        (λ words. string_bytes words ≡ prune_words (struct_fields scope.now) groups error.now) }
{
    match error {
        PruneError::NoCondition => Ok(String::from_str(alloc, "the answer is no truth value")?),
        PruneError::Missing { field } => {
            let name = field_named(scope, *field);
            Ok(format!(in alloc; "field {field} ({name}): no statistics")?)
        }
        PruneError::Unasked { field } => {
            Ok(format!(in alloc; "statistics {field}: there is no field for them")?)
        }
        PruneError::Column { field, part, fault } => {
            let name = field_named(scope, *field);
            part_words(alloc, *field, name, part_name(*part), *fault, groups)
        }
        PruneError::Groups(error) => group_words(alloc, scope, error),
    }
}
