//! The fields of a struct type.
ghost use Rattle.std.specs.Prelude.{◌≡◌, ◌≢◌, ◌↔◌, IsTrue, IfOk, All, string_bytes};
ghost use Rattle.std.specs.List.{zip};
ghost use Rattle.vortex_types.specs.TypeOf.{AllDiffer};
ghost use Rattle.vortex_errors.specs.declared.error.VortexError.TheVariants.{InvalidColumn};
ghost use Rattle.vortex_errors.specs.Answers.{AnswersWhere, AnswersUnlessMemory};

use super::{DType, StructFields};
use std::alloc::{AllocError, Global};
use vortex_errors::{VortexError, VortexResult};

/// Whether the list does not contain a name.
fn is_new(name: &String, names: &[String]) -> bool
    ensures { IsTrue result ↔ All (λ n. string_bytes n ≢ string_bytes name.now) names.now }
{
    names.iter().all(|n| n.as_str() != name.as_str())
}

/// Whether the names are distinct.
fn all_differ(names: &[String]) -> bool
    ensures { IsTrue result ↔ AllDiffer names.now }
{
    for (i, name) in names.iter().enumerate() {
        if !is_new(name, &names[..i]) {
            return false;
        }
    }
    true
}

/// Each name with the type at its index.
fn pairs(
    alloc: Global,
    names: Vec<String>,
    types: Vec<DType>,
) -> Result<Vec<(String, DType)>, AllocError>
    ensures { IfOk result (λ fields. fields.items ≡ zip names.items types.items) }
{
    names.into_iter().zip(types).collect(alloc)
}

impl StructFields {
    ghost use Rattle.std.specs.Prelude.{◌<◌, MatchOption, OnErr, Some, None};
    ghost use Rattle.vortex_types.specs.TypeOf.{type_of, struct_fields, named_types, AreNamed};
    ghost use Rattle.vortex_types.specs.TypeOf.{AddsField};
    ghost use Rattle.vortex_types.specs.LogicalTypes.{no_fields, with_field, field_count};
    ghost use Rattle.vortex_types.specs.LogicalTypes.{field_type, find_field};
    ghost use Rattle.vortex_types.specs.FieldNames.{field_name};
    ghost use Rattle.vortex_types.specs.ListedFields.{listed_fields, NameEachOnce};

    /// No fields. Allocates nothing.
    pub fn new(alloc: Global) -> StructFields
        ensures { struct_fields result ≡ no_fields }
    {
        StructFields {
            fields: Vec::new(alloc),
        }
    }

    /// Appends a field, whose name must be new. Fails only where memory runs out, and then changes
    /// nothing.
    pub fn push(&mut self, name: String, dtype: DType) -> VortexResult<()>
        requires { find_field (string_bytes name) (struct_fields self.old) ≡ None }
        ensures added { AnswersUnlessMemory result
            (λ _. AddsField self.old name dtype self.new) }
        ensures kept { OnErr result (struct_fields self.new ≡ struct_fields self.old) }
    {
        self.fields.push((name, dtype))?;
        Ok(())
    }

    /// Pairs names with types. E12 exactly where the counts differ or a name occurs twice.
    pub fn try_new(
        alloc: Global,
        names: Vec<String>,
        types: Vec<DType>,
    ) -> VortexResult<StructFields>
        ensures { AnswersWhere result (AreNamed names.items types.items)
            (λ f. struct_fields f ≡ named_types names.items types.items) InvalidColumn }
    {
        if names.len() != types.len() || !all_differ(&names) {
            return Err(VortexError::InvalidColumn);
        }
        Ok(StructFields {
            fields: pairs(alloc, names, types)?,
        })
    }

    /// The listed fields, each a name and a type; both are copied. E12 exactly where a name occurs
    /// twice.
    pub fn of(alloc: Global, fields: &[(&str, DType)]) -> VortexResult<StructFields>
        ensures { AnswersWhere result (NameEachOnce fields.now)
            (λ f. struct_fields f ≡ listed_fields fields.now) InvalidColumn }
    {
        let mut names = Vec::new(alloc);
        let mut types = Vec::new(alloc);
        for field in fields {
            names.push(String::from_str(alloc, field.0)?)?;
            types.push(field.1.try_clone(alloc)?)?;
        }
        StructFields::try_new(alloc, names, types)
    }

    /// How many fields there are.
    pub fn len(&self) -> usize
        ensures { result ≡ field_count (struct_fields self.now) }
    {
        self.fields.len()
    }

    /// The type of field `k`.
    pub fn dtype(&self, k: usize) -> &DType
        requires { k < field_count (struct_fields self.now) }
        ensures { type_of result.now ≡ field_type k (struct_fields self.now) }
    {
        &self.fields[k].1
    }

    /// The name of field `k`.
    pub fn name(&self, k: usize) -> &str
        requires { k < field_count (struct_fields self.now) }
        ensures { result.now ≡ field_name k (struct_fields self.now) }
    {
        self.fields[k].0.as_str()
    }

    /// The first field with that name: its index and its type. Allocates nothing.
    pub fn find(&self, name: &str) -> Option<(usize, &DType)>
        ensures { MatchOption result (find_field name.now (struct_fields self.now) ≡ None)
            (λ found. find_field name.now (struct_fields self.now)
            ≡ Some (found.0, type_of found.1.now)) }
    {
        for (i, field) in self.fields.iter().enumerate() {
            if field.0.as_str() == name {
                return Some((i, &field.1));
            }
        }
        None
    }
}
