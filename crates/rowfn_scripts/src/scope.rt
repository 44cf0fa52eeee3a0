//! The fields of a script, found by name.
ghost use Rattle.std.specs.Prelude.{◌≡◌, None, OnErr};
ghost use Rattle.vortex_types.specs.LogicalTypes.{no_fields, with_field};
ghost use Rattle.vortex_types.specs.TypeOf.{struct_fields, type_of};
ghost use Rattle.rowfn_scripts.specs.Words.{AnswersUnlessMemory, place_of};

use std::alloc::Global;
use std::collections::BTreeMap;
use std::marker::Model;
use vortex_columns::{DType, StructFields, VortexResult};

/// The fields in the order of their lines, and the index of each by its name.
///
/// Names are in an ordered map, not in a `HashMap`: the author of a script chooses them, and the
/// seed of a `HashMap` is fixed, so that all of them could collide.
#[derive(Drop)]
pub(crate) struct Scope {
    fields: StructFields,
    places: BTreeMap<String, usize>,
}

impl Model for Scope {
    ghost use Rattle.std.specs.Prelude.{◌≡◌, List, ℕ};
    ghost use Rattle.std.specs.BTreeMap.{get_by_text};
    ghost use Rattle.vortex_types.specs.Codes.{coded_fields};
    ghost use Rattle.vortex_types.specs.LogicalTypes.{Fields};
    ghost use Rattle.vortex_types.specs.TypeOf.{struct_fields};
    ghost use Rattle.rowfn_scripts.specs.Scopes.{place_of};

    ghost Value = { Fields };

    ghost coded = { coded_fields };

    ghost view = { λ a. struct_fields a.fields };

    ghost invariant = { λ a. (name : List ℕ)
        → get_by_text a.places name ≡ place_of name (struct_fields a.fields) };
}

impl Scope {
    /// No fields. Allocates nothing.
    pub(crate) fn new(alloc: Global) -> Scope
        ensures { result ≡ no_fields }
    {
        Scope {
            fields: StructFields::new(alloc),
            places: BTreeMap::new(alloc),
        }
    }

    /// The index of the field with that name. Allocates nothing.
    pub(crate) fn find(&self, name: &str) -> Option<usize>
        ensures { result ≡ place_of name.now self.now }
    {
        self.places.get(name).copied()
    }

    /// Appends a field, whose name must be new. Fails only
    /// where memory runs out, and then changes nothing.
    pub(crate) fn add(&mut self, alloc: Global, name: &str, dtype: DType) -> VortexResult<()>
        requires { place_of name.now self.old ≡ None }
        ensures added { AnswersUnlessMemory result
            (λ _. self.new ≡ with_field self.old name.now (type_of dtype)) }
        ensures kept { OnErr result (self.new ≡ self.old) }
    {
        let key = String::from_str(alloc, name)?;
        let owned = String::from_str(alloc, name)?;
        self.places.insert(key, self.fields.len())?;
        if let Err(error) = self.fields.push(owned, dtype) {
            self.places.remove(name);
            return Err(error);
        }
        Ok(())
    }

    /// The fields.
    pub(crate) fn fields(&self) -> &StructFields
        ensures { struct_fields result.now ≡ self.now }
    {
        &self.fields
    }
}
