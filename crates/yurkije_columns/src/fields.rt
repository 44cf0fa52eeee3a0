//! The fields of a scope, as a C caller lends them.
ghost use Rattle.std.specs.Prelude.{◌≡◌, ◌≢◌, MatchResult, IfOk, map};
ghost use Rattle.vortex_types.specs.TypeOf.{struct_fields};
ghost use Rattle.vortex_types.specs.LogicalTypes.{find_field};
ghost use Rattle.yurkije_columns.specs.declared.fields.ScopeFault.TheVariants.{OutOfMemory};
ghost use Rattle.yurkije_columns.specs.Kinds.{kind_type};
ghost use Rattle.yurkije_columns.specs.Scopes.{answers, refuses, if_new, with_borrowed, scope_borrowed};
ghost use Rattle.yurkije_columns.specs.Scopes.{field_kind};

use crate::kinds::{Kind, kind_numbered};
use std::alloc::{AllocError, AllocFailed, Global};
use std::str;
use vortex_columns::{StructFields, VortexError};
use vortex_logical::kind::Kind as LogicalKind;

/// A field of a scope, as C has it: a name in UTF-8, the number of a kind, and whether it has null.
#[repr(C)]
#[derive(Clone, Copy)]
pub struct BorrowedField<'a> {
    pub name: &'a [u8],
    pub kind: u32,
    pub nullable: bool,
}

/// What is wrong with a field.
#[derive(Clone, Copy, Debug, Drop, PartialEq, Eq)]
pub enum ScopeFault {
    /// Its kind is none.
    UnknownKind,
    /// Its name is not UTF-8.
    NotUtf8,
    /// A field before it has the name.
    NameTwice,
    /// E9: nothing is wrong with it as far as is known.
    OutOfMemory,
}

impl From<AllocError> for ScopeFault {
    ghost from_gives = { λ _ e. e ≡ OutOfMemory };

    fn from(_error: AllocError) -> ScopeFault {
        ScopeFault::OutOfMemory
    }
}

impl<T: Drop> From<AllocFailed<T>> for ScopeFault {
    ghost from_gives = { λ _ e. e ≡ OutOfMemory };

    fn from(_error: AllocFailed<T>) -> ScopeFault {
        ScopeFault::OutOfMemory
    }
}

/// Want of memory: what is called here refuses nothing else.
impl From<VortexError> for ScopeFault {
    ghost from_gives = { λ _ e. e ≡ OutOfMemory };

    fn from(_error: VortexError) -> ScopeFault {
        ScopeFault::OutOfMemory
    }
}

/// Why fields are no scope: the first that is wrong.
#[derive(Clone, Copy, Debug, Drop, PartialEq, Eq)]
pub struct FieldError {
    pub field: usize,
    pub fault: ScopeFault,
}

/// One field more, of that name and kind.
fn push_field(
    alloc: Global,
    scope: &mut StructFields,
    name: &str,
    kind: Kind,
    nullable: bool,
) -> Result<(), ScopeFault>
    ensures { let added = if_new (struct_fields scope.old) name.now (kind_type kind nullable)
        (find_field name.now (struct_fields scope.old)) in MatchResult result
        (λ _. added ≡ answers (struct_fields scope.new))
        (λ fault. fault ≢ OutOfMemory → added ≡ refuses fault) }
{
    if scope.find(name).is_some() {
        return Err(ScopeFault::NameTwice);
    }
    let name = String::from_str(alloc, name)?;
    scope.push(name, kind.dtype(nullable))?;
    Ok(())
}

/// One field more.
fn add_field(
    alloc: Global,
    scope: &mut StructFields,
    borrowed: &BorrowedField<'_>,
) -> Result<(), ScopeFault>
    ensures { MatchResult result
        (λ _. with_borrowed (struct_fields scope.old) borrowed.now ≡ answers (struct_fields scope.new))
        (λ fault. fault ≢ OutOfMemory
        → with_borrowed (struct_fields scope.old) borrowed.now ≡ refuses fault) }
{
    let Some(kind) = kind_numbered(borrowed.kind) else {
        return Err(ScopeFault::UnknownKind);
    };
    match str::from_utf8(borrowed.name) {
        Ok(name) => push_field(alloc, scope, name, kind, borrowed.nullable),
        Err(_) => Err(ScopeFault::NotUtf8),
    }
}

/// The scope of fields that are lent. Refuses the first that is wrong: of its kind, its name and
/// whether a field before it has that, the first that is wrong is told.
pub fn read_fields(alloc: Global, fields: &[BorrowedField<'_>]) -> Result<StructFields, FieldError>
    ensures { MatchResult result
        (λ scope. scope_borrowed fields.now ≡ answers (struct_fields scope))
        (λ e. e.fault ≢ OutOfMemory → scope_borrowed fields.now ≡ refuses e) }
{
    let mut scope = StructFields::new(alloc);
    for (field, borrowed) in fields.iter().enumerate() {
        if let Err(fault) = add_field(alloc, &mut scope, borrowed) {
            return Err(FieldError { field, fault });
        }
    }
    Ok(scope)
}

/// What the values of a field mean; plain where its kind is none.
fn field_kind(field: &BorrowedField<'_>) -> LogicalKind
    ensures { result ≡ field_kind field.now }
{
    match kind_numbered(field.kind) {
        Some(kind) => kind.logical_kind(),
        None => LogicalKind::Plain,
    }
}

/// What the values of each field mean.
pub fn read_kinds(
    alloc: Global,
    fields: &[BorrowedField<'_>],
) -> Result<Vec<LogicalKind>, AllocError>
    ensures { IfOk result (λ kinds. kinds.items ≡ map field_kind fields.now) }
{
    let mut kinds = Vec::new(alloc);
    for field in fields {
        kinds.push(field_kind(field))?;
    }
    Ok(kinds)
}
