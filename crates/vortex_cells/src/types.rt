//! The types of scripts.
ghost use Rattle.std.specs.Prelude.{◌≡◌, option_map};
ghost use Rattle.vortex_types.specs.TypeOf.{allows_null, type_of};
ghost use Rattle.vortex_cells.specs.TypeWords.{ptype_of_word, type_named, type_of_word};

use vortex_columns::{DType, Nullability, PType};

fn read_ptype(word: &str) -> Option<PType>
    ensures { result ≡ ptype_of_word word.now }
{
    if word == PType::I8.text() {
        Some(PType::I8)
    } else if word == PType::I16.text() {
        Some(PType::I16)
    } else if word == PType::I32.text() {
        Some(PType::I32)
    } else if word == PType::I64.text() {
        Some(PType::I64)
    } else if word == PType::U8.text() {
        Some(PType::U8)
    } else if word == PType::U16.text() {
        Some(PType::U16)
    } else if word == PType::U32.text() {
        Some(PType::U32)
    } else if word == PType::U64.text() {
        Some(PType::U64)
    } else {
        None
    }
}

/// The type of that name, `bool`, `utf8` or an integer type, nullable or not.
pub fn type_named(name: &str, nullability: Nullability) -> Option<DType>
    ensures { option_map (λ t. type_of t) result ≡ type_named (allows_null nullability) name.now }
{
    if name == "bool" {
        Some(DType::Bool(nullability))
    } else if name == "utf8" {
        Some(DType::Utf8(nullability))
    } else {
        Some(DType::Primitive(read_ptype(name)?, nullability))
    }
}

/// The type that a word names, as types are written: `bool`, `utf8` or an integer type, nullable
/// with a question mark at the end.
pub fn read_type(word: &str) -> Option<DType>
    ensures { option_map (λ t. type_of t) result ≡ type_of_word word.now }
{
    match word.strip_suffix('?') {
        Some(name) => type_named(name, Nullability::Nullable),
        None => type_named(word, Nullability::NonNullable),
    }
}
