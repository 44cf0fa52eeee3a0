//! The texts of types, appended to a string. Each call fails only where memory runs out (E9).
ghost use Rattle.std.specs.Prelude.{◌≡◌, ◌<◌, ◌+◌, ◌*◌, ◌++◌, IfOk, string_bytes};
ghost use Rattle.vortex_errors.specs.Answers.{AnswersUnlessMemory};
ghost use Rattle.vortex_types.specs.TypeOf.{type_of};
ghost use Rattle.vortex_types.specs.TypeParts.{type_weight};
ghost use Rattle.vortex_types.specs.TypeCopies.{HasParts, fields_cost};
ghost use Rattle.vortex_types.specs.Texts.{Appends, separator_before};
ghost use Rattle.vortex_types.specs.DTypeTexts.{type_text, null_mark, opening, closing};
ghost use Rattle.vortex_types.specs.TypePieces.{size_text, ending, fields_text, piece_text};
ghost use Rattle.vortex_types.specs.TypePieces.{pieces_text, piece_cost, pieces_cost};

use super::{DType, StructFields};
use std::alloc::{AllocError, Global};
use std::fmt::{self, Write};
use vortex_errors::VortexResult;

/// A piece of a type's text, on a stack.
#[derive(Clone, Copy)]
enum Piece<'a> {
    /// That type.
    Whole(&'a DType),
    /// The separator between the keys and the values of a map.
    Comma,
    /// What follows the types inside that type.
    Ending(&'a DType),
    /// The fields from that index on, each after the separator except the first.
    Fields(&'a StructFields, usize),
}

/// The separator, except before the first text.
pub fn write_separator(out: &mut String, separator: &str, k: usize) -> VortexResult<()>
    ensures { AnswersUnlessMemory result
        (λ _. Appends out.old (separator_before separator.now k) out.new) }
{
    if k != 0 {
        out.push_str(separator)?;
    }
    Ok(())
}

impl DType {
    /// What comes before the types inside; everything but the mark if there are none.
    fn opening(&self) -> &'static str
        ensures { result.now ≡ opening (type_of self.now) }
    {
        match self {
            DType::Null => "null",
            DType::Bool(_) => "bool",
            DType::Primitive(ptype, _) => ptype.text(),
            DType::Utf8(_) => "utf8",
            DType::Binary(_) => "binary",
            DType::Struct(_, _) => "struct{",
            DType::List(_, _) => "list[",
            DType::FixedSizeList(_, _, _) => "list[",
            DType::Map(_, _, _) => "map[",
        }
    }

    /// What follows the types inside.
    fn closing(&self) -> &'static str
        ensures { result.now ≡ closing (type_of self.now) }
    {
        match self {
            DType::Struct(_, _) => "}",
            DType::List(_, _) => "]",
            DType::FixedSizeList(_, _, _) => "]",
            DType::Map(_, _, _) => "]",
            _ => "",
        }
    }

    /// `?` if the type has null; Null itself needs no mark.
    fn null_mark(&self) -> &'static str
        ensures { result.now ≡ null_mark (type_of self.now) }
    {
        match self {
            DType::Null => "",
            _ => { if self.is_nullable() { "?" } else { "" } }
        }
    }

    /// Writes the count of elements of lists that have one.
    fn write_size(&self, out: &mut String) -> VortexResult<()>
        ensures { AnswersUnlessMemory result
            (λ _. Appends out.old (size_text (type_of self.now)) out.new) }
    {
        if let DType::FixedSizeList(_, size, _) = self {
            write!(out, "; {size}")?;
        }
        Ok(())
    }

    /// Writes what follows the types inside, with the mark.
    fn write_ending(&self, out: &mut String) -> VortexResult<()>
        ensures { AnswersUnlessMemory result
            (λ _. Appends out.old (ending (type_of self.now)) out.new) }
    {
        self.write_size(out)?;
        out.push_str(self.closing())?;
        out.push_str(self.null_mark())?;
        Ok(())
    }

    /// Writes a type without types inside.
    fn write_flat(&self, out: &mut String) -> VortexResult<()>
        requires { ¬ HasParts (type_of self.now) }
        ensures { AnswersUnlessMemory result
            (λ _. Appends out.old (type_text (type_of self.now)) out.new) }
    {
        out.push_str(self.opening())?;
        out.push_str(self.null_mark())?;
        Ok(())
    }

    /// Lists what follows the opening of a type with types inside.
    fn list_pieces<'a>(&'a self, pieces: &mut Vec<Piece<'a>>) -> Result<(), AllocError>
        requires { HasParts (type_of self.now) }
        ensures text { IfOk result (λ _.
            opening (type_of self.now) ++ pieces_text pieces.new.items
            ≡ type_text (type_of self.now) ++ pieces_text pieces.old.items) }
        ensures fewer { IfOk result (λ _. pieces_cost pieces.new.items
            < pieces_cost pieces.old.items + 3 * type_weight self.now) }
    {
        pieces.push(Piece::Ending(self))?;
        match self {
            DType::Struct(fields, _) => pieces.push(Piece::Fields(fields, 0))?,
            DType::List(element, _) => pieces.push(Piece::Whole(element))?,
            DType::FixedSizeList(element, _, _) => pieces.push(Piece::Whole(element))?,
            DType::Map(key, value, _) => {
                pieces.push(Piece::Whole(value))?;
                pieces.push(Piece::Comma)?;
                pieces.push(Piece::Whole(key))?;
            }
            _ => {}
        }
        Ok(())
    }

    /// Writes a type with types inside, using a list of pieces that are still to be written.
    fn write_by_pieces(&self, alloc: Global, out: &mut String) -> VortexResult<()>
        ensures { AnswersUnlessMemory result
            (λ _. Appends out.old (type_text (type_of self.now)) out.new) }
    {
        let mut pieces = Vec::new(alloc);
        pieces.push(Piece::Whole(self))?;
        while let Some(piece) = pieces.pop() {
            piece.write(out, &mut pieces)?;
        }
        Ok(())
    }

    /// Writes the type, with `?` where it has null: `null`, `bool`, `i32?`, `utf8`, `binary?`,
    /// `struct{a: i32, b: utf8?}`, `list[i32?]?`, `list[u8; 4]` of four elements each, `map[utf8,
    /// i32?]` of keys and values. Fails only where memory runs out.
    pub fn write_text(&self, out: &mut String) -> VortexResult<()>
        ensures { AnswersUnlessMemory result
            (λ _. Appends out.old (type_text (type_of self.now)) out.new) }
    {
        match self.leaf() {
            Ok(_leaf) => self.write_flat(out),
            Err(alloc) => self.write_by_pieces(alloc, out),
        }
    }
}

/// The bytes of `write_text`; running out of memory is an error.
impl fmt::Debug for DType {
    ghost use Rattle.std.specs.Prelude.{Some};
    ghost use Rattle.vortex_types.specs.TypeOf.{type_of};
    ghost use Rattle.vortex_types.specs.DTypeTexts.{type_text};

    ghost debug_output = { λ dtype. Some (type_text (type_of dtype)) };

    #[tactic(auto, using(crate::proofs::TextPieces::flat_text))]
    fn fmt<W: fmt::Write>(&self, f: &mut fmt::Formatter<W>) -> fmt::Result {
        match self.leaf() {
            Ok(_leaf) => write!(f, "{}{}", self.opening(), self.null_mark()),
            // the allocator that a part of the type holds
            Err(alloc) => {
                let mut text = String::new(alloc);
                match self.write_by_pieces(alloc, &mut text) {
                    Ok(()) => write!(f, "{text}"),
                    Err(_) => Err(fmt::Error),
                }
            }
        }
    }
}

impl StructFields {
    /// Writes the name of the field at that index, and lists its type and the fields after it.
    fn write_field<'a>(
        &'a self,
        k: usize,
        out: &mut String,
        pieces: &mut Vec<Piece<'a>>,
    ) -> VortexResult<()>
        ensures text { AnswersUnlessMemory result (λ _.
            string_bytes out.new ++ pieces_text pieces.new.items
            ≡ string_bytes out.old ++ (fields_text self.now k ++ pieces_text pieces.old.items)) }
        ensures fewer { IfOk result (λ _. pieces_cost pieces.new.items
            < pieces_cost pieces.old.items + fields_cost self.now k) }
    {
        if k < self.fields.len() {
            let field = &self.fields[k];
            write_separator(out, ", ", k)?;
            out.push_str(field.0.as_str())?;
            out.push_str(": ")?;
            pieces.push(Piece::Fields(self, k + 1))?;
            pieces.push(Piece::Whole(&field.1))?;
        }
        Ok(())
    }
}

impl<'a> Piece<'a> {
    /// Writes the beginning of a piece, and lists what follows it.
    fn write(self, out: &mut String, pieces: &mut Vec<Piece<'a>>) -> VortexResult<()>
        ensures text { AnswersUnlessMemory result (λ _.
            string_bytes out.new ++ pieces_text pieces.new.items
            ≡ string_bytes out.old ++ (piece_text self.entry ++ pieces_text pieces.old.items)) }
        ensures fewer { IfOk result (λ _. pieces_cost pieces.new.items
            < pieces_cost pieces.old.items + piece_cost self.entry) }
    {
        match self {
            Piece::Whole(dtype) => match dtype.leaf() {
                Ok(_leaf) => dtype.write_flat(out)?,
                Err(_alloc) => {
                    out.push_str(dtype.opening())?;
                    dtype.list_pieces(pieces)?;
                }
            },
            Piece::Comma => out.push_str(", ")?,
            Piece::Ending(dtype) => dtype.write_ending(out)?,
            Piece::Fields(fields, k) => fields.write_field(k, out, pieces)?,
        }
        Ok(())
    }
}
