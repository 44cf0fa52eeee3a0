//! Columns whose rows are being taken, with frames on the heap, so deep nesting uses no stack.
ghost use Rattle.std.specs.Prelude.{◌≡◌, ◌+◌, ◌*◌, ◌≤◌, ◌++◌, All, IfOk, map};
ghost use Rattle.vortex_columns.specs.Words.{AreRowsOf, validity_of};
ghost use Rattle.vortex_columns.specs.Stored.{kept, structs, fixed_size_lists};
ghost use Rattle.vortex_columns.specs.Taken.{taken};
ghost use Rattle.vortex_columns.specs.ColumnParts.{type_weight, column_weights};
ghost use Rattle.vortex_columns.specs.CopyFrames.{IsStoredUnder, stored_view};
ghost use Rattle.vortex_columns.specs.TakenFrames.{rows_in, Fits, filled, IsSound};
ghost use Rattle.vortex_columns.specs.TakenFrames.{step_taking, step_weight, frame_weight};
ghost use Rattle.vortex_views.specs.Places.{places_of};

use super::copies::Head;
use super::{Column, Elements};
use crate::validity::Validity;
use std::alloc::{AllocError, Global};
use vortex_views::Places;

/// The numbers of the taken rows.
#[derive(Drop)]
pub(super) enum Rows<'a> {
    /// As the caller gives them.
    Codes(&'a [u32]),
    /// Of the elements of lists.
    Indices(Vec<usize>),
}

/// The taken parts of a column, and those still to be taken, except the next one.
#[derive(Drop)]
enum Hole<'a> {
    /// The fields before it, and those after it.
    Field(Vec<Column>, &'a [Column]),
    /// The size of each list, and which lists are taken.
    FixedElement(u32, Rows<'a>),
}

/// A column of which rows are being taken.
#[derive(Drop)]
pub(super) struct Frame<'a> {
    head: Head,
    validity: Validity,
    hole: Hole<'a>,
}

/// The state of taking rows.
#[derive(Drop)]
pub(super) enum Step<'a> {
    /// It is complete.
    Whole(Column, Rows<'a>),
    /// It is complete once the frame has those rows of that column.
    Part(Frame<'a>, &'a Column, Rows<'a>),
}

impl Rows<'_> {
    /// The indices of the rows.
    pub(super) fn places(&self) -> Places<'_>
        ensures { places_of result ≡ rows_in self.now }
    {
        match self {
            Rows::Codes(codes) => Places::Codes(*codes),
            Rows::Indices(indices) => Places::Indices(indices.as_slice()),
        }
    }
}

impl Head {
    /// Rows of a struct with these fields taken; the rest are still to be taken.
    pub(super) fn with_taken_fields<'a>(
        self,
        validity: Validity,
        fields: Vec<Column>,
        rest: &'a [Column],
        rows: Rows<'a>,
    ) -> Step<'a>
        requires stored { IsStoredUnder self
            (kept (structs (fields.items ++ map (taken (rows_in rows)) rest.now))
            (validity_of validity)) }
        requires reach { All (λ c. AreRowsOf c (rows_in rows)) rest.now }
        ensures sound { IsSound result }
        ensures column { (step_taking result).column ≡ stored_view self
            (kept (structs (fields.items ++ map (taken (rows_in rows.entry)) rest.now))
            (validity_of validity)) }
        ensures rows { (step_taking result).rows ≡ rows_in rows.entry }
        ensures falls { step_weight result ≤ 1 + 2 * column_weights rest.now }
    {
        if rest.is_empty() {
            return Step::Whole(self.with_rows(validity, Elements::Struct(fields)), rows);
        }
        let frame = Frame {
            head: self,
            validity,
            hole: Hole::Field(fields, &rest[1..]),
        };
        Step::Part(frame, &rest[0], rows)
    }

    /// Lists of one size, whose elements are still to be taken from these indices.
    pub(super) fn with_taken_elements<'a>(
        self,
        validity: Validity,
        size: u32,
        lists: Rows<'a>,
        elements: &'a Column,
        places: Vec<usize>,
    ) -> Step<'a>
        requires stored { IsStoredUnder self
            (kept (fixed_size_lists (taken places.items elements.now) size)
            (validity_of validity)) }
        requires reach { AreRowsOf elements.now places.items }
        ensures sound { IsSound result }
        ensures column { (step_taking result).column ≡ stored_view self
            (kept (fixed_size_lists (taken places.items elements.now) size)
            (validity_of validity)) }
        ensures rows { (step_taking result).rows ≡ rows_in lists.entry }
        ensures falls { step_weight result ≤ 1 + 2 * type_weight elements.now.dtype }
    {
        let frame = Frame {
            head: self,
            validity,
            hole: Hole::FixedElement(size, lists),
        };
        Step::Part(frame, elements, Rows::Indices(places))
    }
}

impl<'a> Frame<'a> {
    /// Takes the rows of the next column.
    pub(super) fn fill(
        self,
        alloc: Global,
        inside: Column,
        rows: Rows<'a>,
    ) -> Result<Step<'a>, AllocError>
        requires { Fits self (record { column = inside; rows = rows_in rows }) }
        ensures sound { IfOk result IsSound }
        ensures column { IfOk result (λ step. (step_taking step).column
            ≡ (filled self.entry (record { column = inside; rows = rows_in rows.entry })).column) }
        ensures rows { IfOk result (λ step. (step_taking step).rows
            ≡ (filled self.entry (record { column = inside; rows = rows_in rows.entry })).rows) }
        ensures falls { IfOk result (λ step. step_weight step ≤ frame_weight self.entry) }
    {
        let Frame {
            head,
            validity,
            hole,
        } = self;
        match hole {
            Hole::Field(fields, rest) => {
                let mut fields = fields;
                fields.push(inside)?;
                Ok(head.with_taken_fields(validity, fields, rest, rows))
            }
            Hole::FixedElement(size, lists) => {
                let elements = Elements::FixedSizeList(Box::new(alloc, inside)?, size);
                Ok(Step::Whole(head.with_rows(validity, elements), lists))
            }
        }
    }
}
