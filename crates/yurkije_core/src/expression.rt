//! Expressions: programs, with the columns that their answers read.
ghost use Rattle.std.specs.Prelude.{◌≡◌, ◌++◌, ◌∷◌, [], map};
ghost use Rattle.vortex_errors.specs.Answers.{AnswersUnlessMemory};
ghost use Rattle.vortex_types.specs.LogicalTypes.{field_count};
ghost use Rattle.vortex_types.specs.TypeOf.{struct_fields};
ghost use Rattle.vortex_program.specs.Programs.{trees_of};
ghost use Rattle.vortex_program.specs.Reads.{AreRead};
ghost use Rattle.yurkije_core.specs.Fields.{marked_places};

use std::alloc::Global;
use vortex_columns::VortexResult;
use vortex_logical::kind::Kind;
use vortex_program::{Answer, Program, columns_read};

/// A program, and for each field of its scope whether an answer reads it, as it was written.
#[derive(Drop)]
pub struct Expression {
    pub program: Program,
    pub reads: Vec<bool>,
}

/// Adds a place where it is marked. E9 where an allocation fails.
fn push_marked(places: &mut Vec<usize>, place: usize, mark: bool) -> VortexResult<()>
    ensures { AnswersUnlessMemory result
        (λ _. places.new.items ≡ places.old.items ++ marked_places place (mark ∷ [])) }
{
    if mark {
        places.push(place)?;
    }
    Ok(())
}

/// The places of the marks that are set, ascending. E9 where an allocation fails.
fn marked_places(alloc: Global, marks: &[bool]) -> VortexResult<Vec<usize>>
    ensures { AnswersUnlessMemory result (λ places. places.items ≡ marked_places 0 marks.now) }
{
    let mut places = Vec::new(alloc);
    for (place, mark) in marks.iter().enumerate() {
        push_marked(&mut places, place, *mark)?;
    }
    Ok(places)
}

impl Expression {
    /// The expression of a program. E9 where an allocation fails.
    pub fn of(alloc: Global, program: Program) -> VortexResult<Expression>
        ensures { AnswersUnlessMemory result (λ e. (e.program ≡ program)
            × AreRead (trees_of program.written.items) (field_count (struct_fields program.scope))
            e.reads.items) }
    {
        let reads = columns_read(alloc, &program.written, program.scope.len())?;
        Ok(Expression { program, reads })
    }

    /// The numbers of the fields that an answer reads, ascending. E9 where an allocation fails.
    pub fn fields_read(&self, alloc: Global) -> VortexResult<Vec<usize>>
        ensures { AnswersUnlessMemory result
            (λ places. places.items ≡ marked_places 0 self.now.reads.items) }
    {
        marked_places(alloc, &self.reads)
    }
}

/// What the values of each answer mean. E9 where an allocation fails.
pub fn kinds_of(alloc: Global, answers: &[Answer]) -> VortexResult<Vec<Kind>>
    ensures { AnswersUnlessMemory result (λ kinds. kinds.items ≡ map (λ a. a.kind) answers.now) }
{
    let mut kinds = Vec::new(alloc);
    for answer in answers {
        kinds.push(answer.kind)?;
    }
    Ok(kinds)
}
