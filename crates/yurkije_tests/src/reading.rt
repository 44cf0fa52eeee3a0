//! Texts that are read, and that are refused with their place.

use crate::lending::fields;
use fixtures::same;
use std::alloc::Global;
use yurkije_columns::{FieldError, ScopeFault, read_fields, scope_words};
use yurkije_core::{ErrorNumbers, Program, ProgramError, program_words, read_program};

/// The program of a text over the fields. Fields that are refused fail each test: none wants a text
/// that is not UTF-8.
pub fn program_of(alloc: Global, text: &[u8]) -> Result<Program, ProgramError> {
    match read_fields(alloc, &fields()) {
        Ok(scope) => read_program(alloc, scope, Vec::new(alloc), text),
        Err(_) => Err(ProgramError::NotUtf8),
    }
}

/// Whether a text is read, as an answer of that name and that optimized text.
fn reads(rt: HostRuntime, text: &[u8], name: &str, optimized: &str) -> bool {
    let alloc = rt.alloc();
    let Ok(program) = program_of(alloc, text) else {
        return false;
    };
    let Ok(Some(run)) = program.text(alloc, 0, true) else {
        return false;
    };
    match program.written.first() {
        Some(answer) => {
            same(rt, run.as_str(), optimized) && same(rt, answer.name.as_str(), name)
        }
        None => false,
    }
}

/// Whether a refusal has that status, byte, line and character, and those words.
fn is_refusal(rt: HostRuntime, error: ProgramError, place: [usize; 4], words: &str) -> bool {
    let codes = ErrorNumbers::of_program(&error);
    let there = [
        codes.status as usize,
        codes.byte,
        codes.line,
        codes.character,
    ];
    match program_words(rt.alloc(), &error) {
        Ok(said) => same(rt, there, place) && same(rt, said.as_str(), words),
        Err(_) => false,
    }
}

fn refuses(rt: HostRuntime, text: &[u8], place: [usize; 4], words: &str) -> bool {
    match program_of(rt.alloc(), text) {
        Ok(_) => false,
        Err(error) => is_refusal(rt, error, place, words),
    }
}

#[test]
fn texts_are_read_and_refused_with_their_place(rt: HostRuntime) {
    assert!(rt; reads(rt, b"(name)like'a%'", "(name) like 'a%'", "name like 'a%'"));
    let words = "line 2, column 8: 300000000000 is no i32";
    let text = b"number as n,\nnumber = 300000000000";
    assert!(rt; refuses(rt, text, [114, 20, 2, 8], words));
}

/// Whether two fields of one name are refused so, in these words.
fn refuses_twice(rt: HostRuntime, expected: FieldError, words: &str) -> bool {
    let [number, name] = fields();
    let Err(error) = read_fields(rt.alloc(), &[number, name, number]) else {
        return false;
    };
    match scope_words(rt.alloc(), error) {
        Ok(said) => same(rt, error, expected) && same(rt, said.as_str(), words),
        Err(_) => false,
    }
}

#[test]
fn fields_are_refused_with_their_number(rt: HostRuntime) {
    let twice = FieldError {
        field: 2,
        fault: ScopeFault::NameTwice,
    };
    assert!(rt; refuses_twice(rt, twice, "field 2: a field before it has its name"));
}
