//! A text form of programs of the language L, for tests and tools: its reader.
#![tactic(auto)]

mod expressions;
mod head;
mod local_types;
mod members;
mod names;
mod parts;
mod patterns;
mod program_fault;
mod reader;
mod scanner;
mod token;

pub use local_types::LocalTypes;
pub use names::Names;
use names::{names_of, word_at};
pub use parts::Parts;
pub use program_fault::{ProgramFault, Wanted};
use reader::Reader;
use scanner::tokens_of;
use sqlite_items::Items;
use std::alloc::Global;
use ty_prog::Program;

/// What the text of a program says: the program, the types of its locals class by class, and the names of its classes and
/// members.
#[derive(Drop)]
pub struct Source {
    pub program: Program,
    pub locals: Items<LocalTypes>,
    pub names: Names,
}

/// The program that a text says, which is one form `program` or `bare`. Errors: Expected at the line where the text is
/// not of the form, Memory.
pub fn read_program(alloc: Global, text: &str) -> Result<Source, ProgramFault> {
    let tokens = tokens_of(alloc, text)?;
    let mut reader = Reader::new(alloc, true)?;
    if word_at(tokens.as_slice(), 1) != Some("bare") {
        reader.begin_with_prelude()?;
    }
    let names = names_of(alloc, reader.classes.as_slice(), tokens.as_slice())?;
    reader.read(&names, tokens.as_slice())?.end()?;
    let program = reader.program()?;
    let locals = reader.locals();
    Ok(Source {
        program,
        locals,
        names,
    })
}

/// What a text says in a program with these names, which may be any words and forms but those of classes and their
/// members. Errors: as of `read_program`.
pub fn read_parts(alloc: Global, names: &Names, text: &str) -> Result<Box<Parts>, ProgramFault> {
    let tokens = tokens_of(alloc, text)?;
    Reader::new(alloc, false)?.read(names, tokens.as_slice())
}
