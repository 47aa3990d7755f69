//! Answers to questions.

ghost use Rattle.std.specs.Prelude.{◌≡◌, IfOk, string_bytes};
ghost use Rattle.ty_cases.specs.Tells.{told};

use crate::copies::{copied, rebuilt};
use crate::goodness::{good, room};
use crate::members::{found, found_behind, linear};
use crate::question::{Question, question_of};
use crate::trees::{are_same, are_set, node};
use crate::types::{conforming, inheriting, joined, standing};
use crate::values::{fitting, kind};
use std::alloc::{AllocError, Global};
use ty_text::{Parts, ProgramFault, Source, read_parts};

/// The answer to a question, or why it can't be read.
pub(crate) fn answered(
    alloc: Global,
    source: &Source,
    question: &str,
) -> Result<String, AllocError> {
    match answer(alloc, source, question) {
        Ok(text) => Ok(text),
        Err(fault) => format!(in alloc; "{fault}"),
    }
}

fn answer(alloc: Global, source: &Source, question: &str) -> Result<String, ProgramFault> {
    let mut parts = read_parts(alloc, &source.names, question)?;
    match question_of(parts.word().as_str()) {
        Some(question) => {
            let text = answer_to(alloc, source, &mut parts, question)?;
            parts.end()?;
            Ok(text)
        }
        None => Ok(String::from_str(alloc, "an unknown question")?),
    }
}

fn answer_to(
    alloc: Global,
    source: &Source,
    parts: &mut Parts,
    question: Question,
) -> Result<String, ProgramFault> {
    match question {
        Question::Conforms => conforming(alloc, source, parts),
        Question::Inherits => inheriting(alloc, source, parts),
        Question::Join => joined(alloc, source, parts),
        Question::Find => found(alloc, source, parts),
        Question::SuperFind => found_behind(alloc, source, parts),
        Question::Linear => linear(alloc, source, parts),
        Question::SetFirst => are_set(alloc, parts),
        Question::At => node(alloc, source, parts),
        Question::Good => good(alloc, source, parts),
        Question::Room => room(alloc, source, parts),
        Question::Stands => standing(alloc, source, parts),
        Question::Fits => fitting(alloc, source, parts),
        Question::Kind => kind(alloc, source, parts),
        Question::Same => are_same(alloc, parts),
        Question::Copy => copied(alloc, source),
        Question::Rebuild => rebuilt(alloc, parts),
    }
}

pub(crate) fn yes_or_no(alloc: Global, yes: bool) -> Result<String, ProgramFault>
    ensures { IfOk result (λ text. string_bytes text ≡ told yes) }
{
    Ok(String::from_str(alloc, if yes { "yes" } else { "no" })?)
}

/// Adds a word to a text, behind a blank where the text isn't empty.
pub(crate) fn add_word(text: &mut String, word: &str) -> Result<(), AllocError> {
    if !text.is_empty() {
        text.push(' ')?;
    }
    text.push_str(word)
}
