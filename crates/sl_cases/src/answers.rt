//! Answers to lines of case files.

use crate::defs::outline_of;
use crate::repeats::repeated;
use crate::tokens::shown;
use sl_lexer::lex;
use sl_newline::separate;
use sl_source::{Refusal, SourceFault, read_source};
use sl_text::chars_of;
use std::alloc::{AllocError, Global};
use std::fmt::Write;

// No case is longer.
const LIMIT: usize = 1_000_000;

/// The answer to `tokens SOURCE`, `file SOURCE`, `repeat COUNT|BEFORE|PART|MIDDLE|PART|BEHIND` or `bytes NUMBER..`.
pub(crate) fn answered(alloc: Global, line: &str) -> Result<String, AllocError> {
    if let Some(text) = line.strip_prefix("tokens ") {
        return tokens_of(alloc, with_lines(alloc, text)?.as_str().as_bytes());
    }
    if let Some(text) = line.strip_prefix("file ") {
        return outlined(alloc, with_lines(alloc, text)?.as_str().as_bytes());
    }
    if let Some(text) = line.strip_prefix("repeat ") {
        let source = repeated(alloc, text)?;
        return verdict(
            alloc,
            with_lines(alloc, source.as_str())?.as_str().as_bytes(),
        );
    }
    if let Some(text) = line.strip_prefix("bytes ") {
        let mut bytes = Vec::new(alloc);
        for word in text.split(' ') {
            bytes.push(word.parse::<u8>().unwrap_or(0))?;
        }
        return verdict(alloc, bytes.as_slice());
    }
    String::from_str(alloc, "no case")
}

// The text with a line end for each `¶`.
fn with_lines(alloc: Global, text: &str) -> Result<String, AllocError> {
    let mut source = String::new(alloc);
    for c in text.chars() {
        source.push(if c == '¶' { '\n' } else { c })?;
    }
    Ok(source)
}

// The tokens with newlines between them, or the lexical fault.
fn tokens_of(alloc: Global, bytes: &[u8]) -> Result<String, AllocError> {
    if bytes.len() > LIMIT {
        return String::from_str(alloc, "too long");
    }
    let text = match chars_of(alloc, bytes) {
        Ok(text) => text,
        Err(_) => return verdict(alloc, bytes),
    };
    match lex(alloc, &text) {
        Ok(tokens) => match separate(alloc, &tokens, &text) {
            Ok(separated) => shown(alloc, separated.as_slice()),
            Err(_) => String::from_str(alloc, "memory"),
        },
        Err(_) => verdict(alloc, bytes),
    }
}

// The outline of the tree, or the fault.
fn outlined(alloc: Global, bytes: &[u8]) -> Result<String, AllocError> {
    if bytes.len() > LIMIT {
        return String::from_str(alloc, "too long");
    }
    match read_source(alloc, bytes) {
        Ok(source) => outline_of(alloc, &source.tree),
        Err(fault) => told(alloc, fault),
    }
}

// Whether there is a tree, or the fault.
fn verdict(alloc: Global, bytes: &[u8]) -> Result<String, AllocError> {
    if bytes.len() > LIMIT {
        return String::from_str(alloc, "too long");
    }
    match read_source(alloc, bytes) {
        Ok(_) => String::from_str(alloc, "a tree"),
        Err(fault) => told(alloc, fault),
    }
}

// What is told of a fault: its position, its part and its kind.
fn told(alloc: Global, fault: SourceFault) -> Result<String, AllocError> {
    match fault {
        SourceFault::Refused(Refusal::NotUtf8 { at }) => format!(in alloc; "byte {at}: not UTF-8"),
        SourceFault::Refused(Refusal::Lex { fault, spot }) => {
            format!(in alloc; "{}:{}: lex {:?}", spot.line, spot.column, fault.kind)
        }
        SourceFault::Refused(Refusal::Parse { fault, spot }) => {
            format!(in alloc; "{}:{}: parse {:?}", spot.line, spot.column, fault.kind)
        }
        SourceFault::Memory => String::from_str(alloc, "memory"),
    }
}
