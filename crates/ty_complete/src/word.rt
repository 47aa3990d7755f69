//! The words of names.

ghost use Rattle.std.specs.Prelude.{◌≡◌, ◌++◌, ◌∷◌, [], IfOk, codes};
ghost use Rattle.std.specs.Str.{bytes_eq, chars};
ghost use Rattle.ty_complete.specs.Words.{ends_low, word_of, words};

use std::alloc::{AllocError, Global};
use ty_prog::Name;

/// A word of a name, by what passes of the compiler make of it: nothing, `super`, `main`, `eq`, `init`, `lzy`, one that
/// ends with `_`, or another.
#[derive(Clone, Copy, Debug, PartialEq, Eq)]
pub enum Word {
    Empty,
    Super,
    Main,
    Eq,
    Init,
    Lzy,
    Low,
    Other,
}

const SUPER: [char; 5] = ['s', 'u', 'p', 'e', 'r'];

const MAIN: [char; 4] = ['m', 'a', 'i', 'n'];

const EQ: [char; 2] = ['e', 'q'];

const INIT: [char; 4] = ['i', 'n', 'i', 't'];

const LZY: [char; 3] = ['l', 'z', 'y'];

/// The words of a name, which `$` separates. Errors: want of memory.
pub fn words(alloc: Global, name: &Name) -> Result<Vec<Word>, AllocError>
    ensures { IfOk result (λ found. found.items ≡ words name.now) }
{
    let characters = characters(alloc, name.as_str())?;
    words_of(alloc, characters.as_slice())
}

/// The characters of a text. Errors: want of memory.
pub(crate) fn characters(alloc: Global, text: &str) -> Result<Vec<char>, AllocError>
    ensures { IfOk result (λ characters. characters.items ≡ chars text.now) }
{
    text.chars().collect(alloc)
}

// The words of a name.
fn words_of(alloc: Global, characters: &[char]) -> Result<Vec<Word>, AllocError>
    ensures { IfOk result (λ found. found.items ≡ words characters.now) }
{
    let mut found = Vec::new(alloc);
    let mut begun = Vec::new(alloc);
    for character in characters {
        if *character == '$' {
            found.push(word_of(begun.as_slice()))?;
            begun.clear();
        } else {
            begun.push(*character)?;
        }
    }
    found.push(word_of(begun.as_slice()))?;
    Ok(found)
}

fn word_of(characters: &[char]) -> Word
    ensures { result ≡ word_of characters.now }
{
    if characters.is_empty() {
        Word::Empty
    } else if is_text(characters, &SUPER) {
        Word::Super
    } else if is_text(characters, &MAIN) {
        Word::Main
    } else if is_text(characters, &EQ) {
        Word::Eq
    } else if is_text(characters, &INIT) {
        Word::Init
    } else if is_text(characters, &LZY) {
        Word::Lzy
    } else if ends_low(characters) {
        Word::Low
    } else {
        Word::Other
    }
}

// Whether characters are this text.
fn is_text(characters: &[char], text: &[char]) -> bool
    ensures { result ≡ bytes_eq characters.now text.now }
{
    characters == text
}

// Whether a word ends with `_`.
fn ends_low(characters: &[char]) -> bool
    ensures { result ≡ ends_low characters.now }
{
    match characters.last() {
        Some(last) => *last == '_',
        None => false,
    }
}
