//! Whether the words of names are short.

ghost use Rattle.std.specs.Prelude.{◌≡◌, ◌↔◌, IsTrue, IfOk};
ghost use Rattle.std.specs.List.{list_all};
ghost use Rattle.ty_complete.specs.Complete.{has_short_words, words_fit, WordsFit};

use crate::NoMemory;
use crate::own_classes::own_classes;
use crate::word::characters;
use std::alloc::{AllocError, Global};
use ty_prog::{Cell, Class, Field, Method, Name, Program};

/// Whether the words of the names outside the prelude, the texts between `$`, have at most 81 characters. Errors: want of
/// memory.
pub fn words_fit(alloc: Global, p: &Program) -> Result<bool, NoMemory>
    ensures { IfOk result (λ answer. IsTrue answer ↔ WordsFit p.now) }
{
    Ok(all_fit(alloc, own_classes(p))?)
}

// Whether the words of all names of some classes are short.
fn all_fit(alloc: Global, classes: &[Class]) -> Result<bool, AllocError>
    ensures { IfOk result (λ answer. answer ≡ list_all words_fit classes.now) }
{
    for class in classes {
        if !has_words(alloc, class)? {
            return Ok(false);
        }
    }
    Ok(true)
}

// Whether those of a class and its members are.
fn has_words(alloc: Global, class: &Class) -> Result<bool, AllocError>
    ensures { IfOk result (λ answer. answer ≡ words_fit class.now) }
{
    if !has_short_words(alloc, &class.name)? {
        return Ok(false);
    }
    if !fields_fit(alloc, class.fields.as_slice())? {
        return Ok(false);
    }
    if !cells_fit(alloc, class.cells.as_slice())? {
        return Ok(false);
    }
    methods_fit(alloc, class.methods.as_slice())
}

// Whether those of fields are.
fn fields_fit(alloc: Global, fields: &[Field]) -> Result<bool, AllocError>
    ensures { IfOk result (λ answer. answer ≡ list_all (λ f. has_short_words f.name) fields.now) }
{
    for field in fields {
        if !has_short_words(alloc, &field.name)? {
            return Ok(false);
        }
    }
    Ok(true)
}

// Whether those of lazy members are.
fn cells_fit(alloc: Global, cells: &[Cell]) -> Result<bool, AllocError>
    ensures { IfOk result (λ answer. answer ≡ list_all (λ c. has_short_words c.name) cells.now) }
{
    for cell in cells {
        if !has_short_words(alloc, &cell.name)? {
            return Ok(false);
        }
    }
    Ok(true)
}

// Whether those of methods are.
fn methods_fit(alloc: Global, methods: &[Method]) -> Result<bool, AllocError>
    ensures { IfOk result (λ answer. answer ≡ list_all (λ m. has_short_words m.name) methods.now) }
{
    for method in methods {
        if !has_short_words(alloc, &method.name)? {
            return Ok(false);
        }
    }
    Ok(true)
}

fn has_short_words(alloc: Global, name: &Name) -> Result<bool, AllocError>
    ensures { IfOk result (λ answer. answer ≡ has_short_words name.now) }
{
    let characters = characters(alloc, name.as_str())?;
    Ok(words_are_short(characters.as_slice()))
}

// Whether the words of a name are short.
fn words_are_short(characters: &[char]) -> bool
    ensures { result ≡ has_short_words characters.now }
{
    characters
        .split(|character| *character == '$')
        .all(|word| word.len() <= 81)
}
