//! Names of classes in texts: without folder and without a `$` at the end.

ghost use Rattle.std.specs.Prelude.{◌≡◌, [], ◌∷◌, ◌++◌, IfOk, OnOk, MatchOption};
ghost use Rattle.std.specs.Char.{IsScalar};
ghost use Rattle.std.specs.Str.{chars};
ghost use Rattle.std.specs.String.{string_bytes};
ghost use Rattle.vm_state.specs.Heaps.{last_part, without_dollar, simple_name};
ghost use Rattle.vm_state.specs.Natives.{class_text};

use cf_link::Linked;
use sl_base::{Name, NoMemory};
use std::alloc::Global;

/// One character more.
fn push_character(text: &mut String, character: char) -> Result<(), NoMemory>
    ensures { OnOk result (chars (string_bytes text.new) ≡ chars (string_bytes text.old) ++ character ∷ []) }
{
    text.push(character)?;
    Ok(())
}

/// One character less, where there is one.
fn pop_character(text: &mut String) -> Option<char>
    ensures { MatchOption result (chars (string_bytes text.old) ≡ []) (λ c. chars (string_bytes text.old) ≡ chars (string_bytes text.new) ++ c ∷ []) }
{
    match text.pop() {
        None => None,
        Some(character) => Some(scalar(character)),
    }
}

/// The character itself.
fn scalar(character: char) -> char
    ensures { IsScalar character × (result ≡ character) }
{
    character
}

fn clear(text: &mut String)
    ensures { chars (string_bytes text.new) ≡ [] }
{
    text.clear()
}

/// What follows the last `/`.
#[tactic(auto, using(crate::proofs::Characters::last_part_slash, crate::proofs::Characters::last_part_push))]
fn last_part(alloc: Global, text: &str) -> Result<String, NoMemory>
    ensures { IfOk result (λ part. chars (string_bytes part) ≡ last_part (chars text.now)) }
{
    let mut part = String::new(alloc);
    for character in text.chars() {
        if character == '/' {
            clear(&mut part);
        } else {
            push_character(&mut part, character)?;
        }
    }
    Ok(part)
}

#[tactic(auto, using(crate::proofs::Characters::without_dollar_push))]
fn without_dollar(text: String) -> Result<Name, NoMemory>
    ensures { IfOk result (λ name. name ≡ without_dollar (chars (string_bytes text))) }
{
    let mut text = text;
    match pop_character(&mut text) {
        None => clear(&mut text),
        Some(character) => {
            if character != '$' {
                push_character(&mut text, character)?;
            }
        }
    }
    Ok(Name::from_string(text))
}

fn simple_name(alloc: Global, name: &Name) -> Result<Name, NoMemory>
    ensures { IfOk result (λ made. made ≡ simple_name name.now) }
{
    without_dollar(last_part(alloc, name.as_str())?)
}

/// The name of a class in texts.
#[tactic(auto, using(crate::proofs::Characters::no_chars))]
pub fn class_text(alloc: Global, k: &Linked, class: u32) -> Result<Name, NoMemory>
    ensures { IfOk result (λ made. made ≡ class_text k.now class) }
{
    match k.classes.get(class as usize) {
        Some(c) => simple_name(alloc, &c.name),
        None => Ok(Name::from_text(alloc, "")?),
    }
}
