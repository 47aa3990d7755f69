//! Questions on members and linearisations.

use crate::answers::add_word;
use std::alloc::Global;
use ty_prog::{Program, find, super_find};
use ty_text::{Parts, ProgramFault, Source};

// `find CLASS NAME`.
pub(crate) fn found(
    alloc: Global,
    source: &Source,
    parts: &mut Parts,
) -> Result<String, ProgramFault> {
    let class = parts.class(&source.names);
    let name = parts.name();
    member(alloc, &source.program, find(&source.program, class, &name))
}

// `super-find CLASS AFTER NAME`.
pub(crate) fn found_behind(
    alloc: Global,
    source: &Source,
    parts: &mut Parts,
) -> Result<String, ProgramFault> {
    let class = parts.class(&source.names);
    let after = parts.class(&source.names);
    let name = parts.name();
    let found = super_find(&source.program, class, after, &name);
    member(alloc, &source.program, found)
}

// The class's name and the method's number, or none.
fn member(
    alloc: Global,
    program: &Program,
    found: Option<(u32, u32)>,
) -> Result<String, ProgramFault> {
    match found {
        Some((class, method)) => {
            let class = class_name(program, class);
            Ok(format!(in alloc; "{class}.{method}")?)
        }
        None => Ok(String::from_str(alloc, "none")?),
    }
}

pub(crate) fn class_name(program: &Program, class: u32) -> &str {
    match program.classes.get(class as usize) {
        Some(class) => class.name.as_str(),
        None => "unknown",
    }
}

// `linear CLASS`.
pub(crate) fn linear(
    alloc: Global,
    source: &Source,
    parts: &mut Parts,
) -> Result<String, ProgramFault> {
    let number = parts.class(&source.names);
    let mut text = String::new(alloc);
    if let Some(class) = source.program.classes.get(number as usize) {
        for class in class.linear.as_slice() {
            add_word(&mut text, class_name(&source.program, *class))?;
        }
    }
    Ok(text)
}
