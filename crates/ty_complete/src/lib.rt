//! What makes a program of the language L complete, part by part. Plain programs decide each part, for tests on small
//! programs.
#![tactic(auto)]

ghost use Rattle.std.specs.Prelude.{◌↔◌, IfOk, IsTrue};
ghost use Rattle.ty_complete.specs.Complete.{Complete};

mod agreeing;
mod any_ref;
mod beginning;
mod completeness;
mod creation;
mod declared_types;
mod entry;
mod files;
mod found;
mod linearised;
mod members;
mod methods_found;
mod names;
mod objects;
mod own_classes;
mod parameters;
mod parents;
mod plain_text;
mod prelude_fields;
mod short_words;
mod texts;
mod word;

pub use agreeing::members_agree;
pub use any_ref::methods_fit_any_ref;
pub use beginning::begins_with_prelude;
use completeness::{classes_fit, members_fit, names_are_right, nodes_fit, parents_are_right};
pub use creation::new_is_concrete;
pub use declared_types::types_are_declared;
pub use entry::has_main;
pub use files::{files_differ, longer};
pub use found::finds_all;
pub use linearised::has_linearisations;
pub use members::members_differ;
pub use names::names_fit;
pub use parameters::{only_classes_have_parameters, parameters_fit};
pub use parents::{parents_are_no_objects, parents_are_no_threads, parents_differ, parents_fit};
pub use plain_text::is_text;
pub use prelude_fields::prelude_is_closed;
pub use short_words::words_fit;
pub use sl_base::NoMemory;
use std::alloc::Global;
pub use texts::texts_fit;
use ty_prog::Program;
pub use word::{Word, words};

/// Whether a program is complete. Errors: want of memory.
pub fn is_complete(alloc: Global, p: &Program) -> Result<bool, NoMemory>
    ensures { IfOk result (λ answer. IsTrue answer ↔ Complete p.now) }
{
    if !members_fit(p) {
        return Ok(false);
    }
    if !parents_are_right(p) {
        return Ok(false);
    }
    if !names_are_right(alloc, p)? {
        return Ok(false);
    }
    if !classes_fit(alloc, p)? {
        return Ok(false);
    }
    Ok(nodes_fit(p))
}
