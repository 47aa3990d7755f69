//! The parts of completeness, by what they look at.

ghost use Rattle.std.specs.Prelude.{◌↔◌, IfOk, IsTrue};
ghost use Rattle.ty_conform.specs.Carried.{HasLinearisations};
ghost use Rattle.ty_flow.specs.SetFirst.{LocalsAreSetFirst};
ghost use Rattle.ty_complete.specs.Complete.{BeginsWithPrelude, FilesDiffer, NamesFit, WordsFit, TextsFit, ParametersFit, OnlyClassesHaveParameters, TypesAreDeclared, MethodsFitAnyRef, MembersDiffer, ParentsDiffer, ParentsFit, ParentsAreNoObjects, ParentsAreNoThreads, NewIsConcrete, PreludeIsClosed, MembersAgree, FindsAll, HasMain};

use crate::NoMemory;
use crate::agreeing::members_agree;
use crate::any_ref::methods_fit_any_ref;
use crate::beginning::begins_with_prelude;
use crate::creation::new_is_concrete;
use crate::declared_types::types_are_declared;
use crate::entry::has_main;
use crate::files::files_differ;
use crate::found::finds_all;
use crate::linearised::has_linearisations;
use crate::members::members_differ;
use crate::names::names_fit;
use crate::parameters::{only_classes_have_parameters, parameters_fit};
use crate::parents::{parents_are_no_objects, parents_are_no_threads, parents_differ, parents_fit};
use crate::prelude_fields::prelude_is_closed;
use crate::short_words::words_fit;
use crate::texts::texts_fit;
use std::alloc::Global;
use ty_flow::locals_are_set_first;
use ty_prog::Program;

// What the members of each class tell.
pub(crate) fn members_fit(p: &Program) -> bool
    ensures { IsTrue result ↔ (NamesFit p.now × ParametersFit p.now × OnlyClassesHaveParameters p.now × MethodsFitAnyRef p.now × MembersDiffer p.now) }
{
    if !names_fit(p) {
        return false;
    }
    if !parameters_fit(p) {
        return false;
    }
    if !only_classes_have_parameters(p) {
        return false;
    }
    if !methods_fit_any_ref(p) {
        return false;
    }
    members_differ(p)
}

// What the parents of each class tell.
pub(crate) fn parents_are_right(p: &Program) -> bool
    ensures { IsTrue result ↔ (ParentsDiffer p.now × ParentsFit p.now × ParentsAreNoObjects p.now × ParentsAreNoThreads p.now) }
{
    parents_differ(p) && parents_fit(p) && parents_are_no_objects(p) && parents_are_no_threads(p)
}

// What the names and types of classes tell.
pub(crate) fn names_are_right(alloc: Global, p: &Program) -> Result<bool, NoMemory>
    ensures { IfOk result (λ answer. IsTrue answer ↔ (BeginsWithPrelude p.now × WordsFit p.now × FilesDiffer p.now × TypesAreDeclared p.now)) }
{
    if !begins_with_prelude(alloc, p)? {
        return Ok(false);
    }
    if !words_fit(alloc, p)? {
        return Ok(false);
    }
    if !files_differ(alloc, p)? {
        return Ok(false);
    }
    types_are_declared(alloc, p)
}

// What the classes tell together.
pub(crate) fn classes_fit(alloc: Global, p: &Program) -> Result<bool, NoMemory>
    ensures { IfOk result (λ answer. IsTrue answer ↔ (HasLinearisations p.now × HasMain p.now × MembersAgree p.now × FindsAll p.now)) }
{
    if !has_linearisations(alloc, p)? {
        return Ok(false);
    }
    if !has_main(alloc, p)? {
        return Ok(false);
    }
    if !members_agree(p) {
        return Ok(false);
    }
    finds_all(p)
}

// What the nodes of trees tell.
pub(crate) fn nodes_fit(p: &Program) -> bool
    ensures { IsTrue result ↔ (TextsFit p.now × NewIsConcrete p.now × PreludeIsClosed p.now × LocalsAreSetFirst p.now) }
{
    if !texts_fit(p) {
        return false;
    }
    if !new_is_concrete(p) {
        return false;
    }
    if !prelude_is_closed(p) {
        return false;
    }
    locals_are_set_first(p)
}
