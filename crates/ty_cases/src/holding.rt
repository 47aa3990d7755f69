//! Which parts of goodness hold of a program.

ghost use Rattle.std.specs.Prelude.{◌↔◌, IfOk, IsTrue};
ghost use Rattle.ty_cases.specs.Holds.{Holds};

use crate::part::Part;
use std::alloc::Global;
use ty_complete::{
    begins_with_prelude, files_differ, finds_all, has_linearisations, has_main, members_agree,
    members_differ, methods_fit_any_ref, names_fit, new_is_concrete, only_classes_have_parameters,
    parameters_fit, parents_are_no_objects, parents_are_no_threads, parents_differ, parents_fit,
    prelude_is_closed, texts_fit, types_are_declared, words_fit,
};
use ty_flow::locals_are_set_first;
use ty_good::{
    accessors_found, cells_read, has_forms, lazy_gets_stand, lazy_members_found, mixins_fit,
    modules_set, names_made, numbers_in_range, selects_found, supers_stand, trait_fields_stand,
    traits_have_room, traits_lowered,
};
use ty_prog::{NoMemory, Program};
use ty_typed::{ClassLocals, is_typed_with};

/// Whether a part of goodness holds of a program after k lowerings, where the locals of its classes have these types.
/// Errors: want of memory.
pub(crate) fn holds(
    alloc: Global,
    part: Part,
    k: u32,
    p: &Program,
    locals: &[ClassLocals],
) -> Result<bool, NoMemory>
    ensures { IfOk result (λ answer. IsTrue answer ↔ Holds part k p.now locals.now) }
{
    match part {
        Part::BeginsWithPrelude => begins_with_prelude(alloc, p),
        Part::FilesDiffer => files_differ(alloc, p),
        Part::NamesFit => Ok(names_fit(p)),
        Part::WordsFit => words_fit(alloc, p),
        Part::TextsFit => Ok(texts_fit(p)),
        Part::ParametersFit => Ok(parameters_fit(p)),
        Part::OnlyClassesHaveParameters => Ok(only_classes_have_parameters(p)),
        Part::TypesAreDeclared => types_are_declared(alloc, p),
        Part::MethodsFitAnyRef => Ok(methods_fit_any_ref(p)),
        Part::MembersDiffer => Ok(members_differ(p)),
        Part::HasLinearisations => has_linearisations(alloc, p),
        Part::ParentsDiffer => Ok(parents_differ(p)),
        Part::ParentsFit => Ok(parents_fit(p)),
        Part::ParentsAreNoObjects => Ok(parents_are_no_objects(p)),
        Part::ParentsAreNoThreads => Ok(parents_are_no_threads(p)),
        Part::NewIsConcrete => Ok(new_is_concrete(p)),
        Part::PreludeIsClosed => Ok(prelude_is_closed(p)),
        Part::MembersAgree => Ok(members_agree(p)),
        Part::FindsAll => finds_all(p),
        Part::LocalsAreSetFirst => Ok(locals_are_set_first(p)),
        Part::HasMain => has_main(alloc, p),
        Part::NumbersInRange => Ok(numbers_in_range(p)),
        Part::Typed => is_typed_with(p, locals),
        Part::HasForms => Ok(has_forms(k, p)),
        Part::NamesMade => names_made(alloc, k, p),
        Part::MixinsFit => mixins_fit(alloc, k, p),
        Part::SupersStand => supers_stand(alloc, p),
        Part::TraitsHaveRoom => Ok(traits_have_room(k, p)),
        Part::TraitsLowered => traits_lowered(alloc, k, p),
        Part::ModulesSet => modules_set(alloc, k, p),
        Part::LazyGetsStand => lazy_gets_stand(alloc, k, p),
        Part::CellsRead => cells_read(alloc, k, p),
        Part::LazyMembersFound => lazy_members_found(alloc, k, p),
        Part::TraitFieldsStand => trait_fields_stand(alloc, k, p),
        Part::AccessorsFound => accessors_found(alloc, k, p),
        Part::SelectsFound => selects_found(alloc, k, p),
    }
}
