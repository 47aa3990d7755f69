//! The parts of goodness, by what they look at.

ghost use Rattle.std.specs.Prelude.{◌↔◌, IfOk, IsTrue};
ghost use Rattle.ty_good.specs.Accessors.{AccessorsFound};
ghost use Rattle.ty_good.specs.LazyGets.{LazyGetsStand};
ghost use Rattle.ty_good.specs.LazyMembers.{CellsRead, LazyMembersFound};
ghost use Rattle.ty_good.specs.Modules.{ModulesSet};
ghost use Rattle.ty_good.specs.Names.{NamesMade};
ghost use Rattle.ty_good.specs.Selection.{SelectsFound};
ghost use Rattle.ty_good.specs.TraitFields.{TraitFieldsStand};
ghost use Rattle.ty_good.specs.Traits.{MixinsFit, SupersStand, TraitsLowered};

use crate::NoMemory;
use crate::accessors::accessors_found;
use crate::lazy_gets::lazy_gets_stand;
use crate::lazy_members::{cells_read, lazy_members_found};
use crate::modules::modules_set;
use crate::names::names_made;
use crate::selection::selects_found;
use crate::trait_fields::trait_fields_stand;
use crate::traits::{mixins_fit, supers_stand, traits_lowered};
use std::alloc::Global;
use ty_prog::Program;

// What its names, modules and selected methods tell.
pub(crate) fn members_fit(alloc: Global, k: u32, p: &Program) -> Result<bool, NoMemory>
    ensures { IfOk result (λ answer. IsTrue answer ↔ (NamesMade k p.now × ModulesSet k p.now × SelectsFound k p.now)) }
{
    if !names_made(alloc, k, p)? {
        return Ok(false);
    }
    if !modules_set(alloc, k, p)? {
        return Ok(false);
    }
    selects_found(alloc, k, p)
}

// Where its lazy members are read.
pub(crate) fn lazy_members_fit(alloc: Global, k: u32, p: &Program) -> Result<bool, NoMemory>
    ensures { IfOk result (λ answer. IsTrue answer ↔ (LazyGetsStand k p.now × CellsRead k p.now × LazyMembersFound k p.now)) }
{
    if !lazy_gets_stand(alloc, k, p)? {
        return Ok(false);
    }
    if !cells_read(alloc, k, p)? {
        return Ok(false);
    }
    lazy_members_found(alloc, k, p)
}

// Where the fields of its traits are read and stored.
pub(crate) fn accesses_fit(alloc: Global, k: u32, p: &Program) -> Result<bool, NoMemory>
    ensures { IfOk result (λ answer. IsTrue answer ↔ (TraitFieldsStand k p.now × AccessorsFound k p.now)) }
{
    if !trait_fields_stand(alloc, k, p)? {
        return Ok(false);
    }
    accessors_found(alloc, k, p)
}

// What its traits and mixins tell.
pub(crate) fn traits_fit(alloc: Global, k: u32, p: &Program) -> Result<bool, NoMemory>
    ensures { IfOk result (λ answer. IsTrue answer ↔ (MixinsFit k p.now × SupersStand p.now × TraitsLowered k p.now)) }
{
    if !mixins_fit(alloc, k, p)? {
        return Ok(false);
    }
    if !supers_stand(alloc, p)? {
        return Ok(false);
    }
    traits_lowered(alloc, k, p)
}
