//! Members of a class from the parts of their forms.

use crate::head::Member;
use crate::local_types::LocalTypes;
use crate::names::Names;
use crate::parts::Parts;
use crate::program_fault::ProgramFault;
use sqlite_items::Items;
use std::alloc::Global;
use ty_prog::{Cell, Class, Field, Kind, Method, Name};

/// A class without a name and members.
pub(crate) fn empty_class(alloc: Global) -> Class {
    Class {
        name: Name::from_string(String::new(alloc)),
        kind: Kind::Class,
        parents: Items::new(alloc),
        linear: Items::new(alloc),
        params: Items::new(alloc),
        mixins: Items::new(alloc),
        fields: Items::new(alloc),
        cells: Items::new(alloc),
        methods: Items::new(alloc),
        super_args: Items::new(alloc),
        body: Items::new(alloc),
        locals: 0,
    }
}

/// Adds what a form says to a class and the types of its locals.
pub(crate) fn add_member(
    alloc: Global,
    class: &mut Class,
    types: &mut LocalTypes,
    form: &mut Parts,
    names: &Names,
    member: Member,
) -> Result<(), ProgramFault> {
    match member {
        Member::Linear => {
            class.linear = form.classes_left(names)?;
            types.has_linear = true;
            Ok(())
        }
        Member::Mixins => {
            class.mixins = form.classes_left(names)?;
            Ok(())
        }
        Member::Super => {
            class.super_args = form.exprs_left();
            Ok(())
        }
        Member::Body => {
            class.body = form.exprs_left();
            Ok(())
        }
        Member::Field => add_field(class, form, names),
        Member::Param => add_param(class, types, form, names),
        Member::Lazy => add_cell(class, types, form, names),
        Member::Method => add_method(alloc, class, types, form, names, false),
        Member::Static => add_method(alloc, class, types, form, names, true),
    }
}

fn add_field(class: &mut Class, form: &mut Parts, names: &Names) -> Result<(), ProgramFault> {
    let name = form.name();
    let ty = form.ty(names);
    class.fields.push(Field { name, ty })?;
    Ok(())
}

fn add_param(
    class: &mut Class,
    types: &mut LocalTypes,
    form: &mut Parts,
    names: &Names,
) -> Result<(), ProgramFault> {
    class.params.push(count(class.fields.len()))?;
    let name = form.name();
    let ty = form.ty(names);
    class.fields.push(Field { name, ty })?;
    types.constructor.push(ty)?;
    Ok(())
}

fn add_cell(
    class: &mut Class,
    types: &mut LocalTypes,
    form: &mut Parts,
    names: &Names,
) -> Result<(), ProgramFault> {
    let of_locals = form.locals_left();
    let locals = count(of_locals.len());
    types.cells.push(of_locals)?;
    let name = form.name();
    let ty = form.ty(names);
    let init = form.expr();
    class.cells.push(Cell {
        name,
        ty,
        init,
        locals,
    })?;
    Ok(())
}

fn add_method(
    alloc: Global,
    class: &mut Class,
    types: &mut LocalTypes,
    form: &mut Parts,
    names: &Names,
    is_static: bool,
) -> Result<(), ProgramFault> {
    let mut of_locals = Items::from_slice(alloc, form.params.as_slice())?;
    of_locals.append(form.locals_left())?;
    let locals = count(of_locals.len());
    types.methods.push(of_locals)?;
    let name = form.name();
    let params = form.params_left();
    let result_type = form.ty(names);
    let body = form.expr_left();
    class.methods.push(Method {
        name,
        params,
        result: result_type,
        body,
        is_static,
        locals,
    })?;
    Ok(())
}

/// Ends the class with this number, whose members have been added.
pub(crate) fn end_class(
    class: &mut Class,
    types: &mut LocalTypes,
    form: &mut Parts,
    names: &Names,
    kind: Kind,
    number: u32,
) -> Result<(), ProgramFault> {
    class.kind = kind;
    class.name = form.name();
    class.parents = form.classes_left(names)?;
    if !types.has_linear {
        class.linear.push(number)?;
    }
    types.constructor.append(form.locals_left())?;
    class.locals = count(types.constructor.len());
    Ok(())
}

pub(crate) fn count(length: usize) -> u32 {
    u32::try_from(length).unwrap_or(u32::MAX)
}
