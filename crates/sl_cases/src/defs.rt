//! Files, templates and members in outlines.

use crate::exprs::{
    put_arguments, write_expr, write_infix, write_prefix, write_simple, write_stat, write_suffix,
};
use crate::leaves::{binding_word, name, write_type};
use crate::outline::{Job, Outline};
use crate::patterns::{write_case, write_pat, write_pattern, write_simple_pattern};
use sl_ast::{
    ClassModifier, ClassParam, Def, Member, MemberModifier, Param, Parents, Template, TopDef, Unit,
};
use std::alloc::{AllocError, Global};

// No outline has more jobs.
const JOBS: usize = 1_000_000;

/// The outline of a file.
pub(crate) fn outline_of(alloc: Global, unit: &Unit) -> Result<String, AllocError> {
    let mut out = Outline::new(alloc);
    for def in unit.defs.as_slice().iter().rev() {
        out.put(Job::Top(def))?;
    }
    for _ in 0..JOBS {
        match out.take() {
            Some(job) => write_job(&mut out, job)?,
            None => break,
        }
    }
    Ok(out.into_text())
}

// Writes what a job is about.
fn write_job<'a>(out: &mut Outline<'a>, job: Job<'a>) -> Result<(), AllocError> {
    match job {
        Job::Top(def) => write_top(out, def),
        Job::Member(member) => write_member(out, member),
        Job::Expr(e) => write_expr(out, e),
        Job::Infix(infix) => write_infix(out, infix),
        Job::Prefix(prefix) => write_prefix(out, prefix),
        Job::Simple(simple) => write_simple(out, simple),
        Job::Suffix(suffix) => write_suffix(out, suffix),
        Job::Stat(stat) => write_stat(out, stat),
        Job::Case(case) => write_case(out, case),
        Job::Pattern(pattern) => write_pattern(out, pattern),
        Job::Pat(pat) => write_pat(out, pat),
        Job::PatS(pattern) => write_simple_pattern(out, pattern),
        Job::Open(head) => out.open(head),
        Job::Word(word) => out.word(word),
        Job::Close => out.close(),
    }
}

// `(class sealed abstract case NAME (PARAMETER ..) TEMPLATE)`, `(trait ..)`, `(object ..)`.
fn write_top<'a>(out: &mut Outline<'a>, def: &'a TopDef) -> Result<(), AllocError> {
    match def {
        TopDef::Class {
            modifiers,
            is_case,
            name,
            params,
            template,
            ..
        } => {
            out.open("class")?;
            for modifier in modifiers.as_slice() {
                out.word(class_word(*modifier))?;
            }
            if *is_case {
                out.word("case")?;
            }
            out.word(name.name.as_str())?;
            if let Some(params) = params {
                out.open("params")?;
                for param in params.params.as_slice() {
                    write_class_param(out, param)?;
                }
                out.close()?;
            }
            put_template(out, template)
        }
        TopDef::Trait {
            is_sealed,
            name,
            template,
            ..
        } => {
            out.open("trait")?;
            if *is_sealed {
                out.word("sealed")?;
            }
            out.word(name.name.as_str())?;
            put_template(out, template)
        }
        TopDef::Object { name, template, .. } => {
            out.open("object")?;
            out.word(name.name.as_str())?;
            put_template(out, template)
        }
    }
}

// The word of a modifier of a class.
fn class_word(modifier: ClassModifier) -> &'static str {
    match modifier {
        ClassModifier::Sealed(_) => "sealed",
        ClassModifier::Abstract(_) => "abstract",
    }
}

// `(private val NAME : TYPE)`.
fn write_class_param(out: &mut Outline, param: &ClassParam) -> Result<(), AllocError> {
    out.word("(")?;
    if let Some(member) = param.member {
        if member.is_private {
            out.word("private")?;
        }
        out.word(binding_word(member.binding))?;
    }
    out.word(param.name.name.as_str())?;
    write_type(out, &param.ty)?;
    out.close()
}

// `(extends NAME (args ..) with NAME ..) MEMBER ..)`, with `{}` where a body has no members.
fn put_template<'a>(out: &mut Outline<'a>, template: &'a Template) -> Result<(), AllocError> {
    out.put(Job::Close)?;
    if let Some(members) = &template.body {
        if members.as_slice().is_empty() {
            out.put(Job::Word("{}"))?;
        }
        for member in members.as_slice().iter().rev() {
            out.put(Job::Member(member))?;
        }
    }
    match &template.parents {
        Some(parents) => put_parents(out, parents),
        None => Ok(()),
    }
}

// Puts the parents of a template.
fn put_parents<'a>(out: &mut Outline<'a>, parents: &'a Parents) -> Result<(), AllocError> {
    out.put(Job::Close)?;
    for parent in parents.traits.as_slice().iter().rev() {
        out.put(name(parent))?;
        out.put(Job::Word("with"))?;
    }
    if let Some(args) = &parents.args {
        put_arguments(out, args)?;
        out.put(Job::Open("args"))?;
    }
    out.put(name(&parents.first))?;
    out.put(Job::Open("extends"))
}

// `(override private DEFINITION)` where there are modifiers, else the definition or the expression.
fn write_member<'a>(out: &mut Outline<'a>, member: &'a Member) -> Result<(), AllocError> {
    match member {
        Member::Expr(e) => out.put(Job::Expr(e)),
        Member::Def { modifiers, def, .. } => {
            out.word("(")?;
            for modifier in modifiers.as_slice() {
                out.word(member_word(*modifier))?;
            }
            out.put(Job::Close)?;
            write_def(out, def)
        }
    }
}

// The word of a modifier of a member.
fn member_word(modifier: MemberModifier) -> &'static str {
    match modifier {
        MemberModifier::Override(_) => "override",
        MemberModifier::Private(_) => "private",
    }
}

// `val NAME : TYPE E`, and so on, with `def NAME (PARAMETER ..) : TYPE E`.
fn write_def<'a>(out: &mut Outline<'a>, def: &'a Def) -> Result<(), AllocError> {
    match def {
        Def::Val {
            name,
            ty,
            value,
            ..
        } => {
            out.word("val")?;
            out.word(name.name.as_str())?;
            if let Some(ty) = ty {
                write_type(out, ty)?;
            }
            match value {
                Some(value) => out.put(Job::Expr(value)),
                None => Ok(()),
            }
        }
        Def::Var {
            name,
            ty,
            value,
            ..
        } => {
            out.word("var")?;
            out.word(name.name.as_str())?;
            if let Some(ty) = ty {
                write_type(out, ty)?;
            }
            out.put(Job::Expr(value))
        }
        Def::Lazy {
            name,
            ty,
            value,
            ..
        } => {
            out.word("lazy")?;
            out.word(name.name.as_str())?;
            if let Some(ty) = ty {
                write_type(out, ty)?;
            }
            out.put(Job::Expr(value))
        }
        Def::Def {
            name,
            params,
            ty,
            value,
            ..
        } => {
            out.word("def")?;
            out.word(name.name.as_str())?;
            if let Some(params) = params {
                write_params(out, params.as_slice())?;
            }
            write_type(out, ty)?;
            match value {
                Some(value) => out.put(Job::Expr(value)),
                None => Ok(()),
            }
        }
    }
}

// Writes the parameters of a method.
fn write_params(out: &mut Outline, params: &[Param]) -> Result<(), AllocError> {
    out.open("params")?;
    for param in params {
        out.word("(")?;
        out.word(param.name.name.as_str())?;
        write_type(out, &param.ty)?;
        out.close()?;
    }
    out.close()
}
