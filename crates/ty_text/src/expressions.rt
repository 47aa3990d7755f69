//! Expressions from the parts of their forms.

use crate::head::{Binary, Leaf, Listed, Ternary, Unary};
use crate::names::{Names, Sort};
use crate::parts::Parts;
use crate::program_fault::ProgramFault;
use sqlite_items::Boxed;
use std::alloc::Global;
use ty_prog::{Expr, Tested};

pub(crate) fn leaf_of(form: &mut Parts, names: &Names, leaf: Leaf) -> Expr {
    match leaf {
        Leaf::Int => Expr::Int(form.int()),
        Leaf::Long => Expr::Long(form.long()),
        Leaf::Bool => Expr::Bool(form.truth()),
        Leaf::Text => Expr::Text(form.name()),
        Leaf::Null => Expr::Null,
        Leaf::Unit => Expr::Unit,
        Leaf::Local => Expr::Local(form.number()),
        Leaf::This => Expr::This,
        Leaf::ObjectGet => Expr::ObjectGet(form.class(names)),
        Leaf::ModuleGet => Expr::ModuleGet(form.class(names)),
    }
}

pub(crate) fn unary_of(
    form: &mut Parts,
    names: &Names,
    unary: Unary,
) -> Result<Expr, ProgramFault> {
    let of = form.boxed()?;
    Ok(match unary {
        Unary::SetLocal => Expr::SetLocal(form.number(), of),
        Unary::Get => {
            let (class, field) = form.member(names, Sort::Field);
            Expr::Get { of, class, field }
        }
        Unary::LazyGet => {
            let (class, cell) = form.member(names, Sort::Cell);
            Expr::LazyGet { of, class, cell }
        }
        Unary::Convert => {
            let to = form.ty(names);
            Expr::Convert { to, of }
        }
        Unary::Test => {
            let test = tested(form, names);
            Expr::Test { of, test }
        }
        Unary::SetModule => Expr::SetModule(form.class(names), of),
        Unary::TextOf => Expr::TextOf(of),
        Unary::Throw => Expr::Throw(of),
        Unary::Start => Expr::Start(of),
        Unary::NewLatch => Expr::NewLatch(of),
        Unary::OwnedHere => Expr::OwnedHere(of),
        Unary::Await => Expr::Await(of),
        Unary::CountDown => Expr::CountDown(of),
    })
}

fn tested(form: &mut Parts, names: &Names) -> Tested {
    if form.begins_with("latch") {
        return Tested::Latch;
    }
    if form.begins_with("evaluating") {
        return Tested::Evaluating;
    }
    Tested::OfType(form.ty(names))
}

pub(crate) fn binary_of(
    form: &mut Parts,
    names: &Names,
    binary: Binary,
) -> Result<Expr, ProgramFault> {
    let of = form.boxed()?;
    let value = form.boxed()?;
    Ok(match binary {
        Binary::Equal => Expr::Equal(of, value),
        Binary::While => Expr::While(of, value),
        Binary::Put => {
            let (class, field) = form.member(names, Sort::Field);
            Expr::Put {
                of,
                class,
                field,
                value,
            }
        }
    })
}

pub(crate) fn ternary_of(
    form: &mut Parts,
    names: &Names,
    ternary: Ternary,
) -> Result<Expr, ProgramFault> {
    let of = form.boxed()?;
    let old = form.boxed()?;
    let new = form.boxed()?;
    Ok(match ternary {
        Ternary::If => Expr::If(of, old, new),
        Ternary::Cas => {
            let (class, field) = form.member(names, Sort::Field);
            Expr::Cas {
                of,
                class,
                field,
                old,
                new,
            }
        }
    })
}

pub(crate) fn listed_of(form: &mut Parts, names: &Names, listed: Listed) -> Expr {
    let args = form.exprs_left();
    match listed {
        Listed::Block => Expr::Block(args),
        Listed::New => {
            let class = form.class(names);
            Expr::New { class, args }
        }
        Listed::Prim => {
            let op = form.operator();
            Expr::Prim { op, args }
        }
        Listed::SuperCall => {
            let after = form.class(names);
            let name = form.name();
            Expr::SuperCall { after, name, args }
        }
        Listed::StaticCall => {
            let (class, method) = form.member(names, Sort::Method);
            Expr::StaticCall {
                class,
                method,
                args,
            }
        }
    }
}

pub(crate) fn call_of(form: &mut Parts, names: &Names) -> Result<Expr, ProgramFault> {
    let of = form.boxed()?;
    let args = form.exprs_left();
    let (class, method) = form.member(names, Sort::Method);
    Ok(Expr::Call {
        of,
        class,
        method,
        args,
    })
}

pub(crate) fn match_of(form: &mut Parts) -> Result<Expr, ProgramFault> {
    let of = form.boxed()?;
    let cases = form.cases_left();
    Ok(Expr::Match { of, cases })
}

pub(crate) fn try_of(alloc: Global, form: &mut Parts) -> Result<Expr, ProgramFault> {
    let body = form.boxed()?;
    let last = match form.aside.take() {
        Some(e) => Some(Boxed::new(alloc, e)?),
        None => None,
    };
    let handler = form.catch.take();
    Ok(Expr::Try {
        body,
        handler,
        last,
    })
}

pub(crate) fn println_of(form: &mut Parts) -> Result<Expr, ProgramFault> {
    if form.exprs.is_empty() {
        return Ok(Expr::Println(None));
    }
    Ok(Expr::Println(Some(form.boxed()?)))
}
