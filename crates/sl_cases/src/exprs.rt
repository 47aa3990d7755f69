//! Expressions in outlines.

use crate::leaves::{binding_word, name, write_literal, write_type};
use crate::outline::{Job, Outline};
use sl_ast::{
    Args, Block, Cases, Expr, Head, Infix, Operator, ParArgs, Prefix, Sign, Simple, Stat, Suffix,
};
use std::alloc::AllocError;

/// `(if E E E)`, `(while E E)`, `(try E CASE .. (finally E))`, `(throw E)`, `(match E CASE ..)`, `(= E E)`.
pub(crate) fn write_expr<'a>(out: &mut Outline<'a>, e: &'a Expr) -> Result<(), AllocError> {
    match e {
        Expr::If {
            condition,
            body,
            alternative,
            ..
        } => {
            out.open("if")?;
            out.put(Job::Close)?;
            if let Some(other) = alternative {
                out.put(Job::Expr(other.get()))?;
            }
            out.put(Job::Expr(body.get()))?;
            out.put(Job::Expr(condition.get()))
        }
        Expr::While {
            condition,
            body,
            ..
        } => {
            out.open("while")?;
            out.put(Job::Close)?;
            out.put(Job::Expr(body.get()))?;
            out.put(Job::Expr(condition.get()))
        }
        Expr::Try {
            body,
            cases,
            last,
            ..
        } => {
            out.open("try")?;
            out.put(Job::Close)?;
            if let Some(last) = last {
                out.put(Job::Close)?;
                out.put(Job::Expr(last.get()))?;
                out.put(Job::Open("finally"))?;
            }
            if let Some(cases) = cases {
                put_cases(out, cases)?;
            }
            out.put(Job::Expr(body.get()))
        }
        Expr::Throw { of, .. } => {
            out.open("throw")?;
            out.put(Job::Close)?;
            out.put(Job::Expr(of.get()))
        }
        Expr::Match { of, cases, .. } => {
            out.open("match")?;
            out.put(Job::Close)?;
            put_cases(out, cases)?;
            out.put(Job::Infix(of.get()))
        }
        Expr::Assign { to, value, .. } => {
            out.open("=")?;
            out.put(Job::Close)?;
            out.put(Job::Expr(value.get()))?;
            out.put(Job::Infix(to.get()))
        }
        Expr::Infix(infix) => out.put(Job::Infix(infix)),
    }
}

// Puts the cases of a match or a handler.
fn put_cases<'a>(out: &mut Outline<'a>, cases: &'a Cases) -> Result<(), AllocError> {
    for case in cases.rest.as_slice().iter().rev() {
        out.put(Job::Case(case))?;
    }
    out.put(Job::Case(cases.first.get()))
}

/// One operand, or `(infix OPERAND OPERATOR OPERAND ..)`.
pub(crate) fn write_infix<'a>(out: &mut Outline<'a>, infix: &'a Infix) -> Result<(), AllocError> {
    if infix.rest.as_slice().is_empty() {
        return out.put(Job::Prefix(&infix.first));
    }
    out.open("infix")?;
    out.put(Job::Close)?;
    for operation in infix.rest.as_slice().iter().rev() {
        out.put(Job::Prefix(&operation.operand))?;
        match &operation.operator {
            Operator::Id(ident) | Operator::Op(ident) => out.put(name(ident))?,
        }
    }
    out.put(Job::Prefix(&infix.first))
}

/// A simple expression, or `(SIGN E)`.
pub(crate) fn write_prefix<'a>(out: &mut Outline<'a>, of: &'a Prefix) -> Result<(), AllocError> {
    if let Some(sign) = of.sign {
        out.open(sign_word(sign))?;
        out.put(Job::Close)?;
    }
    out.put(Job::Simple(&of.simple))
}

// The sign before an operand.
fn sign_word(sign: Sign) -> &'static str {
    match sign {
        Sign::Minus => "-",
        Sign::Plus => "+",
        Sign::Not => "!",
        Sign::Complement => "~",
    }
}

/// A head, or `(chain HEAD SUFFIX ..)`.
pub(crate) fn write_simple<'a>(out: &mut Outline<'a>, of: &'a Simple) -> Result<(), AllocError> {
    if !of.suffixes.as_slice().is_empty() {
        out.open("chain")?;
        out.put(Job::Close)?;
        for suffix in of.suffixes.as_slice().iter().rev() {
            out.put(Job::Suffix(suffix))?;
        }
    }
    write_head(out, &of.head)
}

// `(super NAME)`, `(new NAME (ARGUMENT ..))`, `(parens E)`, `(block STATEMENT ..)`, a name or a literal.
fn write_head<'a>(out: &mut Outline<'a>, head: &'a Head) -> Result<(), AllocError> {
    match head {
        Head::Literal(literal) => write_literal(out, literal),
        Head::Id(ident) => out.word(ident.name.as_str()),
        Head::This(_) => out.word("this"),
        Head::Super { member, .. } => {
            out.open("super")?;
            out.word(member.name.as_str())?;
            out.close()
        }
        Head::New { class, args, .. } => {
            out.open("new")?;
            out.word(class.name.as_str())?;
            out.put(Job::Close)?;
            if let Some(args) = args {
                put_arguments(out, args.get())?;
                out.put(Job::Open("args"))?;
            }
            Ok(())
        }
        Head::Parens { of: None, .. } => out.word("()"),
        Head::Parens { of: Some(of), .. } => {
            out.open("parens")?;
            out.put(Job::Close)?;
            out.put(Job::Expr(of.get()))
        }
        Head::Block { block, .. } => {
            out.open("block")?;
            out.put(Job::Close)?;
            put_block(out, block)
        }
    }
}

/// The arguments and a closing parenthesis.
pub(crate) fn put_arguments<'a>(
    out: &mut Outline<'a>,
    args: &'a ParArgs,
) -> Result<(), AllocError> {
    out.put(Job::Close)?;
    for arg in args.args.as_slice().iter().rev() {
        out.put(Job::Expr(arg))?;
    }
    Ok(())
}

// Puts the statements of a block.
fn put_block<'a>(out: &mut Outline<'a>, block: &'a Block) -> Result<(), AllocError> {
    for stat in block.stats.as_slice().iter().rev() {
        out.put(Job::Stat(stat))?;
    }
    Ok(())
}

/// `(. NAME)`, `(args E ..)`, or `(with STATEMENT ..)` for a block as the one argument.
pub(crate) fn write_suffix<'a>(out: &mut Outline<'a>, of: &'a Suffix) -> Result<(), AllocError> {
    match of {
        Suffix::Select(ident) => {
            out.open(".")?;
            out.word(ident.name.as_str())?;
            out.close()
        }
        Suffix::Apply(Args::Parens(args)) => {
            out.open("args")?;
            put_arguments(out, args)
        }
        Suffix::Apply(Args::Block { block, .. }) => {
            out.open("with")?;
            out.put(Job::Close)?;
            put_block(out, block)
        }
    }
}

/// `(val NAME : TYPE E)`, or an expression.
pub(crate) fn write_stat<'a>(out: &mut Outline<'a>, stat: &'a Stat) -> Result<(), AllocError> {
    match stat {
        Stat::Local {
            binding,
            name,
            ty,
            value,
            ..
        } => {
            out.open(binding_word(*binding))?;
            out.word(name.name.as_str())?;
            if let Some(ty) = ty {
                write_type(out, ty.get())?;
            }
            out.put(Job::Close)?;
            out.put(Job::Expr(value.get()))
        }
        Stat::Expr(e) => out.put(Job::Expr(e)),
    }
}
