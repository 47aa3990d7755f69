//! Definitions of members (SLS 4).

ghost use Rattle.std.specs.Prelude.{◌≡◌};
ghost use Rattle.sl_parse_expr.specs.Reading.{Reads};
ghost use Rattle.sl_parse_expr.specs.Levels.{expr};
ghost use Rattle.sl_parse_expr.specs.PatternRules.{pattern};
ghost use Rattle.sl_parse_tmpl.specs.Rules as spec;

use crate::params::optional_params;
use crate::spans::{end_of_type, end_of_value};
use crate::values::{optional_type, optional_value, typed, value};
use sl_ast::Def;
use sl_parse_expr::{Ahead, Cursor, Stopped, expect, expr_span, join, name, type_span};
use std::alloc::Global;

// 'val' id [':' Type] ['=' Expr]
#[tactic(auto, unfolding(crate::specs::Rules::val_def))]
fn val_def(alloc: Global, tokens: &mut Cursor<'_>, depth: usize) -> Result<Def, Stopped>
    ensures { Reads (spec.val_def (expr depth) (pattern depth) tokens.old) result tokens.new }
{
    let start = expect(tokens, Ahead::Val)?;
    let name = name(alloc, tokens)?;
    let ty = optional_type(alloc, tokens)?;
    let value = optional_value(alloc, tokens, depth)?;
    let span = join(start, end_of_value(end_of_type(name.span, &ty), &value));
    Ok(Def::Val {
        name,
        ty,
        value,
        span,
    })
}

// 'var' id [':' Type] '=' Expr
#[tactic(auto, unfolding(crate::specs::Rules::var_def))]
fn var_def(alloc: Global, tokens: &mut Cursor<'_>, depth: usize) -> Result<Def, Stopped>
    ensures { Reads (spec.var_def (expr depth) (pattern depth) tokens.old) result tokens.new }
{
    let start = expect(tokens, Ahead::Var)?;
    let name = name(alloc, tokens)?;
    let ty = optional_type(alloc, tokens)?;
    let value = value(alloc, tokens, depth)?;
    let span = join(start, expr_span(&value));
    Ok(Def::Var {
        name,
        ty,
        value,
        span,
    })
}

// 'lazy' 'val' id [':' Type] '=' Expr
#[tactic(auto, unfolding(crate::specs::Rules::lazy_def))]
fn lazy_def(alloc: Global, tokens: &mut Cursor<'_>, depth: usize) -> Result<Def, Stopped>
    ensures { Reads (spec.lazy_def (expr depth) (pattern depth) tokens.old) result tokens.new }
{
    let start = expect(tokens, Ahead::Lazy)?;
    expect(tokens, Ahead::Val)?;
    let name = name(alloc, tokens)?;
    let ty = optional_type(alloc, tokens)?;
    let value = value(alloc, tokens, depth)?;
    let span = join(start, expr_span(&value));
    Ok(Def::Lazy {
        name,
        ty,
        value,
        span,
    })
}

// 'def' id ['(' [id ':' Type {',' id ':' Type}] ')'] ':' Type ['=' Expr]
#[tactic(auto, unfolding(crate::specs::Rules::def_def))]
fn def_def(alloc: Global, tokens: &mut Cursor<'_>, depth: usize) -> Result<Def, Stopped>
    ensures { Reads (spec.def_def (expr depth) (pattern depth) tokens.old) result tokens.new }
{
    let start = expect(tokens, Ahead::Def)?;
    let name = name(alloc, tokens)?;
    let params = optional_params(alloc, tokens)?;
    let ty = typed(alloc, tokens)?;
    let value = optional_value(alloc, tokens, depth)?;
    let span = join(start, end_of_value(type_span(&ty), &value));
    Ok(Def::Def {
        name,
        params,
        ty,
        value,
        span,
    })
}

/// A definition or declaration, behind its modifiers.
#[tactic(auto, unfolding(crate::specs::Rules::definition))]
pub fn definition(alloc: Global, tokens: &mut Cursor<'_>, depth: usize) -> Result<Def, Stopped>
    ensures { Reads (spec.definition (expr depth) (pattern depth) tokens.old) result tokens.new }
{
    if tokens.is_at(Ahead::Val) {
        val_def(alloc, tokens, depth)
    } else if tokens.is_at(Ahead::Var) {
        var_def(alloc, tokens, depth)
    } else if tokens.is_at(Ahead::Lazy) {
        lazy_def(alloc, tokens, depth)
    } else {
        def_def(alloc, tokens, depth)
    }
}
