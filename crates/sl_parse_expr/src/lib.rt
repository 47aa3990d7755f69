//! Expressions and patterns from tokens (SLS 6, 8).
#![tactic(auto)]

ghost use Rattle.std.specs.Prelude.{◌≡◌, ◌++◌, IfOk};
ghost use Rattle.sl_parse_expr.specs.Grammar.{IsExpr};
ghost use Rattle.sl_parse_expr.specs.Levels as spec;
ghost use Rattle.sl_parse_expr.specs.Phrases.{Pending};
ghost use Rattle.sl_parse_expr.specs.Reading.{Reads};

mod ahead;
mod alternatives;
mod args;
mod blocks;
mod case_rules;
mod chain;
mod control;
mod cursor;
mod grammar;
mod heads;
mod infixes;
mod items;
mod last_new;
mod laws;
mod pattern_grammar;
mod pattern_parts;
mod pattern_rules;
mod patterns;
mod reading;
mod simples;
mod spans;
mod starts;
mod stopped;
mod tokens;
mod types;

pub use ahead::Ahead;
pub use chain::Chain;
pub use cursor::{Cursor, Waiting};
pub use items::behind_item;
pub use last_new::ends_in_new;
pub use laws::{depths, expressions};
pub use reading::read_args;
use reading::read_level;
use sl_ast::Expr;
pub use spans::{expr_span, join, par_args_span, type_span};
pub use starts::{begins_binding, begins_expr, separates};
use std::alloc::Global;
pub use stopped::Stopped;
pub use tokens::{binding, expect, name, separator};
pub use types::type_tree;

/// An expression in which expressions and patterns nest at most `depth` deep (SLS 6). What is left begins behind it, with
/// what is held: separators behind which an optional part would have been read. It is Unexpected where the rules go on with
/// no such token, and TooDeep where they do one level deeper.
#[tactic(auto, using(crate::proofs::Sound::is_derived, crate::proofs::Sound::is_held))]
pub fn read_expr(alloc: Global, tokens: &mut Cursor<'_>, depth: usize) -> Result<Expr, Stopped>
    ensures reads { Reads (spec.expr depth tokens.old) result tokens.new }
    ensures derived { IfOk result (λ found. IsExpr depth found (tokens.old.0 ++ tokens.old.1) (tokens.new.0 ++ tokens.new.1)) }
    ensures held { IfOk result (λ _. Pending tokens.new.0) }
{
    read_level(alloc, tokens, depth)
}
