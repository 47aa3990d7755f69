//! Classes, traits and objects (SLS 5.3 to 5.5), and whole files.

ghost use Rattle.std.specs.Prelude.{◌≡◌};
ghost use Rattle.sl_parse_expr.specs.Reading.{Reads};
ghost use Rattle.sl_parse_expr.specs.Levels.{expr};
ghost use Rattle.sl_parse_expr.specs.PatternRules.{pattern};
ghost use Rattle.sl_parse_tmpl.specs.Rules as spec;

use crate::class_params::optional_class_params;
use crate::modifiers::class_words;
use crate::spans::{end_of_params, first_class_modifier, is_there, or_else, some};
use crate::templates::template;
use crate::words::{at_object, at_trait, goes_top};
use sl_ast::{ClassModifier, TopDef, Unit};
use sl_parse_expr::{Ahead, Cursor, Stopped, expect, join, name, separates, separator};
use sl_text::Span;
use sqlite_items::Items;
use std::alloc::Global;

// 'case', and where it stands.
#[tactic(auto, unfolding(crate::specs::Rules::some_case))]
fn some_case(tokens: &mut Cursor<'_>) -> Result<Option<Span>, Stopped>
    ensures { Reads (spec.some_case tokens.old) result tokens.new }
{
    Ok(Some(expect(tokens, Ahead::Case)?))
}

// ['case']
#[tactic(auto, unfolding(crate::specs::Rules::optional_case))]
fn optional_case(tokens: &mut Cursor<'_>) -> Result<Option<Span>, Stopped>
    ensures { Reads (spec.optional_case tokens.old) result tokens.new }
{
    if tokens.offers(Ahead::Case) {
        some_case(tokens)
    } else {
        Ok(None)
    }
}

// ['case'] 'class' id [Params] Template
#[tactic(auto, unfolding(crate::specs::Rules::class_def))]
fn class_def(
    alloc: Global,
    tokens: &mut Cursor<'_>,
    depth: usize,
    modifiers: Items<ClassModifier>,
) -> Result<TopDef, Stopped>
    ensures { Reads (spec.class_def (expr depth) (pattern depth) modifiers tokens.old) result tokens.new }
{
    let case = optional_case(tokens)?;
    let word = expect(tokens, Ahead::Class)?;
    let name = name(alloc, tokens)?;
    let params = optional_class_params(alloc, tokens)?;
    let before = end_of_params(name.span, &params);
    let (template, end) = template(alloc, tokens, depth, before)?;
    let start = first_class_modifier(modifiers.as_slice(), or_else(word, case));
    let span = join(start, end);
    Ok(TopDef::Class {
        modifiers,
        is_case: is_there(case),
        name,
        params,
        template,
        span,
    })
}

// 'trait' id Template
#[tactic(auto, unfolding(crate::specs::Rules::trait_def))]
fn trait_def(
    alloc: Global,
    tokens: &mut Cursor<'_>,
    depth: usize,
    modifiers: Items<ClassModifier>,
) -> Result<TopDef, Stopped>
    ensures { Reads (spec.trait_def (expr depth) (pattern depth) modifiers tokens.old) result tokens.new }
{
    let word = expect(tokens, Ahead::Trait)?;
    let name = name(alloc, tokens)?;
    let (template, end) = template(alloc, tokens, depth, name.span)?;
    let start = first_class_modifier(modifiers.as_slice(), word);
    let span = join(start, end);
    Ok(TopDef::Trait {
        is_sealed: some(modifiers.as_slice()),
        name,
        template,
        span,
    })
}

// 'object' id Template
#[tactic(auto, unfolding(crate::specs::Rules::object_def))]
fn object_def(alloc: Global, tokens: &mut Cursor<'_>, depth: usize) -> Result<TopDef, Stopped>
    ensures { Reads (spec.object_def (expr depth) (pattern depth) tokens.old) result tokens.new }
{
    let start = expect(tokens, Ahead::Object)?;
    let name = name(alloc, tokens)?;
    let (template, end) = template(alloc, tokens, depth, name.span)?;
    let span = join(start, end);
    Ok(TopDef::Object {
        name,
        template,
        span,
    })
}

// What stands behind modifiers: a trait or an object, where these may be, else a class.
#[tactic(auto, unfolding(crate::specs::Rules::behind_modifiers))]
fn behind_modifiers(
    alloc: Global,
    tokens: &mut Cursor<'_>,
    depth: usize,
    modifiers: Items<ClassModifier>,
) -> Result<TopDef, Stopped>
    ensures { Reads (spec.behind_modifiers (expr depth) (pattern depth) modifiers tokens.old) result tokens.new }
{
    if at_trait(modifiers.as_slice(), tokens.ahead()) {
        trait_def(alloc, tokens, depth, modifiers)
    } else if at_object(modifiers.as_slice(), tokens.ahead()) {
        object_def(alloc, tokens, depth)
    } else {
        class_def(alloc, tokens, depth, modifiers)
    }
}

// TopDef: a class, trait or object with its modifiers.
#[tactic(auto, unfolding(crate::specs::Rules::top_def))]
fn top_def(alloc: Global, tokens: &mut Cursor<'_>, depth: usize) -> Result<TopDef, Stopped>
    ensures { Reads (spec.top_def (expr depth) (pattern depth) tokens.old) result tokens.new }
{
    let modifiers = class_words(alloc, tokens)?;
    behind_modifiers(alloc, tokens, depth, modifiers)
}

// A separator between definitions.
#[tactic(auto, unfolding(crate::specs::Rules::top_apart))]
fn top_apart(tokens: &mut Cursor<'_>) -> Result<Option<(TopDef, bool)>, Stopped>
    ensures { Reads (spec.top_apart tokens.old) result tokens.new }
{
    separator(tokens)?;
    Ok(None)
}

// A class, trait or object, and whether nothing was held behind it.
#[tactic(auto, unfolding(crate::specs::Rules::top_item, sl_parse_expr::specs::Reading::absorb))]
fn top_item(
    alloc: Global,
    tokens: &mut Cursor<'_>,
    depth: usize,
) -> Result<Option<(TopDef, bool)>, Stopped>
    ensures { Reads (spec.top_item (expr depth) (pattern depth) tokens.old) result tokens.new }
{
    let found = top_def(alloc, tokens, depth)?;
    let clean = tokens.absorb();
    Ok(Some((found, clean)))
}

// A definition of a file, or a separator between these.
#[tactic(auto, unfolding(crate::specs::Rules::unit_item))]
fn unit_item(
    alloc: Global,
    tokens: &mut Cursor<'_>,
    depth: usize,
) -> Result<Option<(TopDef, bool)>, Stopped>
    ensures { Reads (spec.unit_item (expr depth) (pattern depth) tokens.old) result tokens.new }
{
    if separates(tokens.ahead()) {
        top_apart(tokens)
    } else {
        top_item(alloc, tokens, depth)
    }
}

// Seq(TopDef)
#[tactic(auto, unfolding(crate::specs::Rules::top_defs))]
fn top_defs(
    alloc: Global,
    tokens: &mut Cursor<'_>,
    depth: usize,
) -> Result<(bool, Items<TopDef>), Stopped>
    ensures { Reads (spec.top_defs (expr depth) (pattern depth) tokens.old) result tokens.new }
{
    let mut found = Items::new(alloc);
    let mut apart = true;
    'turn: while goes_top(apart, tokens) {
        match unit_item(alloc, tokens, depth)? {
            Some((def, clean)) => {
                found.push(def)?;
                apart = !clean;
            }
            None => apart = true,
        }
    }
    Ok((apart, found))
}

// That nothing is left.
#[tactic(auto, unfolding(crate::specs::Rules::over))]
fn over(tokens: &mut Cursor<'_>) -> Result<(), Stopped>
    ensures { Reads (spec.over tokens.old) result tokens.new }
{
    match (tokens.peek(), tokens.is_clean()) {
        (None, true) => Ok(()),
        _ => Err(Stopped::Unexpected),
    }
}

/// A file, to the last token.
#[tactic(auto, unfolding(crate::specs::Rules::unit))]
pub fn unit(alloc: Global, tokens: &mut Cursor<'_>, depth: usize) -> Result<Unit, Stopped>
    ensures { Reads (spec.unit (expr depth) (pattern depth) tokens.old) result tokens.new }
{
    let (_, defs) = top_defs(alloc, tokens, depth)?;
    over(tokens)?;
    Ok(Unit { defs })
}
