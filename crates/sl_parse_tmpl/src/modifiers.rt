//! Modifiers (SLS 5.2).

ghost use Rattle.std.specs.Prelude.{◌≡◌};
ghost use Rattle.sl_parse_expr.specs.Reading.{Reads};
ghost use Rattle.sl_parse_tmpl.specs.Rules as spec;

use crate::words::{goes_class_modifier, goes_modifier};
use sl_ast::{ClassModifier, MemberModifier};
use sl_parse_expr::{Ahead, Cursor, Stopped};
use sqlite_items::Items;
use std::alloc::Global;

// 'override' | 'private'
#[tactic(auto, unfolding(crate::specs::Rules::modifier, sl_parse_expr::specs::Reading::one, crate::specs::Words::modifier_of))]
fn modifier(tokens: &mut Cursor<'_>) -> Result<MemberModifier, Stopped>
    ensures { Reads (spec.modifier tokens.old) result tokens.new }
{
    match (tokens.peek(), tokens.is_clean()) {
        (Some(token), true) => {
            let span = token.span;
            match Ahead::of(token) {
                Ahead::Override => {
                    tokens.skip();
                    Ok(MemberModifier::Override(span))
                }
                Ahead::Private => {
                    tokens.skip();
                    Ok(MemberModifier::Private(span))
                }
                _ => Err(Stopped::Unexpected),
            }
        }
        _ => Err(Stopped::Unexpected),
    }
}

/// Modifiers of a member.
#[tactic(auto, unfolding(crate::specs::Rules::modifiers))]
pub fn modifiers(alloc: Global, tokens: &mut Cursor<'_>) -> Result<Items<MemberModifier>, Stopped>
    ensures { Reads (spec.modifiers tokens.old) result tokens.new }
{
    let mut found = Items::new(alloc);
    'turn: while goes_modifier(tokens) {
        found.push(modifier(tokens)?)?;
    }
    Ok(found)
}

// 'sealed' | 'abstract'
#[tactic(auto, unfolding(crate::specs::Rules::class_modifier, sl_parse_expr::specs::Reading::one, crate::specs::Words::class_modifier_of))]
fn class_modifier(tokens: &mut Cursor<'_>) -> Result<ClassModifier, Stopped>
    ensures { Reads (spec.class_modifier tokens.old) result tokens.new }
{
    match (tokens.peek(), tokens.is_clean()) {
        (Some(token), true) => {
            let span = token.span;
            match Ahead::of(token) {
                Ahead::Sealed => {
                    tokens.skip();
                    Ok(ClassModifier::Sealed(span))
                }
                Ahead::Abstract => {
                    tokens.skip();
                    Ok(ClassModifier::Abstract(span))
                }
                _ => Err(Stopped::Unexpected),
            }
        }
        _ => Err(Stopped::Unexpected),
    }
}

/// Modifiers of a class or trait.
#[tactic(auto, unfolding(crate::specs::Rules::class_words))]
pub fn class_words(alloc: Global, tokens: &mut Cursor<'_>) -> Result<Items<ClassModifier>, Stopped>
    ensures { Reads (spec.class_words tokens.old) result tokens.new }
{
    let mut found = Items::new(alloc);
    'turn: while goes_class_modifier(tokens) {
        found.push(class_modifier(tokens)?)?;
    }
    Ok(found)
}
