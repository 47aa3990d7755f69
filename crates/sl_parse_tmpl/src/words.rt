//! What a rule begins with, and whether a loop goes on.

ghost use Rattle.std.specs.Prelude.{◌≡◌, List};
ghost use Rattle.sl_ast.specs.declared.template.Member.{Member};
ghost use Rattle.sl_ast.specs.declared.template.MemberModifier as modifier;
ghost use Rattle.sl_ast.specs.declared.unit.ClassModifier as class_modifier;
ghost use Rattle.sl_ast.specs.declared.unit.TopDef.{TopDef};
ghost use Rattle.sl_parse_expr.specs.Reading.{ahead, clean};
ghost use Rattle.sl_parse_expr.specs.Rules.{at_item};
ghost use Rattle.sl_parse_tmpl.specs.Rules as spec;
ghost use Rattle.sl_parse_tmpl.specs.Words as words;

use sl_ast::ClassModifier;
use sl_parse_expr::{Ahead, Cursor, begins_binding, begins_expr, separates};

/// Whether it is `override` or `private`.
pub fn is_modifier(next: Ahead) -> bool
    ensures { result ≡ words.is_modifier next }
{
    next.is(Ahead::Override) || next.is(Ahead::Private)
}

/// Whether it is `sealed` or `abstract`.
pub fn is_class_modifier(next: Ahead) -> bool
    ensures { result ≡ words.is_class_modifier next }
{
    next.is(Ahead::Sealed) || next.is(Ahead::Abstract)
}

/// Whether it begins a definition of a member.
pub fn begins_definition(next: Ahead) -> bool
    ensures { result ≡ words.begins_definition next }
{
    is_modifier(next) || begins_binding(next) || next.is(Ahead::Lazy) || next.is(Ahead::Def)
}

/// Whether it begins a member of a template.
pub fn begins_member(next: Ahead) -> bool
    ensures { result ≡ words.begins_member next }
{
    begins_definition(next) || begins_expr(next)
}

/// Whether it begins a class, trait or object.
pub fn begins_top(next: Ahead) -> bool
    ensures { result ≡ words.begins_top next }
{
    is_class_modifier(next)
        || next.is(Ahead::Case)
        || next.is(Ahead::Class)
        || next.is(Ahead::Trait)
        || next.is(Ahead::Object)
}

/// Whether another modifier of a member follows.
pub fn goes_modifier(tokens: &Cursor<'_>) -> bool
    ensures { (xs : List modifier.MemberModifier) → result ≡ clean spec.at_modifier xs (ahead tokens.now.1) tokens.now.0 }
{
    tokens.is_clean() && is_modifier(tokens.ahead())
}

/// Whether another modifier of a class follows.
pub fn goes_class_modifier(tokens: &Cursor<'_>) -> bool
    ensures { (xs : List class_modifier.ClassModifier) → result ≡ clean spec.at_class_modifier xs (ahead tokens.now.1) tokens.now.0 }
{
    tokens.is_clean() && is_class_modifier(tokens.ahead())
}

/// Whether the members of a template go on.
pub fn goes_member(apart: bool, tokens: &Cursor<'_>) -> bool
    ensures { (xs : List Member) → result ≡ clean (at_item words.begins_member) (apart, xs) (ahead tokens.now.1) tokens.now.0 }
{
    tokens.is_clean() && (separates(tokens.ahead()) || (apart && begins_member(tokens.ahead())))
}

/// Whether the definitions of a file go on.
pub fn goes_top(apart: bool, tokens: &Cursor<'_>) -> bool
    ensures { (xs : List TopDef) → result ≡ clean (at_item words.begins_top) (apart, xs) (ahead tokens.now.1) tokens.now.0 }
{
    tokens.is_clean() && (separates(tokens.ahead()) || (apart && begins_top(tokens.ahead())))
}

/// Whether a trait may follow these modifiers.
pub fn at_trait(modifiers: &[ClassModifier], next: Ahead) -> bool
    ensures { result ≡ spec.at_trait modifiers.now next }
{
    next.is(Ahead::Trait) && matches!(modifiers, [] | [ClassModifier::Sealed(_)])
}

/// Whether an object may follow these modifiers.
pub fn at_object(modifiers: &[ClassModifier], next: Ahead) -> bool
    ensures { result ≡ spec.at_object modifiers.now next }
{
    next.is(Ahead::Object) && matches!(modifiers, [])
}
