//! Names of types that are no classes.

ghost use Rattle.std.specs.Prelude.{◌≡◌, IsTrue};
ghost use Rattle.std.specs.Char.{is_ascii};
ghost use Rattle.std.specs.List.{list_all};
ghost use Rattle.std.specs.Str.{bytes_eq};
ghost use Rattle.ty_member.specs.Words as spec;

use sl_base::Name;
use ty_prog::Ty;

/// Whether a name is this text of ASCII characters.
pub fn is_word(name: &Name, word: &str) -> bool
    requires { IsTrue (list_all is_ascii word.now) }
    ensures { result ≡ bytes_eq name.now word.now }
{
    name.as_str() == word
}

/// The type of this name, where it is no class; Array without its argument.
pub fn word_type(name: &Name) -> Option<Ty>
    ensures { result ≡ spec.word_type name.now }
{
    if is_word(name, "Any") {
        Some(Ty::Any)
    } else if is_word(name, "AnyRef") {
        Some(Ty::AnyRef)
    } else if is_word(name, "Nothing") {
        Some(Ty::Nothing)
    } else if is_word(name, "Null") {
        Some(Ty::Null)
    } else {
        value_word(name)
    }
}

// The same of types of values, texts and arrays.
fn value_word(name: &Name) -> Option<Ty>
    ensures { result ≡ spec.value_word name.now }
{
    if is_word(name, "Unit") {
        Some(Ty::Unit)
    } else if is_word(name, "Boolean") {
        Some(Ty::Boolean)
    } else if is_word(name, "Int") {
        Some(Ty::Int)
    } else if is_word(name, "Long") {
        Some(Ty::Long)
    } else if is_word(name, "String") {
        Some(Ty::Text)
    } else if is_word(name, "Array") {
        Some(Ty::Array)
    } else {
        None
    }
}
