//! Names against texts of plain characters.

ghost use Rattle.std.specs.Prelude.{◌≡◌, ◌↔◌, IsTrue};
ghost use Rattle.std.specs.Char.{is_ascii};
ghost use Rattle.std.specs.List.{list_all};

use ty_prog::Name;

/// Whether a name is a text whose characters are its bytes.
pub fn is_text(name: &Name, text: &str) -> bool
    requires { IsTrue (list_all is_ascii text.now) }
    ensures { IsTrue result ↔ (name.now ≡ text.now) }
{
    name.as_str() == text
}
