//! The entry that names Code attributes.

ghost use Rattle.std.specs.Prelude.{◌≡◌, ◌+◌, length};
ghost use Rattle.cf_form.specs.Pool.{Fits2};
ghost use Rattle.cf_write.specs.Spelling.{first_code, is_code_name};

use cf_form::Const;

/// The index of the first entry that is the text `Code`; 0 where none is.
pub fn first_code(pool: &[Const]) -> u16
    requires { Fits2 (1 + length pool.now) }
    ensures { result ≡ first_code pool.now }
{
    let mut at = 1;
    for constant in pool {
        if is_code_name(constant) {
            return at;
        }
        at += 1;
    }
    0
}

// Whether a constant is the text `Code`.
fn is_code_name(constant: &Const) -> bool
    ensures { result ≡ is_code_name constant.now }
{
    match constant {
        Const::Utf8(text) => text.as_str() == "Code",
        _ => false,
    }
}
