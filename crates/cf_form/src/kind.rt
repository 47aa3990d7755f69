//! What an index of the constant pool has to name.

ghost use Rattle.std.specs.Prelude.{◌≡◌};
ghost use Rattle.cf_form.specs.Pool.{is_of, kind_needed};

use crate::constant::Const;

/// The kind of entry that an index has to name (JVMS 4.4, 4.9.1).
#[derive(Clone, Copy, Debug, PartialEq, Eq)]
pub enum Kind {
    /// A text.
    Utf8,
    /// A class or interface.
    Class,
    /// A name with its descriptor.
    NameType,
    /// A field.
    Field,
    /// A method of a class.
    Method,
    /// A method of an interface.
    Interface,
    /// What `invokestatic` calls: a method of a class or of an interface.
    AnyMethod,
    /// What `ldc` loads: an Int, a Float, a text or a class.
    Single,
    /// What `ldc2_w` loads: a Long or a Double.
    Double,
}

/// What the index that follows this opcode has to name (JVMS 6.5); None where no index follows it.
#[tactic(auto, unfolding(crate::specs::Pool::kind_needed))]
pub fn kind_needed(op: u8) -> Option<Kind>
    ensures { result ≡ kind_needed op }
{
    match op {
        18 | 19 => Some(Kind::Single),
        20 => Some(Kind::Double),
        178..=181 => Some(Kind::Field),
        182 | 183 => Some(Kind::Method),
        184 => Some(Kind::AnyMethod),
        185 => Some(Kind::Interface),
        187 | 192 | 193 => Some(Kind::Class),
        _ => None,
    }
}

/// Whether a constant is of this kind.
pub fn is_of(needed: Kind, constant: &Const) -> bool
    ensures { result ≡ is_of needed constant.now }
{
    match needed {
        Kind::Utf8 => matches!(constant, Const::Utf8(_)),
        Kind::Class => matches!(constant, Const::Class(_)),
        Kind::NameType => matches!(constant, Const::NameType(_, _)),
        Kind::Field => matches!(constant, Const::Field(_, _)),
        Kind::Method => matches!(constant, Const::Method(_, _)),
        Kind::Interface => matches!(constant, Const::Interface(_, _)),
        Kind::AnyMethod => matches!(constant, Const::Method(_, _) | Const::Interface(_, _)),
        Kind::Single => matches!(
            constant,
            Const::Int(_) | Const::Float(_) | Const::Text(_) | Const::Class(_)
        ),
        Kind::Double => matches!(constant, Const::Long(_) | Const::Double(_)),
    }
}
