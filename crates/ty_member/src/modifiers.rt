//! Modifiers of classes.

ghost use Rattle.std.specs.Prelude.{◌≡◌};
ghost use Rattle.ty_member.specs.Checked.{Gives};
ghost use Rattle.ty_member.specs.Naming as spec;

use crate::stopped::{Stopped, broken};
use sl_ast::{ClassModifier, TypeKind};

/// Which modifiers a class has.
#[derive(Clone, Copy, Debug, PartialEq, Eq)]
pub struct ClassWords {
    pub is_sealed: bool,
    pub is_abstract: bool,
}

// One modifier more. Double where it stands again.
fn class_word(modifier: ClassModifier, words: ClassWords) -> Result<ClassWords, Stopped>
    ensures { Gives (spec.class_word modifier words) result }
{
    match modifier {
        ClassModifier::Sealed(at) => {
            if words.is_sealed {
                return Err(broken(TypeKind::Double, at));
            }
            Ok(ClassWords {
                is_sealed: true,
                is_abstract: words.is_abstract,
            })
        }
        ClassModifier::Abstract(at) => {
            if words.is_abstract {
                return Err(broken(TypeKind::Double, at));
            }
            Ok(ClassWords {
                is_sealed: words.is_sealed,
                is_abstract: true,
            })
        }
    }
}

/// The modifiers of a class (SLS 5.2). Double at the first that stands again.
pub fn class_words(modifiers: &[ClassModifier]) -> Result<ClassWords, Stopped>
    ensures { Gives (spec.class_words modifiers.now) result }
{
    let mut words = ClassWords {
        is_sealed: false,
        is_abstract: false,
    };
    for modifier in modifiers {
        words = class_word(*modifier, words)?;
    }
    Ok(words)
}
