//! The type of each expression of the language L at its place.
#![tactic(auto)]

ghost use Rattle.std.specs.Prelude.{◌↔◌, IfOk, IsTrue};
ghost use Rattle.ty_typed.specs.Bodies.{TypedWith};

mod arguments;
mod bodies;
mod branches;
mod class_locals;
mod converting;
mod expressions;
mod kinds;
mod laws;
mod looking;
mod member_types;
mod members_used;
mod operand_types;
mod operands;
mod pattern;
mod plain;
mod scope;
mod standing;
mod typed_node;
mod typing;
mod value_kinds;
mod wanting;

pub use class_locals::ClassLocals;
pub use expressions::expr_fits;
pub use kinds::value_kind;
pub use laws::fitting;
pub use looking::Looked;
pub use pattern::pattern_holds;
pub use scope::Scope;
pub use sl_base::NoMemory;
pub use standing::stands_for;
use ty_prog::Program;
pub use typed_node::node_typed;
use typing::class_typed;
pub use value_kinds::{KindsFit, ValueKind};

/// Whether the program is typed where the locals of its classes have these types. Errors: want of memory, for a
/// program of 2^32 classes or more.
pub fn is_typed_with(p: &Program, locals: &[ClassLocals]) -> Result<bool, NoMemory>
    ensures { IfOk result (λ answer. IsTrue answer ↔ TypedWith p.now locals.now) }
{
    let mut classes = p.classes.as_slice();
    let mut rest = locals;
    let mut number = 0u32;
    while let Some((class, more)) = classes.split_first() {
        match rest.split_first() {
            Some((first, behind)) => {
                if !class_typed(p, number, class, first) {
                    return Ok(false);
                }
                if number == u32::MAX {
                    return Err(NoMemory);
                }
                number += 1;
                classes = more;
                rest = behind;
            }
            None => return Ok(false),
        }
    }
    Ok(rest.is_empty())
}
