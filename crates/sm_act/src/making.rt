//! New objects.

ghost use Rattle.std.specs.Prelude.{◌≡◌, None, length, IfOk};
ghost use Rattle.sm_rule.specs.declared.answer.Answer.TheVariants as answer;
ghost use Rattle.sm_rule.specs.declared.answer.Edit.TheVariants as edit;
ghost use Rattle.sm_state.specs.Layout.{made};
ghost use Rattle.sm_state.specs.declared.value.Value.TheVariants as value;

use sl_base::NoMemory;
use sm_rule::{Answer, Edit};
use sm_state::{Heap, Value, made};
use std::alloc::Global;
use ty_prog::Program;

/// The next number of a list of this length, where there is room for it.
pub fn number(len: usize) -> Result<u32, NoMemory>
    ensures { IfOk result (λ n. n ≡ len) }
{
    if len < 1 << 32 {
        Ok(len as u32)
    } else {
        Err(NoMemory)
    }
}

/// A new object, before its constructor.
pub(crate) fn make(alloc: Global, p: &Program, h: &Heap, class: u32) -> Result<Answer, NoMemory>
    ensures { IfOk result (λ a. a ≡ answer.Gives (edit.AddObject (made p.now.classes class None)) (value.Ref (length h.now.objects))) }
{
    let at = number(h.objects.len())?;
    let object = made(alloc, p.classes.as_slice(), class, &None)?;
    Ok(Answer::Gives {
        edit: Edit::AddObject(object),
        value: Value::Ref(at),
    })
}
