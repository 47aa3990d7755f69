//! Bytes to a method's code.

ghost use Rattle.std.specs.Prelude.{◌≡◌, ◌<◌, ◌^◌, length, IfOk, IfErr};
ghost use Rattle.cf_form.specs.Instructions.{IsCode, code_bytes};
ghost use Rattle.cf_instr.specs.Faults.{IsFault};

use crate::code_fault::{CodeFault, CodeKind};
use crate::numbering::numbers_of;
use crate::raws::raws_of;
use crate::settling::{is_settled, settle};
use cf_form::Instr;
use std::alloc::Global;

// The code or the fault, each as the bytes have it.
pub(crate) fn whole(alloc: Global, bytes: &[u8]) -> Result<Vec<Instr>, CodeFault>
    requires { length bytes.now < 2 ^ 31 }
    ensures found { IfOk result (λ code. IsCode code.items × (bytes.now ≡ code_bytes code.items)) }
    ensures faults { IfErr result (IsFault bytes.now) }
{
    if bytes.is_empty() {
        return Err(CodeFault {
            at: 0,
            kind: CodeKind::Cut,
        });
    }
    let (mut raws, starts) = raws_of(alloc, bytes)?;
    if is_settled(&raws, &starts) {
        return Ok(raws);
    }
    let Ok(numbers) = numbers_of(alloc, &starts, bytes.len()) else {
        return Err(CodeFault::memory());
    };
    match settle(&mut raws, &starts, &numbers) {
        Ok(()) => Ok(raws),
        Err(at) => Err(CodeFault {
            at,
            kind: CodeKind::Jump,
        }),
    }
}
