//! Laws of the definitions. Each function has an empty body: its contract is the law.

ghost use Rattle.std.specs.Prelude.{List, ℕ, map};
ghost use Rattle.cf_form.specs.ClassFiles.{Reads, Spelled};
ghost use Rattle.cf_form.specs.Opcodes.{IsRising};
ghost use Rattle.cf_form.specs.declared.class_file.ClassFile.{ClassFile};

use crate::op_form::FORMS;

/// The rows stand in rising order of opcode, so no opcode has two.
pub fn rows()
    ensures rise { IsRising (map (λ form. form.op) FORMS) }
{}

/// What is written is read as the file that it spells.
pub fn writing()
    ensures reads { (file : ClassFile) (bytes : List ℕ) → Spelled file bytes → Reads bytes file }
{}
