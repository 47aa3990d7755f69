//! Laws of the definitions. Each function has an empty body: its contract is the law.

ghost use Rattle.std.specs.Prelude.{◌≡◌, ℕ, [], map};
ghost use Rattle.cf_form.specs.declared.op_form.TheConstants.{FORMS};
ghost use Rattle.cf_link.specs.declared.linked.Linked.{Linked};
ghost use Rattle.runs.specs.System.{Ended};
ghost use Rattle.vm_state.specs.declared.heap.Heap.{Heap};
ghost use Rattle.vm_state.specs.declared.thread.Thread.{Thread};
ghost use Rattle.vm_state.specs.Machine.{vm};

use crate::actions::ACTIONS;

/// The rows are those of the table of opcodes of class files, in its order.
pub fn rows()
    ensures same { map (λ row. row.op) ACTIONS ≡ map (λ form. form.op) FORMS }
{}

/// A thread without frames has ended.
pub fn ends()
    ensures ended { (k : Linked) (t : ℕ) (h : Heap) (x : Thread) → x.frames ≡ [] → (vm k).step t h x ≡ Ended }
{}
