//! Laws of the definitions. Each function has an empty body: its contract is the law.

ghost use Rattle.std.specs.Prelude.{◌≡◌, ℕ, List, ◌∷◌, None};
ghost use Rattle.cf_link.specs.declared.linked.Linked.{Linked};
ghost use Rattle.vm_state.specs.declared.frame.Frame.{Frame};
ghost use Rattle.vm_state.specs.declared.thread.Thread.{Thread};
ghost use Rattle.vm_local.specs.Batches.{after, AllStay, locals_after, AllLocal};

/// Instructions that stay in the innermost frame are local steps of its thread.
pub fn batches()
    ensures steps { (k : Linked) (n : ℕ) (t : Thread) (f : Frame) (fs : List Frame) → t.frames ≡ f ∷ fs → t.thrown ≡ None → AllStay k n f →
        (locals_after k n t ≡ record t { frames = after k n f ∷ fs }) × AllLocal k n t }
{}
