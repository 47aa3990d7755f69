//! What the definitions that the contracts cite are, as laws.

ghost use Rattle.std.specs.Prelude.{◌≡◌, ◌≢◌, ◌<◌, ◌≤◌, ℕ, List, length};
ghost use Rattle.std.specs.List.{AllByRecursion};
ghost use Rattle.cf_form.specs.Instructions.{IsCode, Fits, size, offset, code_bytes};
ghost use Rattle.cf_instr.specs.Faults.{IsFault};

use crate::code_fault::{CodeFault, CodeKind};
use cf_form::Instr;

/// Bytes are one code's or have one fault, and never both.
pub fn coding()
    ensures one { (xs ys : List Instr) → IsCode xs → IsCode ys → code_bytes xs ≡ code_bytes ys → xs ≡ ys }
    ensures fault { (bytes : List ℕ) (f g : CodeFault) → IsFault bytes f → IsFault bytes g → f.kind ≢ CodeKind.Memory → g.kind ≢ CodeKind.Memory → f ≡ g }
    ensures apart { (bytes : List ℕ) (f : CodeFault) (code : List Instr) → IsFault bytes f → f.kind ≢ CodeKind.Memory → IsCode code → bytes ≢ code_bytes code }
{}

/// An instruction takes one to six bytes, each begins behind the one before it, and the code is as long as its bytes.
pub fn rising()
    ensures size { (i : Instr) → Fits i → (1 ≤ size i) × (size i ≤ 6) }
    ensures rises { (code : List Instr) (j k : ℕ) → IsCode code → j < k → k ≤ length code → offset code j < offset code k }
    ensures long { (code : List Instr) → length (code_bytes code) ≡ offset code (length code) }
{}
