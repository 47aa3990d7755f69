//! Laws of the spelling. Each function has an empty body: its contract is the law.

ghost use Rattle.std.specs.Prelude.{◌≡◌, List, ℕ};
ghost use Rattle.cf_form.specs.ClassFiles.{Reads, Spelled};
ghost use Rattle.cf_form.specs.declared.class_file.ClassFile.{ClassFile};
ghost use Rattle.cf_write.specs.Spelling.{spelling as spelling_of};

/// A class file has one spelling at most, and it is this one.
pub fn spelling()
    ensures one { (file : ClassFile) (one other : List ℕ) → Spelled file one → Spelled file other → one ≡ other }
    ensures exact { (file : ClassFile) (bytes : List ℕ) → Spelled file bytes → bytes ≡ spelling_of file }
{}

/// What is read can be written.
pub fn rewriting()
    ensures { (file : ClassFile) (bytes : List ℕ) → Reads bytes file → (spelled : List ℕ) × Spelled file spelled }
{}
