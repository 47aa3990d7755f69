//! Laws of the definitions. The functions have empty bodies: their contracts are the laws.

ghost use Rattle.std.specs.Prelude.{◌≡◌, ℕ, List, Some, None};
ghost use Rattle.cf_form.specs.declared.class_file.ClassFile.{ClassFile as File};
ghost use Rattle.cf_form.specs.declared.constant.Const.{Const as Entry};
ghost use Rattle.cf_link.specs.Faults.{Lacks};
ghost use Rattle.cf_link.specs.OfFiles.{names_of, Resolves, IsMain};
ghost use Rattle.cf_link.specs.declared.linked_class.LinkedClass.{LinkedClass as Class};
ghost use Rattle.cf_link.specs.declared.reference.LinkedRef.{LinkedRef as Ref};
ghost use Rattle.cf_refs.specs.Entries.{resolved};
ghost use Rattle.cf_refs.specs.Main.{main_in};
ghost use Rattle.cf_set.specs.Names.{AreDistinct};

/// What is looked up is what an entry resolves to; and where names and texts are different, all that an entry resolves to is
/// looked up, and nothing for an entry that refers to a member that its class lacks.
pub fn entries_resolve()
    ensures looked_up { (names texts : List (List ℕ)) (classes : List Class) (pool : List Entry) (c : Entry) (r : Ref) → resolved names texts classes pool c ≡ Some r → Resolves names texts classes pool c r }
    ensures whole { (names texts : List (List ℕ)) → AreDistinct names → AreDistinct texts → (classes : List Class) (pool : List Entry) (c : Entry) (r : Ref) → Resolves names texts classes pool c r → resolved names texts classes pool c ≡ Some r }
    ensures lacking { (names texts : List (List ℕ)) → AreDistinct names → (classes : List Class) (pool : List Entry) (c : Entry) (told : List ℕ) → Lacks names classes pool c told → resolved names texts classes pool c ≡ None }
{}

/// The main method that is looked up is that at which the program starts; and where names are different, that at which it
/// starts is looked up.
pub fn main_starts()
    ensures looked_up { (files : List File) (classes : List Class) (main : ℕ × ℕ) → main_in (names_of files) classes ≡ Some main → IsMain files classes main }
    ensures whole { (files : List File) → AreDistinct (names_of files) → (classes : List Class) (main : ℕ × ℕ) → IsMain files classes main → main_in (names_of files) classes ≡ Some main }
{}
