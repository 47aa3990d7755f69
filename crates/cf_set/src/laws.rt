//! Laws of the definitions. The function has an empty body: its contract is the law.

ghost use Rattle.std.specs.Prelude.{ℕ, List};
ghost use Rattle.cf_form.specs.ClassFiles.{Reads};
ghost use Rattle.cf_form.specs.declared.class_file.ClassFile.{ClassFile as File};
ghost use Rattle.cf_set.specs.Indexes.{IsIndexed};

/// What is read from bytes has each index name an entry of the kind that is needed there.
pub fn read_files()
    ensures { (bytes : List ℕ) (file : File) → Reads bytes file → IsIndexed file }
{}
