//! What the definitions entail, as laws.

ghost use Rattle.std.specs.Prelude.{◌≡◌, ◌++◌, map, Ok};
ghost use Rattle.sl_ast.specs.declared.unit.Unit as file;
ghost use Rattle.ty_member.specs.Files.{file_of};
ghost use Rattle.ty_member.specs.Naming.{templates};
ghost use Rattle.ty_member.specs.declared.known.Known.{Known};
ghost use Rattle.ty_prog.specs.Prelude.{prelude};

/// Where no name of a template breaks a rule, the classes are those of the prelude and then the templates, in the text's
/// order: so the number of a template's class is its number in the text behind the prelude's classes.
pub fn names_of_templates()
    ensures { (unit : file.Unit) (known : Known) → templates unit ≡ Ok known
        → known.files ≡ map (λ c. c.name) prelude ++ map file_of unit.defs }
{}
