//! Laws of the definitions. The functions have empty bodies: their contracts are the laws.

ghost use Rattle.std.specs.Prelude.{◌≡◌, List};
ghost use Rattle.cf_form.specs.declared.class_file.ClassFile.{ClassFile as File};
ghost use Rattle.cf_link.specs.Faults.{HasNone};
ghost use Rattle.cf_link.specs.Link.{Link};
ghost use Rattle.cf_link.specs.OfFiles.{AreClasses};
ghost use Rattle.cf_link.specs.declared.fault.LinkKind.TheVariants.{Twice};
ghost use Rattle.cf_link.specs.declared.linked.Linked.{Linked as Set};
ghost use Rattle.cf_link.specs.declared.linked_class.LinkedClass.{LinkedClass as Class};
ghost use Rattle.cf_layout.specs.One.{AreSame};

/// Files of which none gives a class twice have one list of linked classes at most.
pub fn one_list()
    ensures { (files : List File) (one other : List Class) → HasNone files Twice → AreClasses files one → AreClasses files other → one ≡ other }
{}

/// Files link to one set at most.
pub fn one_set()
    ensures { (files : List File) (one other : Set) → Link files one → Link files other → AreSame one other }
{}
