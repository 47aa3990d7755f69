//! From tokens to what they say.

use crate::expressions::{
    binary_of, call_of, leaf_of, listed_of, match_of, println_of, ternary_of, try_of, unary_of,
};
use crate::head::{Head, Member, Other, Part, head_of};
use crate::local_types::{LocalTypes, parameter_types};
use crate::members::{add_member, count, empty_class, end_class};
use crate::names::Names;
use crate::parts::Parts;
use crate::patterns::{case_of, catch_of, pattern_of};
use crate::program_fault::{ProgramFault, Wanted};
use crate::token::{Mark, Token};
use sqlite_items::Items;
use std::alloc::Global;
use std::mem;
use ty_prog::{Catch, Class, Expr, Kind, Program, prelude};

// The most forms that may be open.
const MOST_OPEN: usize = 200;

/// Reads tokens: the parts of the innermost open form and those of the forms around it, the classes so far and the types
/// of their locals, and those of the class that is open.
#[derive(Drop)]
pub(crate) struct Reader {
    alloc: Global,
    // Whether a program is read, and no parts of one.
    is_program: bool,
    top: Box<Parts>,
    outer: Vec<Box<Parts>>,
    class: Class,
    types: LocalTypes,
    pub(crate) classes: Items<Class>,
    locals: Items<LocalTypes>,
    main: Option<u32>,
}

impl Reader {
    pub(crate) fn new(alloc: Global, is_program: bool) -> Result<Box<Reader>, ProgramFault> {
        let reader = Reader {
            alloc,
            is_program,
            top: Box::new(alloc, Parts::new(alloc, 1))?,
            outer: Vec::new(alloc),
            class: empty_class(alloc),
            types: LocalTypes::new(alloc),
            classes: Items::new(alloc),
            locals: Items::new(alloc),
            main: None,
        };
        Ok(Box::new(alloc, reader)?)
    }

    /// Begins with the classes of the prelude.
    pub(crate) fn begin_with_prelude(&mut self) -> Result<(), ProgramFault> {
        self.classes = prelude(self.alloc)?;
        self.locals = parameter_types(self.alloc, self.classes.as_slice())?;
        Ok(())
    }

    /// The program that was read.
    pub(crate) fn program(&mut self) -> Result<Program, ProgramFault> {
        match self.main {
            Some(main) => Ok(Program {
                classes: mem::replace(&mut self.classes, Items::new(self.alloc)),
                main,
            }),
            None => Err(self.top.expected(Wanted::Part)),
        }
    }

    /// The types of its locals.
    pub(crate) fn locals(&mut self) -> Items<LocalTypes> {
        mem::replace(&mut self.locals, Items::new(self.alloc))
    }

    /// Reads all tokens, and gives the parts that stand in no form.
    pub(crate) fn read(
        &mut self,
        names: &Names,
        tokens: &[Token],
    ) -> Result<Box<Parts>, ProgramFault> {
        for token in tokens {
            self.take(names, token)?;
        }
        if !self.outer.is_empty() {
            return Err(self.top.expected(Wanted::End));
        }
        let top = Box::new(self.alloc, Parts::new(self.alloc, 1))?;
        Ok(mem::replace(&mut self.top, top))
    }

    fn take(&mut self, names: &Names, token: &Token) -> Result<(), ProgramFault> {
        match &token.mark {
            Mark::Open => self.open(token.line),
            Mark::Close => self.close(names, token.line),
            Mark::Word(word) => {
                let word = String::from_str(self.alloc, word.as_str())?;
                self.top.words.push(word)?;
                Ok(())
            }
        }
    }

    fn open(&mut self, line: u32) -> Result<(), ProgramFault> {
        if self.outer.len() >= MOST_OPEN {
            let wanted = Wanted::Less;
            return Err(ProgramFault::Expected { line, wanted });
        }
        let inner = Box::new(self.alloc, Parts::new(self.alloc, line))?;
        let outer = mem::replace(&mut self.top, inner);
        self.outer.push(outer)?;
        Ok(())
    }

    fn close(&mut self, names: &Names, line: u32) -> Result<(), ProgramFault> {
        match self.outer.pop() {
            Some(outer) => {
                let mut form = mem::replace(&mut self.top, outer);
                self.add(names, &mut *form)?;
                form.end()
            }
            None => {
                let wanted = Wanted::Nothing;
                Err(ProgramFault::Expected { line, wanted })
            }
        }
    }

    // Adds what a form says to the form that it stands in.
    fn add(&mut self, names: &Names, form: &mut Parts) -> Result<(), ProgramFault> {
        match head_of(form.word().as_str()) {
            Some(Head::Part(part)) => self.add_part(names, form, part),
            Some(Head::Pattern(shape)) => {
                let pattern = pattern_of(self.alloc, form, names, shape)?;
                self.top.patterns.push(pattern)?;
                Ok(())
            }
            Some(Head::Member(member)) => self.add_member(names, form, member),
            Some(Head::Class(kind)) => self.add_class(names, form, kind),
            Some(Head::Program) => {
                self.main = Some(form.class(names));
                self.check_depth(form, 0);
                Ok(())
            }
            Some(head) => {
                let e = expr_of(self.alloc, form, names, head)?;
                self.top.exprs.push(e)?;
                Ok(())
            }
            None => Err(form.expected(Wanted::Head)),
        }
    }

    fn add_part(
        &mut self,
        names: &Names,
        form: &mut Parts,
        part: Part,
    ) -> Result<(), ProgramFault> {
        match part {
            Part::Case => self.top.add_case(case_of(form)),
            Part::Aside => self.top.set_aside(form.expr()),
            Part::Cases => self.top.set_catch(Catch::Cases(form.cases_left())),
            Part::Catch => self.top.set_catch(catch_of(form)?),
            Part::Params => self.top.set_params(form.types_left(names)?),
            Part::Locals => self.top.set_locals(form.types_left(names)?),
        }
    }

    // Takes note where other than so many forms stand around one, or where no program is read.
    fn check_depth(&self, form: &mut Parts, depth: usize) {
        if !self.is_program || self.outer.len() != depth {
            form.note(Wanted::Head);
        }
    }

    fn add_member(
        &mut self,
        names: &Names,
        form: &mut Parts,
        member: Member,
    ) -> Result<(), ProgramFault> {
        self.check_depth(form, 2);
        let (class, types) = (&mut self.class, &mut self.types);
        add_member(self.alloc, class, types, form, names, member)
    }

    fn add_class(
        &mut self,
        names: &Names,
        form: &mut Parts,
        kind: Kind,
    ) -> Result<(), ProgramFault> {
        self.check_depth(form, 1);
        let number = count(self.classes.len());
        let (class, types) = (&mut self.class, &mut self.types);
        end_class(class, types, form, names, kind, number)?;
        let class = mem::replace(&mut self.class, empty_class(self.alloc));
        self.classes.push(class)?;
        let types = mem::replace(&mut self.types, LocalTypes::new(self.alloc));
        self.locals.push(types)?;
        Ok(())
    }
}

// The expression that a form with this head says.
fn expr_of(
    alloc: Global,
    form: &mut Parts,
    names: &Names,
    head: Head,
) -> Result<Expr, ProgramFault> {
    match head {
        Head::Leaf(leaf) => Ok(leaf_of(form, names, leaf)),
        Head::Unary(unary) => unary_of(form, names, unary),
        Head::Binary(binary) => binary_of(form, names, binary),
        Head::Ternary(ternary) => ternary_of(form, names, ternary),
        Head::Listed(listed) => Ok(listed_of(form, names, listed)),
        Head::Other(Other::Call) => call_of(form, names),
        Head::Other(Other::Match) => match_of(form),
        Head::Other(Other::Try) => try_of(alloc, form),
        Head::Other(Other::Println) => println_of(form),
        _ => Err(form.expected(Wanted::Head)),
    }
}
