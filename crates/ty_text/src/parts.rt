//! The parts of a form.

use crate::head::{operator_of, plain_type_of};
use crate::names::{Names, Sort};
use crate::program_fault::{ProgramFault, Wanted};
use sqlite_items::{Boxed, Items};
use std::alloc::Global;
use std::mem;
use ty_prog::{Case, Catch, Expr, Name, Pattern, PrimOp, Ty};

/// The words of a form and what the forms in it say, each kind in its order. Each call takes the next one away; where it
/// isn't there or isn't what was due, the call gives some value of its type, and `end` tells the first such fault.
#[derive(Drop)]
pub struct Parts {
    alloc: Global,
    line: u32,
    fault: Option<ProgramFault>,
    pub(crate) words: Items<String>,
    pub(crate) exprs: Items<Expr>,
    pub(crate) patterns: Items<Pattern>,
    cases: Items<Case>,
    pub(crate) catch: Option<Catch>,
    // What stands in `guard` or `finally`.
    pub(crate) aside: Option<Expr>,
    pub(crate) params: Items<Ty>,
    pub(crate) locals: Items<Ty>,
}

impl Parts {
    pub(crate) fn new(alloc: Global, line: u32) -> Parts {
        Parts {
            alloc,
            line,
            fault: None,
            words: Items::new(alloc),
            exprs: Items::new(alloc),
            patterns: Items::new(alloc),
            cases: Items::new(alloc),
            catch: None,
            aside: None,
            params: Items::new(alloc),
            locals: Items::new(alloc),
        }
    }

    /// The fault that this was due.
    pub fn expected(&self, wanted: Wanted) -> ProgramFault {
        ProgramFault::Expected {
            line: self.line,
            wanted,
        }
    }

    // Takes note that this was due.
    pub(crate) fn note(&mut self, wanted: Wanted) {
        if self.fault.is_none() {
            self.fault = Some(self.expected(wanted));
        }
    }

    pub(crate) fn add_case(&mut self, case: Case) -> Result<(), ProgramFault> {
        self.cases.push(case)?;
        Ok(())
    }

    pub(crate) fn set_aside(&mut self, e: Expr) -> Result<(), ProgramFault> {
        self.aside = Some(e);
        Ok(())
    }

    pub(crate) fn set_catch(&mut self, catch: Catch) -> Result<(), ProgramFault> {
        self.catch = Some(catch);
        Ok(())
    }

    pub(crate) fn set_params(&mut self, types: Items<Ty>) -> Result<(), ProgramFault> {
        self.params = types;
        Ok(())
    }

    pub(crate) fn set_locals(&mut self, types: Items<Ty>) -> Result<(), ProgramFault> {
        self.locals = types;
        Ok(())
    }

    // What was found, or another value where nothing was.
    fn found_or<T: Drop>(&mut self, wanted: Wanted, found: Option<T>, other: T) -> T {
        match found {
            Some(value) => value,
            None => {
                self.note(wanted);
                other
            }
        }
    }

    /// That all was there and nothing is left.
    pub fn end(&self) -> Result<(), ProgramFault> {
        if let Some(fault) = self.fault {
            return Err(fault);
        }
        let no_trees = self.exprs.is_empty() && self.patterns.is_empty() && self.cases.is_empty();
        let no_types = self.params.is_empty() && self.locals.is_empty();
        let no_asides = self.catch.is_none() && self.aside.is_none();
        if self.words.is_empty() && no_trees && no_types && no_asides {
            Ok(())
        } else {
            Err(self.expected(Wanted::Nothing))
        }
    }

    /// The next word.
    pub fn word(&mut self) -> String {
        let found = taken(&mut self.words);
        self.found_or(Wanted::Word, found, String::new(self.alloc))
    }

    /// The next word, as a name.
    pub fn name(&mut self) -> Name {
        Name::from_string(self.word())
    }

    // The number that the next word says, of those from `least` to `most`.
    fn integer(&mut self, least: i64, most: i64) -> i64 {
        match self.word().as_str().parse::<i64>() {
            Ok(number) if least <= number && number <= most => number,
            _ => {
                self.note(Wanted::Number);
                least
            }
        }
    }

    pub(crate) fn int(&mut self) -> i32 {
        i32::try_from(self.integer(-2_147_483_648, 2_147_483_647)).unwrap_or(0)
    }

    pub(crate) fn long(&mut self) -> i64 {
        self.integer(i64::MIN, i64::MAX)
    }

    /// The number that the next word says.
    pub fn number(&mut self) -> u32 {
        u32::try_from(self.integer(0, 4_294_967_295)).unwrap_or(0)
    }

    // Whether the next word is this one, which is then taken away.
    pub(crate) fn begins_with(&mut self, word: &str) -> bool {
        match self.words.as_slice().first() {
            Some(first) if first.as_str() == word => {
                let _first = self.word();
                true
            }
            _ => false,
        }
    }

    // Whether the next word is `true`; else it is `false`.
    pub(crate) fn truth(&mut self) -> bool {
        if self.begins_with("true") {
            return true;
        }
        if !self.begins_with("false") {
            self.note(Wanted::Name);
        }
        false
    }

    pub(crate) fn operator(&mut self) -> PrimOp {
        let found = operator_of(self.word().as_str());
        self.found_or(Wanted::Name, found, PrimOp::Add)
    }

    /// The class that the next word names.
    pub fn class(&mut self, names: &Names) -> u32 {
        let found = names.class(self.word().as_str());
        self.found_or(Wanted::Name, found, 0)
    }

    pub(crate) fn member(&mut self, names: &Names, sort: Sort) -> (u32, u32) {
        let found = names.member(sort, self.word().as_str());
        self.found_or(Wanted::Name, found, (0, 0))
    }

    /// The type that the next word names.
    pub fn ty(&mut self, names: &Names) -> Ty {
        let found = type_of(names, self.word().as_str());
        self.found_or(Wanted::Name, found, Ty::Any)
    }

    /// The next expression, if there is one.
    pub fn expr_left(&mut self) -> Option<Expr> {
        taken(&mut self.exprs)
    }

    /// The next expression.
    pub fn expr(&mut self) -> Expr {
        let found = taken(&mut self.exprs);
        self.found_or(Wanted::Part, found, Expr::Unit)
    }

    pub(crate) fn boxed(&mut self) -> Result<Boxed<Expr>, ProgramFault> {
        let e = self.expr();
        Ok(Boxed::new(self.alloc, e)?)
    }

    /// The next pattern, if there is one.
    pub fn pattern_left(&mut self) -> Option<Pattern> {
        taken(&mut self.patterns)
    }

    pub(crate) fn pattern(&mut self) -> Pattern {
        let found = taken(&mut self.patterns);
        self.found_or(Wanted::Part, found, Pattern::Any)
    }

    /// The next case, if there is one.
    pub fn case_left(&mut self) -> Option<Case> {
        taken(&mut self.cases)
    }

    pub(crate) fn exprs_left(&mut self) -> Items<Expr> {
        mem::replace(&mut self.exprs, Items::new(self.alloc))
    }

    pub(crate) fn patterns_left(&mut self) -> Items<Pattern> {
        mem::replace(&mut self.patterns, Items::new(self.alloc))
    }

    pub(crate) fn cases_left(&mut self) -> Items<Case> {
        mem::replace(&mut self.cases, Items::new(self.alloc))
    }

    pub(crate) fn params_left(&mut self) -> Items<Ty> {
        mem::replace(&mut self.params, Items::new(self.alloc))
    }

    /// The types of locals, all of them.
    pub fn locals_left(&mut self) -> Items<Ty> {
        mem::replace(&mut self.locals, Items::new(self.alloc))
    }

    /// The classes that the words left name.
    pub fn classes_left(&mut self, names: &Names) -> Result<Items<u32>, ProgramFault> {
        let mut classes = Items::new(self.alloc);
        for _ in 0..self.words.len() {
            classes.push(self.class(names))?;
        }
        Ok(classes)
    }

    pub(crate) fn types_left(&mut self, names: &Names) -> Result<Items<Ty>, ProgramFault> {
        let mut types = Items::new(self.alloc);
        for _ in 0..self.words.len() {
            types.push(self.ty(names))?;
        }
        Ok(types)
    }
}

// Takes the first item away, if there is one.
fn taken<T: Drop>(items: &mut Items<T>) -> Option<T> {
    if items.len() == 0 {
        return None;
    }
    Some(items.remove(0))
}

// The type that a word names.
fn type_of(names: &Names, word: &str) -> Option<Ty> {
    match plain_type_of(word) {
        Some(ty) => Some(ty),
        None => Some(Ty::Class(names.class(word)?)),
    }
}
