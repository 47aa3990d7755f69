//! The names of a program's classes and members.

use crate::head::{Head, Member, head_of};
use crate::program_fault::ProgramFault;
use crate::token::{Mark, Token};
use std::alloc::Global;
use std::collections::HashMap;
use ty_prog::{Class, Method};

/// What a member of a class is.
#[derive(Clone, Copy)]
pub(crate) enum Sort {
    Field,
    Cell,
    Method,
}

/// The numbers of the classes and members of a program by name, a member as `Class.member`.
#[derive(Drop)]
pub struct Names {
    classes: HashMap<String, u32>,
    fields: HashMap<String, u32>,
    cells: HashMap<String, u32>,
    methods: HashMap<String, u32>,
}

impl Names {
    fn new(alloc: Global) -> Names {
        Names {
            classes: HashMap::new(alloc),
            fields: HashMap::new(alloc),
            cells: HashMap::new(alloc),
            methods: HashMap::new(alloc),
        }
    }

    /// The number of the class with this name, or which the word itself says.
    pub fn class(&self, word: &str) -> Option<u32> {
        match word.parse::<u32>() {
            Ok(number) => Some(number),
            Err(_) => self.classes.get(word).copied(),
        }
    }

    // The class and the member that a word `Class.member` says, each by name or by number.
    pub(crate) fn member(&self, sort: Sort, word: &str) -> Option<(u32, u32)> {
        let (class, member) = word.split_once('.')?;
        let class = self.class(class)?;
        match member.parse::<u32>() {
            Ok(number) => Some((class, number)),
            Err(_) => Some((class, self.numbered(sort, word)?)),
        }
    }

    fn numbered(&self, sort: Sort, word: &str) -> Option<u32> {
        match sort {
            Sort::Field => self.fields.get(word).copied(),
            Sort::Cell => self.cells.get(word).copied(),
            Sort::Method => self.methods.get(word).copied(),
        }
    }

    fn add_class(&mut self, alloc: Global, name: &str, number: u32) -> Result<(), ProgramFault> {
        add(&mut self.classes, String::from_str(alloc, name)?, number)
    }

    fn add_member(
        &mut self,
        alloc: Global,
        sort: Sort,
        class: &str,
        name: &str,
        number: u32,
    ) -> Result<(), ProgramFault> {
        let word = format!(in alloc; "{class}.{name}")?;
        match sort {
            Sort::Field => add(&mut self.fields, word, number),
            Sort::Cell => add(&mut self.cells, word, number),
            Sort::Method => add(&mut self.methods, word, number),
        }
    }
}

// Of things with one name the first keeps it.
fn add(names: &mut HashMap<String, u32>, word: String, number: u32) -> Result<(), ProgramFault> {
    if !names.contains_key(word.as_str()) {
        names.insert(word, number)?;
    }
    Ok(())
}

// What was declared so far: the class that is read, and the next number of each sort.
#[derive(Drop)]
struct Declared {
    alloc: Global,
    names: Names,
    class: String,
    next_class: u32,
    next_field: u32,
    next_cell: u32,
    next_method: u32,
}

impl Declared {
    fn class(&mut self, name: &str) -> Result<(), ProgramFault> {
        let number = self.next_class;
        self.names.add_class(self.alloc, name, number)?;
        self.class = String::from_str(self.alloc, name)?;
        self.next_class = number.saturating_add(1);
        self.next_field = 0;
        self.next_cell = 0;
        self.next_method = 0;
        Ok(())
    }

    fn member(&mut self, sort: Sort, name: &str) -> Result<(), ProgramFault> {
        let number = self.next(sort);
        self.names
            .add_member(self.alloc, sort, self.class.as_str(), name, number)
    }

    // The next number of this sort, which is then taken.
    fn next(&mut self, sort: Sort) -> u32 {
        let number = match sort {
            Sort::Field => self.next_field,
            Sort::Cell => self.next_cell,
            Sort::Method => self.next_method,
        };
        let next = number.saturating_add(1);
        match sort {
            Sort::Field => self.next_field = next,
            Sort::Cell => self.next_cell = next,
            Sort::Method => self.next_method = next,
        }
        number
    }

    fn classes(&mut self, classes: &[Class]) -> Result<(), ProgramFault> {
        for class in classes {
            self.class(class.name.as_str())?;
            self.methods(class.methods.as_slice())?;
        }
        Ok(())
    }

    fn methods(&mut self, methods: &[Method]) -> Result<(), ProgramFault> {
        for method in methods {
            self.member(Sort::Method, method.name.as_str())?;
        }
        Ok(())
    }

    // Takes a form at this depth, which has a head and a second word.
    fn form(&mut self, depth: u32, head: &str, name: &str) -> Result<(), ProgramFault> {
        match (depth, head_of(head)) {
            (2, Some(Head::Class(_))) => self.class(name),
            (3, Some(Head::Member(member))) => match sort_of(member) {
                Some(sort) => self.member(sort, name),
                None => Ok(()),
            },
            _ => Ok(()),
        }
    }
}

fn sort_of(member: Member) -> Option<Sort> {
    match member {
        Member::Field | Member::Param => Some(Sort::Field),
        Member::Lazy => Some(Sort::Cell),
        Member::Method | Member::Static => Some(Sort::Method),
        _ => None,
    }
}

/// The names of these classes, and of those that the tokens of a program add.
pub(crate) fn names_of(
    alloc: Global,
    before: &[Class],
    tokens: &[Token],
) -> Result<Names, ProgramFault> {
    let mut declared = Declared {
        alloc,
        names: Names::new(alloc),
        class: String::new(alloc),
        next_class: 0,
        next_field: 0,
        next_cell: 0,
        next_method: 0,
    };
    declared.classes(before)?;
    let mut depth = 0u32;
    for (i, token) in tokens.iter().enumerate() {
        match token.mark {
            Mark::Open => {
                depth = depth.saturating_add(1);
                let head = word_at(tokens, i.saturating_add(1));
                let name = word_at(tokens, i.saturating_add(2));
                if let (Some(head), Some(name)) = (head, name) {
                    declared.form(depth, head, name)?;
                }
            }
            Mark::Close => depth = depth.saturating_sub(1),
            Mark::Word(_) => (),
        }
    }
    let Declared { names, .. } = declared;
    Ok(names)
}

// The word that stands there, if one does.
pub(crate) fn word_at(tokens: &[Token], i: usize) -> Option<&str> {
    match tokens.get(i) {
        Some(
            Token {
                mark: Mark::Word(word),
                ..
            },
        ) => Some(word.as_str()),
        _ => None,
    }
}
