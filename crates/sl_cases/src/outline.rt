//! Outlines of trees, written node by node.

use sl_ast::{Case, Expr, Infix, Member, Pat, PatS, Pattern, Prefix, Simple, Stat, Suffix, TopDef};
use std::alloc::{AllocError, Global};

/// What is still to be written.
#[derive(Clone, Copy)]
pub(crate) enum Job<'a> {
    Top(&'a TopDef),
    Member(&'a Member),
    Expr(&'a Expr),
    Infix(&'a Infix),
    Prefix(&'a Prefix),
    Simple(&'a Simple),
    Suffix(&'a Suffix),
    Stat(&'a Stat),
    Case(&'a Case),
    Pattern(&'a Pattern),
    Pat(&'a Pat),
    PatS(&'a PatS),
    Open(&'static str),
    Word(&'a str),
    Close,
}

/// The text so far, and what follows, the next last.
#[derive(Drop)]
pub(crate) struct Outline<'a> {
    alloc: Global,
    text: String,
    jobs: Vec<Job<'a>>,
}

impl<'a> Outline<'a> {
    pub(crate) fn new(alloc: Global) -> Outline<'a> {
        Outline {
            alloc,
            text: String::new(alloc),
            jobs: Vec::new(alloc),
        }
    }

    pub(crate) fn alloc(&self) -> Global {
        self.alloc
    }

    /// Puts a job before those that are left.
    pub(crate) fn put(&mut self, job: Job<'a>) -> Result<(), AllocError> {
        self.jobs.push(job)?;
        Ok(())
    }

    pub(crate) fn take(&mut self) -> Option<Job<'a>> {
        self.jobs.pop()
    }

    /// Writes a word, with a space before it where one has to be.
    pub(crate) fn word(&mut self, word: &str) -> Result<(), AllocError> {
        if !self.text.is_empty() && !self.text.as_str().ends_with('(') {
            self.text.push(' ')?;
        }
        self.text.push_str(word)
    }

    pub(crate) fn open(&mut self, head: &str) -> Result<(), AllocError> {
        self.word("(")?;
        self.word(head)
    }

    pub(crate) fn close(&mut self) -> Result<(), AllocError> {
        self.text.push(')')
    }

    pub(crate) fn into_text(self) -> String {
        self.text
    }
}
