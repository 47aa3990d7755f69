//! The cases of a file, line by line.

use crate::answers::answered;
use std::alloc::{AllocError, Global};
use std::{io, mem};
use ty_text::{Source, read_program};

/// The case that is read: its name and the text of its program so far; the last text that was written whole; the last
/// program, or why there is none.
#[derive(Drop)]
pub(crate) struct Session {
    alloc: Global,
    name: String,
    text: String,
    base: String,
    is_changed: bool,
    source: Option<Source>,
    fault: String,
    // Whether the case has no question so far.
    is_open: bool,
}

impl Session {
    pub(crate) fn new(alloc: Global) -> Session {
        Session {
            alloc,
            name: String::new(alloc),
            text: String::new(alloc),
            base: String::new(alloc),
            is_changed: false,
            source: None,
            fault: String::new(alloc),
            is_open: false,
        }
    }

    /// Takes a line of the file.
    pub(crate) fn take<R: Print>(&mut self, rt: &R, line: &str) -> io::Result<()> {
        if let Some(name) = line.strip_prefix("= ") {
            return self.begin(rt, name);
        }
        if let Some(change) = line.strip_prefix("~ ") {
            return Ok(self.change(change)?);
        }
        if let Some(question) = line.strip_prefix("? ") {
            return self.ask(rt, question);
        }
        Ok(self.add(line)?)
    }

    fn begin<R: Print>(&mut self, rt: &R, name: &str) -> io::Result<()> {
        self.end(rt)?;
        self.name = String::from_str(self.alloc, name)?;
        self.is_open = true;
        Ok(())
    }

    // Adds a line to the text of the program; comments and empty lines don't begin one.
    fn add(&mut self, line: &str) -> Result<(), AllocError> {
        if !self.text.is_empty() || !(line.is_empty() || line.starts_with(';')) {
            self.text.push_str(line)?;
            self.text.push('\n')?;
        }
        Ok(())
    }

    // Changes the text, which begins as the last one that was written whole.
    fn change(&mut self, change: &str) -> Result<(), AllocError> {
        if self.text.is_empty() {
            self.text.push_str(self.base.as_str())?;
        }
        self.is_changed = true;
        let text = mem::replace(&mut self.text, String::new(self.alloc));
        if let Some((old, new)) = change.split_once(" => ") {
            if let Some((before, behind)) = text.as_str().split_once(old) {
                self.text.push_str(before)?;
                self.text.push_str(new)?;
                return self.text.push_str(behind);
            }
        }
        self.text.push_str("nothing to change")
    }

    // Reads the text of the program, where there is one.
    fn load(&mut self) -> Result<(), AllocError> {
        if self.text.is_empty() {
            return Ok(());
        }
        let text = mem::replace(&mut self.text, String::new(self.alloc));
        match read_program(self.alloc, text.as_str()) {
            Ok(source) => self.source = Some(source),
            Err(fault) => {
                self.source = None;
                self.fault = format!(in self.alloc; "{fault}")?;
            }
        }
        if !self.is_changed {
            self.base = text;
        }
        self.is_changed = false;
        Ok(())
    }

    fn ask<R: Print>(&mut self, rt: &R, question: &str) -> io::Result<()> {
        self.load()?;
        self.is_open = false;
        let name = self.name.as_str();
        match &self.source {
            Some(source) => {
                let told = answered(self.alloc, source, question)?;
                println!(rt; "{name}: {question}: {told}")
            }
            None => {
                let fault = self.fault.as_str();
                println!(rt; "{name}: {fault}")
            }
        }
    }

    /// Ends the case; where it has no question, it tells whether it has a program.
    pub(crate) fn end<R: Print>(&mut self, rt: &R) -> io::Result<()> {
        if !self.is_open {
            return Ok(());
        }
        self.load()?;
        self.is_open = false;
        let name = self.name.as_str();
        match &self.source {
            Some(_) => println!(rt; "{name}: a program"),
            None => {
                let fault = self.fault.as_str();
                println!(rt; "{name}: {fault}")
            }
        }
    }
}
