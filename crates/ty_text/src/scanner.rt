//! From characters to tokens.

use crate::program_fault::{ProgramFault, Wanted};
use crate::token::{Mark, Token};
use std::alloc::Global;

// The most characters of a text, with each round written out.
const MOST_CHARACTERS: u32 = 16_777_216;

// Rounds that are read: where they begin, how many are left, and the number of this one.
#[derive(Clone, Copy)]
struct Round {
    start: usize,
    line: u32,
    left: u32,
    number: u32,
}

// Stands before a character of a text.
#[derive(Drop)]
struct Scanner {
    alloc: Global,
    characters: Vec<char>,
    at: usize,
    line: u32,
    is_comment: bool,
    is_quoted: bool,
    // Whether the number of rounds is read.
    is_counting: bool,
    round: Round,
    outer: Vec<Round>,
    word: String,
    has_word: bool,
    tokens: Vec<Token>,
}

/// The tokens of a text.
pub(crate) fn tokens_of(alloc: Global, text: &str) -> Result<Vec<Token>, ProgramFault> {
    let mut scanner = Scanner::new(alloc, text)?;
    for _ in 0..MOST_CHARACTERS {
        if !scanner.step()? {
            return Ok(scanner.into_tokens());
        }
    }
    Err(scanner.expected(Wanted::Less))
}

impl Scanner {
    fn new(alloc: Global, text: &str) -> Result<Scanner, ProgramFault> {
        Ok(Scanner {
            alloc,
            characters: text.chars().collect(alloc)?,
            at: 0,
            line: 1,
            is_comment: false,
            is_quoted: false,
            is_counting: false,
            round: Round {
                start: 0,
                line: 1,
                left: 1,
                number: 0,
            },
            outer: Vec::new(alloc),
            word: String::new(alloc),
            has_word: false,
            tokens: Vec::new(alloc),
        })
    }

    fn into_tokens(self) -> Vec<Token> {
        self.tokens
    }

    fn expected(&self, wanted: Wanted) -> ProgramFault {
        ProgramFault::Expected {
            line: self.line,
            wanted,
        }
    }

    // Takes a character; false at the end of the text.
    fn step(&mut self) -> Result<bool, ProgramFault> {
        let next = self.characters.get(self.at).copied();
        match next {
            Some(character) => {
                self.at = self.at.saturating_add(1);
                self.take(character)?;
                Ok(true)
            }
            None => {
                self.end()?;
                Ok(false)
            }
        }
    }

    fn end(&mut self) -> Result<(), ProgramFault> {
        if self.is_quoted || self.is_counting || !self.outer.is_empty() {
            return Err(self.expected(Wanted::End));
        }
        self.end_word()
    }

    fn take(&mut self, character: char) -> Result<(), ProgramFault> {
        if character == '\n' {
            self.line = self.line.saturating_add(1);
        }
        if self.is_comment {
            self.is_comment = character != '\n';
            return Ok(());
        }
        if self.is_counting {
            return self.count(character);
        }
        match character {
            '{' => self.open_rounds(),
            '}' => self.close_round(),
            '#' => self.put_number(),
            '"' => self.quote(),
            _ => self.take_other(character),
        }
    }

    fn take_other(&mut self, character: char) -> Result<(), ProgramFault> {
        if self.is_quoted {
            return self.put(character);
        }
        match character {
            '(' => self.end_with(Mark::Open),
            ')' => self.end_with(Mark::Close),
            ';' => {
                self.is_comment = true;
                self.end_word()
            }
            ' ' | '\t' | '\r' | '\n' => self.end_word(),
            _ => self.put(character),
        }
    }

    fn put(&mut self, character: char) -> Result<(), ProgramFault> {
        self.word.push(character)?;
        self.has_word = true;
        Ok(())
    }

    fn put_number(&mut self) -> Result<(), ProgramFault> {
        let number = self.round.number;
        let digits = format!(in self.alloc; "{number}")?;
        self.word.push_str(digits.as_str())?;
        self.has_word = true;
        Ok(())
    }

    fn quote(&mut self) -> Result<(), ProgramFault> {
        self.is_quoted = !self.is_quoted;
        self.has_word = true;
        Ok(())
    }

    fn end_with(&mut self, mark: Mark) -> Result<(), ProgramFault> {
        self.end_word()?;
        let line = self.line;
        self.tokens.push(Token { line, mark })?;
        Ok(())
    }

    fn end_word(&mut self) -> Result<(), ProgramFault> {
        if self.has_word {
            let word = std::mem::replace(&mut self.word, String::new(self.alloc));
            self.has_word = false;
            let line = self.line;
            self.tokens.push(Token {
                line,
                mark: Mark::Word(word),
            })?;
        }
        Ok(())
    }

    fn open_rounds(&mut self) -> Result<(), ProgramFault> {
        self.outer.push(self.round)?;
        self.round = Round {
            start: self.at,
            line: self.line,
            left: 0,
            number: 0,
        };
        self.is_counting = true;
        Ok(())
    }

    // Takes a digit of the number of rounds, or the blank behind it.
    fn count(&mut self, character: char) -> Result<(), ProgramFault> {
        match character.to_digit(10) {
            Some(digit) => {
                self.round.left = self.round.left.saturating_mul(10).saturating_add(digit);
                Ok(())
            }
            None if self.round.left == 0 => Err(self.expected(Wanted::Number)),
            None => {
                self.round.start = self.at;
                self.round.line = self.line;
                self.is_counting = false;
                Ok(())
            }
        }
    }

    // Goes back to the beginning of the rounds, or on behind them.
    fn close_round(&mut self) -> Result<(), ProgramFault> {
        if self.round.left > 1 {
            self.round.left -= 1;
            self.round.number = self.round.number.saturating_add(1);
            self.at = self.round.start;
            self.line = self.round.line;
            return Ok(());
        }
        match self.outer.pop() {
            Some(outer) => {
                self.round = outer;
                Ok(())
            }
            None => Err(self.expected(Wanted::Nothing)),
        }
    }
}
