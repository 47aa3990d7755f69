ghost use Rattle.std.specs.Prelude.{◌≡◌, ◌⊎◌, ℕ, List, IfOk, MatchOption, codes, [], ◌∷◌};
ghost use Rattle.sl_top.specs.Request.{AsksFor, AsksNothing, defaults};

use crate::NoMemory;
use std::alloc::Global;
use ty_prog::Name;

/// How a program is to be run.
#[derive(Debug, Drop)]
pub struct Options {
    /// The most steps, from 1 to 50,000,000.
    pub budget: u32,
    /// How many steps a thread takes in its turn of a round robin, from 1 to 1,000.
    pub quantum: u32,
    /// The file of the turns to be made, instead of a round robin.
    pub turns: Option<Name>,
    /// The file in which the schedule is recorded.
    pub save: Option<Name>,
    /// Whether the trace tells the thread of each event.
    pub trace: bool,
}

/// What a list of words asks for.
#[derive(Debug, Drop)]
pub enum Request {
    /// Whether the file is a program.
    Check { file: Name },
    /// The file is to be run.
    Run { file: Name, options: Options },
}

/// The request that the words make, which are those behind the program's name.
pub fn request_of(alloc: Global, words: &[Name]) -> Result<Option<Request>, NoMemory>
    ensures { IfOk result (λ found. MatchOption found (AsksNothing words.now) (AsksFor words.now)) }
{
    match words {
        [command, file] => file_request(alloc, command, file),
        _ => Ok(None),
    }
}

// The request of a command and a file.
fn file_request(alloc: Global, command: &Name, file: &Name) -> Result<Option<Request>, NoMemory>
    ensures { IfOk result (λ found. MatchOption found (AsksNothing (command.now ∷ file.now ∷ [])) (AsksFor (command.now ∷ file.now ∷ []))) }
{
    if command.as_str() == "check" {
        return Ok(Some(Request::Check {
            file: file.copy(alloc)?,
        }));
    }
    if command.as_str() == "run" {
        return Ok(Some(Request::Run {
            file: file.copy(alloc)?,
            options: default_options(),
        }));
    }
    Ok(None)
}

// The options of a plain run.
fn default_options() -> Options
    ensures { result ≡ defaults }
{
    Options {
        budget: 10_000_000,
        quantum: 50,
        turns: None,
        save: None,
        trace: false,
    }
}

/// Each list of words asks for one request, or for nothing.
pub fn asking()
    ensures either { (words : List (List ℕ)) → ((request : Request) × AsksFor words request) ⊎ AsksNothing words }
    ensures one { (words : List (List ℕ)) (one other : Request) → AsksFor words one → AsksFor words other → one ≡ other }
{}
