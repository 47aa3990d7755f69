//! The program `scalazy`: hands its words, the system's files and its streams to `sl_top`.
#![tactic(auto)]

mod words;

use sl_io::{StdShelf, StdSink, write_all};
use sl_top::top;
use std::io;
use std::process::ExitCode;
use words::words;

fn main(rt: HostRuntime) -> ExitCode {
    let mut out = StdSink::new(io::writer(&rt));
    let mut err = StdSink::new(rt.stderr());
    match words(&rt) {
        Ok(words) => {
            let mut shelf = StdShelf::new(&rt);
            let finished = top(rt.alloc(), words.as_slice(), &mut shelf, &mut out, &mut err);
            ExitCode::from(finished.status)
        }
        Err(_) => {
            let _ = write_all(&mut err, b"memory\n");
            ExitCode::from(7)
        }
    }
}

#[cfg(test)]
mod tests;
