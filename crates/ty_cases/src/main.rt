//! Answers the questions of case files about programs of the language L, with the decisions of the `ty_` crates.
#![tactic(auto)]

mod answers;
mod copies;
mod goodness;
mod holding;
mod locals;
mod members;
mod part;
mod question;
mod session;
mod trees;
mod types;
mod values;

use session::Session;
use std::{env, fs, io};

fn main(rt: HostRuntime) -> io::Result<()> {
    for file in env::args(&rt)?.skip(1) {
        let text = fs::read_to_string(&rt, file.as_str())?;
        let mut session = Session::new(rt.alloc());
        for line in text.as_str().lines() {
            session.take(&rt, line)?;
        }
        session.end(&rt)?;
    }
    Ok(())
}
