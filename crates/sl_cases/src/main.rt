//! Answers case files about source texts: their tokens, their trees, or their first faults.
#![tactic(auto)]

mod answers;
mod defs;
mod exprs;
mod leaves;
mod outline;
mod patterns;
mod repeats;
mod tokens;

use answers::answered;
use std::{env, fs, io};

fn main(rt: HostRuntime) -> io::Result<()> {
    for file in env::args(&rt)?.skip(1) {
        let text = fs::read_to_string(&rt, file.as_str())?;
        for line in text.as_str().lines() {
            if line.is_empty() || line.starts_with(';') {
                continue;
            }
            let answer = answered(rt.alloc(), line)?;
            println!(rt; "{line}")?;
            println!(rt; "    {}", told(answer.as_str()))?;
        }
    }
    Ok(())
}

// An answer as it is written.
fn told(answer: &str) -> &str {
    if answer.is_empty() {
        "nothing"
    } else {
        answer.trim_start()
    }
}
