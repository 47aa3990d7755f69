//! Runs calls of the base crates and of the reader and writer of class files on large inputs, so that scripts in `bench/`
//! can time and try them.
#![tactic(auto)]

ghost use Rattle.std.specs.Prelude.{◌<◌, ◌^◌, length};

mod characters;
mod often;
mod shapes;

use characters::decoded;
use often::{read_often, written_often};
use shapes::linearised;
use sl_io::{Fetch, Put, Shelf, StdShelf};
use std::rt::Files;
use std::{env, io};

// The most bytes of a file.
const LIMIT: u32 = 4_194_304;

const USAGE: &str =
    "words: chars FILE N | linearise SHAPE COUNT N | read FILE N | write FILE OUT | rewrite FILE N";

// Reads the file so often, and says what came.
fn tell_read<R: AllocGlobal + Print>(rt: &R, bytes: &[u8], times: u32) -> io::Result<()>
    requires { length bytes.now < 2 ^ 32 }
{
    match read_often(rt.alloc(), bytes, times) {
        Ok(()) => println!(rt; "ok"),
        Err(fault) => {
            let (at, kind) = (fault.at, fault.kind);
            println!(rt; "byte {at}: {kind:?}")
        }
    }
}

// Writes what is read of the bytes so often, and puts it under this name where there is one.
fn tell_written<R: Files + AllocGlobal + Print>(
    rt: &R,
    bytes: &[u8],
    times: u32,
    out: Option<&str>,
) -> io::Result<()>
    requires { length bytes.now < 2 ^ 32 }
{
    let Some(written) = written_often(rt.alloc(), bytes, times) else {
        return println!(rt; "not written");
    };
    match out {
        None => {
            let length = written.len();
            println!(rt; "{length} bytes")
        }
        Some(name) => match StdShelf::new(rt).put(rt.alloc(), name, written.as_slice()) {
            Put::Done => println!(rt; "written"),
            _ => println!(rt; "the file can't be put"),
        },
    }
}

// Calls on a file: the last word is a number of calls, or the name of a file that is written.
fn on_file<R: Files + AllocGlobal + Print>(
    rt: &R,
    what: &str,
    file: &str,
    last: &str,
) -> io::Result<()> {
    let Fetch::Bytes(bytes) = StdShelf::new(rt).fetch(rt.alloc(), file, LIMIT) else {
        return println!(rt; "the file can't be read");
    };
    let times = last.parse::<u32>().unwrap_or(1);
    match what {
        "chars" => {
            let length = decoded(rt.alloc(), bytes.as_slice(), times);
            println!(rt; "{length}")
        }
        "read" => tell_read(rt, bytes.as_slice(), times),
        "write" => tell_written(rt, bytes.as_slice(), 1, Some(last)),
        "rewrite" => tell_written(rt, bytes.as_slice(), times, None),
        _ => println!(rt; "{USAGE}"),
    }
}

fn main(rt: HostRuntime) -> io::Result<()> {
    let mut words = Vec::new(rt.alloc());
    for word in env::args(&rt)?.skip(1) {
        words.push(word)?;
    }
    match words.as_slice() {
        [what, file, last] => on_file(&rt, what.as_str(), file.as_str(), last.as_str()),
        [what, shape, count, times] if what.as_str() == "linearise" => {
            let count = count.as_str().parse::<u32>().unwrap_or(0);
            let times = times.as_str().parse::<u32>().unwrap_or(1);
            let length = linearised(rt.alloc(), shape.as_str(), count, times)?;
            println!(rt; "{length}")
        }
        _ => println!(rt; "{USAGE}"),
    }
}
