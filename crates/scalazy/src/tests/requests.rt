use super::fakes::words_of;
use sl_top::{Options, Request, request_of};
use std::alloc::Global;
use std::test::Fail;

// Lists of words, and the file for which each asks its first word, if it asks for anything.
const WORDS: [(&[&str], Option<&str>); 50] = [
    (&["run", "m.scala"], Some("m.scala")),
    (&["run", "a folder/m.scala"], Some("a folder/m.scala")),
    (&["run", ""], Some("")),
    (&["run", " "], Some(" ")),
    (&["run", "run"], Some("run")),
    (&["run", "check"], Some("check")),
    (&["run", "--trace"], Some("--trace")),
    (&["run", "--budget"], Some("--budget")),
    (&["run", "-"], Some("-")),
    (&["run", "--"], Some("--")),
    (&["run", "größe.scala"], Some("größe.scala")),
    (&["run", "😀"], Some("😀")),
    (&["run", "a\nb"], Some("a\nb")),
    (&["check", "m.scala"], Some("m.scala")),
    (&["check", ""], Some("")),
    (&["check", "run"], Some("run")),
    (&["check", "--trace"], Some("--trace")),
    (&[], None),
    (&[""], None),
    (&["run"], None),
    (&["m.scala"], None),
    (&["", "m.scala"], None),
    (&["Run", "m.scala"], None),
    (&["RUN", "m.scala"], None),
    (&["run ", "m.scala"], None),
    (&[" run", "m.scala"], None),
    (&["runs", "m.scala"], None),
    (&["ru", "m.scala"], None),
    (&["--run", "m.scala"], None),
    (&["m.scala", "run"], None),
    (&["run", "m.scala", ""], None),
    (&["run", "m.scala", "n.scala"], None),
    (&["run", "m.scala", "--trace"], None),
    (&["run", "--trace", "m.scala"], None),
    (&["run", "m.scala", "--budget", "1000"], None),
    (&["run", "m.scala", "--quantum", "50"], None),
    (&["run", "m.scala", "--turns", "t"], None),
    (&["run", "m.scala", "--record", "r"], None),
    (&["check"], None),
    (&["Check", "m.scala"], None),
    (&["check", "m.scala", "n.scala"], None),
    (&["compile", "m.scala", "out/"], None),
    (&["mean", "m.scala"], None),
    (&["exec", "Main.class"], None),
    (&["race", "m.scala", "--workers", "2"], None),
    (&["gen", "5"], None),
    (&["verify", "Main.class"], None),
    (&["dis", "Main.class"], None),
    (&["help"], None),
    (&["--help"], None),
];

// Whether the options are those of a plain run.
fn are_plain(options: &Options) -> bool {
    matches!(
        options,
        Options {
            budget: 10_000_000,
            quantum: 50,
            turns: None,
            save: None,
            trace: false,
        }
    )
}

// Whether a request is this command, and of this file.
fn is_asked(request: &Request, command: &str, wanted: &str) -> bool {
    match request {
        Request::Check { file } => command == "check" && file.as_str() == wanted,
        Request::Run { file, options } => {
            command == "run" && file.as_str() == wanted && are_plain(options)
        }
    }
}

// Whether these words ask for this file, or for nothing.
fn asks_for(alloc: Global, words: &[&str], file: Option<&str>) -> Result<bool, Fail> {
    let names = words_of(alloc, words)?;
    let request = request_of(alloc, names.as_slice())?;
    Ok(match (request, words, file) {
        (Some(request), [command, ..], Some(file)) => is_asked(&request, command, file),
        (None, _, None) => true,
        _ => false,
    })
}

#[test]
fn words_ask(rt: HostRuntime) -> Result<(), Fail> {
    for (words, file) in WORDS {
        assert!(rt; asks_for(rt.alloc(), words, file)?, "{words:?}");
    }
    Ok(())
}
