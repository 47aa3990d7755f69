use super::fakes::{Stream, Stuck, one_file, sink, words_of};
use sl_base::Name;
use sl_io::MemShelf;
use sl_top::{SOURCE_LIMIT, top};
use std::alloc::{AllocError, Global};
use std::test::Fail;

const WHOLE: Stream = [4096, 0, 0];

// The status of a run where `out` takes nothing, how often it was called, and how often `err` was.
fn stuck_run(alloc: Global) -> Result<(u8, u64, u32), AllocError> {
    let words = words_of(alloc, &["run", "m.scala"])?;
    let mut shelf = one_file(alloc, b"println(1)\nprintln(2)\n", [0, 0])?;
    let mut out = Stuck { faults: 0 };
    let mut err = sink(alloc, WHOLE)?;
    let finished = top(alloc, words.as_slice(), &mut shelf, &mut out, &mut err);
    Ok((finished.status, out.faults, err.inner.calls()))
}

// The status of a refusal where `err` takes nothing.
fn stuck_refusal(alloc: Global) -> Result<u8, AllocError> {
    let mut shelf = one_file(alloc, b"", [0, 0])?;
    let mut out = sink(alloc, WHOLE)?;
    let finished = top(alloc, &[], &mut shelf, &mut out, &mut Stuck { faults: 0 });
    Ok(finished.status)
}

// What is told of these bytes, checked as the file `m.scala`, and the status.
fn checked(alloc: Global, bytes: &[u8], line: &str) -> Result<bool, AllocError> {
    let words = words_of(alloc, &["check", "m.scala"])?;
    let mut files = Vec::new(alloc);
    files.push((
        Name::from_text(alloc, "m.scala")?,
        Vec::from_slice(alloc, bytes)?,
    ))?;
    let mut shelf = MemShelf::new(files, Vec::new(alloc));
    let mut out = sink(alloc, WHOLE)?;
    let mut err = sink(alloc, WHOLE)?;
    let finished = top(alloc, words.as_slice(), &mut shelf, &mut out, &mut err);
    Ok(finished.status == 4 && out.inner.bytes().is_empty() && err.inner.bytes() == line.as_bytes())
}

// The status of a run of a file of this length.
fn long_run(alloc: Global, length: usize) -> Result<u8, AllocError> {
    let words = words_of(alloc, &["run", "m.scala"])?;
    let end = b"}\n}\n";
    let mut file = Vec::from_slice(alloc, b"object Main {\ndef main(): Unit = {\n")?;
    file.resize(length.saturating_sub(end.len()), b' ')?;
    file.extend_from_slice(end)?;
    let mut files = Vec::new(alloc);
    files.push((Name::from_text(alloc, "m.scala")?, file))?;
    let mut shelf = MemShelf::new(files, Vec::new(alloc));
    let mut out = sink(alloc, WHOLE)?;
    let mut err = sink(alloc, WHOLE)?;
    Ok(top(alloc, words.as_slice(), &mut shelf, &mut out, &mut err).status)
}

#[test]
fn streams_may_take_nothing(rt: HostRuntime) -> Result<(), Fail> {
    assert_eq!(rt; stuck_run(rt.alloc())?, (5, 1, 0));
    assert_eq!(rt; stuck_refusal(rt.alloc())?, 5);
    Ok(())
}

#[test]
fn first_faults_are_told(rt: HostRuntime) -> Result<(), Fail> {
    for (bytes, line) in [
        (b"\xff".as_slice(), "m.scala: byte 0: not UTF-8\n"),
        (b"// \xe2\x82".as_slice(), "m.scala: byte 3: not UTF-8\n"),
        (
            b"// \xe2\x82\xac \xc0\x80\n'".as_slice(),
            "m.scala: byte 7: not UTF-8\n",
        ),
        (
            b"/* \xe2\x82\xac */ '".as_slice(),
            "m.scala:1:9: lex BadChar\n",
        ),
        (
            b"object Main { def main(): Unit = println(1 +) }".as_slice(),
            "m.scala:1:45: parse Unexpected\n",
        ),
        (
            b"object Main { def main(): Unit = { val } }".as_slice(),
            "m.scala:1:40: parse Unexpected\n",
        ),
    ] {
        assert!(rt; checked(rt.alloc(), bytes, line)?, "{line}");
    }
    Ok(())
}

#[test]
fn files_have_a_limit(rt: HostRuntime) -> Result<(), Fail> {
    let limit = SOURCE_LIMIT as usize;
    for (length, status) in [(limit - 1, 0), (limit, 0), (limit + 1, 8)] {
        assert_eq!(rt; long_run(rt.alloc(), length)?, status);
    }
    Ok(())
}
