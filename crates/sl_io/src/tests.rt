use crate::{Fetch, MemShelf, MemSink, Put, Shelf, Sink, SinkFault, StdShelf, StdSink, write_all};
use sl_base::Name;
use std::alloc::{AllocError, Global};
use std::fs;
use std::test::Fail;

// A shelf that tells no files and reaches none.
#[derive(Drop)]
struct Closed {
    faults: u64,
}

impl Shelf for Closed {
    ghost use Rattle.std.specs.Prelude.{false, None};

    ghost tells = { λ _. false };

    ghost file = { λ _ _. None };

    ghost faults = { λ s _. s.faults };

    fn fetch(&mut self, _alloc: Global, _name: &str, _most: u32) -> Fetch {
        self.faults = self.faults.saturating_add(1);
        Fetch::Failed
    }

    fn put(&mut self, _alloc: Global, _name: &str, _bytes: &[u8]) -> Put {
        self.faults = self.faults.saturating_add(1);
        Put::Failed
    }
}

// A sink that never takes a byte.
#[derive(Drop)]
struct Stuck {
    faults: u64,
}

impl Sink for Stuck {
    ghost use Rattle.std.specs.Prelude.{None};

    ghost contents = { λ _. None };

    ghost faults = { λ s. s.faults };

    fn write(&mut self, _piece: &[u8]) -> Result<usize, SinkFault> {
        self.faults = self.faults.saturating_add(1);
        Ok(0)
    }
}

// One line for an answer.
fn shown(answer: &Fetch) -> &str {
    match answer {
        Fetch::Bytes(bytes) => str::from_utf8(bytes.as_slice()).unwrap_or("no text"),
        Fetch::Missing => "missing",
        Fetch::Long => "long",
        Fetch::Failed => "failed",
        Fetch::Memory => "memory",
    }
}

fn fetched<S: Shelf>(shelf: &mut S, alloc: Global, name: &str, most: u32, want: &str) -> bool {
    let answer = shelf.fetch(alloc, name, most);
    shown(&answer) == want
}

fn named(alloc: Global, name: &str, bytes: &[u8]) -> Result<(Name, Vec<u8>), AllocError> {
    Ok((
        Name::from_text(alloc, name)?,
        Vec::from_slice(alloc, bytes)?,
    ))
}

#[test]
fn a_shelf_in_memory(rt: HostRuntime) -> Result<(), Fail> {
    let alloc = rt.alloc();
    let mut files = Vec::new(alloc);
    files.push(named(alloc, "a", b"first")?)?;
    files.push(named(alloc, "b", b"four")?)?;
    files.push(named(alloc, "a", b"second")?)?;
    let mut shelf = MemShelf::new(files, vec![in alloc; 5, 7]?);
    for (name, most, want) in [
        ("b", 4, "four"),
        ("b", 3, "long"),
        ("c", 9, "missing"),
        ("a", 9, "first"),
        ("a", 9, "failed"),
    ] {
        assert!(rt;
            fetched(&mut shelf, alloc, name, most, want),
            "{name} {want}"
        );
    }
    assert_eq!(rt; shelf.put(alloc, "a", b"new"), Put::Done);
    assert_eq!(rt; shelf.put(alloc, "c", b"none"), Put::Failed);
    assert_eq!(rt; shelf.put(alloc, "d", b"last"), Put::Done);
    assert_eq!(rt; shelf.calls(), 8);
    assert!(rt; shelf.get("d").is_some());
    assert!(rt; shelf.get("c").is_none());
    for (name, want) in [("a", "new"), ("b", "four"), ("c", "missing"), ("d", "last")] {
        assert!(rt; fetched(&mut shelf, alloc, name, 9, want));
    }
    Ok(())
}

#[test]
fn a_sink_in_memory(rt: HostRuntime) -> Result<(), Fail> {
    let alloc = rt.alloc();
    let mut narrow = MemSink::new(alloc, 1, Vec::new(alloc));
    assert_eq!(rt; write_all(&mut narrow, b"abc"), Ok(()));
    assert_eq!(rt; narrow.bytes(), b"abc".as_slice());
    assert_eq!(rt; narrow.calls(), 3);
    let mut broken = MemSink::new(alloc, 1, vec![in alloc; 2]?);
    assert_eq!(rt; write_all(&mut broken, b"abc"), Err(SinkFault::Failed));
    assert_eq!(rt; broken.bytes(), b"a".as_slice());
    assert_eq!(rt; write_all(&mut broken, b"z"), Ok(()));
    assert_eq!(rt; broken.bytes(), b"az".as_slice());
    Ok(())
}

#[test]
fn shelves_and_sinks_that_fail(rt: HostRuntime) {
    let mut closed = Closed { faults: 0 };
    assert!(rt; fetched(&mut closed, rt.alloc(), "a", 9, "failed"));
    assert_eq!(rt; closed.put(rt.alloc(), "a", b"a"), Put::Failed);
    assert_eq!(rt; closed.faults, 2);
    let mut stuck = Stuck { faults: 0 };
    assert_eq!(rt; write_all(&mut stuck, b"a"), Err(SinkFault::Failed));
    assert_eq!(rt; write_all(&mut stuck, b""), Ok(()));
    assert_eq!(rt; stuck.faults, 1);
}

#[test]
fn files_of_the_system(rt: HostRuntime) -> Result<(), Fail> {
    let alloc = rt.alloc();
    let name = "sl_io_file";
    let mut shelf = StdShelf::new(&rt);
    assert_eq!(rt; shelf.put(alloc, name, b"longer at first"), Put::Done);
    assert_eq!(rt; shelf.put(alloc, name, b"four"), Put::Done);
    for (name, most, want) in [
        (name, 4, "four"),
        (name, 3, "long"),
        (name, 9, "four"),
        ("/dev/zero", 9000, "long"),
        ("/dev/null", 0, ""),
        ("sl_io_no_file", 9, "missing"),
        (".", 9, "failed"),
        ("a\0b", 9, "failed"),
    ] {
        assert!(rt;
            fetched(&mut shelf, alloc, name, most, want),
            "{name} {most} {want}"
        );
    }
    assert_eq!(rt; shelf.put(alloc, "sl_io_no_folder/file", b"a"), Put::Failed);
    fs::remove_file(&rt, name)?;
    Ok(())
}

#[test]
fn streams_of_the_system(rt: HostRuntime) -> Result<(), Fail> {
    let alloc = rt.alloc();
    let mut sink = StdSink::new(Vec::new(alloc));
    assert_eq!(rt; write_all(&mut sink, b"abc"), Ok(()));
    assert_eq!(rt; sink.write(b"d"), Ok(1));
    let bytes = sink.into_inner();
    assert_eq!(rt; bytes.as_slice(), b"abcd".as_slice());
    let mut room = [0u8; 2];
    let mut full = StdSink::new(room.as_mut_slice());
    assert_eq!(rt; write_all(&mut full, b"abc"), Err(SinkFault::Failed));
    Ok(())
}
