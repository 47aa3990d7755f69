use sl_base::Name;
use sl_io::{Fetch, MemShelf, MemSink, Put, Shelf, Sink, SinkFault};
use std::alloc::{AllocError, Global};

/// The most bytes that a sink takes at a call, from 1; the call that fails and the call from which on no memory is found,
/// where they aren't 0.
pub type Stream = [u32; 3];

/// A sink in memory that finds no memory from a call on, if its number isn't 0.
#[derive(Drop)]
pub struct WantingSink {
    pub inner: MemSink,
    wants: u32,
}

impl Sink for WantingSink {
    ghost use Rattle.std.specs.Prelude.{Some};

    ghost contents = { λ s. Some s.inner.bytes };

    ghost faults = { λ s. s.inner.plan.faults };

    fn write(&mut self, piece: &[u8]) -> Result<usize, SinkFault> {
        if self.wants > 0 && self.inner.calls() >= self.wants - 1 {
            return Err(SinkFault::Memory);
        }
        self.inner.write(piece)
    }
}

/// A sink that takes bytes so.
pub fn sink(alloc: Global, stream: Stream) -> Result<WantingSink, AllocError> {
    let [most, fails, wants] = stream;
    let failing = Vec::from_slice(alloc, &[fails])?;
    let inner = MemSink::new(alloc, most.max(1), failing);
    Ok(WantingSink { inner, wants })
}

/// The words, as names.
pub fn words_of(alloc: Global, words: &[&str]) -> Result<Vec<Name>, AllocError> {
    let mut names = Vec::new(alloc);
    for word in words {
        names.push(Name::from_text(alloc, word)?)?;
    }
    Ok(names)
}

/// The file `m.scala` whose `main` has this body.
pub fn file_of(alloc: Global, body: &[u8]) -> Result<Vec<u8>, AllocError> {
    let mut file = Vec::from_slice(alloc, b"object Main {\ndef main(): Unit = {\n")?;
    file.extend_from_slice(body)?;
    file.extend_from_slice(b"}\n}\n")?;
    Ok(file)
}

/// A shelf that has `m.scala` alone, with this body; the call that fails and the one from which on no memory is found,
/// where they aren't 0.
pub fn one_file(alloc: Global, body: &[u8], at: [u32; 2]) -> Result<Silent, AllocError> {
    let mut files = Vec::new(alloc);
    files.push((Name::from_text(alloc, "m.scala")?, file_of(alloc, body)?))?;
    let [fails, wants] = at;
    Ok(Silent {
        inner: MemShelf::new(files, Vec::from_slice(alloc, &[fails])?),
        wants,
        faults: 0,
    })
}

/// A sink that takes nothing, and counts a fault at each call.
#[derive(Drop)]
pub struct Stuck {
    pub faults: u64,
}

impl Sink for Stuck {
    ghost use Rattle.std.specs.Prelude.{None};

    ghost contents = { λ _. None };

    ghost faults = { λ s. s.faults };

    fn write(&mut self, _piece: &[u8]) -> Result<usize, SinkFault> {
        self.faults = self.faults.saturating_add(1);
        Ok(0)
    }
}

/// A shelf that has what another has, tells nothing of it, and finds no memory from a call on, if its number isn't 0.
#[derive(Drop)]
pub struct Silent {
    inner: MemShelf,
    wants: u32,
    faults: u64,
}

impl Shelf for Silent {
    ghost use Rattle.std.specs.Prelude.{None, false};

    ghost tells = { λ _. false };

    ghost file = { λ _ _. None };

    ghost faults = { λ s _. s.faults };

    fn fetch(&mut self, alloc: Global, name: &str, most: u32) -> Fetch {
        if self.wants > 0 && self.inner.calls() >= self.wants - 1 {
            return Fetch::Memory;
        }
        let fetched = self.inner.fetch(alloc, name, most);
        if matches!(fetched, Fetch::Failed) {
            self.faults = self.faults.saturating_add(1);
        }
        fetched
    }

    fn put(&mut self, alloc: Global, name: &str, bytes: &[u8]) -> Put {
        let put = self.inner.put(alloc, name, bytes);
        if matches!(put, Put::Failed) {
            self.faults = self.faults.saturating_add(1);
        }
        put
    }
}
