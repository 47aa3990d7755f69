/// The answer of a shelf that was given a file.
#[derive(Clone, Copy, Debug, PartialEq, Eq)]
pub enum Put {
    /// The file has the bytes.
    Done,
    /// The outside failed; the file may have lost its bytes or have some of the new ones.
    Failed,
    /// Memory ran out; no file changed.
    Memory,
}
