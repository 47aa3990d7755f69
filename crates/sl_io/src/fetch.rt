use sqlite_items::Items;

/// The answer of a shelf that was asked for a file.
#[derive(Debug, Drop)]
pub enum Fetch {
    /// The bytes of the file.
    Bytes(Items<u8>),
    /// There is no file of this name.
    Missing,
    /// The file has more bytes than were wanted.
    Long,
    /// The outside failed.
    Failed,
    /// Memory ran out.
    Memory,
}
