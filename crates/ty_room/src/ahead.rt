//! Which lowerings are still to come.

ghost use Rattle.std.specs.Prelude.{◌≡◌};
ghost use Rattle.ty_room.specs.Ahead.{ahead_of};

/// Which of the lowerings that make more of a form than code generation does are still to come.
#[derive(Clone, Copy)]
pub struct Ahead {
    /// That of reads of objects: a constructor of an object will store its reference.
    pub objects: bool,
    /// That of traits: their fields become calls, and their `this` a local.
    pub traits: bool,
    /// That of matching: a handler with cases throws on what none of them matches.
    pub matches: bool,
}

/// What is still to come when the first `k` lowerings are done.
pub fn ahead_of(k: u32) -> Ahead
    ensures { result ≡ ahead_of k }
{
    Ahead {
        objects: k < 1,
        traits: k < 2,
        matches: k < 3,
    }
}
