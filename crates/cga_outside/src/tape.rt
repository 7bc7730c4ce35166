ghost use Rattle.std.specs.Prelude.{◌≡◌, ℕ, List, [], ◌++◌};
ghost use Rattle.std.specs.Borrow.{ftrue};

use std::marker::Model;

/// Bytes that went by, which only clauses read. It takes no memory, and its calls do nothing when the program runs.
/// Nothing ties it to memory: it says what its owner's clauses tie it to.
#[derive(Drop)]
pub struct Tape {
    pub ghost bytes: { List ℕ },
}

impl Model for Tape {
    ghost also_owns = { λ _. ftrue };
}

impl Tape {
    /// No bytes yet.
    pub fn new() -> Tape
        ensures { result.bytes ≡ [] }
    {
        Tape {}
    }

    /// What was there before, and then the piece.
    pub fn with(_before: &Tape, _piece: &[u8]) -> Tape
        ensures { result.bytes ≡ _before.now.bytes ++ _piece.now }
    {
        Tape {}
    }
}
