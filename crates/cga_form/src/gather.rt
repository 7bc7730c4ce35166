ghost use Rattle.std.specs.Prelude.{◌≡◌, ◌++◌, ◌∷◌, [], List, Option, IfOk, OnOk};

use crate::form::Form;
use cga_fraction::NoMemory;
use std::alloc::Global;

/// What is gathered of the lines of a block, each a member of a form.
pub trait Gather: Form {
    type All;

    /// It was given these lines, of which some may be blank.
    ghost holds: { Self → List (Option Self.Member) → Type 0 };

    /// What such lines say together.
    ghost says: { List (Option Self.Member) → Self.All };

    /// What no lines say. Takes no memory.
    fn empty(alloc: Global) -> Self
        ensures { holds result [] };

    /// One more line. After NoMemory it holds nothing that is told of.
    fn add(&mut self, said: Option<Self::Member>) -> Result<(), NoMemory>
        ensures { (all : List (Option Self.Member)) → holds self.old all → OnOk result (holds self.new (all ++ said ∷ [])) };

    /// May take memory, once.
    fn finish(self, alloc: Global) -> Result<Self::All, NoMemory>
        ensures { (all : List (Option Self.Member)) → holds self all → IfOk result (λ said. said ≡ says all) };
}
