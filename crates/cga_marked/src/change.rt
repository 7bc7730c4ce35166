ghost use Rattle.std.specs.Prelude.{◌≡◌, Bool, true};
ghost use Rattle.cga_marked.specs.Marked.{KeepsBooks};

use crate::marked::Marked;

/// A change of an entry, which keeps for the mark what the entry was.
pub trait Change<E: Marked>: Drop {
    // what it makes of an entry, where a mark stands or not
    ghost changes: { Bool → Self → E → E → Type 0 };

    fn apply(self, marking: bool, entry: &mut E)
        requires touched { marking ≡ true → E.touched entry.old ≡ true }
        ensures changed { changes marking self entry.old entry.new }
        ensures books { KeepsBooks E.touched E.aside E.plain entry.old entry.new };
}
