ghost use Rattle.std.specs.Prelude.{◌≡◌, Bool, not, Option, Some, None, if◌then◌else◌};
ghost use Rattle.cga_marked.specs.Marked.{AreMarks};
ghost use Rattle.cga_marked.specs.declared.sort.Sort.{Sort};

use crate::sort::Sort;

/// An entry, which keeps for a mark what it was.
pub trait Marked: Drop {
    // it stands on the slab's list
    ghost touched: { Self → Bool };

    ghost aside: { Self → Bool };

    ghost counts: { Self → Sort };

    // it keeps nothing for a mark, and isn't set aside
    ghost plain: { Self → Type 0 };

    ghost touching: { Self → Self };

    ghost hiding: { Self → Self };

    // what is left of it once the mark is dropped, and once all is as it was at the mark
    ghost settled: { Self → Option Self };

    ghost rolled: { Self → Option Self };

    /// In which number it counts.
    fn counts_as(&self) -> Sort
        ensures { result ≡ counts self.now };

    /// True where it wasn't touched.
    fn touch(&mut self) -> bool
        ensures now { self.new ≡ touching self.old }
        ensures fresh { result ≡ not (touched self.old) };

    /// True where it wasn't set aside.
    fn set_aside(&mut self) -> bool
        ensures now { self.new ≡ hiding self.old }
        ensures fresh { result ≡ not (aside self.old) };

    /// Drops what it keeps for the mark. False where it goes.
    fn settle(&mut self) -> bool
        ensures { if result then Some self.new else None ≡ settled self.old };

    /// Puts back what it keeps for the mark. False where it goes.
    fn roll_back(&mut self) -> bool
        ensures { if result then Some self.new else None ≡ rolled self.old };

    ghost marks: { AreMarks touched aside plain touching hiding settled rolled };
}
