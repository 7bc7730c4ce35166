ghost use Rattle.std.specs.Prelude.{◌≡◌, [], IfOk};
ghost use Rattle.cga_top.specs.Changed.{no_changes};
ghost use Rattle.cga_top.specs.Turns.{Talk};

use cga_fraction::{List, NoMemory};
use cga_shape::Changes;
use std::alloc::Global;

/// What a run writes behind the reply to each line: a text of what the line changed.
pub trait Talker {
    ghost told: { Talk };

    /// The text. Takes memory.
    fn text(alloc: Global, changes: &Changes) -> Result<List<u8>, NoMemory>
        ensures { IfOk result (λ text. text ≡ told changes.now) };

    /// Does nothing: it says that nothing is told where nothing changed.
    fn tells_changes()
        ensures { told no_changes ≡ [] };
}

/// Tells nothing: a run writes the replies alone.
pub struct Silent;

impl Talker for Silent {
    ghost told = { λ changes. [] };

    fn text(alloc: Global, _changes: &Changes) -> Result<List<u8>, NoMemory> {
        Ok(List::new(alloc))
    }

    fn tells_changes() {}
}
