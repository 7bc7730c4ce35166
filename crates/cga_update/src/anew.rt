//! What a change of the mode begins with: what is kept of the new sources without their lots.
ghost use Rattle.std.specs.Prelude.{◌≡◌, IfOk};
ghost use Rattle.cga_update.specs.Anew.{IsAnew};
ghost use Rattle.cga_update.specs.Stands.{Stands};
ghost use Rattle.cga_update.specs.Updates.{with_no_lots};

use crate::kept::Kept;
use cga_depend::Dependents;
use cga_forest::Forest;
use cga_fraction::{List, NoMemory};
use cga_shape::{Changes, Lots, Sources};
use std::alloc::Global;

/// Sources without their lots, what is kept of them, and a record of what comes.
#[derive(Drop)]
pub struct Anew {
    pub(crate) nothing: Sources,
    pub(crate) kept: Kept,
    pub(crate) made: Changes,
}

impl Anew {
    /// What stands for these sources without their lots. Takes memory.
    pub fn of(alloc: Global, sources: &Sources) -> Result<Anew, NoMemory>
        ensures { IfOk result (IsAnew sources.now) }
    {
        let nothing = without_lots(alloc, sources)?;
        let kept = kept_of_nothing(alloc, sources);
        Ok(Anew {
            nothing,
            kept,
            made: Changes {
                gone: List::new(alloc),
                come: List::new(alloc),
            },
        })
    }
}

/// What is kept of sources without their lots. Takes no memory.
fn kept_of_nothing(alloc: Global, sources: &Sources) -> Kept
    ensures { Stands (with_no_lots sources.now) result }
{
    let dependents = Dependents::new(alloc);
    Kept {
        forest: Forest::new(alloc, sources.mode),
        dependents,
    }
}

/// The sources without their lots. Takes memory.
pub fn without_lots(alloc: Global, sources: &Sources) -> Result<Sources, NoMemory>
    ensures { IfOk result (λ nothing. nothing ≡ with_no_lots sources.now) }
{
    let grammar = sources.grammar.copy(alloc)?;
    Ok(Sources {
        grammar,
        lots: Lots::new(),
        mode: sources.mode,
    })
}
