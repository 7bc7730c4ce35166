ghost use Rattle.std.specs.Prelude.{◌≡◌, ◌+◌, ◌≤◌, IfOk};
ghost use Rattle.cga_agenda.specs.Edit.{Edit};
ghost use Rattle.cga_agenda.specs.Loop.{LoopState, TellsEach, Counts, children_told, calls_told};

use crate::turned::Turned;
use cga_fraction::{NoMemory, Steps, Tests};
use std::sync::ledger::Ledger;

/// What does the turns of an agenda. It keeps the nodes of a derivation, of which some are on the
/// agenda, and the record of removed and created nodes.
pub trait Worker {
    /// What a tick of the counter of expansions wants to be shown.
    type Key;

    // of what shapes, answers, settings, faults and solids the derivations are
    ghost Shape: { Type 0 };

    ghost Answers: { Type 0 };

    ghost Setting: { Type 0 };

    ghost Fault: { Type 0 };

    ghost Solid: { Type 0 };

    // for what edit it works, and where its work stands
    ghost means: { Self → Edit Shape Answers Setting Fault Solid → LoopState Shape Answers Fault Solid → Type 0 };

    // what of it the second leaves as it was in the first
    ghost keeps: { Self → Self → Type 0 };

    /// One turn of the least stamp on the agenda, and none where nothing is on the agenda. Each call of
    /// expand ticks `expansions`.
    fn turn<E: Ledger, T: Ledger>(
        &mut self,
        expansions: &mut Steps<E, Self::Key>,
        tests: &mut Tests<T>,
    ) -> Result<Option<Turned>, NoMemory>
        ensures turned { IfOk result (λ turned.
            TellsEach (means self.old) (means self.new) expansions.old expansions.new (children_told turned)) }
        ensures called { IfOk result (λ turned. expansions.new ≡ expansions.old + calls_told turned) }
        ensures kept { keeps self.old self.new }
        ensures counted { expansions.old ≤ expansions.new }
        ensures once { expansions.new ≤ expansions.old + 1 };

    /// The number of nodes.
    fn count(&self) -> usize
        ensures { Counts (means self.now) result };

    ghost keeps_itself: { (w : Self) → keeps w w };

    ghost keeps_on: { (u v w : Self) → keeps u v → keeps v w → keeps u w };
}
