ghost use Rattle.std.specs.Prelude.{◌≡◌, ◌+◌, ◌<◌, ◌≤◌, length, IfOk};
ghost use Rattle.cga_derivation.specs.Derivation.{expanded};
ghost use Rattle.cga_derivation.specs.Stamps.{RisesIn, StandsInOrder};
ghost use Rattle.cga_expand.specs.Derivation.{derivation_of, roots_of, NamesDiffer};
ghost use Rattle.cga_expand.specs.Validity.{RootsExist};
ghost use Rattle.cga_derive.specs.Derives.{IsDerived, expanded_count};

use crate::over_budget::OverBudget;
use crate::run::Run;
use cga_expand::Expansions;
use cga_fraction::{List, NoMemory, Tests};
use cga_shape::{Placed, Sources};
use std::alloc::Global;
use std::sync::ledger::Ledger;

/// The derivation of sources from nothing: the roots in lot order, and then all others in order of
/// emission. `OverBudget` comes if and only if there are more shapes than the budget.
///
/// Each expansion ticks `expansions`. `tests` counts boxes that a walk of hulls reads, and there is
/// none here. Takes memory for the list and for the shapes that wait. The time goes by the number of
/// shapes, and for each that asks by the streaks that touch its box.
pub fn derive<E: Ledger, T: Ledger>(
    alloc: Global,
    sources: &Sources,
    budget: u32,
    expansions: &mut Expansions<E>,
    tests: &mut Tests<T>,
) -> Result<Result<List<Placed>, OverBudget>, NoMemory>
    requires names { NamesDiffer sources.now.lots }
    requires roots { RootsExist sources.now.lots }
    ensures value { IfOk result (λ answer. IsDerived sources.now budget answer) }
    // After the roots, members stand by their parents' stamps, and then by their indices.
    ensures order { IfOk result (λ answer. IfOk answer (λ list.
        StandsInOrder (derivation_of sources.now) list)) }
    // Shapes were expanded by strictly rising stamps.
    ensures rises { IfOk result (λ answer. IfOk answer (λ list.
        RisesIn (derivation_of sources.now) list (expanded (derivation_of sources.now) budget))) }
    ensures expansions { IfOk result (λ answer. IfOk answer (λ list.
        expansions.new ≡ expansions.old + expanded_count list)) }
    ensures counted { expansions.old ≤ expansions.new }
    ensures most { expansions.new ≤ expansions.old + budget }
    // Where the roots alone are over the budget, nothing is expanded.
    ensures unspent { budget < length (roots_of sources.now.lots) → expansions.new ≡ expansions.old }
    ensures tests { tests.new ≡ tests.old }
{
    let mut run = Run::start(alloc, sources)?;
    let most = budget as usize;
    if run.list.len() > most {
        return Ok(Err(OverBudget));
    }
    'turns: for done in 0..budget {
        if run.next(alloc, sources, expansions)?.is_none() {
            return Ok(Ok(run.into_list()));
        }
        if run.list.len() > most {
            return Ok(Err(OverBudget));
        }
    }
    Ok(Ok(run.into_list()))
}
