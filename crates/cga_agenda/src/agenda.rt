ghost use Rattle.std.specs.Prelude.{◌+◌, ◌≤◌, IfOk};
ghost use Rattle.cga_agenda.specs.Loop.{Ends, HasCalled};

use crate::ended::Ended;
use crate::worker::Worker;
use cga_fraction::{NoMemory, Steps, Tests};
use std::sync::ledger::Ledger;

/// Works the agenda until nothing is on it, or more members of the new derivation are known than the
/// budget allows; `roots` is the number of its roots. It takes at most `budget + 1` turns, and
/// `expansions` is ticked by the calls of expand. Turns are counted beside the known members, since
/// the turn of a shape that was kept makes none known. After want of memory nothing is said of the
/// state but what each turn keeps.
pub fn work<W: Worker, E: Ledger, T: Ledger>(
    worker: &mut W,
    roots: u32,
    budget: u32,
    expansions: &mut Steps<E, W::Key>,
    tests: &mut Tests<T>,
) -> Result<Ended, NoMemory>
    ensures ended { IfOk result (λ ended.
        Ends (W.means worker.old) (W.means worker.new) roots budget expansions.old expansions.new ended) }
    ensures called { IfOk result (λ ended. HasCalled expansions.old expansions.new ended) }
    ensures kept { W.keeps worker.old worker.new }
    ensures counted { expansions.old ≤ expansions.new }
    ensures most { expansions.new ≤ expansions.old + (budget + 1) }
{
    let mut known = u64::from(roots);
    let mut turns: u32 = 0;
    let mut calls: u32 = 0;
    if known > u64::from(budget) {
        return Ok(Ended::OverBudget);
    }
    while let Some(turned) = worker.turn(expansions, tests)? {
        known += u64::from(turned.children);
        if known > u64::from(budget) || turns == budget {
            return Ok(Ended::OverBudget);
        }
        turns += 1;
        calls += turned.calls();
    }
    if worker.count() > budget as usize {
        return Ok(Ended::OverBudget);
    }
    Ok(Ended::Within(calls))
}
