//! The last node of the mark that asks, looked for once where many nodes are on the agenda.
ghost use Rattle.std.specs.Prelude.{◌≡◌, ℕ, List, Some, true, IfOk, slice_get};
ghost use Rattle.cga_order.specs.Chain.{Chain as Along};
ghost use Rattle.cga_order.specs.World.{Among};
ghost use Rattle.cga_depend.specs.Asking.{asks_in};
ghost use Rattle.cga_queue.specs.Last.{IsUpTo, chain_at};
ghost use Rattle.cga_update.specs.Last.{IsTold};
ghost use Rattle.cga_update.specs.Queue.{chains_of};

use crate::worked::Worked;
use cga_check::Symbols;
use cga_depend::{Dependents, asking_nodes};
use cga_forest::Forest;
use cga_fraction::NoMemory;
use cga_index::NodeId;
use cga_queue::{Agenda, Last, last_among, last_at};
use cga_rule::Grammar;
use cga_word::Mode;
use std::alloc::Global;

/// So many entries of an agenda are few.
const FEW: usize = 64;

/// And so are they where there are more than so many nodes for each.
const SHARE: usize = 128;

/// Whether so many nodes are on the agenda that it pays to look once at all that ask.
fn is_many(agenda: &Agenda, forest: &Forest) -> bool {
    agenda.len() > FEW + forest.count() / SHARE
}

/// The last node of the symbols whose rules ask in one of two grammars. Takes memory.
fn last_of_all(
    mode: Mode,
    nodes: &Worked,
    dependents: &Dependents,
    before: &mut Symbols,
    after: &mut Symbols,
) -> Result<Option<NodeId>, NoMemory>
    ensures all { IfOk result (λ last. (i : ℕ) (e : List ℕ × List ℕ) → slice_get dependents.now.nodes i ≡ Some e → asks_in before.old after.old e.0 ≡ true
        → (c : ℕ) (x : Along) → Among c e.1 → chains_of nodes.now.forest.now c ≡ Some x → IsUpTo mode (chain_at (chains_of nodes.now.forest.now) last) x) }
    ensures after { after.new ≡ after.old }
{
    let mut last = None;
    for place in 0..dependents.symbols() {
        let ids = asking_nodes(dependents, place, before, after)?;
        last = last_among(mode, nodes, last, ids);
    }
    Ok(last)
}

/// The last node that asks by the old grammar or by the new one, of those in the dependents. It isn't looked for where
/// few nodes are on the agenda. Takes memory.
pub fn last_asker(
    alloc: Global,
    agenda: &Agenda,
    forest: &Forest,
    dependents: &Dependents,
    old: &Grammar,
    symbols: &mut Symbols,
) -> Result<Last, NoMemory>
    ensures told { IfOk result (λ last. IsTold agenda.now.mode forest.now dependents.now old.now symbols.old last) }
    ensures symbols { symbols.new ≡ symbols.old }
{
    if !is_many(agenda, forest) {
        return Ok(Last::Unknown);
    }
    let mode = agenda.mode();
    let mut before = Symbols::new(alloc, old);
    let nodes = Worked { forest };
    let last = last_of_all(mode, &nodes, dependents, &mut before, symbols)?;
    last_at(alloc, mode, &nodes, last)
}
