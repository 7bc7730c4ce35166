//! Nodes are put on the agenda, whatever their stamps.
ghost use Rattle.std.specs.Prelude.{◌≡◌, ◌⊎◌, ◌++◌, ℕ, List, true, IfOk, OnOk};
ghost use Rattle.cga_order.specs.World.{Among};
ghost use Rattle.cga_update.specs.Askers.{IsAsker, IsOneOf};
ghost use Rattle.cga_update.specs.Near.{IsAny, IsChangedFor, IsParent, IsParentOf, IsPricedFor, KeepsPriorities, KeepsPriority};
ghost use Rattle.cga_depend.specs.Pairs.{nodes_in};
ghost use Rattle.cga_queue.specs.Agenda.{Grows, HasAll, OneEach};
ghost use Rattle.cga_update.specs.Queue.{chains_of};

use crate::askers::askers_near;
use crate::worked::Worked;
use cga_depend::{Dependents, Grammars};
use cga_forest::{Forest, NodeChange};
use cga_fraction::{List, NoMemory, Tests};
use cga_index::NodeId;
use cga_queue::{Agenda, add, add_all};
use cga_word::Name;
use std::sync::ledger::Ledger;

/// Puts these nodes on it, where they are there and are no instances. Takes memory.
pub fn add_moved(agenda: &mut Agenda, forest: &Forest, moved: &[NodeChange]) -> Result<(), NoMemory>
    requires one { OneEach (chains_of forest.now) }
    ensures grows { OnOk result (Grows (chains_of forest.now) (IsOneOf moved.now) agenda.old agenda.new) }
    ensures there { OnOk result (HasAll (chains_of forest.now) (IsOneOf moved.now) agenda.new) }
{
    for node in moved {
        add(agenda, &Worked { forest }, node.id)?;
    }
    Ok(())
}

/// Puts the nodes of the mark on it that ask and meet what went or came. Takes memory.
pub fn queue_near<T: Ledger>(
    agenda: &mut Agenda,
    forest: &Forest,
    removed: &[NodeChange],
    created: &[NodeChange],
    tests: &mut Tests<T>,
) -> Result<(), NoMemory>
    requires one { OneEach (chains_of forest.now) }
    ensures grows { OnOk result (Grows (chains_of forest.now) (IsAsker forest.now (removed.now ++ created.now)) agenda.old agenda.new) }
    ensures there { OnOk result (HasAll (chains_of forest.now) (IsAsker forest.now (removed.now ++ created.now)) agenda.new) }
{
    let askers = askers_near(agenda.alloc(), forest, removed, created, tests, &mut 0)?;
    add_all(agenda, &Worked { forest }, askers.as_slice())
}

/// Adds the parent of a node to a list, where there is one. Takes memory.
fn note_parent(parents: &mut List<NodeId>, forest: &Forest, id: NodeId) -> Result<(), NoMemory>
    ensures kept { OnOk result ((p : ℕ) → Among p parents.old → Among p parents.new) }
    ensures there { OnOk result ((p : ℕ) → IsParent forest.now id p → Among p parents.new) }
    ensures only { OnOk result ((p : ℕ) → Among p parents.new → Among p parents.old ⊎ IsParent forest.now id p) }
{
    if forest.node(id).is_none() {
        return Ok(());
    }
    match forest.parent(id) {
        Some(parent) => parents.push(parent),
        None => Ok(()),
    }
}

/// Puts the parents of nodes on it, where there are any. Takes memory.
pub fn queue_parents(agenda: &mut Agenda, forest: &Forest, ids: &[NodeId]) -> Result<(), NoMemory>
    requires one { OneEach (chains_of forest.now) }
    ensures grows { OnOk result (Grows (chains_of forest.now) (IsParentOf forest.now ids.now) agenda.old agenda.new) }
    ensures there { OnOk result (HasAll (chains_of forest.now) (IsParentOf forest.now ids.now) agenda.new) }
{
    let mut parents = List::new(agenda.alloc());
    for id in ids {
        note_parent(&mut parents, forest, *id)?;
    }
    add_all(agenda, &Worked { forest }, parents.as_slice())
}

/// Puts the nodes of a symbol on it, and their parents where the symbol has another priority. Answers whether each of
/// them has its symbol's priority. Takes memory.
fn queue_symbol(
    agenda: &mut Agenda,
    forest: &Forest,
    grammars: &mut Grammars,
    nodes: &[NodeId],
    symbol: Name,
) -> Result<bool, NoMemory>
    requires one { OneEach (chains_of forest.now) }
    ensures grammars { grammars.new ≡ grammars.old }
    ensures grows { OnOk result (Grows (chains_of forest.now) IsAny agenda.old agenda.new) }
    ensures there { OnOk result (HasAll (chains_of forest.now) (λ c. Among c nodes.now) agenda.new) }
    ensures parents { OnOk result (IsPricedFor forest.now grammars.old.before grammars.old.after nodes.now symbol agenda.new) }
    ensures priced { IfOk result (λ kept. kept ≡ true → KeepsPriority grammars.old.before grammars.old.after nodes.now symbol) }
{
    let facts = grammars.of(symbol)?;
    if facts.same_priority {
        add_all(agenda, &Worked { forest }, nodes)?;
        return Ok(true);
    }
    // Parents come first, since they stand before their children.
    queue_parents(agenda, forest, nodes)?;
    add_all(agenda, &Worked { forest }, nodes)?;
    Ok(nodes.is_empty())
}

/// Puts the nodes of each symbol whose setting changed on it, and their parents where the symbol has another priority.
/// Answers whether each node has its symbol's priority. Takes memory.
pub fn queue_changed(
    agenda: &mut Agenda,
    forest: &Forest,
    grammars: &mut Grammars,
    dependents: &Dependents,
) -> Result<bool, NoMemory>
    requires one { OneEach (chains_of forest.now) }
    ensures grammars { grammars.new ≡ grammars.old }
    ensures grows { OnOk result (Grows (chains_of forest.now) IsAny agenda.old agenda.new) }
    ensures there { OnOk result ((symbol : List ℕ) → IsChangedFor forest.now grammars.old.before grammars.old.after (nodes_in dependents.now symbol) symbol agenda.new) }
    ensures parents { OnOk result ((symbol : List ℕ) → IsPricedFor forest.now grammars.old.before grammars.old.after (nodes_in dependents.now symbol) symbol agenda.new) }
    ensures priced { IfOk result (λ kept. kept ≡ true → KeepsPriorities grammars.old.before grammars.old.after dependents.now) }
{
    let changed = grammars.changed(agenda.alloc())?;
    let mut priced = true;
    for symbol in changed.as_slice() {
        let nodes = dependents.nodes_of(*symbol);
        let kept = queue_symbol(agenda, forest, grammars, nodes, *symbol)?;
        priced = priced && kept;
    }
    Ok(priced)
}
